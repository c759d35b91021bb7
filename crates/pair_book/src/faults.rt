//! What the calls on a book answer.

ghost use Rattle.std.specs.Prelude.{◌≡◌};
ghost use Rattle.pair_book.specs.declared.faults.SealFault.TheVariants as of_seal;

use outcomes::{Measure, Task};
use std::alloc::{AllocError, AllocFailed};

/// What a commit did.
#[derive(Clone, Copy, PartialEq, Eq)]
pub enum Committed {
    /// The task is closed, and no entry was appended.
    Closed,
    /// The entry with this number was appended; `closed` says whether the task is closed now.
    Appended { entry: u32, closed: bool },
}

/// Why an outcome was not committed.
#[derive(Clone, Copy, PartialEq, Eq)]
pub enum CommitFault {
    /// The task isn't taken in this book, or the book is sealed.
    NotTaken,
    /// The commits have reached the budget.
    Spent { commits: u32 },
    /// An entry that was used isn't the log's, the rest is of another presentation (`entry` is then the length of the
    /// log), or the lead term of this entry of the log divides that of the rest.
    Stranger { entry: u32 },
    /// There is a rest, and the log has grown from `front` to `now` entries since the task was worked.
    Stale { front: u32, now: u32 },
    /// With the rest this measure would pass its limit, and reach this count.
    Full { measure: Measure, count: u32 },
}

/// Why a book was not sealed.
#[derive(Clone, Copy, PartialEq, Eq)]
pub enum SealFault {
    /// The least task that isn't closed.
    StillOpen { task: Task },
    NoMemory,
}

impl From<AllocError> for SealFault {
    ghost from_gives = { λ _ e. e ≡ of_seal.NoMemory };

    fn from(_: AllocError) -> SealFault {
        SealFault::NoMemory
    }
}

impl<T: Drop> From<AllocFailed<T>> for SealFault {
    ghost from_gives = { λ _ e. e ≡ of_seal.NoMemory };

    fn from(_: AllocFailed<T>) -> SealFault {
        SealFault::NoMemory
    }
}
