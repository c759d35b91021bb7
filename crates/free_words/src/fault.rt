//! Why a word was not made.

ghost use Rattle.std.specs.Prelude.{◌≡◌};
ghost use Rattle.free_words.specs.declared.fault.WordFault.TheVariants.{NoMemory};

use std::alloc::{AllocError, AllocFailed};

/// Why a word was not made.
#[derive(Clone, Copy, Debug, PartialEq, Eq)]
pub enum WordFault {
    /// The result would have that many letters, which is more than the limit.
    TooLong { letters: u64 },
    /// Memory ran out.
    NoMemory,
}

impl From<AllocError> for WordFault {
    ghost from_gives = { λ _ e. e ≡ NoMemory };

    fn from(_: AllocError) -> WordFault {
        WordFault::NoMemory
    }
}

impl<T: Drop> From<AllocFailed<T>> for WordFault {
    ghost from_gives = { λ _ e. e ≡ NoMemory };

    fn from(_: AllocFailed<T>) -> WordFault {
        WordFault::NoMemory
    }
}
