//! Moves, as they are written in a derivation, and why one is not made.

ghost use Rattle.std.specs.Prelude.{◌≡◌};
ghost use Rattle.derivation.specs.declared.moves.MoveFault.TheVariants.{NoMemory};

use free_words::{Letter, Word};
use std::alloc::{AllocError, AllocFailed};

/// The word that a move puts in or takes out.
#[derive(Drop)]
pub enum Insert {
    /// A letter and its inverse.
    Pair(Letter),
    /// A relator, numbered from 1, or its inverse.
    Rel { relator: u32, inverse: bool },
    /// `[[a, b], [c, d]]` of the four words.
    Dbl(Word, Word, Word, Word),
    /// `[a, b]^m` of the two words, with the modulus m of the presentation.
    Pow(Word, Word),
}

/// One move: `what` is put in before the position `at`, or taken out from there on.
#[derive(Drop)]
pub struct Move {
    /// A number of letters that stand before the place.
    pub at: u32,
    /// Whether the word is taken out.
    pub del: bool,
    pub what: Insert,
}

/// Why a move can't be made, in the order in which the reasons are tried.
#[derive(Clone, Copy, Debug, PartialEq, Eq)]
pub enum MoveReason {
    /// The position is past the end of the word.
    Place,
    /// The presentation has no relator of that number.
    NoRelator,
    /// The presentation has no modulus.
    NoModulus,
    /// What is to be taken out doesn't stand there.
    NotThere,
    /// The word would have more than `COMPOSED` letters.
    TooLong,
}

/// Why one move was not made.
#[derive(Clone, Copy, Debug, PartialEq, Eq)]
pub enum MoveFault {
    Refused(MoveReason),
    NoMemory,
}

impl From<AllocError> for MoveFault {
    ghost from_gives = { λ _ e. e ≡ NoMemory };

    fn from(_: AllocError) -> MoveFault {
        MoveFault::NoMemory
    }
}

impl<T: Drop> From<AllocFailed<T>> for MoveFault {
    ghost from_gives = { λ _ e. e ≡ NoMemory };

    fn from(_: AllocFailed<T>) -> MoveFault {
        MoveFault::NoMemory
    }
}

/// Why a list of moves doesn't carry a word to the empty word.
#[derive(Clone, Copy, Debug, PartialEq, Eq)]
pub enum StepsFault {
    /// The first move that can't be made, numbered from 1; a number past 2^32 - 1 is given as that.
    BadMove { number: u32, reason: MoveReason },
    /// All moves were made, and so many letters are left.
    NotEmpty { left: u32 },
    NoMemory,
}

impl From<AllocError> for StepsFault {
    ghost use Rattle.derivation.specs.declared.moves.StepsFault.TheVariants as faults;

    ghost from_gives = { λ _ e. e ≡ faults.NoMemory };

    fn from(_: AllocError) -> StepsFault {
        StepsFault::NoMemory
    }
}

impl<T: Drop> From<AllocFailed<T>> for StepsFault {
    ghost use Rattle.derivation.specs.declared.moves.StepsFault.TheVariants as faults;

    ghost from_gives = { λ _ e. e ≡ faults.NoMemory };

    fn from(_: AllocFailed<T>) -> StepsFault {
        StepsFault::NoMemory
    }
}
