//! Why a text gives no value.

ghost use Rattle.std.specs.Prelude.{◌≡◌};
ghost use Rattle.vector_text.specs.declared.fault.SpellFault.TheVariants.{NoMemory};

use std::alloc::{AllocError, AllocFailed};

/// Why a text gives no value.
#[derive(Clone, Copy, Debug, PartialEq, Eq)]
pub enum SpellFault {
    /// The text is no value's.
    Spelling,
    NoMemory,
}

impl From<AllocError> for SpellFault {
    ghost from_gives = { λ _ e. e ≡ NoMemory };

    fn from(_: AllocError) -> SpellFault {
        SpellFault::NoMemory
    }
}

impl<T: Drop> From<AllocFailed<T>> for SpellFault {
    ghost from_gives = { λ _ e. e ≡ NoMemory };

    fn from(_: AllocFailed<T>) -> SpellFault {
        SpellFault::NoMemory
    }
}
