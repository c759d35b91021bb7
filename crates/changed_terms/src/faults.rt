//! Why a multiple can't be taken from terms.

ghost use Rattle.std.specs.Prelude.{◌≡◌};
ghost use Rattle.changed_terms.specs.declared.faults.TakeFault.TheVariants.{NoMemory};

use module_vec::Place;
use std::alloc::{AllocError, AllocFailed};

/// Why a multiple can't be taken from terms.
#[derive(Clone, Copy, PartialEq, Eq)]
pub enum TakeFault {
    /// A product or a difference leaves the range of coefficients, at this place and at none above it.
    Wide(Place),
    NoMemory,
}

impl From<AllocError> for TakeFault {
    ghost from_gives = { λ _ e. e ≡ NoMemory };

    fn from(_: AllocError) -> TakeFault {
        TakeFault::NoMemory
    }
}

impl<T: Drop> From<AllocFailed<T>> for TakeFault {
    ghost from_gives = { λ _ e. e ≡ NoMemory };

    fn from(_: AllocFailed<T>) -> TakeFault {
        TakeFault::NoMemory
    }
}
