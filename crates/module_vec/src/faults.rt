//! Why a call gives no vector.

ghost use Rattle.std.specs.Prelude.{◌≡◌};
ghost use Rattle.module_vec.specs.declared.faults.VecFault.TheVariants.{NoMemory};

use crate::Place;
use std::alloc::{AllocError, AllocFailed};

/// The named ends of a computation with vectors. A step is numbered from 1, and 0 stands for no step of a chain.
#[derive(Clone, Copy, PartialEq, Eq)]
pub enum Stop {
    /// A product or a difference leaves the range of coefficients. `at` is the greatest place where one does.
    Wide { at: Place, step: u32 },
    /// The result has more than [`TERMS`](crate::TERMS) terms. `terms` is their number.
    Long { terms: u32, step: u32 },
    /// One step more than a chain may have is due.
    Deep,
    /// The least common multiple of two lead monomials has this degree, which is too great.
    Steep { degree: u32 },
}

/// Why no vector was made.
#[derive(Clone, Copy, PartialEq, Eq)]
pub enum VecFault {
    /// Never `Deep` and never `Steep`; the step is 0.
    Stop(Stop),
    NoMemory,
}

impl From<AllocError> for VecFault {
    ghost from_gives = { λ _ e. e ≡ NoMemory };

    fn from(_: AllocError) -> VecFault {
        VecFault::NoMemory
    }
}

impl<T: Drop> From<AllocFailed<T>> for VecFault {
    ghost from_gives = { λ _ e. e ≡ NoMemory };

    fn from(_: AllocFailed<T>) -> VecFault {
        VecFault::NoMemory
    }
}
