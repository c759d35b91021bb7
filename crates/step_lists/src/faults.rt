//! Why a step can't be made.

ghost use Rattle.std.specs.Prelude.{◌≡◌};
ghost use Rattle.step_lists.specs.declared.faults.SumFault.TheVariants.{NoMemory};
ghost use Rattle.step_lists.specs.Partial.{fault_of};

use changed_terms::TakeFault;
use std::alloc::{AllocError, AllocFailed};

/// Why a step can't be added to a sum or taken from it.
#[derive(Clone, Copy, PartialEq, Eq)]
pub enum SumFault {
    /// A product or the sum leaves the range of coefficients.
    Wide,
    /// Nothing leaves the range, and there would be more than [`TERMS`](module_vec::TERMS) terms.
    Long,
    NoMemory,
}

impl From<TakeFault> for SumFault {
    ghost from_gives = { λ fault e. e ≡ fault_of fault };

    fn from(fault: TakeFault) -> SumFault {
        match fault {
            TakeFault::Wide(_) => SumFault::Wide,
            TakeFault::NoMemory => SumFault::NoMemory,
        }
    }
}

impl From<AllocError> for SumFault {
    ghost from_gives = { λ _ e. e ≡ NoMemory };

    fn from(_: AllocError) -> SumFault {
        SumFault::NoMemory
    }
}

impl<T: Drop> From<AllocFailed<T>> for SumFault {
    ghost from_gives = { λ _ e. e ≡ NoMemory };

    fn from(_: AllocFailed<T>) -> SumFault {
        SumFault::NoMemory
    }
}
