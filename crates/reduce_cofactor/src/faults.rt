//! Why a reduction gives no rest.

ghost use Rattle.std.specs.Prelude.{◌≡◌};
ghost use Rattle.reduce_cofactor.specs.declared.faults.ReduceFault.TheVariants.{NoMemory};
ghost use Rattle.reduce_cofactor.specs.Running.{fault_in};

use changed_terms::TakeFault;
use module_vec::Stop;
use std::alloc::{AllocError, AllocFailed};

/// Why no rest was made.
#[derive(Clone, Copy, PartialEq, Eq)]
pub enum ReduceFault {
    /// The limit that the reduction met. Never `Steep`; steps are numbered from 1.
    Stop(Stop),
    NoMemory,
}

impl ReduceFault {
    /// The fault of the step with this number.
    pub(crate) fn in_step(fault: TakeFault, step: u32) -> ReduceFault
        ensures { result ≡ fault_in fault step }
    {
        match fault {
            TakeFault::Wide(at) => ReduceFault::Stop(Stop::Wide { at, step }),
            TakeFault::NoMemory => ReduceFault::NoMemory,
        }
    }
}

impl From<AllocError> for ReduceFault {
    ghost from_gives = { λ _ e. e ≡ NoMemory };

    fn from(_: AllocError) -> ReduceFault {
        ReduceFault::NoMemory
    }
}

impl<T: Drop> From<AllocFailed<T>> for ReduceFault {
    ghost from_gives = { λ _ e. e ≡ NoMemory };

    fn from(_: AllocFailed<T>) -> ReduceFault {
        ReduceFault::NoMemory
    }
}
