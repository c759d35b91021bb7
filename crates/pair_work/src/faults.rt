//! Why work has no outcome.

ghost use Rattle.std.specs.Prelude.{◌≡◌};
ghost use Rattle.pair_work.specs.declared.faults.WorkFault.TheVariants as of_work;
ghost use Rattle.pair_work.specs.Faults.{pair_as_work, reduce_as_work};

use module_vec::Stop;
use reduce_cofactor::ReduceFault;
use std::alloc::{AllocError, AllocFailed};
use strong_pairs::PairFault;

/// Why a task has no outcome.
#[derive(Clone, Copy, PartialEq, Eq)]
pub enum WorkFault {
    /// The limit that its pair's vector met, or the reduction of it.
    Stop(Stop),
    NoMemory,
}

impl From<Stop> for WorkFault {
    ghost from_gives = { λ stop e. e ≡ of_work.Stop stop };

    fn from(stop: Stop) -> WorkFault {
        WorkFault::Stop(stop)
    }
}

impl From<PairFault> for WorkFault {
    ghost from_gives = { λ fault e. e ≡ pair_as_work fault };

    fn from(fault: PairFault) -> WorkFault {
        match fault {
            PairFault::Stop(stop) => WorkFault::Stop(stop),
            PairFault::NoMemory => WorkFault::NoMemory,
        }
    }
}

impl From<ReduceFault> for WorkFault {
    ghost from_gives = { λ fault e. e ≡ reduce_as_work fault };

    fn from(fault: ReduceFault) -> WorkFault {
        match fault {
            ReduceFault::Stop(stop) => WorkFault::Stop(stop),
            ReduceFault::NoMemory => WorkFault::NoMemory,
        }
    }
}

impl From<AllocError> for WorkFault {
    ghost from_gives = { λ _ e. e ≡ of_work.NoMemory };

    fn from(_: AllocError) -> WorkFault {
        WorkFault::NoMemory
    }
}

impl<T: Drop> From<AllocFailed<T>> for WorkFault {
    ghost from_gives = { λ _ e. e ≡ of_work.NoMemory };

    fn from(_: AllocFailed<T>) -> WorkFault {
        WorkFault::NoMemory
    }
}
