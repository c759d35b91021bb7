//! Why a pair has no vector.

ghost use Rattle.std.specs.Prelude.{◌≡◌};
ghost use Rattle.strong_pairs.specs.declared.faults.PairFault.TheVariants as faults;
ghost use Rattle.strong_pairs.specs.Results.{pair_fault};

use module_vec::{Stop, VecFault};

/// Why a pair's vector was not made.
#[derive(Clone, Copy, PartialEq, Eq)]
pub enum PairFault {
    /// `Steep`, `Wide` or `Long`, and never `Deep`; the step is 0.
    Stop(Stop),
    NoMemory,
}

impl From<Stop> for PairFault {
    ghost from_gives = { λ stop e. e ≡ faults.Stop stop };

    fn from(stop: Stop) -> PairFault {
        PairFault::Stop(stop)
    }
}

impl From<VecFault> for PairFault {
    ghost from_gives = { λ fault e. e ≡ pair_fault fault };

    fn from(fault: VecFault) -> PairFault {
        match fault {
            VecFault::Stop(stop) => PairFault::Stop(stop),
            VecFault::NoMemory => PairFault::NoMemory,
        }
    }
}
