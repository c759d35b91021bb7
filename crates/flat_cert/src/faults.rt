//! Why a certificate doesn't hold.

ghost use Rattle.std.specs.Prelude.{◌≡◌};
ghost use Rattle.flat_cert.specs.declared.faults.FlatFault.TheVariants as added;
ghost use Rattle.flat_cert.specs.declared.faults.FlatSumFault.TheVariants.{NoMemory};
ghost use Rattle.flat_cert.specs.declared.faults.FlatTextFault.TheVariants as texts;
ghost use Rattle.flat_cert.specs.declared.faults.WriteFault.TheVariants as writing;
ghost use Rattle.flat_cert.specs.Checking.{sum_fault};

use mb_io::Failed;
use module_vec::Place;
use std::alloc::{AllocError, AllocFailed};

/// Why it can't be told that the sum of a certificate is the flat image of a Fox vector.
#[derive(Clone, Copy, PartialEq, Eq)]
pub enum FlatSumFault {
    /// A term stands at a place of a degree above [`DEGREE`](laurent_terms::DEGREE), the absolute values at one place
    /// add up past [`COEFFICIENT`](module_vec::COEFFICIENT), or the terms stand at more than [`PLACES`](crate::PLACES).
    Beyond,
    /// The two differ, and this is the greatest place where they do.
    NotZero { at: Place },
    NoMemory,
}

/// Why what stands at flat places can't be added up.
#[derive(Clone, Copy, Debug, PartialEq, Eq)]
pub enum FlatFault {
    /// Something would stand at a place of a degree above [`DEGREE`](laurent_terms::DEGREE), the absolute values at one
    /// place would add up past [`COEFFICIENT`](module_vec::COEFFICIENT), or something would stand at more than
    /// [`PLACES`](crate::PLACES).
    Beyond,
    NoMemory,
}

impl From<AllocError> for FlatFault {
    ghost from_gives = { λ _ e. e ≡ added.NoMemory };

    fn from(_: AllocError) -> FlatFault {
        FlatFault::NoMemory
    }
}

impl<T: Drop> From<AllocFailed<T>> for FlatFault {
    ghost from_gives = { λ _ e. e ≡ added.NoMemory };

    fn from(_: AllocFailed<T>) -> FlatFault {
        FlatFault::NoMemory
    }
}

impl From<FlatFault> for FlatSumFault {
    ghost from_gives = { λ fault e. e ≡ sum_fault fault };

    fn from(fault: FlatFault) -> FlatSumFault {
        match fault {
            FlatFault::Beyond => FlatSumFault::Beyond,
            FlatFault::NoMemory => FlatSumFault::NoMemory,
        }
    }
}

impl From<AllocError> for FlatSumFault {
    ghost from_gives = { λ _ e. e ≡ NoMemory };

    fn from(_: AllocError) -> FlatSumFault {
        FlatSumFault::NoMemory
    }
}

/// Why a text gives no certificate.
#[derive(Clone, Copy, Debug, PartialEq, Eq)]
pub enum FlatTextFault {
    /// The line with this number is the first that can't stand there; it is one more than the last line's number where
    /// a line is missing.
    Line { line: u32 },
    NoMemory,
}

impl From<AllocError> for FlatTextFault {
    ghost from_gives = { λ _ e. e ≡ texts.NoMemory };

    fn from(_: AllocError) -> FlatTextFault {
        FlatTextFault::NoMemory
    }
}

impl<T: Drop> From<AllocFailed<T>> for FlatTextFault {
    ghost from_gives = { λ _ e. e ≡ texts.NoMemory };

    fn from(_: AllocFailed<T>) -> FlatTextFault {
        FlatTextFault::NoMemory
    }
}

/// Why a certificate isn't written whole. A front of its text was.
#[derive(Clone, Copy, Debug, PartialEq, Eq)]
pub enum WriteFault {
    /// The sink has failed, and has counted that.
    Failed,
    NoMemory,
}

impl From<Failed> for WriteFault {
    ghost from_gives = { λ _ e. e ≡ writing.Failed };

    fn from(_: Failed) -> WriteFault {
        WriteFault::Failed
    }
}

impl From<AllocError> for WriteFault {
    ghost from_gives = { λ _ e. e ≡ writing.NoMemory };

    fn from(_: AllocError) -> WriteFault {
        WriteFault::NoMemory
    }
}

impl<T: Drop> From<AllocFailed<T>> for WriteFault {
    ghost from_gives = { λ _ e. e ≡ writing.NoMemory };

    fn from(_: AllocFailed<T>) -> WriteFault {
        WriteFault::NoMemory
    }
}
