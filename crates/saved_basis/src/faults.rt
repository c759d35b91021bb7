//! What is answered of a file that isn't read, or not written whole.

ghost use Rattle.std.specs.Prelude.{◌≡◌};
ghost use Rattle.saved_basis.specs.declared.faults.WriteFault.TheVariants as writing;
ghost use Rattle.saved_basis.specs.declared.faults.BasisFault.TheVariants as reading;
ghost use Rattle.saved_basis.specs.declared.faults.LineFault.TheVariants as lines;
ghost use Rattle.saved_basis.specs.Faults.{of_sum};

use mb_io::Failed;
use module_vec::{Place, Stop};
use outcomes::PairKind;
use std::alloc::{AllocError, AllocFailed};
use step_lists::SumFault;

/// Why a basis isn't written whole. A front of its text was.
#[derive(Clone, Copy, Debug, PartialEq, Eq)]
pub enum WriteFault {
    /// The sink has failed, and has counted that.
    Failed,
    NoMemory,
}

/// Why a line can't stand in a basis file.
#[derive(Clone, Copy, PartialEq, Eq)]
pub enum LineKind {
    /// It isn't a line of a basis file, or can't stand where it stands; its entry's lead coefficient isn't positive, or
    /// passes a limit.
    Text,
    /// A step names an entry that isn't there yet.
    NoEntry,
    /// The entry isn't what its recipe makes, or isn't the generator with its sign; the greatest place where they
    /// differ.
    NotEqual { at: Place },
    /// A product or a sum leaves the range of coefficients.
    Wide,
    /// A sum has too many terms.
    Long,
}

/// Why a text isn't read as a basis.
#[derive(Clone, Copy, PartialEq, Eq)]
pub enum BasisFault {
    /// The first line that can't stand, numbered from 1; one more than the last line's number where a line is missing.
    Line {
        line: u32,
        kind: LineKind,
    },
    /// The first task that fails: its work leaves a rest, so the list isn't complete.
    Open {
        i: u32,
        j: u32,
        kind: PairKind,
    },
    /// The first task that fails: its work stops at a limit.
    Stopped {
        i: u32,
        j: u32,
        kind: PairKind,
        stop: Stop,
    },
    NoMemory,
}

/// Why a line wasn't taken.
#[derive(Clone, Copy, PartialEq, Eq)]
pub enum LineFault {
    Fails(LineKind),
    NoMemory,
}

impl From<Failed> for WriteFault {
    ghost from_gives = { λ _ e. e ≡ writing.Failed };

    fn from(_: Failed) -> WriteFault {
        WriteFault::Failed
    }
}

impl From<AllocError> for WriteFault {
    ghost from_gives = { λ _ e. e ≡ writing.NoMemory };

    fn from(_: AllocError) -> WriteFault {
        WriteFault::NoMemory
    }
}

impl<T: Drop> From<AllocFailed<T>> for WriteFault {
    ghost from_gives = { λ _ e. e ≡ writing.NoMemory };

    fn from(_: AllocFailed<T>) -> WriteFault {
        WriteFault::NoMemory
    }
}

impl From<AllocError> for BasisFault {
    ghost from_gives = { λ _ e. e ≡ reading.NoMemory };

    fn from(_: AllocError) -> BasisFault {
        BasisFault::NoMemory
    }
}

impl From<AllocError> for LineFault {
    ghost from_gives = { λ _ e. e ≡ lines.NoMemory };

    fn from(_: AllocError) -> LineFault {
        LineFault::NoMemory
    }
}

impl<T: Drop> From<AllocFailed<T>> for LineFault {
    ghost from_gives = { λ _ e. e ≡ lines.NoMemory };

    fn from(_: AllocFailed<T>) -> LineFault {
        LineFault::NoMemory
    }
}

impl From<SumFault> for LineFault {
    ghost from_gives = { λ fault e. e ≡ of_sum fault };

    fn from(fault: SumFault) -> LineFault {
        match fault {
            SumFault::Wide => LineFault::Fails(LineKind::Wide),
            SumFault::Long => LineFault::Fails(LineKind::Long),
            SumFault::NoMemory => LineFault::NoMemory,
        }
    }
}
