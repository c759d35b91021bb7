//! What the checker answers of a text that isn't right.

ghost use Rattle.std.specs.Prelude.{◌≡◌};
ghost use Rattle.cert_checker.specs.declared.faults.CertFault.TheVariants.{NoMemory};
ghost use Rattle.cert_checker.specs.declared.faults.LineFault.TheVariants as line_faults;
ghost use Rattle.cert_checker.specs.Faults.{OfSum};

use module_vec::Place;
use std::alloc::{AllocError, AllocFailed};
use step_lists::SumFault;

/// Why a line fails.
#[derive(Clone, Copy, PartialEq, Eq)]
pub enum CertKind {
    /// It is no line of a report, or it can't stand where it stands.
    Text,
    /// A step names an entry that isn't there yet.
    NoEntry,
    /// The entry isn't what its recipe makes, or isn't the generator with its sign; the greatest place where they
    /// differ.
    NotEqual { at: Place },
    /// The steps of a proof leave something of the Fox vector; the greatest place of that.
    NotZero { at: Place },
    /// A product or a sum leaves the range of coefficients.
    Wide,
    /// A sum has too many terms.
    Long,
}

/// Why a text doesn't hold.
#[derive(Clone, Copy, PartialEq, Eq)]
pub enum CertFault {
    /// The first line that fails, numbered from 1 and at most 2^32 - 1.
    Line { line: u32, kind: CertKind },
    NoMemory,
}

/// Why a line wasn't taken.
#[derive(Clone, Copy, PartialEq, Eq)]
pub enum LineFault {
    Fails(CertKind),
    NoMemory,
}

impl From<AllocError> for CertFault {
    ghost from_gives = { λ _ e. e ≡ NoMemory };

    fn from(_: AllocError) -> CertFault {
        CertFault::NoMemory
    }
}

impl From<AllocError> for LineFault {
    ghost from_gives = { λ _ e. e ≡ line_faults.NoMemory };

    fn from(_: AllocError) -> LineFault {
        LineFault::NoMemory
    }
}

impl<T: Drop> From<AllocFailed<T>> for LineFault {
    ghost from_gives = { λ _ e. e ≡ line_faults.NoMemory };

    fn from(_: AllocFailed<T>) -> LineFault {
        LineFault::NoMemory
    }
}

impl From<SumFault> for LineFault {
    ghost from_gives = { OfSum };

    fn from(fault: SumFault) -> LineFault {
        match fault {
            SumFault::Wide => LineFault::Fails(CertKind::Wide),
            SumFault::Long => LineFault::Fails(CertKind::Long),
            SumFault::NoMemory => LineFault::NoMemory,
        }
    }
}
