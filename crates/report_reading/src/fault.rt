//! Why a text isn't read.

ghost use Rattle.std.specs.Prelude.{◌≡◌};
ghost use Rattle.report_reading.specs.declared.fault.ReportFault.TheVariants.{NoMemory};

use std::alloc::AllocError;

/// Why a text gives no report.
#[derive(Clone, Copy, Debug, PartialEq, Eq)]
pub enum ReportFault {
    /// The first line that can't stand after those before it, numbered from 1 and at most 2^32 - 1.
    Line { line: u32 },
    NoMemory,
}

impl From<AllocError> for ReportFault {
    ghost from_gives = { λ _ e. e ≡ NoMemory };

    fn from(_: AllocError) -> ReportFault {
        ReportFault::NoMemory
    }
}
