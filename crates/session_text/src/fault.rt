//! Why a session is not read.

ghost use Rattle.std.specs.Prelude.{◌≡◌};
ghost use Rattle.session_text.specs.declared.fault.SessionFault.TheVariants.{Text, NoMemory};
ghost use Rattle.word_text.specs.declared.fault.ReadFault.TheVariants as reading;

use std::alloc::{AllocError, AllocFailed};
use word_text::TextFault;

/// Why a session is not read.
#[derive(Clone, Copy, Debug, PartialEq, Eq)]
pub enum SessionFault {
    /// The text is none of the grammar, or past a limit.
    Text(TextFault),
    /// In the question of this line, the image of the relator of this number is the first with more than `COMPOSED`
    /// letters.
    ImageTooLong { line: u32, relator: u32 },
    /// Memory ran out.
    NoMemory,
}

impl From<AllocError> for SessionFault {
    ghost from_gives = { λ _ e. e ≡ NoMemory };

    fn from(_: AllocError) -> SessionFault {
        SessionFault::NoMemory
    }
}

impl<T: Drop> From<AllocFailed<T>> for SessionFault {
    ghost from_gives = { λ _ e. e ≡ NoMemory };

    fn from(_: AllocFailed<T>) -> SessionFault {
        SessionFault::NoMemory
    }
}
