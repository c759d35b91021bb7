//! A status with its text, and the answers that all commands share.

ghost use Rattle.std.specs.Prelude.{◌≡◌, IfOk, codes};
ghost use Rattle.command_floor.specs.Answers.{refused_words, unread, too_long, image_too_long, refused, kind_text};
ghost use Rattle.command_floor.specs.Answers.{IsSaid};

use crate::status::Status;
use std::alloc::{AllocError, AllocFailed, Global};
use std::marker::Model;
use word_text::{TextFault, TextKind};

/// What a command answers: a status and a text of whole lines.
#[derive(Drop)]
pub struct Answer {
    status: Status,
    text: Vec<u8>,
}

impl Model for Answer {
    ghost use Rattle.command_floor.specs.Answers.{Answer};

    ghost Value = { Answer };

    ghost view = { λ a. record { status = a.status; text = a.text.items } };

    ghost use Rattle.command_floor.specs.Answers.{IsSaid};

    ghost invariant = { λ a. IsSaid a.status };
}

/// Why a command goes no further: it has its answer, or no memory is left.
#[derive(Drop)]
pub enum Halt {
    Says(Answer),
    NoMemory,
}

impl From<AllocError> for Halt {
    ghost use Rattle.std.specs.Prelude.{◌≡◌};
    ghost use Rattle.command_floor.specs.declared.answer.Halt.TheVariants.{NoMemory};

    ghost from_gives = { λ _ e. e ≡ NoMemory };

    fn from(_: AllocError) -> Halt {
        Halt::NoMemory
    }
}

impl<T: Drop> From<AllocFailed<T>> for Halt {
    ghost use Rattle.std.specs.Prelude.{◌≡◌};
    ghost use Rattle.command_floor.specs.declared.answer.Halt.TheVariants.{NoMemory};

    ghost from_gives = { λ _ e. e ≡ NoMemory };

    fn from(_: AllocFailed<T>) -> Halt {
        Halt::NoMemory
    }
}

impl Answer {
    /// This status with this text.
    pub fn new(status: Status, text: Vec<u8>) -> Answer
        requires { IsSaid status }
        ensures { result ≡ record { status = status; text = text.items } }
    {
        Answer { status, text }
    }

    /// The status.
    pub fn status(&self) -> Status
        ensures status { result ≡ self.now.status }
        ensures said { IsSaid result }
    {
        self.status
    }

    /// The text.
    pub fn text(&self) -> &[u8]
        ensures { result.now ≡ self.now.text }
    {
        &self.text
    }

    /// The words of the command line are outside the table of commands.
    pub fn refused_words(alloc: Global) -> Result<Answer, AllocError>
        ensures { IfOk result (λ a. a ≡ refused_words) }
    {
        let text = String::from_str(alloc, "refused words\n")?;
        Ok(Answer::new(Status::WordsRefused, text.into_bytes()))
    }

    /// The text under this name could not be read.
    pub fn unread(alloc: Global, name: &str) -> Result<Answer, AllocError>
        ensures { IfOk result (λ a. a ≡ unread name.now) }
    {
        let text = format!(in alloc; "read fault {name}\n")?;
        Ok(Answer::new(Status::ReadFault, text.into_bytes()))
    }

    /// The text under this name has more bytes than its limit.
    pub fn too_long(alloc: Global, name: &str, limit: u32) -> Result<Answer, AllocError>
        ensures { IfOk result (λ a. a ≡ too_long name.now limit) }
    {
        let text = format!(in alloc; "refused {name} too long {limit}\n")?;
        Ok(Answer::new(Status::TextRefused, text.into_bytes()))
    }

    /// In the session under this name the image of a relator is too long.
    pub fn image_too_long(
        alloc: Global,
        name: &str,
        line: u32,
        relator: u32,
    ) -> Result<Answer, AllocError>
        ensures { IfOk result (λ a. a ≡ image_too_long name.now line relator) }
    {
        let text = format!(in alloc; "refused {name} line {line} image-too-long {relator}\n")?;
        Ok(Answer::new(Status::TextRefused, text.into_bytes()))
    }

    /// The text under this name, or this word of the command line, has this first fault.
    pub fn refused(alloc: Global, name: &str, fault: &TextFault) -> Result<Answer, AllocError>
        ensures { IfOk result (λ a. a ≡ refused name.now fault.now) }
    {
        let line = fault.line;
        let column = fault.column;
        let kind = kind_text(fault.kind);
        let text = format!(in alloc; "refused {name} line {line} column {column} {kind}\n")?;
        Ok(Answer::new(Status::TextRefused, text.into_bytes()))
    }
}

/// The name of a kind of fault in an answer.
fn kind_text(kind: TextKind) -> &'static str
    ensures { result.now ≡ kind_text kind }
{
    match kind {
        TextKind::BadByte => "bad-byte",
        TextKind::Expected => "expected",
        TextKind::TooManyNames => "too-many-names",
        TextKind::RepeatedName => "repeated-name",
        TextKind::UnknownName => "unknown-name",
        TextKind::TooManyRelators => "too-many-relators",
        TextKind::ExponentTooLarge => "exponent-too-large",
        TextKind::ModulusOutOfRange => "modulus-out-of-range",
        TextKind::WordTooLong => "word-too-long",
        TextKind::TooManyQuestions => "too-many-questions",
        TextKind::TooManyLetters => "too-many-letters",
        TextKind::NoSession => "no-session",
    }
}
