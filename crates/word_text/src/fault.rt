//! Why a text is not read.

ghost use Rattle.std.specs.Prelude.{◌≡◌};
ghost use Rattle.word_text.specs.declared.fault.ReadError.TheVariants.{NoMemory, Text};

use std::alloc::{AllocError, AllocFailed};

/// What is wrong with a text.
#[derive(Clone, Copy, Debug, PartialEq, Eq)]
pub enum TextKind {
    BadByte,
    Expected,
    TooManyNames,
    RepeatedName,
    UnknownName,
    TooManyRelators,
    ExponentTooLarge,
    ModulusOutOfRange,
    WordTooLong,
    TooManyQuestions,
    TooManyLetters,
    NoSession,
}

/// The first fault of a text: its kind, and how many bytes stand from its place to the text's end.
#[derive(Clone, Copy, Debug, PartialEq, Eq)]
pub struct Fault {
    pub kind: TextKind,
    pub left: usize,
}

#[derive(Clone, Copy, Debug, PartialEq, Eq)]
pub enum ReadError {
    NoMemory,
    Text(Fault),
}

impl From<AllocError> for ReadError {
    ghost from_gives = { λ _ e. e ≡ NoMemory };

    fn from(_e: AllocError) -> ReadError {
        ReadError::NoMemory
    }
}

impl<T: Drop> From<AllocFailed<T>> for ReadError {
    ghost from_gives = { λ _ e. e ≡ NoMemory };

    fn from(_e: AllocFailed<T>) -> ReadError {
        ReadError::NoMemory
    }
}

impl From<Fault> for ReadError {
    ghost from_gives = { λ f e. e ≡ Text f };

    fn from(fault: Fault) -> ReadError {
        ReadError::Text(fault)
    }
}

/// The first fault of a text, with its line and column from 1 on.
#[derive(Clone, Copy, Debug, PartialEq, Eq)]
pub struct TextFault {
    pub line: u32,
    pub column: u32,
    pub kind: TextKind,
}

/// Why a text is not read.
#[derive(Clone, Copy, Debug, PartialEq, Eq)]
pub enum ReadFault {
    Text(TextFault),
    NoMemory,
}
