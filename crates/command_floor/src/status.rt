//! How a run ends.

ghost use Rattle.std.specs.Prelude.{◌≡◌};
ghost use Rattle.command_floor.specs.Codes.{code_of};

/// The status with which the program ends.
#[derive(Clone, Copy, Debug, PartialEq, Eq)]
pub enum Status {
    /// The command did what it was asked, and all questions are settled.
    Done,

    /// A report was written whole, but something in it is left open; or a certificate is beyond its limits.
    Open,

    /// The words of the command line are outside the table of commands.
    WordsRefused,

    /// A text that was read isn't accepted.
    TextRefused,

    /// A text could not be read.
    ReadFault,

    /// The output could not be written whole.
    WriteFault,

    /// There was not enough memory.
    NoMemory,

    /// What was to be checked doesn't hold.
    Fails,
}

impl Status {
    /// The number with which the program exits.
    pub fn code(self) -> u8
        ensures { result ≡ code_of self }
    {
        match self {
            Status::Done => 0,
            Status::Open => 1,
            Status::WordsRefused => 2,
            Status::TextRefused => 3,
            Status::ReadFault => 4,
            Status::WriteFault => 5,
            Status::NoMemory => 6,
            Status::Fails => 7,
        }
    }
}
