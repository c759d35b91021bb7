//! The lines of a report.

ghost use Rattle.std.specs.Prelude.{◌≡◌};

use module_vec::ModVec;
use outcomes::{End, Verdict};
use session_text::Question;
use step_lists::Steps;

/// How an entry was made.
#[derive(Drop)]
pub enum Made {
    /// Of the generator with the entry's number, or of its negative.
    Gen { negated: bool },
    /// As the sum of these steps.
    Sum { steps: Steps },
}

/// A line of a report, after the two at its head.
#[derive(Drop)]
pub enum Line {
    /// An entry, numbered from 0.
    Entry {
        number: u32,
        made: Made,
        vector: ModVec,
    },
    /// No entry follows: the list is complete.
    Seal,
    /// What is answered to a question after `front` entries and seals. Sessions, and the questions of each, are
    /// numbered from 1.
    Live {
        session: u32,
        number: u32,
        front: u32,
        question: Question,
        verdict: Verdict,
    },
    /// The steps that make up the Fox vector of a subject of the question above. Subjects are numbered from 1.
    Proof {
        subject: u32,
        steps: Steps,
    },
    /// How completion ends.
    End(End),
    /// What is answered to a question after the end, where it was open before.
    Close {
        session: u32,
        number: u32,
        question: Question,
        verdict: Verdict,
    },
    /// The last line.
    Done,
}

/// The numbers of a session and of one of its questions, each counted from 1.
#[derive(Clone, Copy)]
pub struct QuestionNumber {
    pub session: u32,
    pub number: u32,
}

impl QuestionNumber {
    /// This question of this session.
    pub fn new(session: u32, number: u32) -> QuestionNumber
        ensures { result ≡ record { session = session; number = number } }
    {
        QuestionNumber { session, number }
    }
}
