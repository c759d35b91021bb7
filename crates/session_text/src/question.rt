//! What is asked of a presentation, and events of a schedule.

ghost use Rattle.std.specs.List.{AllByRecursion};
ghost use Rattle.session_text.specs.Questions.{HasSource};

use crate::words::Words;
use free_words::Word;
use presentation::Presentation;

/// A question about words over a presentation.
#[derive(Drop)]
pub enum Question {
    /// Whether the word is trivial.
    Trivial(Word),
    /// Whether the two words are equal in the quotient.
    Equal(Word, Word),
    /// What the normal form of the word's Fox vector is.
    Normal(Word),
    /// Whether the map of the source's generators to the images, one for each, extends to a homomorphism: whether each
    /// relator's image is trivial. The source has no modulus.
    Hom { source: Presentation, images: Words },
}

impl Question {
    /// What holds of the source of a map. The call does nothing.
    pub fn known(&self)
        ensures { HasSource self.now }
    {
        if let Question::Hom { source, .. } = self {
            source.known();
        }
    }

    /// What holds of the source of each map. The call does nothing: where it is compiled no loop is left of it.
    pub fn all_known(questions: &[Question])
        ensures { AllByRecursion HasSource questions.now }
    {
        for question in questions {
            question.known();
        }
    }
}

/// One turn of a worker or of a session, each numbered from 1.
#[derive(Clone, Copy, Debug, PartialEq, Eq)]
pub enum Event {
    Worker(u32),
    Session(u32),
}
