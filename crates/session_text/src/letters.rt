//! How many letters the words of a question have.

ghost use Rattle.std.specs.Prelude.{◌≡◌, ◌<◌, ◌≤◌, ◌^◌, ◌*◌, length};
ghost use Rattle.presentation.specs.Presented.{Presented};
ghost use Rattle.session_text.specs.Questions.{letters_of, question_letters, IsWrittenQuestion};

use crate::question::Question;
use free_words::Word;

// The letters of some words.
fn letters_of(words: &[Word]) -> u32
    requires { letters_of words.now < 2 ^ 31 }
    ensures { result ≡ letters_of words.now }
{
    let mut letters = 0;
    for word in words {
        letters += word.len();
    }
    letters
}

/// The letters of all words of a question, relators of a source and images with them.
#[tactic(auto, using(crate::proofs::LetterSums::few_in_question, crate::proofs::LetterSums::few_in_relators))]
pub fn question_letters(q: &Question) -> u32
    requires { (p : Presented) × IsWrittenQuestion p q.now }
    ensures letters { result ≡ question_letters q.now }
    ensures few { result < 2 ^ 31 }
{
    match q {
        Question::Trivial(w) | Question::Normal(w) => w.len(),
        Question::Equal(u, v) => u.len() + v.len(),
        Question::Hom { source, images } => {
            source.known();
            letters_of(source.relators()) + letters_of(images.words())
        }
    }
}
