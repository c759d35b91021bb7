//! The words that are to be shown trivial for a yes.

ghost use Rattle.std.specs.Prelude.{◌≡◌, ◌≤◌, List, [], ◌∷◌, map, length, IfOk};
ghost use Rattle.std.specs.List.{AllByRecursion};
ghost use Rattle.free_words.specs.declared.TheConstants.{COMPOSED};
ghost use Rattle.free_words.specs.declared.letter.Letter.{Letter};
ghost use Rattle.free_words.specs.Words.{IsOver, word_image};
ghost use Rattle.presentation.specs.Presented.{Presented};
ghost use Rattle.session_text.specs.Questions.{HasImages, IsWritable, subjects};
ghost use Rattle.cert_checker.specs.States.{asked};

use free_words::{COMPOSED, Word};
use outcomes::Verdict;
use session_text::Question;
use std::alloc::{AllocError, Global};

/// The subjects that have to be shown for the verdict.
pub fn asked(alloc: Global, question: Question, verdict: &Verdict) -> Result<Vec<Word>, AllocError>
    requires writable { (p : Presented) × IsWritable p question }
    requires images { HasImages question }
    ensures { IfOk result (λ words. words.items ≡ asked question verdict.now) }
{
    match verdict {
        Verdict::Trivial | Verdict::Extends => subjects(alloc, question),
        _ => Ok(Vec::new(alloc)),
    }
}

/// The subjects of the question: its word, u v^-1 of an equation u = v, or the image of each relator of a source.
fn subjects(alloc: Global, question: Question) -> Result<Vec<Word>, AllocError>
    requires writable { (p : Presented) × IsWritable p question }
    requires images { HasImages question }
    ensures { IfOk result (λ words. words.items ≡ subjects question) }
{
    match question {
        Question::Trivial(word) | Question::Normal(word) => alone(alloc, word),
        Question::Equal(left, right) => {
            let mut word = left;
            word.append(right.inverse(alloc)?)?;
            alone(alloc, word)
        }
        Question::Hom { source, images } => {
            source.known();
            images_of(alloc, source.relators(), images.words())
        }
    }
}

/// A list of one word.
fn alone(alloc: Global, word: Word) -> Result<Vec<Word>, AllocError>
    ensures { IfOk result (λ words. words.items ≡ word ∷ []) }
{
    let mut words = Vec::with_capacity(alloc, 1)?;
    words.push(word)?;
    Ok(words)
}

/// The images of the words.
fn images_of(alloc: Global, words: &[Word], images: &[Word]) -> Result<Vec<Word>, AllocError>
    requires over { AllByRecursion (IsOver (length images.now)) words.now }
    requires short { AllByRecursion (λ (r : List Letter). length (word_image images.now r) ≤ COMPOSED) words.now }
    ensures { IfOk result (λ made. made.items ≡ map (word_image images.now) words.now) }
{
    let mut made = Vec::with_capacity(alloc, words.len())?;
    for word in words {
        made.push(image_of(alloc, word, images)?)?;
    }
    Ok(made)
}

/// The image of a word, which is known to be short.
fn image_of(alloc: Global, word: &Word, images: &[Word]) -> Result<Word, AllocError>
    requires over { IsOver (length images.now) word.now }
    requires short { length (word_image images.now word.now) ≤ COMPOSED }
    ensures { IfOk result (λ made. made ≡ word_image images.now word.now) }
{
    // It isn't too long, so memory ran out.
    word.substitute(alloc, images, COMPOSED)
        .map_err(|_| AllocError)
}
