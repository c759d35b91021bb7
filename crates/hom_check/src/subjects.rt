//! The subjects of a question, made one at a time.

ghost use Rattle.std.specs.Prelude.{◌≡◌, ◌≤◌, ◌<◌, length, slice_get, Some, IfOk};
ghost use Rattle.free_words.specs.declared.TheConstants.{COMPOSED};
ghost use Rattle.free_words.specs.Words.{IsOver, word_image};
ghost use Rattle.session_text.specs.Questions.{subjects, IsFormed};
ghost use Rattle.hom_check.specs.Subjects.{subject_at};

use free_words::{COMPOSED, Word, WordFault};
use session_text::Question;
use std::alloc::{AllocError, Global};

/// How many subjects the question has: one, or as many as a source has relators.
pub fn subject_count(q: &Question) -> u32
    ensures is { result ≡ length (subjects q.now) }
    ensures few { length (subjects q.now) ≤ 64 }
{
    match q {
        Question::Trivial(_) | Question::Equal(_, _) | Question::Normal(_) => 1,
        Question::Hom { source, .. } => {
            source.known();
            source.relators().len() as u32
        }
    }
}

/// The subject with the number `j`, counted from 1: the word itself, u v^-1 of an equation u = v, or the image of the
/// source's relator with this number.
pub fn subject(alloc: Global, q: &Question, j: u32) -> Result<Word, AllocError>
    requires formed { IsFormed q.now }
    requires number { 1 ≤ j }
    requires within { j ≤ length (subjects q.now) }
    requires short { length (subject_at q.now j) ≤ COMPOSED }
    ensures { IfOk result (λ w. w ≡ subject_at q.now j) }
{
    match q {
        Question::Trivial(w) | Question::Normal(w) => copy(alloc, w),
        Question::Equal(u, v) => {
            let mut subject = copy(alloc, u)?;
            subject.append(v.inverse(alloc)?)?;
            Ok(subject)
        }
        Question::Hom { source, images } => {
            source.known();
            image(alloc, &source.relators()[j as usize - 1], images.words())
        }
    }
}

/// The same word.
fn copy(alloc: Global, w: &Word) -> Result<Word, AllocError>
    ensures { IfOk result (λ made. made ≡ w.now) }
{
    Ok(Word::of(w.letters().to_vec(alloc)?))
}

/// The image of a word, which is known to be within the limit on composed words.
fn image(alloc: Global, w: &Word, images: &[Word]) -> Result<Word, AllocError>
    requires over { IsOver (length images.now) w.now }
    requires short { length (word_image images.now w.now) ≤ COMPOSED }
    ensures { IfOk result (λ made. made ≡ word_image images.now w.now) }
{
    match w.substitute(alloc, images, COMPOSED) {
        Ok(made) => Ok(made),
        Err(WordFault::TooLong { .. }) => unreachable!(),
        Err(WordFault::NoMemory) => Err(AllocError),
    }
}
