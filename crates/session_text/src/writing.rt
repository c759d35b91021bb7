//! The one form in which questions are written.

ghost use Rattle.std.specs.Prelude.{◌≡◌, ◌++◌, [], length, map, codes, IfOk, OnOk};
ghost use Rattle.std.specs.List.{AllByRecursion};
ghost use Rattle.free_words.specs.Words.{IsOver};
ghost use Rattle.presentation.specs.Writing.{joined, written_presentation, written_word};
ghost use Rattle.word_text.specs.Scan.{after_blanks};
ghost use Rattle.word_text.specs.Machine.{finding};
ghost use Rattle.session_text.specs.Grammar.{QuestionAt};
ghost use Rattle.session_text.specs.Questions.{IsQuestion, IsWritable};
ghost use Rattle.session_text.specs.Writing.{written_question};

use crate::question::Question;
use free_words::Word;
use presentation::{Presentation, write_presentation, write_word};
use std::alloc::{AllocError, Global};

/// The question as its keyword and what is asked about: `trivial a b`, `equal a = b`, `normal a^2`, or
/// `hom <s | s^2> -> a b`.
#[tactic(auto, using(crate::proofs::QuestionBack::written_stands))]
pub fn write_question(alloc: Global, p: &Presentation, q: &Question) -> Result<Vec<u8>, AllocError>
    requires { IsQuestion p.now q.now }
    ensures text { IfOk result (λ v. v.items ≡ written_question p.now.names q.now) }
    // What is written of a question within the limits is a line of the grammar with that question, and of no other.
    ensures spelled { IsWritable p.now q.now
        → IfOk result (λ v. QuestionAt (finding p.now.names) v.items q.now (after_blanks [])) }
{
    p.known();
    let mut out = Vec::new(alloc);
    match q {
        Question::Trivial(w) => {
            out.extend_from_slice(b"trivial ")?;
            append_word(alloc, &mut out, p, w)?;
        }
        Question::Equal(u, v) => {
            out.extend_from_slice(b"equal ")?;
            append_word(alloc, &mut out, p, u)?;
            out.extend_from_slice(b" = ")?;
            append_word(alloc, &mut out, p, v)?;
        }
        Question::Normal(w) => {
            out.extend_from_slice(b"normal ")?;
            append_word(alloc, &mut out, p, w)?;
        }
        Question::Hom { source, images } => {
            out.extend_from_slice(b"hom ")?;
            append_presentation(alloc, &mut out, source)?;
            out.extend_from_slice(b" -> ")?;
            append_words(alloc, &mut out, p, images.words())?;
        }
    }
    Ok(out)
}

fn append_word(
    alloc: Global,
    out: &mut Vec<u8>,
    p: &Presentation,
    w: &Word,
) -> Result<(), AllocError>
    requires { IsOver (length p.now.names) w.now }
    ensures { OnOk result (out.new.items ≡ out.old.items ++ written_word p.now.names w.now) }
{
    let word = write_word(alloc, p, w)?;
    out.extend_from_slice(&word)
}

fn append_presentation(alloc: Global, out: &mut Vec<u8>, p: &Presentation) -> Result<(), AllocError>
    ensures { OnOk result (out.new.items ≡ out.old.items ++ written_presentation p.now) }
{
    let presentation = write_presentation(alloc, p)?;
    out.extend_from_slice(&presentation)
}

fn append_words(
    alloc: Global,
    out: &mut Vec<u8>,
    p: &Presentation,
    words: &[Word],
) -> Result<(), AllocError>
    requires { AllByRecursion (IsOver (length p.now.names)) words.now }
    ensures { OnOk result (out.new.items ≡ out.old.items ++ joined (codes ", ")
        (map (written_word p.now.names) words.now)) }
{
    let Some((first, others)) = words.split_first() else {
        return Ok(());
    };
    append_word(alloc, out, p, first)?;
    for word in others {
        out.extend_from_slice(b", ")?;
        append_word(alloc, out, p, word)?;
    }
    Ok(())
}
