//! The texts of answers: a question and the verdict on it.

ghost use Rattle.std.specs.Prelude.{◌≡◌, ◌++◌, ◌↔◌, length, IsTrue, OnOk};
ghost use Rattle.vector_text.specs.Reading.{Reads};
ghost use Rattle.session_text.specs.Questions.{IsQuestion};
ghost use Rattle.report_lines.specs.Texts.{answer_text};
ghost use Rattle.report_lines.specs.Lines.{subject_count, IsSubject, IsNotSteep, MayAnswer, VerdictIsOver, IsAnswer};

use crate::parts::around_colon;
use crate::verdicts::{put_verdict, read_verdict};
use module_vec::Stop;
use outcomes::Verdict;
use presentation::Presentation;
use session_text::{Question, read_question, write_question};
use std::alloc::{AllocError, Global};
use vector_text::SpellFault;

/// The question and the verdict that the text spells, of which the verdict may stand for the question.
pub fn read_answer(
    alloc: Global,
    p: &Presentation,
    text: &[u8],
) -> Result<(Question, Verdict), SpellFault>
    ensures { Reads (λ x. answer_text p.now.names x.0 x.1) (λ x. IsAnswer p.now x.0 x.1) text.now result }
{
    p.known();
    let Some((front, rest)) = around_colon(text) else {
        return Err(SpellFault::Spelling);
    };
    let Some(question) = read_question(alloc, p, front)? else {
        return Err(SpellFault::Spelling);
    };
    let verdict = read_verdict(alloc, p, rest)?;
    if !may_answer(&question, &verdict) {
        return Err(SpellFault::Spelling);
    }
    Ok((question, verdict))
}

/// Whether the verdict may stand for the question.
fn may_answer(question: &Question, verdict: &Verdict) -> bool
    ensures { IsTrue result ↔ MayAnswer question.now verdict.now }
{
    match verdict {
        Verdict::Trivial => !matches!(question, Question::Hom { .. }),
        Verdict::NotTrivial => matches!(question, Question::Trivial(_) | Question::Equal(_, _)),
        Verdict::Normal(_) => matches!(question, Question::Normal(_)),
        Verdict::Extends => matches!(question, Question::Hom { .. }),
        Verdict::Fails { subject } => {
            matches!(question, Question::Hom { .. }) && is_subject(question, *subject)
        }
        Verdict::Unknown { subject } => is_subject(question, *subject),
        Verdict::Stop { subject, stop } => is_subject(question, *subject) && is_not_steep(stop),
    }
}

/// Whether the question has a subject of this number.
fn is_subject(question: &Question, number: u32) -> bool
    ensures { IsTrue result ↔ IsSubject question.now number }
{
    0 < number && number as usize <= subject_count(question)
}

fn subject_count(question: &Question) -> usize
    ensures { result ≡ subject_count question.now }
{
    match question {
        Question::Hom { source, .. } => source.relators().len(),
        _ => 1,
    }
}

fn is_not_steep(stop: &Stop) -> bool
    ensures { IsTrue result ↔ IsNotSteep stop.now }
{
    !matches!(stop, Stop::Steep { .. })
}

/// Appends the text of the question and of the verdict on it.
pub fn put_answer(
    alloc: Global,
    out: &mut Vec<u8>,
    p: &Presentation,
    question: &Question,
    verdict: &Verdict,
) -> Result<(), AllocError>
    requires question { IsQuestion p.now question.now }
    requires verdict { VerdictIsOver (length p.now.names) verdict.now }
    ensures { OnOk result (out.new.items ≡ out.old.items ++ answer_text p.now.names question.now verdict.now) }
{
    let asked = write_question(alloc, p, question)?;
    out.extend_from_slice(&asked)?;
    out.extend_from_slice(b" : ")?;
    put_verdict(out, p, verdict)
}
