//! Writing a line.

ghost use Rattle.std.specs.Prelude.{◌≡◌, ◌++◌, codes, decimal, length, IfOk, OnOk};
ghost use Rattle.session_text.specs.Questions.{IsQuestion};
ghost use Rattle.step_text.specs.Over.{StepsAreOver};
ghost use Rattle.vector_text.specs.Over.{VectorIsOver};
ghost use Rattle.report_lines.specs.declared.lines.Made.TheVariants.{Gen, Sum};
ghost use Rattle.report_lines.specs.declared.lines.Line.TheVariants as lines;
ghost use Rattle.report_lines.specs.Texts.{line_text};
ghost use Rattle.report_lines.specs.Lines.{MadeIsOver, EndIsOver, VerdictIsOver, LineIsOver, IsLineOf};
ghost use Rattle.report_lines.specs.Reading.{IsLineReadBack};

use crate::answers::put_answer;
use crate::ends::put_end;
use crate::made::put_sign;
use crate::{Line, Made, QuestionNumber};
use module_vec::ModVec;
use outcomes::{End, Verdict};
use presentation::Presentation;
use session_text::Question;
use spelling::write_number;
use std::alloc::{AllocError, Global};
use step_lists::Steps;
use step_text::put_steps;
use vector_text::put_vector;

/// The text of the line, without a line end.
pub fn write_line(alloc: Global, p: &Presentation, line: &Line) -> Result<Vec<u8>, AllocError>
    requires { LineIsOver p.now line.now }
    ensures text { IfOk result (λ text. text.items ≡ line_text p.now line.now) }
    ensures read_back { IsLineOf p.now line.now → IfOk result (λ text. IsLineReadBack p.now line.now text.items) }
{
    p.known();
    let mut out = Vec::new(alloc);
    put_line(alloc, &mut out, p, line)?;
    Ok(out)
}

/// Appends the text of the line, without a line end.
pub fn put_line(
    alloc: Global,
    out: &mut Vec<u8>,
    p: &Presentation,
    line: &Line,
) -> Result<(), AllocError>
    requires { LineIsOver p.now line.now }
    ensures { OnOk result (out.new.items ≡ out.old.items ++ line_text p.now line.now) }
{
    match line {
        Line::Entry {
            number,
            made,
            vector,
        } => put_entry(out, p, *number, made, vector),
        Line::Seal => out.extend_from_slice(b"seal"),
        Line::Live {
            session,
            number,
            front,
            question,
            verdict,
        } => {
            let at = QuestionNumber::new(*session, *number);
            put_live(alloc, out, p, at, *front, question, verdict)
        }
        Line::Proof { subject, steps } => put_proof(out, p, *subject, steps),
        Line::End(end) => put_ending(out, p, end),
        Line::Close {
            session,
            number,
            question,
            verdict,
        } => {
            let at = QuestionNumber::new(*session, *number);
            put_closing(alloc, out, p, at, question, verdict)
        }
        Line::Done => out.extend_from_slice(b"done"),
    }
}

fn put_entry(
    out: &mut Vec<u8>,
    p: &Presentation,
    number: u32,
    made: &Made,
    vector: &ModVec,
) -> Result<(), AllocError>
    requires made { MadeIsOver (length p.now.names) made.now }
    requires vector { VectorIsOver (length p.now.names) vector.now }
    ensures { OnOk result (out.new.items ≡ out.old.items ++ line_text p.now (lines.Entry number made.now vector.now)) }
{
    match made {
        Made::Gen { negated } => put_generator(out, p, number, *negated, vector),
        Made::Sum { steps } => put_sum(out, p, number, steps, vector),
    }
}

/// Appends the line of the entry of a generator, or of its negative.
pub fn put_generator(
    out: &mut Vec<u8>,
    p: &Presentation,
    number: u32,
    negated: bool,
    vector: &ModVec,
) -> Result<(), AllocError>
    requires { VectorIsOver (length p.now.names) vector.now }
    ensures { OnOk result (out.new.items ≡ out.old.items ++ line_text p.now
        (lines.Entry number (Gen negated) vector.now)) }
{
    out.extend_from_slice(b"entry ")?;
    write_number(out, number)?;
    out.extend_from_slice(b" ")?;
    put_sign(out, negated)?;
    out.extend_from_slice(b" : ")?;
    put_vector(out, p, vector)
}

/// Appends the line of an entry that is the sum of these steps.
pub fn put_sum(
    out: &mut Vec<u8>,
    p: &Presentation,
    number: u32,
    steps: &Steps,
    vector: &ModVec,
) -> Result<(), AllocError>
    requires steps { StepsAreOver (length p.now.names) steps.now }
    requires vector { VectorIsOver (length p.now.names) vector.now }
    ensures { OnOk result (out.new.items ≡ out.old.items ++ line_text p.now
        (lines.Entry number (Sum steps.now) vector.now)) }
{
    out.extend_from_slice(b"entry ")?;
    write_number(out, number)?;
    out.extend_from_slice(b" sum ")?;
    put_steps(out, p, steps.steps())?;
    out.extend_from_slice(b" : ")?;
    put_vector(out, p, vector)
}

/// Appends the line of an answer after `front` items.
pub fn put_live(
    alloc: Global,
    out: &mut Vec<u8>,
    p: &Presentation,
    at: QuestionNumber,
    front: u32,
    question: &Question,
    verdict: &Verdict,
) -> Result<(), AllocError>
    requires question { IsQuestion p.now question.now }
    requires verdict { VerdictIsOver (length p.now.names) verdict.now }
    ensures { OnOk result (out.new.items ≡ out.old.items ++ line_text p.now
        (lines.Live at.session at.number front question.now verdict.now)) }
{
    put_word_and_numbers(out, b"live ", at)?;
    write_number(out, front)?;
    out.extend_from_slice(b" ")?;
    put_answer(alloc, out, p, question, verdict)
}

/// Appends the line of a proof.
pub fn put_proof(
    out: &mut Vec<u8>,
    p: &Presentation,
    subject: u32,
    steps: &Steps,
) -> Result<(), AllocError>
    requires { StepsAreOver (length p.now.names) steps.now }
    ensures { OnOk result (out.new.items ≡ out.old.items ++ line_text p.now (lines.Proof subject steps.now)) }
{
    out.extend_from_slice(b"proof ")?;
    write_number(out, subject)?;
    out.extend_from_slice(b" ")?;
    put_steps(out, p, steps.steps())
}

/// Appends the line of the end.
pub fn put_ending(out: &mut Vec<u8>, p: &Presentation, end: &End) -> Result<(), AllocError>
    requires { EndIsOver (length p.now.names) end.now }
    ensures { OnOk result (out.new.items ≡ out.old.items ++ line_text p.now (lines.End end.now)) }
{
    out.extend_from_slice(b"end ")?;
    put_end(out, p, end)
}

/// Appends the line of an answer behind the end.
pub fn put_closing(
    alloc: Global,
    out: &mut Vec<u8>,
    p: &Presentation,
    at: QuestionNumber,
    question: &Question,
    verdict: &Verdict,
) -> Result<(), AllocError>
    requires question { IsQuestion p.now question.now }
    requires verdict { VerdictIsOver (length p.now.names) verdict.now }
    ensures { OnOk result (out.new.items ≡ out.old.items ++ line_text p.now
        (lines.Close at.session at.number question.now verdict.now)) }
{
    put_word_and_numbers(out, b"close ", at)?;
    put_answer(alloc, out, p, question, verdict)
}

/// A word that ends with a space, and the numbers of a session and of a question with a space behind each.
fn put_word_and_numbers(
    out: &mut Vec<u8>,
    word: &[u8],
    at: QuestionNumber,
) -> Result<(), AllocError>
    ensures { OnOk result (out.new.items ≡ out.old.items ++ (word.now
        ++ (decimal at.session ++ (codes " " ++ (decimal at.number ++ codes " "))))) }
{
    out.extend_from_slice(word)?;
    write_number(out, at.session)?;
    out.extend_from_slice(b" ")?;
    write_number(out, at.number)?;
    out.extend_from_slice(b" ")
}
