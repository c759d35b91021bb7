//! Sessions as texts: one question a line.

ghost use Rattle.std.specs.Prelude.{◌≡◌, ◌≤◌, ◌==◌, not, length, take_while, take, drop, All, IfOk, List, Ok};
ghost use Rattle.session_text.specs.declared.question.Question.{Question};
ghost use Rattle.std.specs.List.{prefix_len};
ghost use Rattle.session_text.specs.declared.TheConstants.{QUESTIONS, LETTERS};
ghost use Rattle.session_text.specs.Questions.{IsWrittenQuestion, HasImages, session_letters};
ghost use Rattle.session_text.specs.Grammar.{IsSession};
ghost use Rattle.session_text.specs.Reading.{session_text, ReadsSession};

use crate::asked::Asked;
use crate::fault::SessionFault;
use crate::line::read_line;
use crate::question::Question;
use presentation::Presentation;
use std::alloc::Global;
use word_text::after_first;

// How many bytes stand before the first LF, or before the end where there is none.
fn line_len(text: &[u8]) -> usize
    ensures { result ≡ length (take_while (λ b. not (b == 10)) text.now) }
{
    text.iter().take_while(|b| **b != b'\n').count()
}

// The first line, and what follows it, with its LF in front.
fn split_line(text: &[u8]) -> (&[u8], &[u8])
    ensures line { result.0.now ≡ take (prefix_len (λ b. not (b == 10)) text.now) text.now }
    ensures rest { result.1.now ≡ drop (prefix_len (λ b. not (b == 10)) text.now) text.now }
    ensures shorter { length result.1.now ≤ length text.now }
{
    text.split_at(line_len(text))
}

// The questions that the text spells, or the first fault.
fn read_exactly(alloc: Global, p: &Presentation, text: &[u8]) -> Result<Vec<Question>, SessionFault>
    ensures exact { ReadsSession (session_text p.now text.now) result }
    ensures written { IfOk result (λ qs. All (λ q. IsWrittenQuestion p.now q × HasImages q) qs.items) }
    ensures few { IfOk result (λ qs. length qs.items ≤ QUESTIONS) }
    ensures few_letters { IfOk result (λ qs. session_letters qs.items ≤ LETTERS) }
{
    let mut asked = Asked::new(alloc);
    let mut number = 1u32;
    let mut rest = text;
    loop {
        let (line, after) = split_line(rest);
        read_line(alloc, p, number, line, &mut asked)?;
        if after.is_empty() {
            return Ok(asked.into_questions());
        }
        rest = after_first(after);
        number = number.saturating_add(1);
    }
}

/// The questions that the text spells, one a line. Lines of blanks alone have none. A fault has the number of its line,
/// and its column there.
pub fn read_session(
    alloc: Global,
    p: &Presentation,
    text: &[u8],
) -> Result<Vec<Question>, SessionFault>
    // The text is a session of the grammar, with these questions.
    ensures found { IfOk result (λ qs. IsSession p.now text.now qs.items) }
    // Where the text is a session of the grammar, its questions are read, unless memory runs out.
    ensures only { (qs : List Question) → IsSession p.now text.now qs → ReadsSession (Ok qs) result }
    // Which questions, or which fault, and where.
    ensures exact { ReadsSession (session_text p.now text.now) result }
    // Words are over the presentation and within the limit on written words; a homomorphism has an image for each
    // generator of its source, which has no modulus; and the images of the source's relators are within the limit on
    // composed words.
    ensures written { IfOk result (λ qs. All (λ q. IsWrittenQuestion p.now q × HasImages q) qs.items) }
    ensures few { IfOk result (λ qs. length qs.items ≤ QUESTIONS) }
    ensures few_letters { IfOk result (λ qs. session_letters qs.items ≤ LETTERS) }
{
    read_exactly(alloc, p, text)
}
