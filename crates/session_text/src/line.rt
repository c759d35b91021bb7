//! One line of a session.

ghost use Rattle.std.specs.Prelude.{◌≡◌, ◌≤◌, ◌<◌, ◌+◌, length, drop, IfOk, OnOk, All};
ghost use Rattle.word_text.specs.Machine.{finding};
ghost use Rattle.word_text.specs.Place.{on_line};
ghost use Rattle.word_text.specs.Scan.{after_blanks};
ghost use Rattle.presentation.specs.Line.{is_end};
ghost use Rattle.session_text.specs.declared.TheConstants.{QUESTIONS, LETTERS};
ghost use Rattle.session_text.specs.Questions.{IsWrittenQuestion, HasImages, question_letters, session_letters};
ghost use Rattle.session_text.specs.Reading.{question_at, line_question, line_questions, ReadsAlone, ReadsQuestion};
ghost use Rattle.session_text.specs.Reading.{ReadsLine};

use crate::asked::Asked;
use crate::fault::SessionFault;
use crate::images::first_long;
use crate::letters::question_letters;
use crate::question::Question;
use crate::reading::{asked, ending, keyword};
use presentation::{Presentation, WordReader};
use std::alloc::Global;
use word_text::{Fault, ReadFault, TextKind, on_line, skip_blanks};

// Whether the line has blanks alone.
#[tactic(auto, unfolding(presentation::specs::Line::is_end))]
fn is_blank(line: &[u8]) -> bool
    ensures { result ≡ is_end line.now }
{
    skip_blanks(line).is_empty()
}

// A fault of this kind at the first token of the line.
fn at_keyword(kind: TextKind, line: &[u8], number: u32) -> ReadFault
    ensures { result ≡ ReadFault.Text (on_line line.now number (record {
      kind = kind;
      left = length (after_blanks line.now);
    })) }
{
    let left = skip_blanks(line).len();
    ReadFault::Text(on_line(line, number, Fault { kind, left }))
}

/// The question that the line spells, behind those before it.
#[tactic(auto, unfolding(crate::specs::Reading::question_at, crate::specs::Reading::room_at))]
pub fn spelled_question(
    alloc: Global,
    p: &Presentation,
    number: u32,
    line: &[u8],
    before: &Asked,
) -> Result<Question, ReadFault>
    ensures exact { ReadsAlone line.now number (question_at (finding p.now.names) (length before.now)
        (session_letters before.now) line.now) result }
    ensures written { IfOk result (λ q. IsWrittenQuestion p.now q) }
    ensures room { OnOk result (length before.now < QUESTIONS) }
    ensures few { IfOk result (λ q. session_letters before.now + question_letters q ≤ LETTERS) }
{
    let mut reader = WordReader {
        text: line,
        at: 0,
        line: number,
    };
    let form = keyword(&mut reader)?;
    if before.is_full() {
        return Err(at_keyword(TextKind::TooManyQuestions, line, number));
    }
    let question = asked(alloc, &mut reader, p, form)?;
    ending(&reader)?;
    if before.is_passed_by(question_letters(&question)) {
        return Err(at_keyword(TextKind::TooManyLetters, line, number));
    }
    Ok(question)
}

// The same, where no relator has too long an image.
fn fitting_question(
    alloc: Global,
    p: &Presentation,
    number: u32,
    line: &[u8],
    before: &Asked,
) -> Result<Question, SessionFault>
    ensures exact { ReadsQuestion (line_question (finding p.now.names) number before.now line.now) result }
    ensures written { IfOk result (λ q. IsWrittenQuestion p.now q) }
    ensures images { IfOk result (λ q. HasImages q) }
    ensures room { OnOk result (length before.now < QUESTIONS) }
    ensures few { IfOk result (λ q. session_letters before.now + question_letters q ≤ LETTERS) }
{
    let question = match spelled_question(alloc, p, number, line, before) {
        Ok(question) => question,
        Err(ReadFault::Text(fault)) => return Err(SessionFault::Text(fault)),
        Err(ReadFault::NoMemory) => return Err(SessionFault::NoMemory),
    };
    match first_long(&question) {
        None => Ok(question),
        Some(place) => Err(SessionFault::ImageTooLong {
            line: number,
            relator: place as u32 + 1,
        }),
    }
}

/// Puts the question of the line of this number, if it has one, behind those before.
pub fn read_line(
    alloc: Global,
    p: &Presentation,
    number: u32,
    line: &[u8],
    asked: &mut Asked,
) -> Result<(), SessionFault>
    ensures exact { ReadsLine asked.new (line_questions (finding p.now.names) number asked.old line.now) result }
    ensures written { All (λ q. IsWrittenQuestion p.now q × HasImages q) asked.old
        → OnOk result (All (λ q. IsWrittenQuestion p.now q × HasImages q) asked.new) }
{
    if is_blank(line) {
        return Ok(());
    }
    let question = fitting_question(alloc, p, number, line, asked)?;
    let letters = question_letters(&question);
    asked.push(question, letters)?;
    Ok(())
}
