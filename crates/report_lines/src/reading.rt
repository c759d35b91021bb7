//! Reading a line.

ghost use Rattle.std.specs.Prelude.{◌++◌, codes, IfOk};
ghost use Rattle.spelling.specs.Spelling.{IsRead};
ghost use Rattle.vector_text.specs.Reading.{Reads};
ghost use Rattle.report_lines.specs.Texts.{line_text};
ghost use Rattle.report_lines.specs.Lines.{IsLineOf};

use crate::Line;
use crate::answers::read_answer;
use crate::ends::read_end;
use crate::made::read_made;
use crate::parts::{around_colon, behind, number_then};
use presentation::Presentation;
use std::alloc::{AllocError, Global};
use step_text::read_steps;
use vector_text::{SpellFault, read_vector};

/// The line over the presentation that the text spells. `None` exactly where it is the text of no such line.
pub fn read_line(alloc: Global, p: &Presentation, text: &[u8]) -> Result<Option<Line>, AllocError>
    ensures { IfOk result (λ line. IsRead (line_text p.now) (IsLineOf p.now) text.now line) }
{
    match line_of(alloc, p, text) {
        Ok(line) => Ok(Some(line)),
        Err(SpellFault::Spelling) => Ok(None),
        Err(SpellFault::NoMemory) => Err(AllocError),
    }
}

/// The line that the text spells.
pub(crate) fn line_of(alloc: Global, p: &Presentation, text: &[u8]) -> Result<Line, SpellFault>
    ensures { Reads (line_text p.now) (IsLineOf p.now) text.now result }
{
    if text == b"seal".as_slice() {
        return Ok(Line::Seal);
    }
    if text == b"done".as_slice() {
        return Ok(Line::Done);
    }
    if let Some(rest) = behind(text, b"entry ") {
        return entry(alloc, p, rest);
    }
    if let Some(rest) = behind(text, b"live ") {
        return live(alloc, p, rest);
    }
    if let Some(rest) = behind(text, b"proof ") {
        return proof(alloc, p, rest);
    }
    if let Some(rest) = behind(text, b"end ") {
        return end(p, rest);
    }
    if let Some(rest) = behind(text, b"close ") {
        return close(alloc, p, rest);
    }
    Err(SpellFault::Spelling)
}

/// The line that the text spells behind `entry `.
fn entry(alloc: Global, p: &Presentation, text: &[u8]) -> Result<Line, SpellFault>
    ensures { Reads (line_text p.now) (IsLineOf p.now) (codes "entry " ++ text.now) result }
{
    p.known();
    let Some((number, rest)) = number_then(text) else {
        return Err(SpellFault::Spelling);
    };
    let Some((front, last)) = around_colon(rest) else {
        return Err(SpellFault::Spelling);
    };
    let made = read_made(alloc, p, front)?;
    let vector = read_vector(alloc, p, last)?;
    Ok(Line::Entry {
        number,
        made,
        vector,
    })
}

/// The line that the text spells behind `live `.
fn live(alloc: Global, p: &Presentation, text: &[u8]) -> Result<Line, SpellFault>
    ensures { Reads (line_text p.now) (IsLineOf p.now) (codes "live " ++ text.now) result }
{
    let Some((session, rest)) = number_then(text) else {
        return Err(SpellFault::Spelling);
    };
    let Some((number, more)) = number_then(rest) else {
        return Err(SpellFault::Spelling);
    };
    let Some((front, last)) = number_then(more) else {
        return Err(SpellFault::Spelling);
    };
    let (question, verdict) = read_answer(alloc, p, last)?;
    Ok(Line::Live {
        session,
        number,
        front,
        question,
        verdict,
    })
}

/// The line that the text spells behind `proof `.
fn proof(alloc: Global, p: &Presentation, text: &[u8]) -> Result<Line, SpellFault>
    ensures { Reads (line_text p.now) (IsLineOf p.now) (codes "proof " ++ text.now) result }
{
    let Some((subject, rest)) = number_then(text) else {
        return Err(SpellFault::Spelling);
    };
    let steps = read_steps(alloc, p, rest)?;
    Ok(Line::Proof { subject, steps })
}

/// The line that the text spells behind `end `.
fn end(p: &Presentation, text: &[u8]) -> Result<Line, SpellFault>
    ensures { Reads (line_text p.now) (IsLineOf p.now) (codes "end " ++ text.now) result }
{
    let Some(end) = read_end(p, text) else {
        return Err(SpellFault::Spelling);
    };
    Ok(Line::End(end))
}

/// The line that the text spells behind `close `.
fn close(alloc: Global, p: &Presentation, text: &[u8]) -> Result<Line, SpellFault>
    ensures { Reads (line_text p.now) (IsLineOf p.now) (codes "close " ++ text.now) result }
{
    let Some((session, rest)) = number_then(text) else {
        return Err(SpellFault::Spelling);
    };
    let Some((number, last)) = number_then(rest) else {
        return Err(SpellFault::Spelling);
    };
    let (question, verdict) = read_answer(alloc, p, last)?;
    Ok(Line::Close {
        session,
        number,
        question,
        verdict,
    })
}
