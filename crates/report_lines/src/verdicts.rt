//! The texts of verdicts.

ghost use Rattle.std.specs.Prelude.{◌≡◌, ◌++◌, codes, length, OnOk};
ghost use Rattle.spelling.specs.Spelling.{IsRead};
ghost use Rattle.vector_text.specs.Reading.{Reads};
ghost use Rattle.report_lines.specs.Texts.{verdict_text};
ghost use Rattle.report_lines.specs.Lines.{VerdictIsOver, IsVerdictOf};

use crate::parts::{behind, number_then};
use crate::stops::{put_stop, read_stop};
use outcomes::Verdict;
use presentation::Presentation;
use spelling::{read_number, write_number};
use std::alloc::{AllocError, Global};
use vector_text::{SpellFault, put_vector, read_vector};

/// The verdict that the text spells.
pub fn read_verdict(alloc: Global, p: &Presentation, text: &[u8]) -> Result<Verdict, SpellFault>
    ensures { Reads (verdict_text p.now.names) (IsVerdictOf (length p.now.names)) text.now result }
{
    if text == b"trivial".as_slice() {
        return Ok(Verdict::Trivial);
    }
    if text == b"not-trivial".as_slice() {
        return Ok(Verdict::NotTrivial);
    }
    if text == b"extends".as_slice() {
        return Ok(Verdict::Extends);
    }
    if let Some(rest) = behind(text, b"normal ") {
        let v = read_vector(alloc, p, rest)?;
        return Ok(Verdict::Normal(v));
    }
    if let Some(rest) = behind(text, b"fails ") {
        let subject = read_number(rest).ok_or(SpellFault::Spelling)?;
        return Ok(Verdict::Fails { subject });
    }
    if let Some(rest) = behind(text, b"unknown ") {
        let subject = read_number(rest).ok_or(SpellFault::Spelling)?;
        return Ok(Verdict::Unknown { subject });
    }
    let rest = behind(text, b"stop ").ok_or(SpellFault::Spelling)?;
    stop(p, rest).ok_or(SpellFault::Spelling)
}

/// The verdict that the text spells behind `stop `.
fn stop(p: &Presentation, text: &[u8]) -> Option<Verdict>
    ensures { IsRead (verdict_text p.now.names) (IsVerdictOf (length p.now.names)) (codes "stop " ++ text.now) result }
{
    let (subject, rest) = number_then(text)?;
    let stop = read_stop(p, rest)?;
    Some(Verdict::Stop { subject, stop })
}

/// Appends the text of the verdict.
pub fn put_verdict(out: &mut Vec<u8>, p: &Presentation, verdict: &Verdict) -> Result<(), AllocError>
    requires { VerdictIsOver (length p.now.names) verdict.now }
    ensures { OnOk result (out.new.items ≡ out.old.items ++ verdict_text p.now.names verdict.now) }
{
    match verdict {
        Verdict::Trivial => out.extend_from_slice(b"trivial"),
        Verdict::NotTrivial => out.extend_from_slice(b"not-trivial"),
        Verdict::Normal(v) => {
            out.extend_from_slice(b"normal ")?;
            put_vector(out, p, v)
        }
        Verdict::Extends => out.extend_from_slice(b"extends"),
        Verdict::Fails { subject } => {
            out.extend_from_slice(b"fails ")?;
            write_number(out, *subject)
        }
        Verdict::Unknown { subject } => {
            out.extend_from_slice(b"unknown ")?;
            write_number(out, *subject)
        }
        Verdict::Stop { subject, stop } => {
            out.extend_from_slice(b"stop ")?;
            write_number(out, *subject)?;
            out.extend_from_slice(b" ")?;
            put_stop(out, p, stop)
        }
    }
}
