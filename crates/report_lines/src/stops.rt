//! The texts of stops: why a computation with vectors ended.

ghost use Rattle.std.specs.Prelude.{◌≡◌, ◌++◌, codes, length, OnOk};
ghost use Rattle.spelling.specs.Spelling.{IsRead};
ghost use Rattle.report_lines.specs.Texts.{stop_text};
ghost use Rattle.report_lines.specs.Lines.{StopIsOver, IsStopOf};

use crate::parts::{behind, number_then};
use module_vec::Stop;
use presentation::Presentation;
use spelling::{read_number, write_number};
use std::alloc::AllocError;
use vector_text::{put_place, read_place};

/// The stop that the text spells.
pub fn read_stop(p: &Presentation, text: &[u8]) -> Option<Stop>
    ensures { IsRead (stop_text p.now.names) (IsStopOf (length p.now.names)) text.now result }
{
    if text == b"deep".as_slice() {
        return Some(Stop::Deep);
    }
    if let Some(rest) = behind(text, b"wide ") {
        return wide(p, rest);
    }
    if let Some(rest) = behind(text, b"long ") {
        return long(p, rest);
    }
    if let Some(rest) = behind(text, b"steep ") {
        return steep(p, rest);
    }
    None
}

/// The stop that the text spells behind `wide `.
fn wide(p: &Presentation, text: &[u8]) -> Option<Stop>
    ensures { IsRead (stop_text p.now.names) (IsStopOf (length p.now.names)) (codes "wide " ++ text.now) result }
{
    let (step, rest) = number_then(text)?;
    let Ok(at) = read_place(p, rest) else {
        return None;
    };
    Some(Stop::Wide { at, step })
}

/// The stop that the text spells behind `long `.
fn long(p: &Presentation, text: &[u8]) -> Option<Stop>
    ensures { IsRead (stop_text p.now.names) (IsStopOf (length p.now.names)) (codes "long " ++ text.now) result }
{
    let (step, rest) = number_then(text)?;
    let terms = read_number(rest)?;
    Some(Stop::Long { terms, step })
}

/// The stop that the text spells behind `steep `.
fn steep(p: &Presentation, text: &[u8]) -> Option<Stop>
    ensures { IsRead (stop_text p.now.names) (IsStopOf (length p.now.names)) (codes "steep " ++ text.now) result }
{
    let degree = read_number(text)?;
    Some(Stop::Steep { degree })
}

/// Appends the text of the stop.
pub fn put_stop(out: &mut Vec<u8>, p: &Presentation, stop: &Stop) -> Result<(), AllocError>
    requires { StopIsOver (length p.now.names) stop.now }
    ensures { OnOk result (out.new.items ≡ out.old.items ++ stop_text p.now.names stop.now) }
{
    match stop {
        Stop::Wide { at, step } => {
            out.extend_from_slice(b"wide ")?;
            write_number(out, *step)?;
            out.extend_from_slice(b" ")?;
            put_place(out, p, at)
        }
        Stop::Long { terms, step } => {
            out.extend_from_slice(b"long ")?;
            write_number(out, *step)?;
            out.extend_from_slice(b" ")?;
            write_number(out, *terms)
        }
        Stop::Deep => out.extend_from_slice(b"deep"),
        Stop::Steep { degree } => {
            out.extend_from_slice(b"steep ")?;
            write_number(out, *degree)
        }
    }
}
