//! Reading a certificate.

ghost use Rattle.flat_cert.specs.Texts.{ReadsText};

use crate::line_text::{is_same, line_of};
use crate::{Flat, FlatTextFault, LINES};
use presentation::Presentation;
use spelling::cut;
use std::alloc::Global;

/// The certificate over the presentation whose text this is. `Line` comes exactly where it is the text of none, with
/// the number of the first line that can't stand there, or one more than the last line's where a line is missing.
pub fn read_flat(alloc: Global, p: &Presentation, text: &[u8]) -> Result<Vec<Flat>, FlatTextFault>
    ensures { ReadsText p.now text.now result }
{
    let Some((first, body)) = cut(text, b'\n') else {
        return Err(FlatTextFault::Line { line: 1 });
    };
    if !is_same(first, b"metab flat 1") {
        return Err(FlatTextFault::Line { line: 1 });
    }
    let mut list = Vec::new(alloc);
    let mut rest = body;
    while let Some((line, others)) = cut(rest, b'\n') {
        let number = list.len() as u32 + 2;
        if is_same(line, b"done") {
            if !others.is_empty() {
                return Err(FlatTextFault::Line { line: number + 1 });
            }
            return Ok(list);
        }
        if list.len() >= LINES as usize {
            return Err(FlatTextFault::Line { line: number });
        }
        let Some(flat) = line_of(p, line) else {
            return Err(FlatTextFault::Line { line: number });
        };
        list.push(flat)?;
        rest = others;
    }
    Err(FlatTextFault::Line {
        line: list.len() as u32 + 2,
    })
}
