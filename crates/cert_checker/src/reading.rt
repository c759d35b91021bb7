//! Reading a line behind the head.

ghost use Rattle.std.specs.Prelude.{IfOk};
ghost use Rattle.spelling.specs.Spelling.{IsRead};
ghost use Rattle.report_lines.specs.Trimmed.{trimmed_line_text};
ghost use Rattle.cert_checker.specs.declared.version.Version.TheVariants.{Whole};
ghost use Rattle.cert_checker.specs.Texts.{IsLineIn};

use crate::version::Version;
use presentation::Presentation;
use report_lines::{TrimmedLine, read_line, read_trimmed_line};
use std::alloc::{AllocError, Global};

/// The line of a report of this version that the text spells. `None` exactly where it is the text of no such line.
pub fn read_in(
    alloc: Global,
    version: Version,
    p: &Presentation,
    text: &[u8],
) -> Result<Option<TrimmedLine>, AllocError>
    ensures { IfOk result (λ line. IsRead (trimmed_line_text p.now) (IsLineIn version p.now) text.now line) }
{
    match version {
        Version::Whole => read_whole(alloc, p, text),
        Version::Trimmed { .. } => read_trimmed_line(alloc, p, text),
    }
}

/// The line of a whole report that the text spells.
fn read_whole(
    alloc: Global,
    p: &Presentation,
    text: &[u8],
) -> Result<Option<TrimmedLine>, AllocError>
    ensures { IfOk result (λ line. IsRead (trimmed_line_text p.now) (IsLineIn Whole p.now) text.now line) }
{
    match read_line(alloc, p, text)? {
        Some(line) => Ok(Some(TrimmedLine::Other(line))),
        None => Ok(None),
    }
}
