//! The lines that the head of a trimmed report has besides the presentation's.

ghost use Rattle.std.specs.Prelude.{◌≡◌, ◌++◌, ◌↔◌, IsTrue, OnOk};
ghost use Rattle.spelling.specs.Spelling.{IsRead, IsSmall};
ghost use Rattle.report_lines.specs.Trimmed.{trimmed_title, items_line};

use crate::parts::behind;
use spelling::{read_number, write_number};
use std::alloc::AllocError;

/// Whether the text is the first line of a trimmed report: `metab report 2`.
pub fn is_trimmed_title(text: &[u8]) -> bool
    ensures { IsTrue result ↔ (text.now ≡ trimmed_title) }
{
    text == b"metab report 2".as_slice()
}

/// The number of items of the whole history, as the third line of a trimmed report tells it: `items `, and the number.
pub fn read_items_line(text: &[u8]) -> Option<u32>
    ensures { IsRead items_line IsSmall text.now result }
{
    let rest = behind(text, b"items ")?;
    read_number(rest)
}

/// Appends that line.
pub fn put_items_line(out: &mut Vec<u8>, count: u32) -> Result<(), AllocError>
    ensures { OnOk result (out.new.items ≡ out.old.items ++ items_line count) }
{
    out.extend_from_slice(b"items ")?;
    write_number(out, count)
}
