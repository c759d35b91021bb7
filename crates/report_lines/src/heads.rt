//! The two lines at the head of a report.

ghost use Rattle.std.specs.Prelude.{◌≡◌, ◌↔◌, IsTrue, IfOk};
ghost use Rattle.report_lines.specs.Texts.{title, pres_line};

use crate::parts::behind;
use presentation::{Presentation, write_presentation};
use std::alloc::{AllocError, Global};

/// Whether the text is the first line of a report: `metab report 1`.
pub fn is_title(text: &[u8]) -> bool
    ensures { IsTrue result ↔ (text.now ≡ title) }
{
    text == b"metab report 1".as_slice()
}

/// Whether the text is the second line of a report over this presentation: `pres `, and the presentation as it is
/// written.
pub fn is_pres_line(alloc: Global, p: &Presentation, text: &[u8]) -> Result<bool, AllocError>
    ensures { IfOk result (λ same. IsTrue same ↔ (text.now ≡ pres_line p.now)) }
{
    let Some(rest) = behind(text, b"pres ") else {
        return Ok(false);
    };
    let written = write_presentation(alloc, p)?;
    Ok(rest == written.as_slice())
}
