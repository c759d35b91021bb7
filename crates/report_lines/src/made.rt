//! The texts of how entries were made.

ghost use Rattle.std.specs.Prelude.{◌≡◌, ◌++◌, codes, length, if◌then◌else◌, OnOk};
ghost use Rattle.vector_text.specs.Reading.{Reads};
ghost use Rattle.report_lines.specs.Texts.{made_text};
ghost use Rattle.report_lines.specs.Lines.{IsMadeOf};

use crate::Made;
use crate::parts::behind;
use presentation::Presentation;
use std::alloc::{AllocError, Global};
use step_text::read_steps;
use vector_text::SpellFault;

/// How an entry was made, as the text spells it.
pub fn read_made(alloc: Global, p: &Presentation, text: &[u8]) -> Result<Made, SpellFault>
    ensures { Reads (made_text p.now.names) (IsMadeOf (length p.now.names)) text.now result }
{
    if text == b"gen +".as_slice() {
        return Ok(Made::Gen { negated: false });
    }
    if text == b"gen -".as_slice() {
        return Ok(Made::Gen { negated: true });
    }
    let rest = behind(text, b"sum ").ok_or(SpellFault::Spelling)?;
    let steps = read_steps(alloc, p, rest)?;
    Ok(Made::Sum { steps })
}

/// Appends the text of how the entry of a generator, or of its negative, was made.
pub fn put_sign(out: &mut Vec<u8>, negated: bool) -> Result<(), AllocError>
    ensures { OnOk result (out.new.items ≡ out.old.items ++ (if negated then codes "gen -" else codes "gen +")) }
{
    if negated {
        out.extend_from_slice(b"gen -")
    } else {
        out.extend_from_slice(b"gen +")
    }
}
