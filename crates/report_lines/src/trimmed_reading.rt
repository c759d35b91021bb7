//! Reading a line of a trimmed report.

ghost use Rattle.std.specs.Prelude.{◌++◌, codes, IfOk};
ghost use Rattle.spelling.specs.Spelling.{IsRead};
ghost use Rattle.vector_text.specs.Reading.{Reads};
ghost use Rattle.report_lines.specs.Trimmed.{recipe_text, IsRecipeOf, trimmed_line_text, IsTrimmedLineOf};

use crate::made::read_made;
use crate::parts::{around_colon, behind, number_then};
use crate::reading::line_of;
use crate::{Made, TrimmedLine};
use module_vec::ModVec;
use presentation::Presentation;
use std::alloc::{AllocError, Global};
use vector_text::{SpellFault, read_vector};

/// The line of a trimmed report over the presentation that the text spells. `None` exactly where it is the text of no
/// such line.
pub fn read_trimmed_line(
    alloc: Global,
    p: &Presentation,
    text: &[u8],
) -> Result<Option<TrimmedLine>, AllocError>
    ensures { IfOk result (λ line. IsRead (trimmed_line_text p.now) (IsTrimmedLineOf p.now) text.now line) }
{
    match trimmed_line_of(alloc, p, text) {
        Ok(line) => Ok(Some(line)),
        Err(SpellFault::Spelling) => Ok(None),
        Err(SpellFault::NoMemory) => Err(AllocError),
    }
}

/// The line that the text spells.
fn trimmed_line_of(alloc: Global, p: &Presentation, text: &[u8]) -> Result<TrimmedLine, SpellFault>
    ensures { Reads (trimmed_line_text p.now) (IsTrimmedLineOf p.now) text.now result }
{
    if let Some(rest) = behind(text, b"entry ") {
        return entry(alloc, p, rest);
    }
    let line = line_of(alloc, p, text)?;
    Ok(TrimmedLine::Other(line))
}

/// The line that the text spells behind `entry `.
fn entry(alloc: Global, p: &Presentation, text: &[u8]) -> Result<TrimmedLine, SpellFault>
    ensures { Reads (trimmed_line_text p.now) (IsTrimmedLineOf p.now) (codes "entry " ++ text.now) result }
{
    let Some((number, rest)) = number_then(text) else {
        return Err(SpellFault::Spelling);
    };
    let Some(more) = behind(rest, b"from ") else {
        return Err(SpellFault::Spelling);
    };
    let Some((from, last)) = number_then(more) else {
        return Err(SpellFault::Spelling);
    };
    let (made, vector) = read_recipe(alloc, p, last)?;
    Ok(TrimmedLine::Entry {
        number,
        from,
        made,
        vector,
    })
}

/// How an entry was made, and its vector, as the text spells them.
fn read_recipe(alloc: Global, p: &Presentation, text: &[u8]) -> Result<(Made, ModVec), SpellFault>
    ensures { Reads (λ x. recipe_text p.now x.0 x.1) (λ x. IsRecipeOf p.now x.0 x.1) text.now result }
{
    p.known();
    let Some((front, last)) = around_colon(text) else {
        return Err(SpellFault::Spelling);
    };
    let made = read_made(alloc, p, front)?;
    let vector = read_vector(alloc, p, last)?;
    Ok((made, vector))
}
