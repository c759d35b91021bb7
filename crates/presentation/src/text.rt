//! Presentations as texts.

ghost use Rattle.std.specs.Prelude.{◌≡◌, IfOk, Ok};
ghost use Rattle.word_text.specs.Scan.{Gives};
ghost use Rattle.word_text.specs.Place.{ReadsText};
ghost use Rattle.presentation.specs.Presented.{Presented, IsModulus};
ghost use Rattle.presentation.specs.Reading.{byte_at, presentation_at, presentation_text};
ghost use Rattle.presentation.specs.Grammar.{IsPresentation};

use crate::modulus::modulus;
use crate::names::names;
use crate::presentation::Presentation;
use crate::relators::relators;
use std::alloc::Global;
use word_text::{ReadError, ReadFault, after_first, due, first_is, placed, skip_blanks};

/// What follows the byte that is due.
fn byte(b: u8, text: &[u8]) -> Result<&[u8], ReadError>
    ensures { Gives (λ rest. rest.now) result (byte_at b text.now) }
{
    if !first_is(b, text) {
        return Err(ReadError::Text(due(text)));
    }
    Ok(after_first(text))
}

/// The presentation that stands at the head of the text, without a modulus, and what follows its `>`.
#[tactic(auto, unfolding(crate::specs::Reading::presentation_at))]
pub fn presentation(alloc: Global, text: &[u8]) -> Result<(Presentation, &[u8]), ReadError>
    ensures { Gives (λ x. (x.0, x.1.now)) result (presentation_at text.now) }
{
    let (names, rest) = names(alloc, byte(b'<', skip_blanks(text))?)?;
    let (relators, rest) = relators(alloc, &names, byte(b'|', rest)?)?;
    let rest = byte(b'>', rest)?;
    Ok((Presentation::of(names, relators, 0), rest))
}

/// The presentation that is the whole text.
#[tactic(auto, unfolding(crate::specs::Reading::presentation_text))]
fn whole(alloc: Global, text: &[u8]) -> Result<Presentation, ReadError>
    ensures { Gives (λ p. p) result (presentation_text text.now) }
{
    let (p, rest) = presentation(alloc, text)?;
    Ok(p.with_modulus(modulus(rest)?))
}

/// The presentation that the text spells, or the first fault.
fn read_exactly(alloc: Global, text: &[u8]) -> Result<Presentation, ReadFault>
    ensures { ReadsText text.now (presentation_text text.now) result }
{
    match whole(alloc, text) {
        Ok(p) => Ok(p),
        Err(ReadError::NoMemory) => Err(ReadFault::NoMemory),
        Err(ReadError::Text(fault)) => Err(ReadFault::Text(placed(text, fault))),
    }
}

/// The presentation that the text spells.
pub fn read_presentation(alloc: Global, text: &[u8]) -> Result<Presentation, ReadFault>
    // The presentation is the one of the grammar.
    ensures found { IfOk result (λ p. IsPresentation text.now p) }
    // Where the text is a presentation of the grammar, that one is read, unless memory runs out.
    ensures only { (p : Presented) → IsPresentation text.now p → ReadsText text.now (Ok p) result }
    // Which fault it is, and where.
    ensures exact { ReadsText text.now (presentation_text text.now) result }
{
    read_exactly(alloc, text)
}
