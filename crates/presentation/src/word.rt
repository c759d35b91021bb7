//! Words that are whole texts.

ghost use Rattle.std.specs.Prelude.{◌≡◌, length, IfOk, Ok};
ghost use Rattle.word_text.specs.Machine.{finding};
ghost use Rattle.word_text.specs.Place.{word_text, ReadsText};
ghost use Rattle.word_text.specs.Grammar.{IsWord};
ghost use Rattle.presentation.specs.Presented.{IsWritten};

use crate::presentation::Presentation;
use free_words::Word;
use std::alloc::Global;
use word_text::{ReadError, ReadFault, placed, whole_word};

/// The word that the text spells, or the first fault.
fn read_exactly(alloc: Global, p: &Presentation, text: &[u8]) -> Result<Word, ReadFault>
    ensures { ReadsText text.now (word_text (finding p.now.names) text.now) result }
{
    match whole_word(alloc, p.names(), text) {
        Ok(word) => Ok(word),
        Err(ReadError::NoMemory) => Err(ReadFault::NoMemory),
        Err(ReadError::Text(fault)) => Err(ReadFault::Text(placed(text, fault))),
    }
}

/// The word over the presentation's generators that the text spells, expanded and not reduced.
pub fn read_word(alloc: Global, p: &Presentation, text: &[u8]) -> Result<Word, ReadFault>
    // The word is one of the grammar.
    ensures found { IfOk result (λ w. IsWord (finding p.now.names) text.now w) }
    // Where the text is a word of the grammar, that word is read, unless memory runs out.
    ensures only { (w : _) → IsWord (finding p.now.names) text.now w → ReadsText text.now (Ok w) result }
    // Which fault it is, and where.
    ensures exact { ReadsText text.now (word_text (finding p.now.names) text.now) result }
    ensures written { IfOk result (λ w. IsWritten (length p.now.names) w) }
{
    read_exactly(alloc, p, text)
}
