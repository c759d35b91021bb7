//! A word that is a whole text.

ghost use Rattle.std.specs.Prelude.{◌≡◌, ◌≤◌, length, map, string_bytes};
ghost use Rattle.word_text.specs.Scan.{Gives};
ghost use Rattle.word_text.specs.Machine.{finding};
ghost use Rattle.word_text.specs.Place.{word_text};

use crate::fault::ReadError;
use crate::machine::word_at;
use crate::scan::due;
use free_words::Word;
use std::alloc::Global;

/// The word that the whole text spells, expanded and not reduced, or the first fault.
#[tactic(auto, unfolding(crate::specs::Place::text_within))]
pub fn whole_word(alloc: Global, names: &[String], text: &[u8]) -> Result<Word, ReadError>
    requires { length names.now ≤ 24 }
    ensures { Gives (λ x. x) result (word_text (finding (map string_bytes names.now)) text.now) }
{
    let (word, rest) = word_at(alloc, names, text)?;
    if !rest.is_empty() {
        return Err(ReadError::Text(due(rest)));
    }
    Ok(word)
}
