//! Lists of words.

ghost use Rattle.std.specs.Prelude.{◌≡◌};

use free_words::Word;
use std::marker::Model;

/// A list of words, which contracts see as the list of their letters' lists.
#[derive(Drop)]
pub struct Words {
    words: Vec<Word>,
}

impl Model for Words {
    ghost use Rattle.std.specs.Prelude.{List};
    ghost use Rattle.free_words.specs.declared.letter.Letter.{Letter};

    ghost Value = { List (List Letter) };

    ghost view = { λ w. w.words.items };
}

impl Words {
    /// The list of these words.
    pub fn of(words: Vec<Word>) -> Words
        ensures { result ≡ words.items }
    {
        Words { words }
    }

    /// The words in order.
    pub fn words(&self) -> &[Word]
        ensures { result.now ≡ self.now }
    {
        &self.words
    }
}
