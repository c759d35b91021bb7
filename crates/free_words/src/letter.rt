//! Letters: a generator or its inverse.

ghost use Rattle.std.specs.Prelude.{◌≡◌};
ghost use Rattle.free_words.specs.Words.{flipped};

/// A generator or its inverse, also written (g, +1) and (g, -1).
#[derive(Clone, Copy, Debug, PartialEq, Eq)]
pub struct Letter {
    /// The generator's number, from 0.
    pub g: u8,
    /// Whether the letter is the generator's inverse.
    pub inv: bool,
}

impl Letter {
    /// The same generator with the other sign.
    pub fn flip(self) -> Letter
        ensures { result ≡ flipped self }
    {
        Letter {
            g: self.g,
            inv: !self.inv,
        }
    }
}
