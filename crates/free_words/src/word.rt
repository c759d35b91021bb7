//! Words of the free group, kept unreduced.

ghost use Rattle.std.specs.Prelude.{◌≡◌, ◌+◌, ◌<◌, ◌≤◌, ◌^◌, [], ◌∷◌, ◌++◌, length, slice_get, slice_index_or, ℕ, pos};
ghost use Rattle.std.specs.Prelude.{OnOk, OnErr, IfOk, IfErr, Some, IsErrOf, IsTrue, ◌↔◌};

use crate::fault::WordFault;
use crate::images::{image_len, image_of};
use crate::letter::Letter;
use crate::making::{commutator_of, inverse_of, repeated};
use crate::reduction::cancelled;
use crate::sums::exponents_of;
use crate::{COMPOSED, GENERATORS};
use std::alloc::{AllocError, Global};
use std::marker::Model;

/// A word, which contracts see as its list of letters. It has fewer than 2^32 letters.
#[derive(Drop)]
pub struct Word {
    letters: Vec<Letter>,
}

impl Model for Word {
    ghost use Rattle.std.specs.Prelude.{◌<◌, ◌^◌, List, vec_len};
    ghost use Rattle.free_words.specs.declared.letter.Letter.{Letter};

    ghost Value = { List Letter };

    ghost view = { λ w. w.letters.items };

    ghost invariant = { λ w. vec_len w.letters < 2 ^ 32 };
}

impl Word {
    ghost use Rattle.free_words.specs.Words.{IsOver, inverse, commutator, copies, power, exponent_sum, word_image};
    ghost use Rattle.free_words.specs.Words.{MadeWithin, IsReduced, Cancels};

    /// The empty word.
    pub fn new(alloc: Global) -> Word
        ensures { result ≡ [] }
    {
        Word {
            letters: Vec::new(alloc),
        }
    }

    /// The number of letters.
    pub fn len(&self) -> u32
        ensures { result ≡ length self.now }
    {
        self.letters.len() as u32
    }

    /// Whether the word has no letters.
    pub fn is_empty(&self) -> bool
        ensures { IsTrue result ↔ (self.now ≡ []) }
    {
        self.letters.is_empty()
    }

    /// The letter at a position.
    pub fn letter(&self, at: u32) -> Letter
        requires { at < length self.now }
        ensures { slice_get self.now at ≡ Some result }
    {
        self.letters[at as usize]
    }

    /// The letters in order.
    pub fn letters(&self) -> &[Letter]
        ensures letters { result.now ≡ self.now }
        ensures short { length self.now < 2 ^ 32 }
    {
        &self.letters
    }

    /// The word of these letters, in their order.
    pub fn of(letters: Vec<Letter>) -> Word
        requires { length letters.items < 2 ^ 32 }
        ensures { result ≡ letters.items }
    {
        Word { letters }
    }

    /// Puts a letter at the end, where the word then has at most `limit` letters. After an error the word is as before.
    pub fn push(&mut self, l: Letter, limit: u32) -> Result<(), WordFault>
        ensures ok { OnOk result (self.new ≡ self.old ++ l ∷ []) }
        ensures err { OnErr result (self.new ≡ self.old) }
        ensures within { OnOk result (length self.old + 1 ≤ limit) }
        ensures too_long { (n : _) → IsErrOf result (WordFault.TooLong n)
            → (limit < length self.old + 1) × (n ≡ length self.old + 1) }
    {
        within(self.letters.len() as u64 + 1, limit)?;
        self.letters.push(l)?;
        Ok(())
    }

    /// The letters of this word followed by those of the other.
    pub fn product(&self, alloc: Global, other: &Word, limit: u32) -> Result<Word, WordFault>
        ensures { MadeWithin limit (self.now ++ other.now) result }
    {
        let total = self.letters.len() as u64 + other.letters.len() as u64;
        let mut letters = Vec::with_capacity(alloc, within(total, limit)?)?;
        letters.extend_from_slice(&self.letters)?;
        letters.extend_from_slice(&other.letters)?;
        Ok(Word { letters })
    }

    /// Puts the letters of the other word at the end. An empty word takes the other's room.
    pub fn append(&mut self, other: Word) -> Result<(), AllocError>
        requires { length self.old + length other < 2 ^ 32 }
        ensures ok { OnOk result (self.new ≡ self.old ++ other) }
        ensures err { OnErr result (self.new ≡ self.old) }
    {
        if self.letters.is_empty() {
            self.letters = other.letters;
        } else {
            self.letters.extend_from_slice(&other.letters)?;
        }
        Ok(())
    }

    /// The inverse: the letters in reverse, each with the other sign.
    pub fn inverse(&self, alloc: Global) -> Result<Word, AllocError>
        ensures { IfOk result (λ w. w ≡ inverse self.now) }
    {
        Ok(Word {
            letters: inverse_of(alloc, &self.letters)?,
        })
    }

    /// The k-th power: so many copies of the word, or of its inverse where k is negative. The power 0 is the empty
    /// word.
    pub fn power(&self, alloc: Global, k: i32, limit: u32) -> Result<Word, WordFault>
        ensures { MadeWithin limit (power self.now k) result }
    {
        let times = k.unsigned_abs();
        if k < 0 {
            self.inverse(alloc)?.repeated(alloc, times, limit)
        } else {
            self.repeated(alloc, times, limit)
        }
    }

    /// So many copies, one after another.
    #[tactic(auto, using(crate::proofs::WordLemmas::length_copies))]
    pub fn repeated(&self, alloc: Global, times: u32, limit: u32) -> Result<Word, WordFault>
        ensures { MadeWithin limit (copies times self.now) result }
    {
        let total = times as u64 * self.letters.len() as u64;
        within(total, limit)?;
        let letters = repeated(alloc, &self.letters, times)?;
        Ok(Word { letters })
    }

    /// The commutator u v u^-1 v^-1 of this word u and the other, v.
    #[tactic(auto, using(crate::proofs::WordLemmas::length_commutator))]
    pub fn commutator(&self, alloc: Global, other: &Word, limit: u32) -> Result<Word, WordFault>
        ensures { MadeWithin limit (commutator self.now other.now) result }
    {
        let total = (self.letters.len() as u64 + other.letters.len() as u64) * 2;
        within(total, limit)?;
        let letters = commutator_of(alloc, &self.letters, &other.letters)?;
        Ok(Word { letters })
    }

    /// The freely reduced word: no letter stands beside its inverse.
    pub fn reduce(&self, alloc: Global) -> Result<Word, AllocError>
        ensures reduced { IfOk result (λ w. IsReduced w) }
        ensures same { IfOk result (λ w. Cancels self.now w) }
    {
        Ok(Word {
            letters: cancelled(alloc, &self.letters)?,
        })
    }

    /// The exponent sums: the entry at g is the number of letters (g, +1) less the number of letters (g, -1).
    pub fn exponents(&self) -> [i32; 24]
        requires known { IsOver GENERATORS self.now }
        requires short { length self.now ≤ COMPOSED }
        ensures whole { length result ≡ GENERATORS }
        ensures sums { (g : ℕ) → g < GENERATORS → slice_index_or result g (pos 0) ≡ exponent_sum g self.now }
    {
        exponents_of(&self.letters)
    }

    /// The length of the image under the substitution of the i-th word for the i-th generator. The image isn't reduced.
    pub fn substituted_len(&self, images: &[Word]) -> u64
        requires { IsOver (length images.now) self.now }
        ensures { result ≡ length (word_image images.now self.now) }
    {
        image_len(&self.letters, images)
    }

    /// The image under the substitution of the i-th word for the i-th generator. It isn't reduced.
    pub fn substitute(&self, alloc: Global, images: &[Word], limit: u32) -> Result<Word, WordFault>
        requires { IsOver (length images.now) self.now }
        ensures { MadeWithin limit (word_image images.now self.now) result }
    {
        let room = within(self.substituted_len(images), limit)?;
        let letters = image_of(alloc, &self.letters, images, room)?;
        Ok(Word { letters })
    }
}

/// This number of letters, where it is within the limit.
fn within(letters: u64, limit: u32) -> Result<usize, WordFault>
    ensures ok { IfOk result (λ n. (n ≡ letters) × (letters ≤ limit)) }
    ensures err { IfErr result (λ e. (e ≡ WordFault.TooLong letters) × (limit < letters)) }
{
    if letters > limit as u64 {
        return Err(WordFault::TooLong { letters });
    }
    Ok(letters as usize)
}
