//! A word with a gap in it, which goes to where letters are put in or taken out.

ghost use Rattle.std.specs.Prelude.{◌≡◌, ◌<◌, ◌≤◌, ◌+◌, ◌-◌, ◌^◌, ◌++◌, ◌↔◌, List, length, take, drop, IfOk, IsTrue};
ghost use Rattle.std.specs.Bool.{OnTrue, OnFalse};
ghost use Rattle.free_words.specs.declared.letter.Letter.{Letter};
ghost use Rattle.free_words.specs.declared.TheConstants.{COMPOSED};
ghost use Rattle.derivation.specs.Making.{TakesOut};

use free_words::{COMPOSED, Letter, Word};
use std::alloc::{AllocError, Global};
use std::marker::Model;

/// A word that is edited in place, seen as its letters: those before `start`, and those from `end` on. What lies
/// between is room. An edit moves the letters between its place and that of the edit before, and no others.
#[derive(Drop)]
pub struct GapWord {
    letters: Vec<Letter>,
    start: usize,
    end: usize,
}

impl Model for GapWord {
    ghost use Rattle.std.specs.Prelude.{◌<◌, ◌≤◌, ◌^◌, ◌++◌, ◌↔◌, List, take, drop, vec_len};
    ghost use Rattle.free_words.specs.declared.letter.Letter.{Letter};
    ghost use Rattle.free_words.specs.declared.TheConstants.{COMPOSED};

    ghost Value = { List Letter };

    ghost view = { λ w. take w.start w.letters.items ++ drop w.end w.letters.items };

    ghost invariant = { λ w. (w.start ≤ w.end) × (w.end ≤ vec_len w.letters) × (COMPOSED ≤ vec_len w.letters)
        × (vec_len w.letters < 2 ^ 32) };
}

impl GapWord {
    /// The word, with room for as many letters as a composed word may have.
    pub fn new(alloc: Global, w: &Word) -> Result<GapWord, AllocError>
        ensures { IfOk result (λ made. made ≡ w.now) }
    {
        let start = w.letters().len();
        let end = start.max(COMPOSED as usize);
        let mut letters = Vec::with_capacity(alloc, end)?;
        letters.extend_from_slice(w.letters())?;
        letters.resize(end, Letter { g: 0, inv: false })?;
        Ok(GapWord {
            letters,
            start,
            end,
        })
    }

    /// The number of letters.
    pub fn len(&self) -> usize
        ensures length { result ≡ length self.now }
        ensures small { result < 2 ^ 32 }
    {
        self.start + (self.letters.len() - self.end)
    }

    /// The word as it stands.
    pub fn into_word(self) -> Word
        ensures { result ≡ self }
    {
        let GapWord {
            mut letters,
            start,
            end,
        } = self;
        close_gap(&mut letters, start, end);
        Word::of(letters)
    }

    /// Puts letters in at a place.
    pub fn put_in(&mut self, at: usize, piece: &[Letter])
        requires at { at ≤ length self.old }
        requires room { length self.old + length piece.now ≤ COMPOSED }
        ensures { self.new ≡ take at self.old ++ (piece.now ++ drop at self.old) }
    {
        self.end = move_gap(&mut self.letters, self.start, self.end, at);
        write_at(&mut self.letters, at, piece);
        self.start = at + piece.len();
    }

    /// Takes these letters out from a place on, and says whether they stood there.
    #[tactic(auto, using(crate::proofs::GapLemmas::behind_gap))]
    pub fn take_out(&mut self, at: usize, piece: &[Letter]) -> bool
        requires { at ≤ length self.old }
        ensures there { OnTrue result (TakesOut at piece.now self.old self.new) }
        ensures not_there { OnFalse result ((back : List Letter) → drop at self.old ≡ piece.now ++ back → ⊥) }
        ensures same { OnFalse result (self.new ≡ self.old) }
    {
        self.end = move_gap(&mut self.letters, self.start, self.end, at);
        self.start = at;
        let there = begins_with(&self.letters[self.end..], piece);
        if there {
            self.end += piece.len();
        }
        there
    }
}

/// Moves the gap of these letters to a place of the word, and answers where it ends then.
#[tactic(auto, using(crate::proofs::GapLemmas::gap_goes_left, crate::proofs::GapLemmas::gap_goes_right))]
fn move_gap(letters: &mut [Letter], start: usize, end: usize, at: usize) -> usize
    requires ordered { start ≤ end }
    requires within { end ≤ length letters.old }
    requires at { at ≤ start + (length letters.old - end) }
    ensures length { length letters.new ≡ length letters.old }
    ensures gap { result + start ≡ end + at }
    ensures word { take at letters.new ++ drop result letters.new ≡ take start letters.old ++ drop end letters.old }
{
    if at < start {
        let to = end - (start - at);
        letters.copy_within(at..start, to);
        to
    } else {
        let to = end + (at - start);
        letters.copy_within(end..to, start);
        to
    }
}

/// Writes letters over those from a place on.
fn write_at(letters: &mut [Letter], at: usize, piece: &[Letter])
    requires { at + length piece.now ≤ length letters.old }
    ensures length { length letters.new ≡ length letters.old }
    ensures letters { letters.new ≡ take at letters.old ++ (piece.now ++ drop (at + length piece.now) letters.old) }
{
    letters[at..at + piece.len()].copy_from_slice(piece);
}

/// Takes the gap out of the letters.
fn close_gap(letters: &mut Vec<Letter>, start: usize, end: usize)
    requires { (start ≤ end) × (end ≤ length letters.old.items) }
    ensures { letters.new.items ≡ take start letters.old.items ++ drop end letters.old.items }
{
    let left = letters.len() - (end - start);
    letters[start..].rotate_left(end - start);
    letters.truncate(left);
}

/// Whether the letters begin with a piece.
#[tactic(auto, using(crate::proofs::Deciding::begins))]
fn begins_with(letters: &[Letter], piece: &[Letter]) -> bool
    ensures begins { IsTrue result ↔ ((back : List Letter) × (letters.now ≡ piece.now ++ back)) }
    ensures short { IsTrue result → length piece.now ≤ length letters.now }
{
    letters.starts_with(piece)
}
