//! What one move puts in or takes out: first its length, then, where it is short enough, its letters.

ghost use Rattle.std.specs.Prelude.{◌≡◌, ◌<◌, ◌≤◌, ◌+◌, ◌*◌, ◌^◌, ◌++◌, ◌∷◌, [], length, Ok, Err, OnOk, IfOk};
ghost use Rattle.std.specs.Prelude.{MatchResult};
ghost use Rattle.free_words.specs.Words.{flipped, inverse, commutator, copies};
ghost use Rattle.std.specs.Option.{option_copied};
ghost use Rattle.derivation.specs.Making.{IsInsertOver, piece_of, relator_at};
ghost use Rattle.derivation.specs.Pieces.{letters_of, IsCountable};

use crate::moves::{Insert, MoveReason};
use free_words::{Letter, Word};
use presentation::Presentation;
use std::alloc::AllocError;

/// The words that a piece is made of.
#[derive(Drop)]
pub enum Piece<'a> {
    Pair(Letter),
    Relator(&'a Word),
    InverseRelator(&'a Word),
    Double(&'a Word, &'a Word, &'a Word, &'a Word),
    /// The commutator of the two words, so many times.
    Power(&'a Word, &'a Word, u32),
}

/// The relator of that number, from 1.
fn find_relator(relators: &[Word], number: u32) -> Option<&Word>
    ensures { option_copied result ≡ relator_at relators.now number }
{
    let at = number.checked_sub(1)?;
    relators.get(at as usize)
}

/// The piece that a move names, or why the presentation has none.
pub fn find_piece<'a>(p: &'a Presentation, what: &'a Insert) -> Result<Piece<'a>, MoveReason>
    requires { IsInsertOver p.now what.now }
    ensures piece { MatchResult result (λ x. piece_of p.now what.now
        ≡ Ok (letters_of x)) (λ e. piece_of p.now what.now ≡ Err e) }
    ensures countable { IfOk result IsCountable }
{
    match what {
        Insert::Pair(x) => Ok(Piece::Pair(*x)),
        Insert::Rel { relator, inverse } => {
            let found = find_relator(p.relators(), *relator).ok_or(MoveReason::NoRelator)?;
            if *inverse {
                Ok(Piece::InverseRelator(found))
            } else {
                Ok(Piece::Relator(found))
            }
        }
        Insert::Dbl(a, b, c, d) => Ok(Piece::Double(a, b, c, d)),
        Insert::Pow(a, b) => match p.modulus() {
            0 => Err(MoveReason::NoModulus),
            times => Ok(Piece::Power(a, b, times)),
        },
    }
}

impl Piece<'_> {
    /// The number of letters, which may be far more than memory holds.
    #[tactic(auto, using(crate::proofs::PieceLemmas::length_times))]
    pub fn len(&self) -> u64
        requires { IsCountable self.now }
        ensures length { result ≡ length (letters_of self.now) }
        ensures small { result < 2 ^ 60 }
    {
        match self {
            Piece::Pair(_) => 2,
            Piece::Relator(r) | Piece::InverseRelator(r) => r.len() as u64,
            Piece::Double(a, b, c, d) => (commutator_len(a, b) + commutator_len(c, d)) * 2,
            Piece::Power(a, b, times) => commutator_len(a, b) * *times as u64,
        }
    }

    /// Puts the letters at the end of others.
    #[tactic(auto, using(crate::proofs::PieceLemmas::double_commutator))]
    pub fn put(&self, letters: &mut Vec<Letter>) -> Result<(), AllocError>
        ensures { OnOk result (letters.new.items ≡ letters.old.items ++ letters_of self.now) }
    {
        match self {
            Piece::Pair(x) => put_pair(*x, letters),
            Piece::Relator(r) => letters.extend_from_slice(r.letters()),
            Piece::InverseRelator(r) => put_inverse(r.letters(), letters),
            Piece::Double(a, b, c, d) => {
                put_commutator(a, b, letters)?;
                put_commutator(c, d, letters)?;
                put_commutator(b, a, letters)?;
                put_commutator(d, c, letters)
            }
            Piece::Power(a, b, times) => put_power(a, b, *times, letters),
        }
    }
}

/// The length of the commutator of two words.
#[tactic(auto, using(free_words::proofs::WordLemmas::length_commutator))]
fn commutator_len(a: &Word, b: &Word) -> u64
    ensures length { result ≡ length (commutator a.now b.now) }
    ensures twice { result ≡ (length a.now + length b.now) * 2 }
    ensures small { result < 2 ^ 34 }
{
    (a.len() as u64 + b.len() as u64) * 2
}

fn put_pair(x: Letter, letters: &mut Vec<Letter>) -> Result<(), AllocError>
    ensures { OnOk result (letters.new.items ≡ letters.old.items ++ x ∷ flipped x ∷ []) }
{
    letters.push(x)?;
    letters.push(x.flip())?;
    Ok(())
}

#[tactic(auto, using(crate::proofs::Inverses::inverse_push))]
fn put_inverse(word: &[Letter], letters: &mut Vec<Letter>) -> Result<(), AllocError>
    ensures { OnOk result (letters.new.items ≡ letters.old.items ++ inverse word.now) }
{
    let mut left = word;
    while let Some((last, rest)) = left.split_last() {
        letters.push(last.flip())?;
        left = rest;
    }
    Ok(())
}

fn put_commutator(a: &Word, b: &Word, letters: &mut Vec<Letter>) -> Result<(), AllocError>
    ensures { OnOk result (letters.new.items ≡ letters.old.items ++ commutator a.now b.now) }
{
    letters.extend_from_slice(a.letters())?;
    letters.extend_from_slice(b.letters())?;
    put_inverse(a.letters(), letters)?;
    put_inverse(b.letters(), letters)
}

/// The commutator so many times. However often the empty word is taken, nothing is put.
#[tactic(auto, using(crate::proofs::PieceLemmas::nothing_put))]
fn put_power(a: &Word, b: &Word, times: u32, letters: &mut Vec<Letter>) -> Result<(), AllocError>
    ensures { OnOk result (letters.new.items ≡ letters.old.items ++ copies times (commutator a.now b.now)) }
{
    if commutator_len(a, b) == 0 {
        return Ok(());
    }
    for _i in 0..times {
        put_commutator(a, b, letters)?;
    }
    Ok(())
}
