//! Free reduction: leaving out pairs of a letter and its inverse.

ghost use Rattle.std.specs.Prelude.{◌≡◌, ◌+◌, ◌≤◌, ◌++◌, ◌∷◌, [], List, length, IfOk, OnOk, IsTrue, ◌↔◌};
ghost use Rattle.free_words.specs.declared.letter.Letter.{Letter};
ghost use Rattle.free_words.specs.Words.{flipped, IsReduced, Cancels};

use crate::letter::Letter;
use std::alloc::{AllocError, Global};

/// The letters that stay when each letter goes with its inverse before it.
pub fn cancelled(alloc: Global, word: &[Letter]) -> Result<Vec<Letter>, AllocError>
    ensures reduced { IfOk result (λ v. IsReduced v.items) }
    ensures same { IfOk result (λ v. Cancels word.now v.items) }
    ensures no_longer { IfOk result (λ v. length v.items ≤ length word.now) }
{
    let mut letters = Vec::with_capacity(alloc, word.len())?;
    for l in word {
        put(&mut letters, *l)?;
    }
    Ok(letters)
}

/// Puts one more letter at the end, where it goes with its inverse.
#[tactic(auto, using(crate::proofs::WordLemmas::ends))]
fn put(letters: &mut Vec<Letter>, l: Letter) -> Result<(), AllocError>
    ensures reduced { OnOk result (IsReduced letters.old.items → IsReduced letters.new.items) }
    ensures same { OnOk result ((t w : List Letter) → Cancels (letters.new.items ++ t) w
        → Cancels (letters.old.items ++ l ∷ t) w) }
    ensures no_longer { OnOk result (length letters.new.items ≤ length letters.old.items + 1) }
{
    if ends_with_inverse(letters, l) {
        letters.pop();
    } else {
        letters.push(l)?;
    }
    Ok(())
}

/// Whether the last letter is the inverse of this one.
fn ends_with_inverse(letters: &[Letter], l: Letter) -> bool
    ensures { IsTrue result ↔ ((front : List Letter) × (letters.now ≡ front ++ flipped l ∷ [])) }
{
    match letters.last() {
        Some(last) => *last == l.flip(),
        None => false,
    }
}
