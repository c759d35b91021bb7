//! Inverses, commutators and copies of lists of letters.

ghost use Rattle.std.specs.Prelude.{◌≡◌, ◌*◌, ◌<◌, ◌^◌, ◌++◌, length, IfOk, OnOk};
ghost use Rattle.free_words.specs.Words.{inverse, commutator, copies};

use crate::letter::Letter;
use std::alloc::{AllocError, Global};

/// So many copies, one after another. No time goes into copies of nothing, of which there may be 2^32.
#[tactic(auto, using(crate::proofs::WordLemmas::copies_of_nothing))]
pub fn repeated(alloc: Global, base: &[Letter], times: u32) -> Result<Vec<Letter>, AllocError>
    requires { times * length base.now < 2 ^ 32 }
    ensures { IfOk result (λ v. v.items ≡ copies times base.now) }
{
    if base.is_empty() {
        return Ok(Vec::new(alloc));
    }
    let mut letters = Vec::with_capacity(alloc, times as usize * base.len())?;
    for _i in 0..times {
        letters.extend_from_slice(base)?;
    }
    Ok(letters)
}

/// The inverse of these letters: their reverse, each with the other sign.
pub fn inverse_of(alloc: Global, u: &[Letter]) -> Result<Vec<Letter>, AllocError>
    ensures { IfOk result (λ v. v.items ≡ inverse u.now) }
{
    let mut letters = Vec::with_capacity(alloc, u.len())?;
    put_inverse(&mut letters, u)?;
    Ok(letters)
}

/// The commutator u v u^-1 v^-1.
pub fn commutator_of(alloc: Global, u: &[Letter], v: &[Letter]) -> Result<Vec<Letter>, AllocError>
    ensures { IfOk result (λ w. w.items ≡ commutator u.now v.now) }
{
    let half = u.len().saturating_add(v.len());
    let mut letters = Vec::with_capacity(alloc, half.saturating_mul(2))?;
    letters.extend_from_slice(u)?;
    letters.extend_from_slice(v)?;
    put_inverse(&mut letters, u)?;
    put_inverse(&mut letters, v)?;
    Ok(letters)
}

/// Puts the inverse of these letters at the end.
pub fn put_inverse(letters: &mut Vec<Letter>, u: &[Letter]) -> Result<(), AllocError>
    ensures { OnOk result (letters.new.items ≡ letters.old.items ++ inverse u.now) }
{
    letters.extend(u.iter().rev().map(|l| l.flip()))
}
