//! Exponent sums.

ghost use Rattle.std.specs.Prelude.{◌≡◌, ◌<◌, ◌≤◌, ℕ, length, pos, negsuc, slice_index_or, if◌then◌else◌};
ghost use Rattle.free_words.specs.Words.{IsOver, exponent_sum};

use crate::letter::Letter;
use crate::{COMPOSED, GENERATORS};

/// The exponent sum of each generator.
pub fn exponents_of(word: &[Letter]) -> [i32; 24]
    requires known { IsOver GENERATORS word.now }
    requires short { length word.now ≤ COMPOSED }
    ensures whole { length result ≡ GENERATORS }
    ensures sums { (g : ℕ) → g < GENERATORS → slice_index_or result g (pos 0) ≡ exponent_sum g word.now }
{
    let mut sums = [0; 24];
    for l in word {
        sums[l.g as usize] += exponent(*l);
    }
    sums
}

/// 1 for a generator, -1 for its inverse.
fn exponent(l: Letter) -> i32
    ensures { result ≡ (if l.inv then negsuc 0 else pos 1) }
{
    if l.inv { -1 } else { 1 }
}
