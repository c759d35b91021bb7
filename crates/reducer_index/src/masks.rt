//! Masks of monomials.

ghost use Rattle.std.specs.Prelude.{◌≡◌, ◌<◌};
ghost use Rattle.reducer_index.specs.Masks.{IsMask, IsMaskUpTo};

use laurent_terms::{Mono, VARIABLES};

/// The mask of a monomial: a bit for each of the 48 variables, whether it stands in the monomial, and one more for each
/// of the first 16, whether it stands there more than once. The mask of a divisor has no bit that the monomial's
/// hasn't.
// No bit is jumped over: a jump that is guessed wrong costs more than all of them.
pub fn mask(m: &Mono) -> u64
    ensures { IsMask m.now result }
{
    let mut mask = variables(m);
    for bit in VARIABLES as u8..64 {
        mask |= u64::from(m.exp(bit - VARIABLES as u8) > 1) << bit;
    }
    mask
}

/// The bits of the variables alone.
fn variables(m: &Mono) -> u64
    ensures { IsMaskUpTo VARIABLES m.now result }
{
    let mut mask = 0;
    for bit in 0..VARIABLES as u8 {
        mask |= u64::from(m.exp(bit) > 0) << bit;
    }
    mask
}
