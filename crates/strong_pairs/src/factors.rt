//! The factors of the two multiples of a pair.

ghost use Rattle.std.specs.Prelude.{pos, ◌<ℤ◌};
ghost use Rattle.module_vec.specs.Vectors.{InRange};
ghost use Rattle.strong_pairs.specs.Pairs.{AreFactors};

use crate::PairKind;
use laurent_terms::bezout;

/// The factors of two lead coefficients.
pub fn factors(kind: PairKind, first: i128, second: i128) -> (i128, i128)
    requires first { pos 0 <ℤ first }
    requires second { pos 0 <ℤ second }
    ensures are { AreFactors kind first second result.0 result.1 }
    ensures range { InRange result.0 × InRange result.1 }
{
    let (divisor, u, v) = bezout(first, second);
    match kind {
        PairKind::S => (second / divisor, -(first / divisor)),
        PairKind::G => (u, v),
    }
}
