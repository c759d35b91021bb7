//! Divisors of the least common multiple of two lead coefficients.

ghost use Rattle.std.specs.Int.{IsGcd};
ghost use Rattle.std.specs.Prelude.{◌≡◌, ◌↔◌, ℤ, pos, ◌<ℤ◌, ◌*ℤ◌, unsigned_abs, IsTrue};
ghost use Rattle.chain_rule.specs.Chaining.{DividesMultiple};

use laurent_terms::bezout;
use strong_pairs::divides;

/// Whether a lead coefficient divides the least common multiple of two others, which may leave the range. It does
/// exactly where its part that is not in the second one divides the part of the first that is not in the second.
pub fn divides_multiple(by: i128, first: i128, second: i128) -> bool
    requires by { pos 0 <ℤ by }
    requires first { pos 0 <ℤ first }
    requires second { pos 0 <ℤ second }
    ensures { IsTrue result ↔ DividesMultiple by first second }
{
    divides(part_beside(by, second), part_beside(first, second))
}

/// The quotient of k by its greatest common divisor with l.
fn part_beside(k: i128, l: i128) -> i128
    requires k { pos 0 <ℤ k }
    requires l { pos 0 <ℤ l }
    ensures positive { pos 0 <ℤ result }
    ensures is { (d : ℤ) × (pos 0 <ℤ d) × IsGcd (unsigned_abs k) (unsigned_abs l) (unsigned_abs d) × (k ≡ result *ℤ d) }
{
    let (divisor, _, _) = bezout(k, l);
    k / divisor
}
