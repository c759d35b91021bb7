//! Euclid's algorithm with the factors that give the greatest common divisor.

ghost use Rattle.std.specs.Prelude.{◌≡◌, ◌<◌, ◌≤◌, ◌*◌, ℤ, pos, ◌+ℤ◌, ◌*ℤ◌, ◌<ℤ◌, ◌≤ℤ◌, unsigned_abs};
ghost use Rattle.laurent_terms.specs.Factors.{IsBezout, IsFactors};

/// `first * a - second * b` is `divisor`, the greatest common divisor of `a` and `b`. Neither factor is greater than
/// the other number's quotient by it.
#[derive(Clone, Copy)]
struct Factors {
    divisor: u128,
    first: u128,
    second: u128,
}

/// The greatest common divisor d of both numbers, and u and v with u·c1 + v·c2 = d, where u is the least number from 0
/// on for which there is such a v.
pub fn bezout(c1: i128, c2: i128) -> (i128, i128, i128)
    requires c1 { pos 0 <ℤ c1 }
    requires c2 { pos 0 <ℤ c2 }
    ensures { IsBezout c1 c2 result.0 result.1 result.2 }
{
    let (a, b) = (c1.unsigned_abs(), c2.unsigned_abs());
    let factors = gcd_factors(a, b);
    if factors.divisor == b {
        return (c2, 0, 1);
    }
    let second = factors.second as i128;
    (factors.divisor as i128, factors.first as i128, -second)
}

fn gcd_factors(a: u128, b: u128) -> Factors
    requires a { 0 < a }
    requires b { 0 < b }
    ensures { IsFactors a b result.divisor result.first result.second }
{
    let rest = a % b;
    if rest == 0 {
        return Factors {
            divisor: b,
            first: 1,
            second: a / b - 1,
        };
    }
    let inner = gcd_factors(b, rest);
    // first' * b - second' * rest = divisor, and rest is a - (a / b) * b.
    let first = b / inner.divisor - inner.second;
    let second = a / b * first + (rest / inner.divisor - inner.first);
    Factors {
        divisor: inner.divisor,
        first,
        second,
    }
}
