//! Products and differences of coefficients, where they stay in range.

ghost use Rattle.std.specs.Prelude.{◌≡◌, ◌-ℤ◌, ◌*ℤ◌, MatchOption};
ghost use Rattle.module_vec.specs.Vectors.{InRange, IsWide};

use crate::COEFFICIENT;

/// The product of two numbers of this absolute value at most, 2^63 - 1, is in range.
const NARROW: u128 = 9_223_372_036_854_775_807;

/// The product, or `None` where it leaves the range of coefficients.
pub fn checked_product(a: i128, b: i128) -> Option<i128>
    ensures { MatchOption result (IsWide (a *ℤ b)) (λ z. (z ≡ a *ℤ b) × InRange z) }
{
    // Most factors are narrow, and their product needs no test.
    if a.unsigned_abs() <= NARROW && b.unsigned_abs() <= NARROW {
        return Some(a * b);
    }
    match a.checked_mul(b) {
        Some(z) if z.unsigned_abs() <= COEFFICIENT => Some(z),
        _ => None,
    }
}

/// The difference `a - b`, or `None` where it leaves the range of coefficients.
pub fn checked_difference(a: i128, b: i128) -> Option<i128>
    ensures { MatchOption result (IsWide (a -ℤ b)) (λ z. (z ≡ a -ℤ b) × InRange z) }
{
    match a.checked_sub(b) {
        Some(z) if z.unsigned_abs() <= COEFFICIENT => Some(z),
        _ => None,
    }
}
