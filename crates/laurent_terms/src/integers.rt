//! Integer vectors as exponents: a generator's number splits into the exponents of its two variables.

ghost use Rattle.std.specs.Prelude.{◌≡◌, ◌≤◌, ◌*◌, length, sum_by, unsigned_abs};
ghost use Rattle.laurent_terms.specs.Monomials.{degree, monomial_of};

use crate::{DEGREE, VARIABLES};

/// What the absolute values add up to.
pub fn absolute_total(p: &[i32]) -> u64
    requires { 2 * length p.now ≤ VARIABLES }
    ensures { result ≡ sum_by unsigned_abs p.now }
{
    let mut total = 0;
    for z in p {
        total += u64::from(z.unsigned_abs());
    }
    total
}

/// Positive numbers with x_g, and the absolute values of negative ones with y_g.
pub fn both_parts(p: &[i32]) -> [u16; VARIABLES]
    requires short { 2 * length p.now ≤ VARIABLES }
    requires small { sum_by unsigned_abs p.now ≤ DEGREE }
    ensures is { result ≡ monomial_of p.now }
    ensures degree { degree result ≡ sum_by unsigned_abs p.now }
{
    let mut made = [0; VARIABLES];
    for (g, z) in p.iter().enumerate() {
        let at = if *z < 0 { 2 * g + 1 } else { 2 * g };
        made[at] = z.unsigned_abs() as u16;
    }
    made
}
