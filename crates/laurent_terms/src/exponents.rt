//! Loops over two lists of exponents. None leaves early, so that each compiles to a few vector instructions.

ghost use Rattle.std.specs.Prelude.{◌≡◌, ◌≤◌, ◌+◌, true};
ghost use Rattle.laurent_terms.specs.Monomials.{degree, product, quotient, common_multiple, divides};

use crate::{DEGREE, VARIABLES};

/// Whether each of `xs` is at most its counterpart.
pub fn every_at_most(xs: &[u16; VARIABLES], ys: &[u16; VARIABLES]) -> bool
    ensures { result ≡ divides xs.now ys.now }
{
    let mut all = true;
    for i in 0..VARIABLES {
        all &= xs[i] <= ys[i];
    }
    all
}

/// The sums, which stay in range since the degrees do.
pub fn sums(xs: &[u16; VARIABLES], ys: &[u16; VARIABLES]) -> [u16; VARIABLES]
    requires { degree xs.now + degree ys.now ≤ DEGREE }
    ensures is { result ≡ product xs.now ys.now }
    ensures degree { degree result ≡ degree xs.now + degree ys.now }
{
    let mut made = [0; VARIABLES];
    for i in 0..VARIABLES {
        made[i] = xs[i] + ys[i];
    }
    made
}

/// The differences, none of which falls below 0.
pub fn differences(xs: &[u16; VARIABLES], ys: &[u16; VARIABLES]) -> [u16; VARIABLES]
    requires { divides ys.now xs.now ≡ true }
    ensures is { result ≡ quotient xs.now ys.now }
    ensures degree { degree result + degree ys.now ≡ degree xs.now }
{
    let mut made = [0; VARIABLES];
    for i in 0..VARIABLES {
        made[i] = xs[i] - ys[i];
    }
    made
}

/// The greater of each two.
pub fn greater(xs: &[u16; VARIABLES], ys: &[u16; VARIABLES]) -> [u16; VARIABLES]
    ensures { result ≡ common_multiple xs.now ys.now }
{
    let mut made = [0; VARIABLES];
    for i in 0..VARIABLES {
        made[i] = xs[i].max(ys[i]);
    }
    made
}

/// What the exponents add up to.
pub fn total(xs: &[u16; VARIABLES]) -> u32
    ensures { result ≡ degree xs.now }
{
    let mut total = 0;
    for x in xs {
        total += u32::from(*x);
    }
    total
}
