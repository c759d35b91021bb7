//! `Mono`: a monomial in 48 variables, with its degree beside the exponents.

ghost use Rattle.std.specs.Prelude.{◌≡◌, ◌<◌, ◌≤◌, ◌+◌, ◌*◌, length, slice_index, true, sum_by, unsigned_abs, IfSome};
ghost use Rattle.laurent_terms.specs.Monomials.{one, variable, variable_of, degree, product, quotient, common_multiple};
ghost use Rattle.laurent_terms.specs.Monomials.{divides, mono_cmp, MadeWithin, IsMonomial, monomial_of};

use crate::exponents::{differences, every_at_most, greater, sums, total};
use crate::integers::{absolute_total, both_parts};
use crate::{DEGREE, VARIABLES};
use std::cmp::Ordering;
use std::marker::Model;

/// A monomial, ordered by its degree and then by its exponents, the first that differs.
///
/// Its exponents add up to at most [`DEGREE`], and contracts see it as their list.
#[derive(Clone, Copy, PartialEq, Eq, PartialOrd, Ord)]
pub struct Mono {
    // Beside the exponents, since most comparisons end there. The order of the fields is that of the comparison.
    total: u32,
    exponents: [u16; VARIABLES],
}

impl Model for Mono {
    ghost use Rattle.std.specs.Prelude.{List, ℕ, ◌≡◌};
    ghost use Rattle.std.proofs.Common.{ap};
    ghost use Rattle.laurent_terms.specs.Monomials.{degree, IsMonomial};

    ghost Value = { List ℕ };

    ghost view = { λ m. m.exponents };

    ghost invariant = { λ m. (degree m.exponents ≡ m.total) × IsMonomial m.exponents };

    ghost inverse = { λ s. record { exponents = s; total = degree s } };

    ghost inverse_ok = { λ m h. ap (λ d. record { exponents = m.exponents; total = d }) h.0 };
}

impl Mono {
    /// The monomial without a variable, of degree 0.
    pub fn one() -> Mono
        ensures is { result ≡ one }
        ensures monomial { IsMonomial result }
    {
        Mono {
            total: 0,
            exponents: [0; VARIABLES],
        }
    }

    /// The variable x_g, or where not `positive` y_g, which stands for the inverse of x_g. There are 24 generators.
    pub fn of_generator(g: u8, positive: bool) -> Mono
        requires { 2 * g < VARIABLES }
        ensures is { result ≡ variable (variable_of g positive) }
        ensures monomial { IsMonomial result }
    {
        let mut exponents = [0; VARIABLES];
        exponents[variable_of(g, positive)] = 1;
        Mono {
            total: 1,
            exponents,
        }
    }

    /// The monomial of an integer vector of at most 24 numbers: positive ones stand with x_g, and the absolute values
    /// of negative ones with y_g. `None` where the absolute values add up past [`DEGREE`].
    pub fn of_exponents(p: &[i32]) -> Option<Mono>
        requires { 2 * length p.now ≤ VARIABLES }
        ensures made { MadeWithin (sum_by unsigned_abs p.now) (monomial_of p.now) result }
        ensures monomial { IfSome result IsMonomial }
    {
        let total = absolute_total(p);
        if total > u64::from(DEGREE) {
            return None;
        }
        Some(Mono {
            total: total as u32,
            exponents: both_parts(p),
        })
    }

    /// The monomial with these exponents, which add up to at most [`DEGREE`].
    pub fn of_variables(exponents: &[u16; VARIABLES]) -> Mono
        requires { degree exponents.now ≤ DEGREE }
        ensures is { result ≡ exponents.now }
        ensures monomial { IsMonomial result }
    {
        Mono {
            total: total(exponents),
            exponents: *exponents,
        }
    }

    /// The exponents of all variables.
    pub fn exponents(&self) -> &[u16; VARIABLES]
        ensures is { result.now ≡ self.now }
        ensures monomial { IsMonomial self.now }
    {
        &self.exponents
    }

    /// The exponent of the variable numbered `at`.
    pub fn exp(&self, at: u8) -> u16
        requires { at < VARIABLES }
        ensures { result ≡ slice_index self.now at }
    {
        self.exponents[at as usize]
    }

    /// The sum of the exponents.
    pub fn degree(&self) -> u32
        ensures is { result ≡ degree self.now }
        ensures monomial { IsMonomial self.now }
    {
        self.total
    }

    /// What holds of every monomial: it has 48 exponents, which add up to at most [`DEGREE`].
    pub fn known(&self)
        ensures { IsMonomial self.now }
    {
        let _total = &self.total;
    }

    /// Whether no exponent of `self` is above that of `other`.
    pub fn divides(&self, other: &Mono) -> bool
        ensures { result ≡ divides self.now other.now }
    {
        every_at_most(&self.exponents, &other.exponents)
    }

    /// `self` divided by `by`, which divides it.
    pub fn quotient(&self, by: &Mono) -> Mono
        requires { divides by.now self.now ≡ true }
        ensures is { result ≡ quotient self.now by.now }
        ensures monomial { IsMonomial result }
        ensures degree { degree result + degree by.now ≡ degree self.now }
    {
        let exponents = differences(&self.exponents, &by.exponents);
        Mono {
            total: self.total - by.total,
            exponents,
        }
    }

    /// The stated order: the greater degree, and at one degree the greater exponent at the first variable where the
    /// exponents differ.
    pub fn compare(&self, other: &Mono) -> Ordering
        ensures { result ≡ mono_cmp self.now other.now }
    {
        // Most monomials differ in degree, and then no exponent is looked at.
        match self.total.cmp(&other.total) {
            Ordering::Equal => self.cmp(other),
            unequal => unequal,
        }
    }

    /// The degree of the least common multiple, which may pass [`DEGREE`].
    pub fn lcm_degree(&self, other: &Mono) -> u32
        ensures { result ≡ degree (common_multiple self.now other.now) }
    {
        total(&greater(&self.exponents, &other.exponents))
    }

    /// The least common multiple, or `None` where its degree passes [`DEGREE`].
    pub fn lcm(&self, other: &Mono) -> Option<Mono>
        ensures made { let multiple = common_multiple self.now other.now in
            MadeWithin (degree multiple) multiple result }
        ensures monomial { IfSome result IsMonomial }
    {
        let exponents = greater(&self.exponents, &other.exponents);
        let total = total(&exponents);
        if total > DEGREE {
            return None;
        }
        Some(Mono { total, exponents })
    }

    /// The product, or `None` where the degrees add up past [`DEGREE`].
    pub fn times(&self, other: &Mono) -> Option<Mono>
        ensures made { MadeWithin (degree self.now + degree other.now) (product self.now other.now) result }
        ensures monomial { IfSome result IsMonomial }
    {
        if self.total + other.total > DEGREE {
            return None;
        }
        Some(self.product(other))
    }

    /// The product, where the caller knows that its degree is in range.
    pub fn product(&self, other: &Mono) -> Mono
        requires { degree self.now + degree other.now ≤ DEGREE }
        ensures is { result ≡ product self.now other.now }
        ensures monomial { IsMonomial result }
        ensures degree { degree result ≡ degree self.now + degree other.now }
    {
        Mono {
            total: self.total + other.total,
            exponents: sums(&self.exponents, &other.exponents),
        }
    }
}

/// The number of the variable x_g, or where not `positive` of y_g.
fn variable_of(g: u8, positive: bool) -> usize
    requires { 2 * g < VARIABLES }
    ensures is { result ≡ variable_of g positive }
    ensures below { result < VARIABLES }
{
    let first = 2 * usize::from(g);
    if positive { first } else { first + 1 }
}
