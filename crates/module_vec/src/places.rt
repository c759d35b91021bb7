//! Places, and coefficients at them.

ghost use Rattle.std.specs.Prelude.{◌≡◌};
ghost use Rattle.module_vec.specs.Places.{place_cmp};

use laurent_terms::Mono;
use std::cmp::Ordering;

/// A monomial and a component, the number of a generator. Places are ordered by the monomial and then by the component.
#[derive(Clone, Copy, PartialEq, Eq, PartialOrd, Ord)]
pub struct Place {
    pub m: Mono,
    pub c: u8,
}

/// The coefficient `k` at the place `at`.
#[derive(Clone, Copy, PartialEq, Eq)]
pub struct Term {
    pub at: Place,
    pub k: i128,
}

impl Place {
    /// The stated order: the greater monomial, and at one monomial the greater component.
    #[inline]
    pub fn compare(&self, other: &Place) -> Ordering
        ensures { result ≡ place_cmp self.now other.now }
    {
        // Most comparisons end at the degree.
        match self.m.degree().cmp(&other.m.degree()) {
            Ordering::Equal if self == other => Ordering::Equal,
            Ordering::Equal => self.cmp(other),
            unequal => unequal,
        }
    }
}
