//! `ModVec`: terms in strictly falling order.

ghost use Rattle.std.specs.Prelude.{◌≡◌, ◌↔◌, IsTrue, ℤ, negsuc, ◌*ℤ◌, ◌<◌, ◌^◌, length, [], slice_get};
ghost use Rattle.formal_sums.specs.FormalSum.{scale};
ghost use Rattle.module_vec.specs.Vectors.{sum_of, coefficient_at, multiple_at, difference_at, InRange, IsSparse};
ghost use Rattle.module_vec.specs.Vectors.{IsVector, HasRoom};
ghost use Rattle.module_vec.specs.Results.{SumIsWide, DifferenceIsWide, Makes};
ghost use Rattle.module_vec.specs.Merging.{IsLimited};
ghost use Rattle.module_vec.specs.Reducers.{IsEntry};

use crate::differences::difference;
use crate::falling::{coefficient, negate};
use crate::sums::sum;
use crate::{Place, Stop, TERMS, Term, VecFault};
use laurent_terms::{DEGREE, Mono};
use std::alloc::Global;
use std::marker::Model;

/// A vector: terms in strictly falling order of their places, with nonzero coefficients in range, at most
/// [`TERMS`](crate::TERMS) of them. The first term is the lead.
#[derive(Drop)]
pub struct ModVec {
    terms: Vec<Term>,
}

impl Model for ModVec {
    ghost use Rattle.std.specs.Prelude.{List};
    ghost use Rattle.module_vec.specs.declared.places.Term.{Term};
    ghost use Rattle.module_vec.specs.Vectors.{IsVector};

    ghost Value = { List Term };

    ghost view = { λ v. v.terms.items };

    ghost invariant = { λ v. IsVector v.terms.items };
}

impl ModVec {
    /// The vector without terms.
    pub fn empty(alloc: Global) -> ModVec
        ensures { result ≡ [] }
    {
        ModVec {
            terms: Vec::new(alloc),
        }
    }

    /// The vector with these terms.
    pub fn of_falling(terms: Vec<Term>) -> ModVec
        requires { IsVector terms.items }
        ensures { result ≡ terms.items }
    {
        ModVec { terms }
    }

    /// The terms, the lead first.
    pub fn terms(&self) -> &[Term]
        ensures is { result.now ≡ self.now }
        ensures vector { IsVector self.now }
    {
        self.terms.as_slice()
    }

    /// What holds of every vector: its terms fall strictly, none is zero, and there are at most
    /// [`TERMS`](crate::TERMS).
    pub fn known(&self)
        ensures { IsVector self.now }
    {
        let _terms = &self.terms;
    }

    /// The first term, at the greatest place. `None` exactly where the vector is empty.
    pub fn lead(&self) -> Option<Term>
        ensures { result ≡ slice_get self.now 0 }
    {
        self.terms.first().copied()
    }

    /// The coefficient at the place, 0 where the vector has no term there.
    pub fn coefficient(&self, at: &Place) -> i128
        ensures { result ≡ coefficient_at self.now at.now }
    {
        coefficient(self.terms.as_slice(), at)
    }

    /// Whether the multiple by `t` is in reach: the degrees of `t` and of the lead add up to at most
    /// [`DEGREE`](laurent_terms::DEGREE).
    pub fn has_room(&self, t: &Mono) -> bool
        ensures { IsTrue result ↔ HasRoom t.now self.now }
    {
        match self.terms.first() {
            Some(lead) => t.degree() + lead.at.m.degree() <= DEGREE,
            None => true,
        }
    }

    /// Whether the vector can be an entry of a list: it has a lead, with a positive coefficient.
    pub fn is_entry(&self) -> bool
        ensures { IsTrue result ↔ IsEntry self.now }
    {
        match self.terms.first() {
            Some(lead) => lead.k > 0,
            None => false,
        }
    }

    /// The sum of the terms, in any order and with any coefficients of 128 bits; there are fewer than 2^32 of them.
    ///
    /// `Wide` names the greatest place at which the whole sum leaves the range of coefficients, and `Long` comes where
    /// none does and the sum has more than [`TERMS`](crate::TERMS) terms.
    pub fn from_terms(alloc: Global, list: &[Term]) -> Result<ModVec, VecFault>
        requires { length list.now < 2 ^ 32 }
        ensures { let f = coefficient_at list.now in Makes (SumIsWide f) f result }
    {
        limited(sum(alloc, list)?)
    }

    /// Turns the sign of each coefficient.
    pub fn negate(&mut self)
        ensures { sum_of self.new ≡ scale (negsuc 0) (sum_of self.old) }
    {
        negate(self.terms.as_mut_slice());
    }

    /// `self - q·t·g`. The degree of t and the greatest degree in g add up to at most
    /// [`DEGREE`](laurent_terms::DEGREE).
    ///
    /// `Wide` names the greatest place at which a product or a difference leaves the range of coefficients, and `Long`
    /// comes where none does and the result has more than [`TERMS`](crate::TERMS) terms.
    pub fn sub_multiple(
        &self,
        alloc: Global,
        q: i128,
        t: &Mono,
        g: &ModVec,
    ) -> Result<ModVec, VecFault>
        requires range { InRange q }
        requires room { HasRoom t.now g.now }
        ensures { let f = coefficient_at self.now in
            let multiple = multiple_at q t.now g.now in
            Makes (DifferenceIsWide f multiple) (difference_at f multiple) result }
    {
        limited(difference(alloc, self.terms(), q, t, g.terms())?)
    }
}

/// The vector with these terms, where they are not too many.
fn limited(terms: Vec<Term>) -> Result<ModVec, VecFault>
    requires sparse { IsSparse terms.items }
    requires count { length terms.items < 2 ^ 32 }
    ensures { IsLimited terms.items result }
{
    let count = terms.len() as u32;
    if count > TERMS {
        return Err(VecFault::Stop(Stop::Long {
            terms: count,
            step: 0,
        }));
    }
    Ok(ModVec { terms })
}
