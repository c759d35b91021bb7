//! `Sum`: a vector to which steps are added, or from which they are taken, one after another.

ghost use Rattle.std.specs.Prelude.{◌≡◌, ◌≢◌, [], slice_get, MatchOption};
ghost use Rattle.module_vec.specs.Vectors.{coefficient_at, multiple_at, InRange, HasRoom};
ghost use Rattle.module_vec.specs.Results.{IsGreatest};
ghost use Rattle.step_lists.specs.declared.way.Way.TheVariants.{Add, Take};
ghost use Rattle.step_lists.specs.Partial.{Combines, Differ, IsParting};

use crate::{SumFault, Way};
use changed_terms::ChangedTerms;
use laurent_terms::Mono;
use module_vec::{ModVec, Place, Step, TERMS, Term};
use std::alloc::Global;
use std::marker::Model;

/// A vector on the way through steps. A step takes time in proportion to the terms of the vector that it multiplies,
/// each with a logarithm. Contracts see the terms in falling order, as those of a vector.
#[derive(Drop)]
pub struct Sum<'a> {
    terms: ChangedTerms<'a>,
}

impl<'a> Model for Sum<'a> {
    ghost use Rattle.std.specs.Prelude.{List};
    ghost use Rattle.module_vec.specs.declared.places.Term.{Term};
    ghost use Rattle.module_vec.specs.Vectors.{IsVector};

    ghost Value = { List Term };

    ghost view = { λ s. s.terms };

    ghost invariant = { λ s. IsVector s.terms };
}

impl<'a> Sum<'a> {
    /// The sum from which a recipe starts, without terms.
    pub fn empty(alloc: Global) -> Sum<'a>
        ensures { result ≡ [] }
    {
        Sum {
            terms: ChangedTerms::new(alloc, &[]),
        }
    }

    /// The sum that is this vector.
    pub fn of(alloc: Global, vector: &'a ModVec) -> Sum<'a>
        ensures { result ≡ vector.now }
    {
        Sum {
            terms: ChangedTerms::new(alloc, vector.terms()),
        }
    }

    /// The sum less `q·t·g`. The degree of t and the greatest degree in g add up to at most
    /// [`DEGREE`](laurent_terms::DEGREE).
    pub fn take(self, alloc: Global, q: i128, t: &Mono, g: &ModVec) -> Result<Sum<'a>, SumFault>
        requires range { InRange q }
        requires room { HasRoom t.now g.now }
        ensures { Combines Take (coefficient_at self.entry) (multiple_at q t.now g.now) result }
    {
        let mut terms = self.terms;
        terms.take(alloc, q, t, g.terms())?;
        if terms.len() > TERMS as usize {
            return Err(SumFault::Long);
        }
        Ok(Sum { terms })
    }

    /// The sum and `q·t·g`. The degree of t and the greatest degree in g add up to at most
    /// [`DEGREE`](laurent_terms::DEGREE).
    pub fn add(self, alloc: Global, q: i128, t: &Mono, g: &ModVec) -> Result<Sum<'a>, SumFault>
        requires range { InRange q }
        requires room { HasRoom t.now g.now }
        ensures { Combines Add (coefficient_at self.entry) (multiple_at q t.now g.now) result }
    {
        self.take(alloc, -q, t, g)
    }

    /// The sum with the step added to it, or taken from it, where `g` is the vector that the step names.
    pub fn pass(self, alloc: Global, way: Way, step: &Step, g: &ModVec) -> Result<Sum<'a>, SumFault>
        requires range { InRange step.now.q }
        requires room { HasRoom step.now.t g.now }
        ensures { Combines way (coefficient_at self.entry) (multiple_at step.now.q step.now.t g.now) result }
    {
        match way {
            Way::Add => self.add(alloc, step.q, &step.t, g),
            Way::Take => self.take(alloc, step.q, &step.t, g),
        }
    }

    /// The greatest place at which the sum differs from the vector. `None` exactly where they are equal.
    pub fn difference(self, v: &ModVec) -> Option<Place>
        ensures { MatchOption result (self.entry ≡ v.now) (IsGreatest (Differ self.entry v.now)) }
    {
        let mut terms = self.terms;
        for term in v.terms() {
            let parting = parting(terms.pop(), term);
            if parting.is_some() {
                return parting;
            }
        }
        let top = terms.pop()?;
        Some(top.at)
    }

    /// The greatest place at which the sum isn't 0. `None` exactly where it is zero everywhere.
    pub fn lead(self) -> Option<Place>
        ensures { MatchOption result (self.entry ≡ []) (IsGreatest (Differ self.entry [])) }
    {
        let mut terms = self.terms;
        let top = terms.pop()?;
        Some(top.at)
    }
}

/// The greatest place at which falling terms differ that begin with these two. `None` where the first terms are equal.
fn parting(ours: Option<Term>, theirs: &Term) -> Option<Place>
    ensures { MatchOption result (ours ≡ Some theirs.now) (IsParting ours theirs.now) }
{
    let Some(first) = ours else {
        return Some(theirs.at);
    };
    if first == *theirs {
        return None;
    }
    if first.at.compare(&theirs.at).is_lt() {
        return Some(theirs.at);
    }
    Some(first.at)
}
