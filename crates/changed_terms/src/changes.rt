//! What changes where a multiple is taken from terms.

ghost use Rattle.std.specs.Prelude.{◌≡◌, ◌≤◌, ◌+◌, length, MatchResult};
ghost use Rattle.std.specs.List.{AllByRecursion};
ghost use Rattle.laurent_terms.specs.declared.TheConstants.{DEGREE};
ghost use Rattle.laurent_terms.specs.Monomials.{degree};
ghost use Rattle.module_vec.specs.Vectors.{coefficient_at, multiple_at, IsSparse};
ghost use Rattle.module_vec.specs.Results.{DifferenceIsWide};
ghost use Rattle.module_vec.specs.Merging.{Subtracts};
ghost use Rattle.changed_terms.specs.Changes.{AreChanges};
ghost use Rattle.changed_terms.specs.Taking.{CannotTake};

use crate::{ChangedTerms, TakeFault};
use laurent_terms::Mono;
use module_vec::{Place, Term, checked_difference, checked_product};
use std::alloc::Global;

/// A coefficient that changes.
#[derive(Clone, Copy)]
pub struct Change {
    pub at: Place,
    pub before: i128,
    pub after: i128,
}

/// What changes in the terms where `q·t·g` is taken from them. Nothing is written.
pub fn changes(
    alloc: Global,
    terms: &ChangedTerms<'_>,
    q: i128,
    t: &Mono,
    g: &[Term],
) -> Result<Vec<Change>, TakeFault>
    requires g { IsSparse g.now }
    requires room { AllByRecursion (λ u. degree t.now + degree u.at.m ≤ DEGREE) g.now }
    ensures { let f = coefficient_at terms.now in
        let multiple = multiple_at q t.now g.now in
        MatchResult result
        (λ made. AreChanges f multiple made.items × (length made.items ≡ length g.now))
        (CannotTake (DifferenceIsWide f multiple)) }
{
    terms.known();
    t.known();
    let mut made = Vec::with_capacity(alloc, g.len())?;
    for term in g {
        let at = Place {
            m: t.product(&term.at.m),
            c: term.at.c,
        };
        let before = terms.coefficient(&at);
        let Some(after) = reduced(before, q, term.k) else {
            return Err(TakeFault::Wide(at));
        };
        made.push(Change { at, before, after })?;
    }
    Ok(made)
}

/// `before - q * k`, or `None` where the product or the difference leaves the range.
pub fn reduced(before: i128, q: i128, k: i128) -> Option<i128>
    ensures { Subtracts before q k result }
{
    checked_difference(before, checked_product(q, k)?)
}
