//! `Handed`: what is handed to entries.

ghost use Rattle.std.specs.Prelude.{◌≡◌, ◌≢◌, ◌+◌, ◌<◌, ◌^◌, [], ◌∷◌, pos, IfOk};
ghost use Rattle.std.specs.List.{AllByRecursion};
ghost use Rattle.formal_sums.specs.Span.{multiple};
ghost use Rattle.module_vec.specs.Places.{moved};
ghost use Rattle.flat_cert.specs.Images.{flat_image};
ghost use Rattle.flat_cert.specs.Adding.{sum_at, Adds};
ghost use Rattle.flat_making.specs.Handing.{steps_sum, IsRow};
ghost use Rattle.std.specs.BTreeMap.{IsOrdered};
ghost use Rattle.flat_making.specs.Pairs.{row_of, IsShare, pair_cmp, between_entry, shares_of};

use flat_cert::{FlatFault, PLACES, Total, flat_product, total_with};
use laurent_terms::Mono;
use module_vec::{Step, checked_product};
use std::alloc::{AllocError, Global};
use std::collections::BTreeMap;
use std::marker::Model;

/// An entry, and a flat monomial. Pairs are ordered by the entry first.
#[derive(Clone, Copy, PartialEq, Eq, PartialOrd, Ord)]
struct Pair {
    entry: usize,
    t: Mono,
}

/// What an entry has at a monomial.
#[derive(Clone, Copy)]
pub struct Share {
    pub k: i128,
    pub t: Mono,
}

/// What is handed to entries, added up for each pair of an entry and a flat monomial, within the limits of
/// [`FlatFault::Beyond`]. Contracts see a pair as a place: its monomial, with the entry's number as the component.
#[derive(Drop)]
pub struct Handed {
    pairs: BTreeMap<Pair, Total>,
}

impl Model for Handed {
    ghost use Rattle.std.specs.Prelude.{List};
    ghost use Rattle.module_vec.specs.declared.places.Place.{Place};
    ghost use Rattle.flat_cert.specs.declared.totals.Total.{Total};
    ghost use Rattle.flat_cert.specs.Adding.{AreTotals};
    ghost use Rattle.flat_making.specs.Pairs.{places_of};

    ghost Value = { List (Place × Total) };

    ghost view = { λ h. places_of h.pairs.entries };

    ghost invariant = { λ h. AreTotals (places_of h.pairs.entries) };
}

impl Handed {
    /// Nothing is handed to any entry.
    pub fn new(alloc: Global) -> Handed
        ensures { result ≡ [] }
    {
        Handed {
            pairs: BTreeMap::new(alloc),
        }
    }

    /// Hands `k` to the entry at the monomial.
    fn hand(&mut self, entry: usize, t: Mono, k: i128) -> Result<(), FlatFault>
        requires { k ≢ pos 0 }
        ensures { Adds self.old ((k, record { m = t; c = entry }) ∷ []) self.new result }
    {
        let at = Pair { entry, t };
        let before = self.pairs.get(&at).copied();
        if before.is_none() && self.pairs.len() >= PLACES as usize {
            return Err(FlatFault::Beyond);
        }
        let Some(after) = total_with(before, k) else {
            return Err(FlatFault::Beyond);
        };
        self.pairs.insert(at, after)?;
        Ok(())
    }

    /// Where something has `k` at `t`, hands it on by the steps: to the entry that a step names, `k` times its number
    /// at the product of the monomials.
    pub fn hand_on(&mut self, k: i128, t: &Mono, steps: &[Step]) -> Result<(), FlatFault>
        requires nonzero { k ≢ pos 0 }
        requires steps { AllByRecursion (λ s. s.q ≢ pos 0) steps.now }
        ensures { Adds self.old (flat_image (multiple moved k t.now (steps_sum steps.now))) self.new result }
    {
        for step in steps {
            let Some(m) = flat_product(t, &step.t) else {
                return Err(FlatFault::Beyond);
            };
            let Some(product) = checked_product(k, step.q) else {
                return Err(FlatFault::Beyond);
            };
            self.hand(step.by as usize, m, product)?;
        }
        Ok(())
    }

    /// What the entry has, by falling monomials, and none of it 0.
    pub fn row(&self, alloc: Global, entry: usize) -> Result<Vec<Share>, AllocError>
        requires { entry + 1 < 2 ^ 64 }
        ensures is { IfOk result (λ row. IsRow (sum_at self.now) entry (row_of entry row.items)) }
        ensures shares { IfOk result (λ row. AllByRecursion IsShare row.items) }
    {
        let mut row = shares(alloc, &self.pairs, entry)?;
        row.reverse();
        Ok(row)
    }
}

/// What the entry has, by rising monomials, and none of it 0.
fn shares(
    alloc: Global,
    pairs: &BTreeMap<Pair, Total>,
    entry: usize,
) -> Result<Vec<Share>, AllocError>
    requires { entry + 1 < 2 ^ 64 }
    ensures is { IfOk result (λ made. made.items ≡ shares_of (between_entry entry pairs.now.entries)) }
    ensures ordered { IsOrdered pair_cmp pairs.now }
{
    let t = Mono::one();
    let first = Pair { entry, t };
    let next = Pair {
        entry: entry + 1,
        t,
    };
    let mut made = Vec::new(alloc);
    for (at, total) in pairs.range(first..next) {
        if total.sum != 0 {
            made.push(Share {
                k: total.sum,
                t: at.t,
            })?;
        }
    }
    Ok(made)
}
