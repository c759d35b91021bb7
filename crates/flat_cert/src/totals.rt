//! `Totals`: coefficients that are added up at flat places.

ghost use Rattle.std.specs.Prelude.{◌≡◌, ◌≢◌, ◌<◌, ◌+◌, [], ◌∷◌, pos, unsigned_abs, MatchOption};
ghost use Rattle.std.specs.List.{AllByRecursion};
ghost use Rattle.formal_sums.specs.Span.{multiple};
ghost use Rattle.module_vec.specs.declared.TheConstants.{COEFFICIENT};
ghost use Rattle.module_vec.specs.declared.places.Place.{Place};
ghost use Rattle.module_vec.specs.Places.{IsPlace, moved};
ghost use Rattle.module_vec.specs.Vectors.{sum_of, IsTerm, InRange};
ghost use Rattle.module_vec.specs.Results.{IsGreatest};
ghost use Rattle.flat_cert.specs.Images.{flat_image};
ghost use Rattle.flat_cert.specs.Adding.{sum_at, weight_in, Adds, IsSmall, IsWith};

use crate::PLACES;
use crate::faults::FlatFault;
use crate::products::flat_product;
use laurent_terms::Mono;
use module_vec::{COEFFICIENT, Place, Term, checked_product};
use std::alloc::Global;
use std::collections::BTreeMap;
use std::marker::Model;

/// What was added at one place.
#[derive(Clone, Copy)]
pub struct Total {
    pub sum: i128,
    /// What the absolute values add up to.
    pub weight: u128,
}

/// Coefficients, added up at each place, that stay within the limits of
/// [`FlatSumFault::Beyond`](crate::FlatSumFault::Beyond). Contracts see the places with what was added there.
#[derive(Drop)]
pub struct Totals {
    places: BTreeMap<Place, Total>,
}

impl Model for Totals {
    ghost use Rattle.std.specs.Prelude.{List};
    ghost use Rattle.module_vec.specs.declared.places.Place.{Place};
    ghost use Rattle.flat_cert.specs.declared.totals.Total.{Total};
    ghost use Rattle.flat_cert.specs.Adding.{AreTotals};

    ghost Value = { List (Place × Total) };

    ghost view = { λ t. t.places.entries };

    ghost invariant = { λ t. AreTotals t.places.entries };
}

impl Totals {
    /// Nothing at any place.
    pub fn new(alloc: Global) -> Totals
        ensures { result ≡ [] }
    {
        Totals {
            places: BTreeMap::new(alloc),
        }
    }

    /// Adds `k·t·g`, where x_g·y_g is 1. The numbers in `g` aren't 0.
    pub fn add_multiple(&mut self, k: i128, t: &Mono, g: &[Term]) -> Result<(), FlatFault>
        requires range { InRange k }
        requires nonzero { k ≢ pos 0 }
        requires terms { AllByRecursion IsTerm g.now }
        ensures { Adds self.old (flat_image (multiple moved k t.now (sum_of g.now))) self.new result }
    {
        for term in g {
            let Some(m) = flat_product(t, &term.at.m) else {
                return Err(FlatFault::Beyond);
            };
            let Some(product) = checked_product(k, term.k) else {
                return Err(FlatFault::Beyond);
            };
            self.add(Place { m, c: term.at.c }, product)?;
        }
        Ok(())
    }

    /// Adds one term.
    fn add(&mut self, at: Place, k: i128) -> Result<(), FlatFault>
        requires place { IsPlace at }
        requires nonzero { k ≢ pos 0 }
        ensures { Adds self.old ((k, at) ∷ []) self.new result }
    {
        let before = self.places.get(&at).copied();
        if before.is_none() && self.places.len() >= PLACES as usize {
            return Err(FlatFault::Beyond);
        }
        let Some(after) = total_with(before, k) else {
            return Err(FlatFault::Beyond);
        };
        self.places.insert(at, after)?;
        Ok(())
    }

    /// The greatest place where the sum isn't 0, or `None` where it is 0 everywhere.
    pub fn lead(self) -> Option<Place>
        ensures { MatchOption result ((x : Place) → sum_at self x ≡ pos 0)
            (IsGreatest (λ x. sum_at self x ≢ pos 0)) }
    {
        let mut places = self.places;
        while let Some((at, total)) = places.pop_last() {
            if total.sum != 0 {
                return Some(at);
            }
        }
        None
    }
}

/// What stands at a place where `k` is added, or `None` where the absolute values add up past [`COEFFICIENT`].
pub fn total_with(before: Option<Total>, k: i128) -> Option<Total>
    requires small { IsSmall before }
    ensures { MatchOption result (COEFFICIENT < weight_in before + unsigned_abs k) (IsWith before k) }
{
    let (sum, weight) = match before {
        Some(total) => (total.sum, total.weight),
        None => (0, 0),
    };
    let weight = weight + k.unsigned_abs();
    if weight > COEFFICIENT {
        return None;
    }
    Some(Total {
        sum: sum + k,
        weight,
    })
}
