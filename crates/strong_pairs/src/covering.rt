//! Entries that cover a pair.

ghost use Rattle.std.specs.Prelude.{◌≡◌, ◌≤◌, ◌↔◌, pos, ◌<ℤ◌, IsTrue, length};
ghost use Rattle.laurent_terms.specs.Monomials.{IsMonomial, common_multiple, divides};
ghost use Rattle.module_vec.specs.Vectors.{IsTerm};
ghost use Rattle.strong_pairs.specs.Covering.{CoversLeads, FindsCover};
ghost use Rattle.strong_pairs.specs.Pairs.{IsPair};

use crate::leads::{divides, lead};
use laurent_terms::{Mono, VARIABLES};
use module_vec::{Term, VecList};

/// The least number below `front` of an entry that covers the pair i, j, or `None` where none does.
///
/// An entry covers a pair of its lead's component where its lead coefficient divides the greatest common divisor of the
/// pair's lead coefficients, and its lead monomial the least common multiple of the pair's lead monomials.
pub fn covers<L: VecList>(list: &L, front: u32, i: u32, j: u32) -> Option<u32>
    requires pair { IsPair (L.vectors list.now) i j }
    requires front { front ≤ length (L.vectors list.now) }
    ensures { FindsCover (L.vectors list.now) front i j result }
{
    let first = lead(list, i);
    let second = lead(list, j);
    for k in 0..front {
        if covers_leads(&lead(list, k), &first, &second) {
            return Some(k);
        }
    }
    None
}

/// Whether an entry with the lead `by` covers a pair with these leads.
fn covers_leads(by: &Term, first: &Term, second: &Term) -> bool
    requires by { IsTerm by.now × (pos 0 <ℤ by.now.k) }
    requires first { IsTerm first.now × (pos 0 <ℤ first.now.k) }
    requires second { IsTerm second.now × (pos 0 <ℤ second.now.k) }
    ensures { IsTrue result ↔ CoversLeads by.now first.now second.now }
{
    by.at.c == first.at.c
        && divides_common_multiple(&by.at.m, &first.at.m, &second.at.m)
        && divides(by.k, first.k)
        && divides(by.k, second.k)
}

/// Whether `by` divides the least common multiple, whose degree may be out of reach. The loop doesn't leave early, so
/// that it compiles to a few vector instructions.
fn divides_common_multiple(by: &Mono, first: &Mono, second: &Mono) -> bool
    requires by { IsMonomial by.now }
    requires first { IsMonomial first.now }
    requires second { IsMonomial second.now }
    ensures { result ≡ divides by.now (common_multiple first.now second.now) }
{
    let mut all = true;
    for i in 0..VARIABLES as u8 {
        all &= by.exp(i) <= first.exp(i).max(second.exp(i));
    }
    all
}
