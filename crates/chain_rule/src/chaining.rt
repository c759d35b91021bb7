//! The test of a pair and a third entry.

ghost use Rattle.std.specs.Prelude.{◌≡◌, ◌≢◌, ◌<◌, ◌↔◌, pos, ◌<ℤ◌, IsTrue, length};
ghost use Rattle.module_vec.specs.Vectors.{IsTerm};
ghost use Rattle.outcomes.specs.declared.kinds.PairKind.TheVariants.{S};
ghost use Rattle.strong_pairs.specs.Pairs.{IsPair};
ghost use Rattle.strong_pairs.specs.Tasks.{IsClosed};
ghost use Rattle.chain_rule.specs.ClosedPairs.{IsAmong, AreClosedPairs};
ghost use Rattle.chain_rule.specs.Chaining.{ChainsLeads, IsChained};

use crate::Shut;
use crate::coefficients::divides_multiple;
use module_vec::{Term, VecList};
use strong_pairs::lead;

/// Whether the S task of a pair of entries, i below j, is closed through the entry `by`, a third one: its lead divides
/// the least common multiple of the leads of the pair, monomial and coefficient, the degree of this multiple is at most
/// [`DEGREE`](laurent_terms::DEGREE), and `by` makes one of the pairs of `shut` with both entries.
pub fn chained<L: VecList, H: Shut>(list: &L, shut: &H, i: u32, j: u32, by: u32) -> bool
    requires pair { IsPair (L.vectors list.now) i j }
    requires same { H.vectors shut.now ≡ L.vectors list.now }
    ensures exact { IsTrue result ↔ IsChained (L.vectors list.now) (H.pairs shut.now) i j by }
    ensures closed { IsTrue result → IsClosed (L.vectors list.now) S i j }
{
    if !is_third(list.count(), i, j, by) {
        return false;
    }
    if !chains_leads(&lead(list, by), &lead(list, i), &lead(list, j)) {
        return false;
    }
    with_both(shut, i, j, by)
}

/// Whether a number below `count` is neither of two others.
fn is_third(count: u32, i: u32, j: u32, by: u32) -> bool
    ensures { IsTrue result ↔ ((by < count) × (by ≢ i) × (by ≢ j)) }
{
    by < count && by != i && by != j
}

/// Whether the lead `by` divides the least common multiple of two leads of one component.
fn chains_leads(by: &Term, first: &Term, second: &Term) -> bool
    requires by { IsTerm by.now × (pos 0 <ℤ by.now.k) }
    requires first { IsTerm first.now × (pos 0 <ℤ first.now.k) }
    requires second { IsTerm second.now × (pos 0 <ℤ second.now.k) }
    ensures { IsTrue result ↔ ChainsLeads by.now first.now second.now }
{
    let Some(multiple) = first.at.m.lcm(&second.at.m) else {
        return false;
    };
    by.at.c == first.at.c && by.at.m.divides(&multiple) && divides_multiple(by.k, first.k, second.k)
}

/// Whether `by` makes one of the pairs with i, and one with j.
fn with_both<H: Shut>(shut: &H, i: u32, j: u32, by: u32) -> bool
    ensures exact { IsTrue result ↔ (IsAmong (H.pairs shut.now) i by × IsAmong (H.pairs shut.now) by j) }
    ensures closed { AreClosedPairs (H.vectors shut.now) (H.pairs shut.now) }
{
    shut.shut(i, by) && shut.shut(by, j)
}
