//! A multiple of one vector taken from another: their terms are merged once.

ghost use Rattle.std.specs.Prelude.{◌≡◌, ◌≤◌, ◌+◌, length, MatchResult, IfOk};
ghost use Rattle.module_vec.specs.Vectors.{coefficient_at, multiple_at, difference_at, InRange, IsVector, HasRoom};
ghost use Rattle.module_vec.specs.Results.{DifferenceIsWide};
ghost use Rattle.module_vec.specs.Merging.{IsFound, FailsBy, PassesTo, Meets, Subtracts};

use crate::range::{checked_difference, checked_product};
use crate::{Place, Stop, Term, VecFault};
use laurent_terms::Mono;
use std::alloc::{AllocError, Global};
use std::cmp::Ordering;

/// The terms of `v - q·t·g`, of which there may be more than a vector has.
pub fn difference(
    alloc: Global,
    v: &[Term],
    q: i128,
    t: &Mono,
    g: &[Term],
) -> Result<Vec<Term>, VecFault>
    requires v { IsVector v.now }
    requires g { IsVector g.now }
    requires range { InRange q }
    requires room { HasRoom t.now g.now }
    ensures { let f = coefficient_at v.now in
        let multiple = multiple_at q t.now g.now in
        let IsWideAt = DifferenceIsWide f multiple in
        MatchResult result
        (λ made. IsFound IsWideAt (difference_at f multiple) made.items
        × (length made.items ≤ length v.now + length g.now))
        (FailsBy IsWideAt) }
{
    t.known();
    let mut made = Vec::with_capacity(alloc, v.len() + g.len())?;
    let mut rest = v;
    for term in g {
        let at = Place {
            m: t.product(&term.at.m),
            c: term.at.c,
        };
        let (before, behind) = pass(&mut made, rest, &at)?;
        rest = behind;
        let Some(k) = reduced(before, q, term.k) else {
            return Err(VecFault::Stop(Stop::Wide { at, step: 0 }));
        };
        if k != 0 {
            made.push(Term { at, k })?;
        }
    }
    made.extend_from_slice(rest)?;
    Ok(made)
}

/// Moves what stands above `at` from the front of `rest` to the end of `made`, and gives the coefficient at `at` and
/// what follows it in `rest`.
fn pass<'a>(
    made: &mut Vec<Term>,
    rest: &'a [Term],
    at: &Place,
) -> Result<(i128, &'a [Term]), AllocError>
    ensures { IfOk result (λ left. PassesTo at.now made.old.items rest.now made.new.items left.0 left.1.now) }
{
    let (above, met) = meet(rest, at);
    let (front, left) = rest.split_at(above);
    made.extend_from_slice(front)?;
    match left.split_first() {
        Some((first, behind)) if met => Ok((first.k, behind)),
        _ => Ok((0, left)),
    }
}

/// How many terms at the front of `v` stand above `at`, and whether the next one stands at `at`.
fn meet(v: &[Term], at: &Place) -> (usize, bool)
    ensures { Meets at.now v.now result.0 result.1 }
{
    let mut above = 0;
    for u in v {
        match u.at.compare(at) {
            Ordering::Greater => above += 1,
            Ordering::Equal => return (above, true),
            Ordering::Less => return (above, false),
        }
    }
    (above, false)
}

/// `before - q * k`, or `None` where the product or the difference leaves the range.
fn reduced(before: i128, q: i128, k: i128) -> Option<i128>
    ensures { Subtracts before q k result }
{
    checked_difference(before, checked_product(q, k)?)
}
