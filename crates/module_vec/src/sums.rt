//! Sums of terms in any order: terms at one place are added up.

ghost use Rattle.std.specs.Prelude.{◌≡◌, ◌+◌, ◌≤◌, ◌<◌, ◌^◌, ◌+ℤ◌, length, take_while, unsigned_abs, MatchOption};
ghost use Rattle.std.specs.Prelude.{MatchResult};
ghost use Rattle.module_vec.specs.Vectors.{coefficient_at, InRange, IsWide};
ghost use Rattle.module_vec.specs.Results.{SumIsWide};
ghost use Rattle.module_vec.specs.Merging.{IsFound, FailsBy};
ghost use Rattle.module_vec.specs.Collecting.{total_of, value_of, stands_at, Descends};

use crate::{COEFFICIENT, Place, Stop, Term, VecFault};
use std::alloc::Global;

/// The terms of the sum of `list`, of which there may be more than a vector has.
pub fn sum(alloc: Global, list: &[Term]) -> Result<Vec<Term>, VecFault>
    requires { length list.now < 2 ^ 32 }
    ensures { let f = coefficient_at list.now in
        MatchResult result
        (λ made. IsFound (SumIsWide f) f made.items × (length made.items ≤ length list.now))
        (FailsBy (SumIsWide f)) }
{
    let mut sorted = Vec::from_slice(alloc, list)?;
    sorted.sort_by(|a, b| b.at.compare(&a.at))?;
    collect(alloc, sorted.as_slice())
}

/// The terms of the sum of `sorted`, where equal places stand side by side.
fn collect(alloc: Global, sorted: &[Term]) -> Result<Vec<Term>, VecFault>
    requires sorted { Descends sorted.now }
    requires count { length sorted.now < 2 ^ 32 }
    ensures { let f = coefficient_at sorted.now in
        MatchResult result
        (λ made. IsFound (SumIsWide f) f made.items × (length made.items ≤ length sorted.now))
        (FailsBy (SumIsWide f)) }
{
    let mut made = Vec::with_capacity(alloc, sorted.len())?;
    let mut rest = sorted;
    while let Some((first, others)) = rest.split_first() {
        let at = first.at;
        at.m.known();
        let (same, behind) = others.split_at(count_at(others, &at));
        let Some(k) = total(first.k, same) else {
            return Err(VecFault::Stop(Stop::Wide { at, step: 0 }));
        };
        if k != 0 {
            made.push(Term { at, k })?;
        }
        rest = behind;
    }
    Ok(made)
}

/// How many terms at the front of `v` stand at `at`.
fn count_at(v: &[Term], at: &Place) -> usize
    ensures is { result ≡ length (take_while (stands_at at.now) v.now) }
    ensures bound { result ≤ length v.now }
{
    v.iter().take_while(|u| u.at.compare(at).is_eq()).count()
}

/// `first` and the coefficients of `terms` added up, or `None` where the whole sum leaves the range.
fn total(first: i128, terms: &[Term]) -> Option<i128>
    requires { length terms.now < 2 ^ 32 }
    ensures { let whole = first +ℤ total_of terms.now in
        MatchOption result (IsWide whole) (λ z. (z ≡ whole) × InRange z) }
{
    let mut total = WideSum {
        low: first,
        high: 0,
    };
    for t in terms {
        total = total.plus(t.k);
    }
    if total.high == 0 && total.low.unsigned_abs() <= COEFFICIENT {
        Some(total.low)
    } else {
        None
    }
}

/// A sum on its way, in two words: `low`, and `high` times 2^128. A part of a sum may leave the range where the whole
/// one doesn't.
#[derive(Clone, Copy)]
pub struct WideSum {
    pub low: i128,
    pub high: i64,
}

impl WideSum {
    /// The sum with `k`.
    pub fn plus(self, k: i128) -> WideSum
        requires { unsigned_abs self.high < 2 ^ 62 }
        ensures value { value_of result ≡ value_of self +ℤ k }
        ensures carry { unsigned_abs result.high ≤ unsigned_abs self.high + 1 }
    {
        let (low, carried) = self.low.overflowing_add(k);
        if !carried {
            return WideSum {
                low,
                high: self.high,
            };
        }
        if k < 0 {
            return WideSum {
                low,
                high: self.high - 1,
            };
        }
        WideSum {
            low,
            high: self.high + 1,
        }
    }
}
