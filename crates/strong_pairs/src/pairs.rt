//! S- and G-vectors.

ghost use Rattle.std.specs.Prelude.{ℕ, ◌+ℤ◌, ◌↔◌, IsTrue, IfOk, Ok};
ghost use Rattle.module_vec.specs.Chains.{taken_at};
ghost use Rattle.module_vec.specs.Results.{Makes};
ghost use Rattle.module_vec.specs.Vectors.{coefficient_at};
ghost use Rattle.outcomes.specs.declared.kinds.PairKind.{PairKind};
ghost use Rattle.outcomes.specs.declared.kinds.PairKind.TheVariants.{S, G};
ghost use Rattle.step_lists.specs.declared.way.Way.TheVariants.{Add};
ghost use Rattle.step_lists.specs.Sums.{IsWideAt};
ghost use Rattle.strong_pairs.specs.Pairs.{IsPair};
ghost use Rattle.strong_pairs.specs.Results.{FindsSteps, IsInReach, MakesPair};

use crate::factors::factors;
use crate::leads::lead;
use crate::{PairFault, PairKind};
use module_vec::{ModVec, Step, Stop, VecFault, VecList};
use std::alloc::Global;

/// The S-vector of two entries with one lead component, i below j. With the lead coefficients k and l, their greatest
/// common divisor d, and t and s that carry the lead monomials to their least common multiple, it is
/// `(l/d)·t·(entry i) - (k/d)·s·(entry j)`.
///
/// `Steep` comes exactly where the degree of the common multiple passes [`DEGREE`](laurent_terms::DEGREE). Otherwise
/// the multiples are added in this order to the empty vector, and `Wide` and `Long` come as in
/// [`sub_multiple`](ModVec::sub_multiple).
pub fn s_vector<L: VecList>(alloc: Global, list: &L, i: u32, j: u32) -> Result<ModVec, PairFault>
    requires { IsPair (L.vectors list.now) i j }
    ensures { MakesPair S (L.vectors list.now) i j result }
{
    pair_vector(alloc, list, PairKind::S, i, j)
}

/// The G-vector of two entries with one lead component, i below j: `u·t·(entry i) + v·s·(entry j)`, where `u·k + v·l`
/// is the greatest common divisor of the lead coefficients and u is the least such number from 0 on. Its stops are
/// those of [`s_vector`].
pub fn g_vector<L: VecList>(alloc: Global, list: &L, i: u32, j: u32) -> Result<ModVec, PairFault>
    requires { IsPair (L.vectors list.now) i j }
    ensures { MakesPair G (L.vectors list.now) i j result }
{
    pair_vector(alloc, list, PairKind::G, i, j)
}

/// The vector of the kind.
pub fn pair_vector<L: VecList>(
    alloc: Global,
    list: &L,
    kind: PairKind,
    i: u32,
    j: u32,
) -> Result<ModVec, PairFault>
    requires { IsPair (L.vectors list.now) i j }
    ensures { MakesPair kind (L.vectors list.now) i j result }
{
    let (first, second) = pair_steps(list, kind, i, j)?;
    pair_sum(alloc, list, &first, &second)
}

/// The sum of two steps, the first multiple and then the second, which is the pair's vector where [`pair_steps`] gave
/// them. Its stops are `Wide` and `Long`, as those of [`s_vector`].
pub fn pair_sum<L: VecList>(
    alloc: Global,
    list: &L,
    first: &Step,
    second: &Step,
) -> Result<ModVec, PairFault>
    requires first { IsInReach (L.vectors list.now) first.now }
    requires second { IsInReach (L.vectors list.now) second.now }
    ensures { (kind : PairKind) (i j : ℕ) → FindsSteps kind (L.vectors list.now) i j (Ok (first.now, second.now))
        → MakesPair kind (L.vectors list.now) i j result }
{
    let multiple = plus(alloc, list, &ModVec::empty(alloc), first)?;
    Ok(plus(alloc, list, &multiple, second)?)
}

/// Whether i and j, i below j, are numbers of entries whose leads have one component.
pub fn is_pair<L: VecList>(list: &L, i: u32, j: u32) -> bool
    ensures { IsTrue result ↔ IsPair (L.vectors list.now) i j }
{
    i < j && j < list.count() && lead(list, i).at.c == lead(list, j).at.c
}

/// The two multiples whose sum is the pair's vector, that of entry i first. The only error is `Steep`.
pub fn pair_steps<L: VecList>(
    list: &L,
    kind: PairKind,
    i: u32,
    j: u32,
) -> Result<(Step, Step), Stop>
    requires { IsPair (L.vectors list.now) i j }
    ensures steps { FindsSteps kind (L.vectors list.now) i j result }
    ensures reach { IfOk result (λ steps. IsInReach (L.vectors list.now) steps.0
        × IsInReach (L.vectors list.now) steps.1) }
{
    let first = lead(list, i);
    let second = lead(list, j);
    let Some(multiple) = first.at.m.lcm(&second.at.m) else {
        let degree = first.at.m.lcm_degree(&second.at.m);
        return Err(Stop::Steep { degree });
    };
    let (u, v) = factors(kind, first.k, second.k);
    let to_first = Step {
        q: u,
        t: multiple.quotient(&first.at.m),
        by: i,
    };
    let to_second = Step {
        q: v,
        t: multiple.quotient(&second.at.m),
        by: j,
    };
    Ok((to_first, to_second))
}

/// The sum of a vector and a step's multiple.
fn plus<L: VecList>(alloc: Global, list: &L, v: &ModVec, step: &Step) -> Result<ModVec, VecFault>
    requires { IsInReach (L.vectors list.now) step.now }
    ensures { let f = coefficient_at v.now in
        let g = taken_at (L.vectors list.now) step.now in
        Makes (IsWideAt Add f g) (λ x. f x +ℤ g x) result }
{
    v.sub_multiple(alloc, -step.q, &step.t, list.vector(step.by))
}
