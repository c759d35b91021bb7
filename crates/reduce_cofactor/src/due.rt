//! The step that is due at a term.

ghost use Rattle.std.specs.Prelude.{◌≡◌, ◌≤◌, List, length, take, MatchOption};
ghost use Rattle.module_vec.specs.Vectors.{Coefficients, InRange};
ghost use Rattle.module_vec.specs.Reducers.{FindsReducer};
ghost use Rattle.module_vec.specs.Chains.{Rests};
ghost use Rattle.reduce_cofactor.specs.Steps.{IsStepAt, RestsWith};

use module_vec::{Place, Step, Term, VecList};

/// The number of the reducer of a place among the entries below `front`. `None` exactly where none of them reduces it.
pub fn reducer<L: VecList>(list: &L, front: u32, at: &Place) -> Option<u32>
    requires { front ≤ length (L.vectors list.now) }
    ensures { FindsReducer (take front (L.vectors list.now)) at.now result }
{
    list.find(front, at)
}

/// The step that is due at the term. `None` exactly where none is.
// Where it is inlined, the term's exponents are taken apart, and no longer compared by vector instructions.
#[inline(never)]
pub fn due<L: VecList>(list: &L, front: u32, top: &Term) -> Option<Step>
    requires { front ≤ length (L.vectors list.now) }
    ensures { let b = take front (L.vectors list.now) in MatchOption result (RestsWith b top.now) (IsStepAt b top.now) }
{
    let by = list.find(front, &top.at)?;
    let lead = &list.vector(by).terms()[0];
    let q = top.k.div_euclid(lead.k);
    if q == 0 {
        return None;
    }
    Some(Step {
        q,
        t: top.at.m.quotient(&lead.at.m),
        by,
    })
}
