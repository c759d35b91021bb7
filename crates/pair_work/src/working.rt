//! Work on tasks.

ghost use Rattle.std.specs.Prelude.{◌≡◌, ◌≢◌, ℕ, ◌<◌, IfOk, MatchBool, MatchResult, List, [], Some, Ok, negsuc, cond};
ghost use Rattle.std.specs.Prelude.{map, length, slice_get, true};
ghost use Rattle.std.specs.Arc.{arc_value};
ghost use Rattle.formal_sums.specs.FormalSum.{scale};
ghost use Rattle.module_vec.specs.Vectors.{InRange, sum_of};
ghost use Rattle.strong_pairs.specs.Pairs.{IsPair};
ghost use Rattle.basis_entry.specs.Base.{has_negative_lead as is_turned};
ghost use Rattle.basis_entry.specs.Entries.{AreOf, vectors_of};
ghost use Rattle.pair_work.specs.Works.{Works, IsUncovered, FindsCovering, IsCarriedOut, HaltsBy, IsOfRest, recipe_of};

use crate::marks::used;
use crate::recipes::recipe;
use crate::{Close, Outcome, WorkFault};
use basis_entry::{Entry, Front};
use module_vec::{ModVec, Step, VecList};
use outcomes::{PairKind, Task};
use presentation::Presentation;
use reduce_cofactor::reduce;
use std::alloc::{AllocError, Global};
use std::sync::Arc;
use step_lists::Steps;
use strong_pairs::{covers, pair_steps, pair_sum};

/// Works a task by a list of entries of the presentation: a G task is covered, or the pair's vector is reduced by the
/// whole list. The outcome's front is the number of entries, and each entry used is the list's.
///
/// `Stop` is the limit that the pair's vector meets, or its reduction.
pub fn work<F: Front>(
    alloc: Global,
    p: &Arc<Presentation>,
    list: &F,
    task: Task,
) -> Result<Outcome, WorkFault>
    requires entries { AreOf (arc_value p.now) (F.entries list.now) }
    requires pair { IsPair (vectors_of (F.entries list.now)) task.i task.j }
    ensures { Works (arc_value p.now) (F.entries list.now) task result }
{
    if let Some(by) = covering(list, task) {
        return Ok(covered(alloc, p, list, task, by)?);
    }
    let done = carry_out(alloc, list, task)?;
    Ok(close(alloc, p, list, task, done)?)
}

/// The least entry that covers the pair of a G task.
fn covering<L: VecList>(list: &L, task: Task) -> Option<u32>
    requires { IsPair (L.vectors list.now) task.i task.j }
    ensures { FindsCovering (L.vectors list.now) task result }
{
    match task.kind {
        PairKind::S => None,
        PairKind::G => covers(list, list.count(), task.i, task.j),
    }
}

/// The two steps of a pair, and the steps and the rest of the chain of its vector.
#[derive(Drop)]
struct CarriedOut {
    first: Step,
    second: Step,
    steps: Vec<Step>,
    rest: ModVec,
}

/// Makes the pair's vector and reduces it.
fn carry_out<L: VecList>(alloc: Global, list: &L, task: Task) -> Result<CarriedOut, WorkFault>
    requires { IsPair (L.vectors list.now) task.i task.j }
    ensures { MatchResult result (λ done. IsCarriedOut (L.vectors list.now) task done.first done.second
        done.steps.items done.rest)
        (λ fault. HaltsBy (L.vectors list.now) task fault) }
{
    let (first, second) = pair_steps(list, task.kind, task.i, task.j)?;
    let vector = pair_sum(alloc, list, &first, &second)?;
    let (rest, steps) = reduce(alloc, list, list.count(), &vector)?;
    Ok(CarriedOut {
        first,
        second,
        steps,
        rest,
    })
}

/// The outcome of a G task whose pair the entry `by` covers.
fn covered<F: Front>(
    alloc: Global,
    p: &Arc<Presentation>,
    list: &F,
    task: Task,
    by: u32,
) -> Result<Outcome, AllocError>
    requires pair { IsPair (vectors_of (F.entries list.now)) task.i task.j }
    requires covers { FindsCovering (vectors_of (F.entries list.now)) task (Some by) }
    ensures { IfOk result (λ outcome. Works (arc_value p.now) (F.entries list.now) task (Ok outcome)) }
{
    let used = used(alloc, list, &[task.i, task.j, by], &[])?;
    Ok(Outcome::of(task, list.count(), used, Close::Covered { by }))
}

/// The outcome of a task whose chain is carried out.
fn close<F: Front>(
    alloc: Global,
    p: &Arc<Presentation>,
    list: &F,
    task: Task,
    done: CarriedOut,
) -> Result<Outcome, AllocError>
    requires entries { AreOf (arc_value p.now) (F.entries list.now) }
    requires pair { IsPair (vectors_of (F.entries list.now)) task.i task.j }
    requires uncovered { IsUncovered (vectors_of (F.entries list.now)) task }
    requires done { IsCarriedOut (vectors_of (F.entries list.now)) task done.first done.second
        done.steps.items done.rest }
    ensures { IfOk result (λ outcome. Works (arc_value p.now) (F.entries list.now) task (Ok outcome)) }
{
    list.known();
    let used = used(alloc, list, &[task.i, task.j], &done.steps)?;
    if done.rest.terms().is_empty() {
        let steps = Steps::of(done.steps);
        return Ok(Outcome::of(task, list.count(), used, Close::Zero { steps }));
    }
    let entry = rest_entry(alloc, p, list, task, done)?;
    Ok(Outcome::of(task, list.count(), used, Close::Rest { entry }))
}

/// The entry of a rest.
fn rest_entry<F: Front>(
    alloc: Global,
    p: &Arc<Presentation>,
    list: &F,
    task: Task,
    done: CarriedOut,
) -> Result<Arc<Entry>, AllocError>
    requires entries { AreOf (arc_value p.now) (F.entries list.now) }
    requires pair { IsPair (vectors_of (F.entries list.now)) task.i task.j }
    requires uncovered { IsUncovered (vectors_of (F.entries list.now)) task }
    requires done { IsCarriedOut (vectors_of (F.entries list.now)) task done.first done.second
        done.steps.items done.rest }
    requires some { done.rest ≢ [] }
    ensures { IfOk result (λ entry. IsOfRest (arc_value p.now) done.rest
        (recipe_of done.first done.second done.steps.items) (arc_value entry)) }
{
    list.known();
    let negated = has_negative_lead(&done.rest);
    let recipe = recipe(alloc, done.first, done.second, &done.steps, negated)?;
    let vector = turned_if(negated, done.rest);
    Entry::sum(alloc, p, list, vector, Steps::of(recipe))
}

fn has_negative_lead(vector: &ModVec) -> bool
    ensures { result ≡ is_turned vector.now }
{
    match vector.lead() {
        Some(lead) => lead.k < 0,
        None => false,
    }
}

fn turned_if(negated: bool, vector: ModVec) -> ModVec
    ensures { MatchBool negated (sum_of result ≡ scale (negsuc 0) (sum_of vector)) (result ≡ vector) }
{
    let mut vector = vector;
    if negated {
        vector.negate();
    }
    vector
}
