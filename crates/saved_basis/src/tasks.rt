//! The test of the tasks of a list.

ghost use Rattle.std.specs.Prelude.{◌≡◌, ◌≢◌, ◌↔◌, ◌<◌, ℕ, IsTrue, MatchResult, List, [], length};
ghost use Rattle.strong_pairs.specs.Pairs.{IsPair};
ghost use Rattle.strong_pairs.specs.Tasks.{IsClosedFromStart};
ghost use Rattle.outcomes.specs.declared.kinds.PairKind.TheVariants as kinds;
ghost use Rattle.pair_work.specs.Works.{IsUncovered, HaltsBy};
ghost use Rattle.saved_basis.specs.Tasks.{AddsNothing, Passes, AllPass, IsAny, IsOfRow};
ghost use Rattle.saved_basis.specs.Tasks.{IsOfPair, PassWhere, TellsFirst};
ghost use Rattle.saved_basis.specs.Tasks.{TellsTask, EndsIn};

use crate::BasisFault;
use module_vec::{ModVec, VecList};
use outcomes::{PairKind, Task};
use pair_work::WorkFault;
use reduce_cofactor::reduce;
use std::alloc::Global;
use strong_pairs::{covers, divides, is_pair, lead, pair_vector};

/// Whether no task of the list adds anything to it. The fault tells the first one that fails, by the greater number,
/// then the lesser, then G before S.
pub fn test_tasks<L: VecList>(alloc: Global, list: &L) -> Result<(), BasisFault>
    ensures { MatchResult result (λ _. AllPass (L.vectors list.now)) (TellsFirst IsAny (L.vectors list.now)) }
{
    for j in 0..list.count() {
        test_row(alloc, list, j)?;
    }
    Ok(())
}

/// The tasks whose greater number is j.
fn test_row<L: VecList>(alloc: Global, list: &L, j: u32) -> Result<(), BasisFault>
    ensures { let b = L.vectors list.now in
        MatchResult result (λ _. PassWhere (IsOfRow j) b) (TellsFirst (IsOfRow j) b) }
{
    for i in 0..j {
        if is_pair(list, i, j) {
            test_pair(alloc, list, i, j)?;
        }
    }
    Ok(())
}

/// The two tasks of a pair.
fn test_pair<L: VecList>(alloc: Global, list: &L, i: u32, j: u32) -> Result<(), BasisFault>
    requires { IsPair (L.vectors list.now) i j }
    ensures { let b = L.vectors list.now in
        MatchResult result (λ _. PassWhere (IsOfPair i j) b) (TellsFirst (IsOfPair i j) b) }
{
    test_first(alloc, list, i, j)?;
    test_second(alloc, list, i, j)
}

/// The G task of a pair, unless it is closed from the start.
fn test_first<L: VecList>(alloc: Global, list: &L, i: u32, j: u32) -> Result<(), BasisFault>
    requires { IsPair (L.vectors list.now) i j }
    ensures { let b = L.vectors list.now in
        MatchResult result (λ _. Passes b (record { i = i; j = j; kind = kinds.G })) (TellsFirst (IsOfPair i j) b) }
{
    if starts_closed(list, i, j) {
        return Ok(());
    }
    let task = Task {
        i,
        j,
        kind: PairKind::G,
    };
    test_task(alloc, list, task)
}

/// The S task of a pair, where the G task passes.
fn test_second<L: VecList>(alloc: Global, list: &L, i: u32, j: u32) -> Result<(), BasisFault>
    requires pair { IsPair (L.vectors list.now) i j }
    requires first { Passes (L.vectors list.now) (record { i = i; j = j; kind = kinds.G }) }
    ensures { let b = L.vectors list.now in
        MatchResult result (λ _. PassWhere (IsOfPair i j) b) (TellsFirst (IsOfPair i j) b) }
{
    let task = Task {
        i,
        j,
        kind: PairKind::S,
    };
    test_task(alloc, list, task)
}

/// Whether the G task of a pair is closed from the start: one lead coefficient divides the other.
fn starts_closed<L: VecList>(list: &L, i: u32, j: u32) -> bool
    requires { IsPair (L.vectors list.now) i j }
    ensures { IsTrue result ↔ IsClosedFromStart (L.vectors list.now) kinds.G i j }
{
    let first = lead(list, i).k;
    let second = lead(list, j).k;
    divides(first, second) || divides(second, first)
}

/// Whether the work of a task by the whole list adds nothing.
fn test_task<L: VecList>(alloc: Global, list: &L, task: Task) -> Result<(), BasisFault>
    requires { IsPair (L.vectors list.now) task.i task.j }
    ensures { let b = L.vectors list.now in
        MatchResult result (λ _. AddsNothing b task) (TellsTask b task) }
{
    if is_covered(list, task) {
        return Ok(());
    }
    match end_of(alloc, list, task) {
        Ok(rest) => told(list, task, &rest),
        Err(WorkFault::Stop(stop)) => Err(BasisFault::Stopped {
            i: task.i,
            j: task.j,
            kind: task.kind,
            stop,
        }),
        Err(WorkFault::NoMemory) => Err(BasisFault::NoMemory),
    }
}

/// Whether an entry covers the pair of a G task.
fn is_covered<L: VecList>(list: &L, task: Task) -> bool
    requires { IsPair (L.vectors list.now) task.i task.j }
    ensures covered { IsTrue result → AddsNothing (L.vectors list.now) task }
    ensures uncovered { (IsTrue result → ⊥) → IsUncovered (L.vectors list.now) task }
{
    match task.kind {
        PairKind::G => covers(list, list.count(), task.i, task.j).is_some(),
        PairKind::S => false,
    }
}

/// Where the chain of the vector of the task's pair ends.
fn end_of<L: VecList>(alloc: Global, list: &L, task: Task) -> Result<ModVec, WorkFault>
    requires { IsPair (L.vectors list.now) task.i task.j }
    ensures { let b = L.vectors list.now in
        MatchResult result (EndsIn b task) (HaltsBy b task) }
{
    let vector = pair_vector(alloc, list, task.kind, task.i, task.j)?;
    let (rest, _) = reduce(alloc, list, list.count(), &vector)?;
    Ok(rest)
}

/// What this end of a chain says of the task.
fn told<L: VecList>(list: &L, task: Task, rest: &ModVec) -> Result<(), BasisFault>
    requires uncovered { IsUncovered (L.vectors list.now) task }
    requires end { EndsIn (L.vectors list.now) task rest.now }
    ensures { let b = L.vectors list.now in
        MatchResult result (λ _. AddsNothing b task) (TellsTask b task) }
{
    if rest.terms().is_empty() {
        return Ok(());
    }
    Err(BasisFault::Open {
        i: task.i,
        j: task.j,
        kind: task.kind,
    })
}
