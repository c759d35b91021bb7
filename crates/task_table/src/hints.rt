//! Hints: where the search for the least task begins.

ghost use Rattle.std.specs.Prelude.{◌≡◌, ◌<◌, ◌≤◌, ◌+◌, ℕ, List, length, slice_set, true, false};
ghost use Rattle.task_table.specs.declared.states.TaskState.{TaskState as TheState};
ghost use Rattle.task_table.specs.Tasks.{IsTask, tasks_below, number_of, is_wanted};
ghost use Rattle.task_table.specs.Tables.{state_at};
ghost use Rattle.task_table.specs.Inner.{IsHint};

use crate::numbers::{number, row};
use crate::states::{TaskState, Wanted};
use outcomes::{PairKind, Task};

/// No task with a lower number is one that is looked for. `row` is the greater entry of that task, or less.
#[derive(Clone, Copy)]
pub struct Hint {
    pub number: usize,
    pub row: u32,
}

/// The first number from the hint on of a wanted task, or the number of all tasks.
fn first(states: &[TaskState], wanted: Wanted, hint: Hint) -> usize
    requires { IsHint wanted states.now hint }
    ensures most { result ≤ length states.now }
    ensures hint { hint.number ≤ result }
    ensures before { (k : ℕ) → k < result → is_wanted wanted (state_at states.now k) ≡ false }
    ensures found { result < length states.now → is_wanted wanted (state_at states.now result) ≡ true }
{
    let mut at = hint.number;
    while at < states.len() && !wanted.is(states[at]) {
        at += 1;
    }
    at
}

/// The row in which the task with this number stands, where the one given stands there or before.
fn row_of(at: usize, from: u32, count: u32) -> u32
    requires begins { tasks_below from ≤ at }
    requires ends { at < tasks_below count }
    requires small { count ≤ 4096 }
    ensures begins { tasks_below result ≤ at }
    ensures ends { at < tasks_below (result + 1) }
    ensures count { result < count }
{
    let mut j = from;
    while row(j + 1) <= at {
        j += 1;
    }
    j
}

/// The hint that stands at the least wanted task, or at the end.
pub fn advanced(states: &[TaskState], count: u32, wanted: Wanted, hint: Hint) -> Hint
    requires states { length states.now ≡ tasks_below count }
    requires small { count ≤ 4096 }
    requires hint { IsHint wanted states.now hint }
    ensures hint { IsHint wanted states.now result }
    ensures found { result.number < length states.now → is_wanted wanted (state_at states.now result.number) ≡ true }
    ensures row { result.number < length states.now → (result.row < count)
        × (result.number < tasks_below (result.row + 1)) }
{
    let at = first(states, wanted, hint);
    if at == states.len() {
        return Hint {
            number: at,
            row: hint.row,
        };
    }
    Hint {
        number: at,
        row: row_of(at, hint.row, count),
    }
}

/// The task at which a hint stands.
#[tactic(auto, using(crate::proofs::Counting::tasks_below_next))]
pub fn task_at(hint: Hint) -> Task
    requires small { hint.row ≤ 4096 }
    requires begins { tasks_below hint.row ≤ hint.number }
    requires ends { hint.number < tasks_below (hint.row + 1) }
    ensures number { number_of result ≡ hint.number }
    ensures task { IsTask (hint.row + 1) result }
{
    let rest = hint.number - row(hint.row);
    let kind = if rest % 2 == 0 {
        PairKind::G
    } else {
        PairKind::S
    };
    Task {
        i: (rest / 2) as u32,
        j: hint.row,
        kind,
    }
}

/// The hint after a task has got a state.
#[tactic(auto, using(crate::proofs::Hinting::hint_put, crate::proofs::Hinting::hint_back))]
pub fn after(hint: Hint, wanted: Wanted, task: Task, state: TaskState) -> Hint
    requires pair { task.i < task.j }
    requires small { task.j ≤ 65536 }
    ensures { (states : List TheState) → number_of task < length states → IsHint wanted states hint →
        IsHint wanted (slice_set states (number_of task) state) result }
{
    let at = number(task);
    if wanted.is(state) && at < hint.number {
        return Hint {
            number: at,
            row: task.j,
        };
    }
    hint
}
