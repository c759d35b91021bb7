//! The tasks that a new entry brings.

ghost use Rattle.std.specs.Prelude.{◌≡◌, ◌<◌, ◌≤◌, ◌+◌, ◌++◌, List, length, slice_get, Some, vec_len, vec_capacity};
ghost use Rattle.task_table.specs.Rows.{row_states, first_state};

use crate::states::TaskState;

/// Which tasks of a pair are closed when they come, or are none.
#[derive(Clone, Copy, PartialEq, Eq)]
pub struct Settled {
    pub g: bool,
    pub s: bool,
}

/// The tasks of a new entry with each entry before it.
pub trait Row {
    ghost use Rattle.std.specs.Prelude.{List, length, slice_get, Some, ◌<◌, ◌≡◌};
    ghost use Rattle.task_table.specs.declared.rows.Settled.{Settled};

    /// What is settled with each entry before it, in order.
    ghost settled: { Self → List Settled };

    /// What is settled with the entry number `i`.
    fn settled(&self, i: u32) -> Settled
        requires { i < length (settled self.now) }
        ensures { slice_get (settled self.now) i ≡ Some result };
}

/// The state in which a task comes.
fn first(settled: bool) -> TaskState
    ensures { result ≡ first_state settled }
{
    if settled {
        TaskState::Never
    } else {
        TaskState::Open
    }
}

/// Puts the states of a row behind the others.
pub fn push_row<R: Row>(states: &mut Vec<TaskState>, row: &R, count: u32)
    requires count { length (R.settled row.now) ≡ count }
    requires room { vec_len states.old + (count + count) ≤ vec_capacity states.old }
    ensures items { states.new.items ≡ states.old.items ++ row_states (R.settled row.now) }
    ensures capacity { vec_capacity states.new ≡ vec_capacity states.old }
{
    for i in 0..count {
        let settled = row.settled(i);
        states.push_reserved(first(settled.g));
        states.push_reserved(first(settled.s));
    }
}
