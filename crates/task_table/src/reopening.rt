//! Work on all states at once.

ghost use Rattle.std.specs.Prelude.{◌≡◌, map, count_by};
ghost use Rattle.task_table.specs.Tasks.{reopened, is_reopened};

use crate::states::{Reopened, TaskState};

/// Opens all tasks of this state, and counts them.
#[tactic(auto, using(std::proofs::lemmas::List::Edits::map_over_more))]
pub fn reopen_all(states: &mut [TaskState], from: Reopened) -> usize
    ensures changed { states.new ≡ map (reopened from) states.old }
    ensures count { result ≡ count_by (is_reopened from) states.old }
{
    let mut count = 0usize;
    for state in states.iter_mut() {
        if from.is(*state) {
            count += 1;
        }
        *state = from.after(*state);
    }
    count
}
