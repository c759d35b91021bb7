//! Numbers of tasks.

ghost use Rattle.std.specs.Prelude.{◌≡◌, ◌<◌, ◌≤◌, ◌*◌, ◌+◌};
ghost use Rattle.task_table.specs.Tasks.{tasks_below, number_of};

use outcomes::{PairKind, Task};

/// How many tasks the entries below `j` have.
#[tactic(auto, using(crate::proofs::Counting::tasks_below_value, crate::proofs::Counting::tasks_below_none))]
pub fn row(j: u32) -> usize
    requires { j ≤ 65536 }
    ensures value { result ≡ tasks_below j }
    ensures small { result ≤ 65536 * 65536 }
{
    if j == 0 {
        return 0;
    }
    let entries = j as usize;
    entries * (entries - 1)
}

/// The number of a task.
pub fn number(task: Task) -> usize
    requires pair { task.i < task.j }
    requires small { task.j ≤ 65536 }
    ensures { result ≡ number_of task }
{
    let g_task = row(task.j) + 2 * (task.i as usize);
    match task.kind {
        PairKind::G => g_task,
        PairKind::S => g_task + 1,
    }
}
