//! How completion ends.

use crate::Task;
use module_vec::Stop;

/// What of a log is limited.
#[derive(Clone, Copy, PartialEq, Eq)]
pub enum Measure {
    Entries,
    /// The terms of all vectors.
    Terms,
    /// The steps of all recipes.
    Steps,
}

/// The end of a completion.
#[derive(Clone, Copy, PartialEq, Eq)]
pub enum End {
    /// Every task is closed.
    Sealed,
    /// The least task that isn't closed stops for this reason, and no task can be worked.
    Stopped { task: Task, stop: Stop },
    /// The next entry would take this measure past its limit, to this count.
    Full { measure: Measure, count: u32 },
    /// The budget of commits is spent, and this task isn't closed.
    Spent { commits: u32, task: Task },
}
