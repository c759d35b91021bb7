//! The table of a completion's tasks: which of them are open, taken, hard or closed, and which is the next one.
//!
//! A log of n entries has n(n-1) tasks, two for each pair. The table keeps one state for each, in the order of the
//! tasks' numbers, and for each entry what the order looks at in its vector. It takes all its room when it is made.
#![tactic(auto)]

mod by_cost;
mod costs;
mod hints;
mod keys;
pub mod laws;
mod numbers;
mod order;
mod profiles;
mod queue;
mod reopening;
mod rows;
mod states;
mod table;

pub use order::Order;
pub use rows::{Row, Settled};
pub use states::{Reopened, TaskState, Wanted};
pub use table::TaskTable;

/// The most entries whose tasks one table keeps.
pub const ENTRIES: u32 = 4_096;
