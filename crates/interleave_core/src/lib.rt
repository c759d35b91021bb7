//! All interleavings of workers and sessions, on one thread.
//!
//! A schedule says whose turn is next. A worker takes a task at one turn and commits its outcome at a later one, so
//! that other workers and sessions come between; a session asks its next question by the items that stand then. What a
//! turn does is a relation between two states (`specs/Machine.antt`), and [`Core::play`] is proved to make a run of it.
#![tactic(auto)]

mod hands;
pub mod laws;
mod machine;
mod sessions;
mod turns;

pub use hands::Hand;
pub use machine::Core;

/// How many workers there are.
pub const WORKERS: u32 = 16;

#[cfg(test)]
mod tests;
