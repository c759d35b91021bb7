//! The book of a completion: a lawful log, the states of its tasks, the commits and the seal.
//!
//! [`Book::take`] gives out the least open task, [`work`] works it by a list of entries, and [`Book::commit`] takes the
//! outcome back: it closes the task, or appends an entry to the log, and closes what the chain rule then shows. A task
//! is closed in the book only where it is truly closed, so a book whose tasks are all closed can be sealed: its log is
//! a strong basis (Buchberger 1965; over the integers Möller 1988, Lichtblau 2012).
#![tactic(auto)]

mod book;
mod chains;
mod commits;
mod faults;
pub mod laws;
mod limits;
mod links;
mod log;
mod newcomers;
mod opening;
mod refusals;

pub use book::Book;
pub use faults::{CommitFault, Committed, SealFault};
pub use limits::Limits;
pub use opening::can_open;
pub use outcomes::{End, Measure, PairKind, Task};
pub use pair_work::{Close, Outcome, Used, WorkFault, work};
pub use task_table::Order;

#[cfg(test)]
mod tests;
