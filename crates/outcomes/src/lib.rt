//! What the work of a solver comes to: the tasks of completion, its ends, and the verdicts on questions.
//!
//! These are names alone. What each of them claims is said where it is answered: of a task in the crate of pairs, of an
//! end in that of completion, of a verdict in that of sessions; and the text of a report names them all.
#![tactic(auto)]

mod ends;
mod kinds;
mod tasks;
mod verdicts;

pub use ends::{End, Measure};
pub use kinds::PairKind;
pub use tasks::Task;
pub use verdicts::Verdict;
