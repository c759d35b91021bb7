//! Ending a run over a book, what a legal report is, which of its answers are true, and the laws of legal reports.
#![tactic(auto)]

mod gathering;
mod last;
pub mod laws;
mod seating;
mod solving;

pub use gathering::{answered, gather, gather_alone, shared};
pub use last::{Kind, last_kinds};
pub use solving::{Solved, conclude, solve};
