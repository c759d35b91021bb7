//! Answers by a basis that was read: the report of them, when such a report is legal, and that what it answers is true.
//!
//! A basis that was read isn't the log of a completion, so such a report is legal in its own way. What its answers rest
//! on is the same: a strong basis of the module, and replies by its chains.
#![tactic(auto)]

mod answering;
pub mod laws;

pub use answering::answer_by;
