//! The work of a task: what its pair comes to by a list of entries, with the entries that show it.
//!
//! [`work`] covers the pair of a task, or makes its vector and reduces it (Buchberger 1965; over the integers Möller
//! 1988, Lichtblau 2012). Its [`Outcome`] is true of each list that has the entries used under their numbers, so it can
//! be taken to a longer list than the one that it was worked by.
#![tactic(auto)]

mod faults;
pub mod laws;
mod marks;
mod outcome;
mod recipes;
mod used;
mod working;

pub use faults::WorkFault;
pub use outcome::{Close, Outcome};
pub use used::Used;
pub use working::work;
