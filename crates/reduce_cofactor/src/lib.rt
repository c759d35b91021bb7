//! Reduction of a vector by a list of vectors, with the steps that lead to the rest.
//!
//! This is the division algorithm for modules over the integers (Adams and Loustaunau 1994, chapter 4; Lichtblau 2012):
//! at the greatest place where it can, a step takes away the multiple of an entry that leaves the remainder of the
//! division by the entry's lead coefficient, from 0 on and below it. The steps are the cofactors of the entries.
//!
//! A reduction ends in its rest, or it stops at the first limit that a step meets: the steps are too many, a
//! coefficient leaves its range, or the vector gets too long.
#![tactic(auto)]

mod due;
mod faults;
pub mod laws;
mod merging;
mod reduction;

pub use due::reducer;
pub use faults::ReduceFault;
pub use module_vec::{Step, VecList};
pub use reduction::reduce;

#[cfg(test)]
mod tests;
