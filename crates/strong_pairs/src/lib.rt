//! Strong Gröbner bases of modules over the integers: pairs of entries, and what a list must pass to be strong.
//!
//! Two entries with one lead component make a pair. Its S-vector takes their leads away against each other, and its
//! G-vector joins them to their greatest common divisor (Möller 1988; Adams and Loustaunau 1994, chapter 4; Lichtblau
//! 2012). A list is strong where both tasks of every pair are closed: the module [`laws`] states this criterion, and
//! that a strong list reduces each vector to its one reduced form. docs/criterion.md has the proof in words.
#![tactic(auto)]

mod covering;
mod factors;
mod faults;
pub mod laws;
mod leads;
mod pairs;

pub use covering::covers;
pub use faults::PairFault;
pub use leads::{divides, lead};
pub use outcomes::PairKind;
pub use pairs::{g_vector, is_pair, pair_steps, pair_sum, pair_vector, s_vector};

#[cfg(test)]
mod tests;
