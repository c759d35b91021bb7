//! Trimming a report: what is left of it where only the entries stand that its proofs use.
//!
//! A proof names entries, and an entry that is a sum names others. The entries that are reached so from the proofs are
//! the used ones. A trimmed report has these in their order, each with its number in the whole history; the steps name
//! them by their new places, and all else is as it was.
#![tactic(auto)]

mod kept;
pub mod laws;
mod renaming;
mod trimming;
mod used;

pub use trimming::trim;

#[cfg(test)]
mod tests;
