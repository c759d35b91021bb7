//! An index of the leads of a list of vectors: it finds the reducer of a place without a scan of the whole list.
//!
//! Of the entries whose lead monomial divides that of a place the one is wanted that has the least lead coefficient
//! and, among equals, the least number. So the index keeps the entries of each component in this order, and the first
//! that divides is the answer. Beside each stands a mask of its exponents, which rules most of them out before
//! exponents are compared.
#![tactic(auto)]

mod candidates;
mod index;
mod indexed;
pub mod laws;
mod masks;
mod search;

pub use index::Index;
pub use indexed::Indexed;

#[cfg(test)]
mod tests;
