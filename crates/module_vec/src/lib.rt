//! Sparse vectors over the integers: finite maps from places to nonzero coefficients.
//!
//! A place is a monomial and a component. A `ModVec` keeps its terms in strictly falling order of their places, in one
//! allocation, and contracts see it as the list of its terms. What a call answers is stated by coefficients, over the
//! formal sums of the crate `formal_sums`: such a sum is given by its coefficients alone.
//!
//! Coefficients stand in a range of 128 bits, and a vector has a limited number of terms. A result that leaves the
//! range is named as wide, at the greatest place where that happens, and one with too many terms as long.
#![tactic(auto)]

mod differences;
mod entries;
mod falling;
mod faults;
pub mod laws;
mod lists;
mod places;
mod range;
mod steps;
mod sums;
mod vectors;

pub use entries::Entries;
pub use falling::coefficient;
pub use faults::{Stop, VecFault};
pub use lists::VecList;
pub use places::{Place, Term};
pub use range::{checked_difference, checked_product};
pub use steps::Step;
pub use sums::WideSum;
pub use vectors::ModVec;

/// The greatest absolute value of a coefficient, 2^127 - 1.
pub const COEFFICIENT: u128 = 170_141_183_460_469_231_731_687_303_715_884_105_727;

/// The most terms that a vector has.
pub const TERMS: u32 = 50_000;

/// The most steps of one reduction.
pub const STEPS: u32 = 100_000;

#[cfg(test)]
mod tests;
