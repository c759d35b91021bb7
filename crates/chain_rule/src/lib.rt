//! The chain rule of S tasks, Buchberger's second criterion over the integers: where the lead of a third entry divides
//! the least common multiple of the leads of a pair, and both S tasks of the third entry with the two are closed, the
//! S task of the pair is closed too (Buchberger 1979; Gebauer and Möller 1988; over the integers Lichtblau 2012).
//!
//! The S-vector of the pair is the sum of a multiple of each of the two other S-vectors, so nothing has to be reduced.
//! [`chained`] is the test, and [`laws`] states the rule. No call takes memory.
#![tactic(auto)]

mod chaining;
mod closed_pairs;
mod coefficients;
pub mod laws;

pub use chaining::chained;
pub use closed_pairs::Shut;

#[cfg(test)]
mod tests;
