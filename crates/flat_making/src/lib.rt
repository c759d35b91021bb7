//! Flat certificates of proofs: what a proof says by entries of a log, said by relators alone.
//!
//! A proof adds up multiples of entries, and the recipe of an entry multiples of entries before it. From the last entry
//! to the first, what stands at an entry is handed on to those that its recipe names, until something stands at entries
//! of generators alone. These are relators, relator binomials and the modulus, up to sign, and unit binomials, whose
//! flat image is 0.
#![tactic(auto)]

mod handed;
mod handing;
mod kinds;
pub mod laws;
mod lines;
mod making;

pub use making::flatten;

#[cfg(test)]
mod tests;
