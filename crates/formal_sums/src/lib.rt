//! Formal sums over the integers, and the laws of integers that they stand on: definitions and laws
//! alone, with nothing to run.
//!
//! A formal sum is a list of terms, each a coefficient and a key. Two sums are the same where each
//! key has the same coefficient in both, whatever the order of the terms and however they split.
//! So sums are added by joining lists, nothing has to be removed or sorted, and a vector over any
//! set of places is a formal sum with the places as keys. In algebra this is the free abelian group
//! on the keys.
//!
//! The definitions stand in `specs/`: `FormalSum` (sums, their equality, multiples, renaming of
//! keys, strictly falling sums), `Evaluation` (values of sums), `Keys` (what keys bring) and
//! `IntegerTuple` (the free abelian group on n generators, whose elements serve as keys). Lemmas
//! for the proofs of other crates stand in `proofs/`. The module `laws` names the main ones by
//! contracts.
#![tactic(auto)]

pub mod laws;
pub mod relations;
#[cfg(test)]
mod tests;
