//! The theorem of Magnus for Fox vectors, and the law of maps between presentations: laws alone, with nothing to run.
//!
//! A word over a presentation is trivial in the largest quotient of the presented group whose derived subgroup is
//! abelian (and, where there is a modulus, of exponent dividing it) exactly where its Fox vector lies in the module of
//! the presentation. The module `magnus` names both halves, and what they say of equal words; `maps` the law of maps of
//! generators to words; `rules` the rules of Fox vectors and of the module. Each function does nothing: its contract is
//! the law, and a call of it tells the law to the proof of the caller. The proof is told in docs/magnus.md.
#![tactic(auto)]

pub mod magnus;
pub mod maps;
pub mod rules;
#[cfg(test)]
mod tests;
