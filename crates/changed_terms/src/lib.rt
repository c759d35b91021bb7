//! The terms of a vector on its way: multiples of other vectors are taken from it, and its greatest term is taken out.
//!
//! A reduction and the sum of a recipe both go this way. What no multiple reaches is only read, so a step costs what
//! the vector has that is taken, each term with a logarithm, and not what the vector has from which it is taken.
#![tactic(auto)]

mod changes;
mod faults;
mod overlay;
mod terms;

pub use changes::reduced;
pub use faults::TakeFault;
pub use terms::ChangedTerms;

#[cfg(test)]
mod tests;
