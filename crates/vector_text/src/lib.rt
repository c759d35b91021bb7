//! The texts of monomials, places and vectors over the names of a presentation.
//!
//! Each value has one spelling. A vector is `0`, or its terms in falling order with one space between them, as
//! `+2*a.b'@a -1*1@b`: coefficient, `*`, monomial, `@`, component.
#![tactic(auto)]

mod coefficients;
mod factors;
mod fault;
pub mod laws;
mod monomials;
mod places;
mod terms;
mod vectors;

pub use coefficients::read_coefficient;
pub use fault::SpellFault;
pub use monomials::{put_mono, read_mono, write_mono};
pub use places::{put_place, read_place, write_place};
pub use vectors::{put_vector, read_vector, write_vector};

#[cfg(test)]
mod tests;
