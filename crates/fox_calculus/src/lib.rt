//! Fox's free differential calculus, and the module of a presentation.
//!
//! The derivatives of a word by the generators, with values in the group ring of the free abelian group on the
//! generators, are one vector (Fox 1953). A word is 1 in the largest metabelian quotient of the group that is presented
//! exactly where its vector lies in the module that the presentation's generators make (Magnus 1939).
#![tactic(auto)]

mod binomials;
mod derivatives;
pub mod laws;
mod listing;
mod running;
mod small;

pub use binomials::{binomial, constant, image};
pub use derivatives::fox;
pub use listing::generators;
pub use vector_text::{
    SpellFault, read_coefficient, read_mono, read_place, read_vector, write_mono, write_place,
    write_vector,
};

#[cfg(test)]
mod tests;
