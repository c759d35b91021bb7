//! The texts of steps: multiples of numbered entries, over the names of a presentation.
//!
//! A list of steps has one spelling: `0`, or its steps in their order with one space between them, as `+2*a.b'@3
//! -1*1@0`: coefficient, `*`, monomial, `@`, number of the entry.
#![tactic(auto)]

pub mod laws;
mod list;
mod step;

pub use list::{put_steps, read_steps, write_steps};

#[cfg(test)]
mod tests;
