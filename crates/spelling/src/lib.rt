//! Texts with one spelling for each value: numbers, coefficients, and texts that are cut at a separator.
//!
//! A reader accepts exactly the spellings of the values that are valid for it, each with its value.
#![tactic(auto)]

mod coefficients;
mod number;
mod separator;

pub use coefficients::{read_coefficient, write_coefficient};
pub use number::{read_number, write_number};
pub use separator::{after_byte, cut, first_part};

#[cfg(test)]
mod tests;
