//! Monomials of group rings of free abelian groups, and the factors of two lead coefficients.
//!
//! A generator numbered g has two variables: x_g, and y_g, which stands for its inverse. They are ordered
//! x_0, y_0, x_1, y_1 and so on. A `Mono` holds an exponent for each of the 48 variables, and contracts see it as the
//! list of these exponents. No call takes memory.
#![tactic(auto)]

mod euclid;
mod exponents;
mod integers;
pub mod laws;
mod monomial;

pub use euclid::bezout;
pub use monomial::Mono;

/// How many variables a monomial has: two for each of 24 generators.
pub const VARIABLES: usize = 48;

/// The most that the exponents of a monomial add up to.
pub const DEGREE: u32 = 60_000;

#[cfg(test)]
mod tests;
