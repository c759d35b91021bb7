//! Entries of a basis, and seals: vectors of the module of a presentation, each with the presentation and with the
//! recipe by which it was made.
//!
//! An entry of a basis is shared by threads and never changed. Its type keeps that its vector lies in the module of its
//! presentation, and has a positive lead coefficient. A seal is the list of the entries of a strong basis (Lichtblau
//! 2012).
#![tactic(auto)]

mod base;
mod below;
mod entries;
mod fronts;
mod indexed;
mod items;
pub mod laws;
mod recipes;
mod seals;

pub use below::Below;
pub use entries::Entry;
pub use fronts::Front;
pub use items::Items;
pub use recipes::Recipe;
pub use seals::Sealed;

/// The most generator entries of a presentation: one for each of 64 relators; for each relator, and for each of 24
/// generators, one in each of 24 components; and one more in each component.
pub const BASE: u32 = 2_200;

/// The most terms of the generator entries of a presentation: 16,384 for each of 64 relators; two for each relator, and
/// for each of 24 generators, in each of 24 components; and one more in each component.
pub const BASE_TERMS: u32 = 1_052_824;

#[cfg(test)]
mod tests;
