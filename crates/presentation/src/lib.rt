//! Finite presentations of groups, and their texts.
#![tactic(auto)]

mod generator;
mod keyword;
pub mod laws;
mod line;
mod modulus;
mod names;
mod presentation;
pub mod reading_back;
mod relators;
mod runs;
mod same;
mod text;
mod word;
mod writing;

pub use line::WordReader;
pub use presentation::Presentation;
pub use text::read_presentation;
pub use word::read_word;
pub use writing::{write_presentation, write_word};

/// A presentation has at most so many relators.
pub const RELATORS: u32 = 64;

/// A modulus is at most so large.
pub const MODULUS: u32 = 1_000_000_000;

#[cfg(test)]
mod tests;
