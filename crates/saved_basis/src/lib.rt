//! Sealed bases as files: a strong list is written down, and a file is read and tested.
//!
//! A basis file holds the entries of a list, each with the recipe that makes it of those before. The reader believes
//! nothing of it: it makes each entry again, and works every task of the list. So whoever wrote the file, what is read
//! is a strong basis of the module of the presentation (Möller 1988; Lichtblau 2012), and answers questions as one that
//! was completed here.
#![tactic(auto)]

mod faults;
mod heads;
pub mod laws;
mod lines;
mod reader;
mod reading;
mod tasks;
mod turns;
mod writing;

pub use faults::{BasisFault, LineKind, WriteFault};
pub use reading::read_basis;
pub use writing::write_basis;

/// A basis file has at most so many entries.
pub const ENTRIES: u32 = 4_096;

/// The vectors of its entries have at most so many terms in all.
pub const LOG_TERMS: u32 = 8_000_000;

/// The recipes of its entries have at most so many steps in all.
pub const LOG_STEPS: u32 = 8_000_000;

#[cfg(test)]
mod tests;
