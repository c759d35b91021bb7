//! Flat certificates: that a word is trivial is shown by the relators alone.
//!
//! A flat certificate says that the Fox vector of a word is a sum of multiples of the relators' Fox vectors, of relator
//! binomials and of the modulus, in the group ring of the free abelian group on the generators. Whoever has the
//! presentation, the word and the certificate can add it up; no basis and no reduction is needed.
#![tactic(auto)]

mod check;
mod faults;
pub mod laws;
mod line_text;
mod lines;
mod products;
mod reading;
mod relators;
mod totals;
mod writing;

pub use check::check_flat;
pub use faults::{FlatFault, FlatSumFault, FlatTextFault, WriteFault};
pub use line_text::put_line;
pub use lines::{Flat, FlatKind};
pub use products::flat_product;
pub use reading::read_flat;
pub use totals::{Total, total_with};
pub use writing::write_flat;

/// A certificate has at most so many lines.
pub const LINES: u32 = 1_000_000;

/// The terms that are added up stand at most at so many places.
pub const PLACES: u32 = 1_000_000;

#[cfg(test)]
mod tests;
