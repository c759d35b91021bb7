//! Sessions: questions about words over a presentation, asked of a list of entries, with the replies that are kept.
//!
//! A verdict is made from the entries that a list has and from whether it is sealed. What it says of words rests on the
//! theorem of Magnus (1939) and on the exactness of strong bases (Lichtblau 2012): `Trivial` and `Extends` hold
//! whatever the list is, and after the seal each verdict but `Stop` is exact.
#![tactic(auto)]

pub mod judge;
mod kept;
pub mod laws;
mod proving;
mod sealed;
mod sessions;

pub use kept::{Kept, Tag};
pub use outcomes::Verdict;
pub use proving::proof;
pub use sealed::ask_sealed;
pub use sessions::Session;

#[cfg(test)]
mod tests;
