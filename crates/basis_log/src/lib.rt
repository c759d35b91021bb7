//! The growing basis that many threads read: a row of cells that are set once, and seats that read them.
//!
//! A row begins with the generator entries of a presentation. After them come cells, each of which some thread sets
//! once to an entry or to a seal. The cells stand in segments, which a directory of set-once cells holds; a segment is
//! made when its first cell is due. A seat is one caller's view of a row: the items that it has seen, which no other
//! thread changes. Nothing waits, and the lists of two seats of one row agree as far as both go.
#![tactic(auto)]

mod fronts;
mod items;
pub mod laws;
mod places;
mod refusals;
mod rows;
mod seats;
mod segments;
mod sights;

pub use items::{Item, same_seal};
pub use refusals::Refused;
pub use rows::Row;
pub use seats::{Seat, agree};

/// How many cells a segment has.
pub const SEGMENT: u32 = 256;

#[cfg(test)]
mod tests;
