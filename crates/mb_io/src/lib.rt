//! Bytes in and bytes out.
//!
//! A [`Shelf`] gives the bytes that stand under names, and a [`Sink`] takes bytes. Both may refuse a call, and count
//! how often they did, so that whoever answers "a read failed" can show it. [`read_all`] and [`write_all`] are the two
#![tactic(auto)]

mod calls;
mod faults;
pub mod fs;
pub mod load;
pub mod mem_shelf;
pub mod mem_sink;
pub mod named;
mod piece;
pub mod send;
pub mod shelf;

pub use fs::{FsShelf, OutSink};
pub use load::{LoadFault, read_all};
pub use mem_shelf::MemShelf;
pub use mem_sink::MemSink;
pub use named::NamedBytes;
pub use send::write_all;
pub use shelf::{Failed, Shelf, Sink};

#[cfg(test)]
mod tests;
