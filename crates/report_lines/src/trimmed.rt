//! The lines of a trimmed report.

ghost use Rattle.std.specs.Prelude.{◌≡◌};

use crate::{Line, Made};
use module_vec::ModVec;

/// A line of a report that holds only some of the entries, after the three at its head.
#[derive(Drop)]
pub enum TrimmedLine {
    /// An entry, numbered from 0, and its number `from` among the items of the whole history.
    Entry {
        number: u32,
        from: u32,
        made: Made,
        vector: ModVec,
    },
    /// Any other line, as in a whole report.
    Other(Line),
}

/// The number of an entry among those that are kept, and among the items of the whole history. Both count from 0.
#[derive(Clone, Copy)]
pub struct EntryNumber {
    pub number: u32,
    pub from: u32,
}

impl EntryNumber {
    /// This entry of those that are kept, with this number among the items.
    pub fn new(number: u32, from: u32) -> EntryNumber
        ensures { result ≡ record { number = number; from = from } }
    {
        EntryNumber { number, from }
    }
}
