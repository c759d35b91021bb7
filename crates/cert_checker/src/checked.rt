//! What a report holds.

/// How much was checked: the entry lines and the proof lines, each at most 2^32 - 1.
#[derive(Clone, Copy, PartialEq, Eq)]
pub struct Checked {
    pub entries: u32,
    pub proofs: u32,
}
