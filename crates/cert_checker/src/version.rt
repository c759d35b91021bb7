//! Which items of a history a report has.

/// Which items of a history a report has.
#[derive(Clone, Copy, PartialEq, Eq)]
pub enum Version {
    /// All of them, so that an entry's number is its number in the history.
    Whole,
    /// Some of the entries, each with its number in the history, which has so many items.
    Trimmed { items: u32 },
}
