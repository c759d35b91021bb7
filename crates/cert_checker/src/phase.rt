//! Where in a report a line stands.

/// What was taken so far.
#[derive(Clone, Copy, PartialEq, Eq)]
pub enum Phase {
    /// Nothing: the first line is due.
    Title,
    /// The first line: the presentation is due.
    Presentation,
    /// The presentation of a trimmed report: the number of items is due.
    Items,
    /// The head, and entries.
    Entries,
    /// The seal behind the entries.
    Sealed,
    /// The end.
    Closing,
    /// The last line.
    Finished,
}
