//! Limits of a book.

use task_table::Order;

/// What a book may hold, and the order of its tasks.
#[derive(Clone, Copy, PartialEq, Eq)]
pub struct Limits {
    /// The most entries, at most [`ENTRIES`](task_table::ENTRIES).
    pub entries: u32,
    /// The most terms of all vectors.
    pub terms: u32,
    /// The most steps of all recipes.
    pub steps: u32,
    /// The most commits, if they are limited.
    pub budget: Option<u32>,
    pub order: Order,
}
