//! Entries that work has used.

use basis_entry::Entry;
use std::sync::Arc;

/// An entry and its number in the list that a task was worked by.
#[derive(Drop)]
pub struct Used {
    pub number: u32,
    pub entry: Arc<Entry>,
}
