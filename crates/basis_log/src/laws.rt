//! Laws, as functions that do nothing: what each says is its contract.

use crate::{Item, Row, Seat};
use basis_entry::laws::entries_are_shared_by_threads;

/// Rows and their items are shared by threads: each is `Send` and `Sync`, as entries and seals are.
pub fn rows_are_shared_by_threads() {
    entries_are_shared_by_threads();
    is_shared::<Item>();
    is_shared::<Row>();
}

/// A seat moves to a thread: it is `Send`.
pub fn seats_move_to_threads<'r>() {
    is_sent::<Seat<'r>>();
}

fn is_shared<T: Send + Sync>() {}

fn is_sent<T: Send>() {}
