//! Why an item isn't published.

use crate::Item;

/// Why an item isn't published.
#[derive(Drop)]
pub enum Refused<'r> {
    /// The row has no cell after those that the seat has items of, or the cell's segment isn't made and the seat has
    /// no spare one. The item is handed back.
    NoCell { item: Box<Item> },
    /// The cell holds another item, which now stands in the seat's list.
    Held,
    /// The cell holds this item of another presentation.
    Foreign { item: &'r Item },
}
