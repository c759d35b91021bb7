//! `Item`: what a cell of a row holds.

ghost use Rattle.std.specs.Prelude.{◌≡◌, ◌↔◌, map, IsTrue};
ghost use Rattle.std.specs.Arc.{arc_value};
ghost use Rattle.basis_log.specs.Items.{shown, item_source, IsItem};

use basis_entry::{Entry, Sealed};
use presentation::Presentation;
use std::sync::Arc;

/// An item of a log.
#[derive(Drop)]
pub enum Item {
    /// The next entry.
    Entry(Arc<Entry>),
    /// The seal, which ends the log.
    Seal(Arc<Sealed>),
}

impl Item {
    /// The presentation that the item is of.
    pub fn presentation(&self) -> &Presentation
        ensures { result.now ≡ item_source (shown self.now) }
    {
        match self {
            Item::Entry(entry) => entry.presentation(),
            Item::Seal(seal) => seal.presentation(),
        }
    }

    /// Whether the item is the other: the same entry or the same seal, by what they hold.
    pub fn same(&self, other: &Item) -> bool
        ensures { IsTrue result ↔ (shown self.now ≡ shown other.now) }
    {
        match (self, other) {
            (Item::Entry(entry), Item::Entry(other)) => entry.same(other),
            (Item::Seal(seal), Item::Seal(other)) => same_seal(seal, other),
            _ => false,
        }
    }

    /// What holds of every entry and every seal.
    pub(crate) fn known(&self)
        ensures { IsItem (shown self.now) }
    {
        match self {
            Item::Entry(entry) => {
                let _ = entry.vector();
            }
            Item::Seal(seal) => {
                let _ = seal.entries();
            }
        }
    }
}

/// Whether the seals have the same presentation and the same entries.
pub fn same_seal(seal: &Sealed, other: &Sealed) -> bool
    ensures { IsTrue result ↔ (seal.now ≡ other.now) }
{
    same_entries(seal.entries(), other.entries()) && seal.presentation().same(other.presentation())
}

/// Whether the entries are the others, in their order.
fn same_entries(entries: &[Arc<Entry>], others: &[Arc<Entry>]) -> bool
    ensures { IsTrue result ↔ (map arc_value entries.now ≡ map arc_value others.now) }
{
    if entries.len() != others.len() {
        return false;
    }
    for at in 0..entries.len() {
        if !entries[at].same(&others[at]) {
            return false;
        }
    }
    true
}
