//! Entries as a report tells them.

ghost use Rattle.std.specs.Prelude.{◌≡◌};

use basis_entry::Recipe;
use module_vec::ModVec;
use std::marker::Model;

/// An entry: how it was made, and what it is.
#[derive(Drop)]
pub struct EntryData {
    pub recipe: Recipe,
    pub vector: ModVec,
}

/// Entries in order, which contracts see as a list.
#[derive(Drop)]
pub struct EntryList {
    list: Vec<EntryData>,
}

impl Model for EntryList {
    ghost use Rattle.std.specs.Prelude.{List};
    ghost use Rattle.report_reading.specs.declared.entry.EntryData.{EntryData};

    ghost Value = { List EntryData };

    ghost view = { λ e. e.list.items };
}

impl EntryList {
    /// The list of these entries.
    pub fn of(list: Vec<EntryData>) -> EntryList
        ensures { result ≡ list.items }
    {
        EntryList { list }
    }

    /// The entries in order.
    pub fn entries(&self) -> &[EntryData]
        ensures { result.now ≡ self.now }
    {
        &self.list
    }

    /// The entries themselves.
    pub fn into_list(self) -> Vec<EntryData>
        ensures { result.items ≡ self }
    {
        self.list
    }
}
