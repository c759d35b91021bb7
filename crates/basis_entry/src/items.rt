//! `Items`: entries in memory, with or without a seal.

ghost use Rattle.std.specs.Prelude.{◌≡◌, ◌+◌, ◌<◌, ◌^◌, length, map, option_map, slice_get, Some};
ghost use Rattle.std.proofs.Common.{refl};
ghost use Rattle.std.specs.Arc.{arc_value};
ghost use Rattle.basis_entry.specs.Entries.{vectors_of};

use crate::{Entry, Front, Sealed};
use module_vec::{ModVec, VecList};
use std::marker::Model;
use std::sync::Arc;

/// Entries in order, and the seal behind them if there is one.
#[derive(Drop)]
pub struct Items<'a> {
    entries: &'a [Arc<Entry>],
    seal: Option<&'a Sealed>,
}

impl<'a> Model for Items<'a> {
    ghost use Rattle.std.specs.List.{AllByRecursion};
    ghost use Rattle.std.specs.Prelude.{◌+◌, ◌<◌, ◌^◌, length, map, option_map};
    ghost use Rattle.std.specs.Arc.{arc_value};
    ghost use Rattle.basis_entry.specs.Entries.{IsBasisEntry};
    ghost use Rattle.basis_entry.specs.Items.{ItemList};

    ghost Value = { ItemList };

    ghost view = { λ x. record { entries = map arc_value x.entries.now; seal = option_map (λ s. s.now) x.seal } };

    ghost invariant = { λ x. AllByRecursion IsBasisEntry (map arc_value x.entries.now)
        × (length (map arc_value x.entries.now) + 1 < 2 ^ 32) };
}

impl<'a> Items<'a> {
    /// These entries, of which there are fewer than 2^32 - 1, with this seal.
    pub fn of(entries: &'a [Arc<Entry>], seal: Option<&'a Sealed>) -> Items<'a>
        requires { length entries.now + 1 < 2 ^ 32 }
        ensures { result ≡ record {
          entries = map arc_value entries.entry.now;
          seal = option_map (λ s. s.now) seal.entry;
        } }
    {
        Entry::all_known(entries);
        Items { entries, seal }
    }

    /// The entries of a seal, and the seal behind them.
    pub fn of_seal(seal: &'a Sealed) -> Items<'a>
        ensures { result ≡ record { entries = seal.entry.now.entries; seal = Some seal.entry.now } }
    {
        seal.known();
        Items {
            entries: seal.entries(),
            seal: Some(seal),
        }
    }

    /// The entry with this number.
    fn get(&self, at: u32) -> &Arc<Entry>
        requires { at < length self.now.entries }
        ensures { slice_get self.now.entries at ≡ Some (arc_value result.now) }
    {
        &self.entries[at as usize]
    }
}

impl<'a> VecList for Items<'a> {
    ghost vectors = { λ x. vectors_of x.entries };

    fn count(&self) -> u32 {
        self.entries.len() as u32
    }

    fn vector(&self, at: u32) -> &ModVec {
        self.get(at).vector()
    }
}

impl<'a> Front for Items<'a> {
    ghost entries = { λ x. x.entries };

    ghost seal = { λ x. x.seal };

    ghost vectors_are = { λ x. refl };

    fn front(&self) -> u32 {
        self.entries.len() as u32 + u32::from(self.seal.is_some())
    }

    fn sealed(&self) -> Option<&Sealed> {
        self.seal
    }

    fn entry(&self, at: u32) -> &Arc<Entry> {
        self.get(at)
    }
}
