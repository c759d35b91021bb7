//! `Below`: the items of a list below a front.

ghost use Rattle.std.specs.Prelude.{◌≡◌, take};
ghost use Rattle.basis_entry.specs.Entries.{vectors_of};
ghost use Rattle.basis_entry.specs.Items.{seal_below};

use crate::{Entry, Front, Sealed};
use module_vec::{ModVec, Place, VecList};
use std::sync::Arc;

/// The items of a list below a front. Reducers are found by the list.
#[derive(Drop)]
pub struct Below<'a, L: Front> {
    pub list: &'a L,
    pub front: u32,
}

impl<'a, L: Front> VecList for Below<'a, L> {
    ghost vectors = { λ x. vectors_of (take x.front (L.entries x.list.now)) };

    fn count(&self) -> u32 {
        self.list.count().min(self.front)
    }

    fn vector(&self, at: u32) -> &ModVec {
        self.list.vector(at)
    }

    fn find(&self, front: u32, at: &Place) -> Option<u32> {
        self.list.find(front, at)
    }
}

impl<'a, L: Front> Front for Below<'a, L> {
    ghost use Rattle.std.proofs.Common.{refl};

    ghost entries = { λ x. take x.front (L.entries x.list.now) };

    ghost seal = { λ x. seal_below (L.entries x.list.now) (L.seal x.list.now) x.front };

    ghost vectors_are = { λ x. refl };

    fn front(&self) -> u32 {
        self.list.front().min(self.front)
    }

    fn sealed(&self) -> Option<&Sealed> {
        if self.list.count() < self.front {
            self.list.sealed()
        } else {
            None
        }
    }

    fn entry(&self, at: u32) -> &Arc<Entry> {
        self.list.entry(at)
    }
}
