//! A seat is a front: what answers questions over a log answers them over a seat.

ghost use Rattle.std.specs.Prelude.{◌≡◌};
ghost use Rattle.std.proofs.Common.{refl};
ghost use Rattle.basis_entry.specs.Entries.{vectors_of};
ghost use Rattle.basis_log.specs.Items.{entries_of, seal_of};

use crate::Seat;
use basis_entry::{Entry, Front, Sealed};
use module_vec::{ModVec, VecList};
use std::sync::Arc;

impl<'r> VecList for Seat<'r> {
    ghost vectors = { λ s. vectors_of (entries_of s.items) };

    fn count(&self) -> u32 {
        let front = Seat::front(self);
        match Seat::sealed(self) {
            Some(_) => front - 1,
            None => front,
        }
    }

    fn vector(&self, at: u32) -> &ModVec {
        Seat::entry(self, at).vector()
    }
}

impl<'r> Front for Seat<'r> {
    ghost entries = { λ s. entries_of s.items };

    ghost seal = { λ s. seal_of s.items };

    ghost vectors_are = { λ s. refl };

    fn front(&self) -> u32 {
        Seat::front(self)
    }

    fn sealed(&self) -> Option<&Sealed> {
        Seat::sealed(self)
    }

    fn entry(&self, at: u32) -> &Arc<Entry> {
        Seat::entry(self, at)
    }
}
