//! An indexed list is a front where its list is.

ghost use Rattle.std.specs.Prelude.{◌≡◌};

use crate::{Entry, Front, Sealed};
use reducer_index::Indexed;
use std::sync::Arc;

impl<'a, L: Front> Front for Indexed<'a, L> {
    ghost entries = { λ x. L.entries x.list.now };

    ghost seal = { λ x. L.seal x.list.now };

    ghost vectors_are = { λ x. L.vectors_are x.list.now };

    fn front(&self) -> u32 {
        self.list.front()
    }

    fn sealed(&self) -> Option<&Sealed> {
        self.list.sealed()
    }

    fn entry(&self, at: u32) -> &Arc<Entry> {
        self.list.entry(at)
    }
}
