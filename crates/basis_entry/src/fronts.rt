//! `Front`: what is seen of a log.

ghost use Rattle.std.specs.List.{AllByRecursion};
ghost use Rattle.std.specs.Prelude.{◌≡◌, ◌<◌, List, length, Option, Some, None, slice_get, MatchOption};
ghost use Rattle.std.specs.Arc.{arc_value};
ghost use Rattle.basis_entry.specs.Entries.{BasisEntry, IsBasisEntry, vectors_of};
ghost use Rattle.basis_entry.specs.Seals.{Seal, item_count};

use crate::{Entry, Sealed};
use module_vec::VecList;
use std::sync::Arc;

/// The items of a log: its entries in order, and the seal as one further item, if there is one. As a list of vectors it
/// is that of the entries' vectors.
pub trait Front: VecList {
    /// The entries among the items.
    ghost entries: { Self → List BasisEntry };

    /// The seal among them.
    ghost seal: { Self → Option Seal };

    /// The number of items.
    fn front(&self) -> u32
        ensures is { result ≡ item_count (entries self.now) (seal self.now) }
        ensures entries { AllByRecursion IsBasisEntry (entries self.now) };

    /// The seal, if it is among the items.
    fn sealed(&self) -> Option<&Sealed>
        ensures { MatchOption result (seal self.now ≡ None) (λ s. seal self.now ≡ Some s.now) };

    /// The entry with this number.
    fn entry(&self, at: u32) -> &Arc<Entry>
        requires { at < length (entries self.now) }
        ensures { slice_get (entries self.now) at ≡ Some (arc_value result.now) };

    /// What holds of the entries.
    fn known(&self)
        ensures { AllByRecursion IsBasisEntry (entries self.now) }
    {
        let _count = self.front();
    }

    /// The vectors of the list are those of the entries.
    ghost vectors_are: { (x : Self) → Self.vectors x ≡ vectors_of (entries x) };
}
