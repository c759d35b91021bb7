//! `Indexed`: a list beside an index of its leads.

ghost use Rattle.std.specs.Prelude.{◌≡◌};
ghost use Rattle.reducer_index.specs.Leads.{AreLeads};

use crate::Index;
use module_vec::{ModVec, Place, VecList};

/// A list of vectors that finds reducers by an index of its leads.
#[derive(Drop)]
pub struct Indexed<'a, L: VecList> {
    pub list: &'a L,
    pub index: &'a Index,
    ghost leads: { AreLeads (L.vectors list.now) index.now },
}

impl<'a, L: VecList> Indexed<'a, L> {
    /// The list with this index, whose terms are the leads of the list, in order.
    pub fn over(list: &'a L, index: &'a Index) -> Indexed<'a, L>
        requires { AreLeads (L.vectors list.now) index.now }
        ensures list { result.list.now ≡ list.entry.now }
        ensures index { result.index.now ≡ index.entry.now }
    {
        Indexed { list, index }
    }
}

impl<'a, L: VecList> VecList for Indexed<'a, L> {
    ghost vectors = { λ x. L.vectors x.list.now };

    fn count(&self) -> u32 {
        self.list.count()
    }

    fn vector(&self, at: u32) -> &ModVec {
        self.list.vector(at)
    }

    fn find(&self, front: u32, at: &Place) -> Option<u32> {
        // The proof needs that the list has entries, and the call says so.
        let _ = self.list.count();
        self.index.find(front, at)
    }
}
