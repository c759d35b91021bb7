//! `Candidate`: what an index keeps of a lead.

ghost use Rattle.std.specs.Prelude.{◌≡◌, ◌<◌, ◌↔◌, length, IsTrue};
ghost use Rattle.std.specs.Prelude.{List, Some, slice_get};
ghost use Rattle.module_vec.specs.declared.places.Term.{Term};
ghost use Rattle.reducer_index.specs.Masks.{IsMask};
ghost use Rattle.reducer_index.specs.Candidates.{IsCandidateOf, IsReducing, stands_before};

use crate::masks::mask;
use module_vec::{Place, Term};

/// The entry with this number, which may be a reducer: its lead coefficient, the component, and the mask of its
/// monomial.
#[derive(Clone, Copy)]
pub struct Candidate {
    pub coefficient: i128,
    pub mask: u64,
    pub number: u32,
    pub component: u8,
}

impl Candidate {
    /// What is kept of this lead.
    pub fn new(lead: &Term, number: u32) -> Candidate
        ensures is { (es : List Term) → slice_get es result.number ≡ Some lead.now → IsCandidateOf es result }
        ensures number { result.number ≡ number }
    {
        Candidate {
            coefficient: lead.k,
            mask: mask(&lead.at.m),
            number,
            component: lead.at.c,
        }
    }

    /// Whether the candidate stands before a new one, whose number is greater.
    pub fn stands_before(&self, new: &Candidate) -> bool
        ensures { result ≡ stands_before new.now self.now }
    {
        self.component < new.component
            || (self.component == new.component && self.coefficient <= new.coefficient)
    }

    /// Whether the candidate's lead reduces the place, which is of its component and has the monomial with this mask.
    pub fn reduces(&self, leads: &[Term], at: &Place, mask: u64) -> bool
        requires candidate { IsCandidateOf leads.now self.now }
        requires component { self.now.component ≡ at.now.c }
        requires mask { IsMask at.now.m mask }
        ensures { IsTrue result ↔ IsReducing leads.now at.now self.now }
    {
        if self.mask & mask != self.mask {
            return false;
        }
        leads[self.number as usize].at.m.divides(&at.m)
    }
}
