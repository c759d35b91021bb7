//! `Index`: the leads of a list, in the order in which reducers are chosen.

ghost use Rattle.std.specs.Prelude.{◌≡◌, ◌+◌, ◌<◌, ◌≤◌, ◌^◌, ◌++◌, ◌∷◌, [], length, take, IfOk, OnErr};
ghost use Rattle.reducer_index.specs.Leads.{AreLeads, FindsLead};

use crate::candidates::Candidate;
use crate::search::{first_reducer, from_component, place_of};
use module_vec::{Place, Term, VecList};
use std::alloc::{AllocError, Global};
use std::marker::Model;

/// The lead terms of a list of vectors, with an index of them. Contracts see the terms in the order of the list.
#[derive(Drop)]
pub struct Index {
    leads: Vec<Term>,
    /// By component, coefficient and number.
    candidates: Vec<Candidate>,
}

impl Model for Index {
    ghost use Rattle.std.specs.Prelude.{List};
    ghost use Rattle.module_vec.specs.declared.places.Term.{Term};
    ghost use Rattle.reducer_index.specs.Candidates.{IsIndex};

    ghost Value = { List Term };

    ghost view = { λ x. x.leads.items };

    ghost invariant = { λ x. IsIndex x.leads.items x.candidates.items };
}

impl Index {
    /// The index of no terms.
    pub fn new(alloc: Global) -> Index
        ensures { result ≡ [] }
    {
        Index {
            leads: Vec::new(alloc),
            candidates: Vec::new(alloc),
        }
    }

    /// The index of the leads of a whole list.
    #[tactic(auto, using(crate::proofs::Leading::taken_more))]
    pub fn of_list<L: VecList>(alloc: Global, list: &L) -> Result<Index, AllocError>
        ensures { IfOk result (AreLeads (L.vectors list.now)) }
    {
        let mut index = Index::new(alloc);
        for at in 0..list.count() {
            index.push(list.vector(at).terms()[0])?;
        }
        Ok(index)
    }

    /// Puts a lead at the end. There are fewer than 2^32 - 1 before it.
    pub fn push(&mut self, lead: Term) -> Result<(), AllocError>
        requires { length self.old + 1 < 2 ^ 32 }
        ensures ok { IfOk result (λ _. self.new ≡ self.old ++ lead ∷ []) }
        ensures err { OnErr result (self.new ≡ self.old) }
    {
        let candidate = Candidate::new(&lead, self.leads.len() as u32);
        let at = place_of(&self.candidates, &candidate);
        self.leads.reserve(1)?;
        self.candidates.insert(at, candidate)?;
        self.leads.push_reserved(lead);
        Ok(())
    }

    /// How many terms there are.
    pub fn len(&self) -> u32
        ensures { result ≡ length self.now }
    {
        self.leads.len() as u32
    }

    /// The number of the reducer of a place among the leads below `front`.
    pub(crate) fn find(&self, front: u32, at: &Place) -> Option<u32>
        requires { front ≤ length self.now }
        ensures { FindsLead (take front self.now) at.now result }
    {
        let candidates = from_component(&self.candidates, at.c);
        first_reducer(candidates, &self.leads, front, at)
    }
}
