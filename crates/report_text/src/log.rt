//! `Log`: the items of a report, as the writer reads them.

ghost use Rattle.std.specs.Prelude.{◌≡◌, IfOk};
ghost use Rattle.std.proofs.Common.{refl};
ghost use Rattle.basis_entry.specs.Entries.{vectors_of};
ghost use Rattle.report_text.specs.Reports.{IsLog};

use basis_entry::{Entry, Front, Items, Sealed};
use module_vec::{ModVec, Place, VecList};
use presentation::Presentation;
use reducer_index::{Index, Indexed};
use std::alloc::{AllocError, Global};
use std::marker::Model;
use std::sync::Arc;

/// The items of a presentation, over its generators, with an index of their leads.
#[derive(Drop)]
pub struct Log<'a> {
    p: &'a Presentation,
    items: Items<'a>,
    index: Index,
}

impl<'a> Model for Log<'a> {
    ghost use Rattle.reducer_index.specs.Leads.{AreLeads};
    ghost use Rattle.basis_entry.specs.Entries.{vectors_of};
    ghost use Rattle.report_text.specs.Logs.{LogItems};
    ghost use Rattle.report_text.specs.Reports.{IsLog};

    ghost Value = { LogItems };

    ghost view = { λ x. record { pres = x.p.now; entries = x.items.entries; seal = x.items.seal } };

    ghost invariant = { λ x. AreLeads (vectors_of x.items.entries) x.index × IsLog x.p.now x.items.entries };
}

impl<'a> Log<'a> {
    /// The log of the presentation with these items.
    pub fn of(alloc: Global, p: &'a Presentation, items: Items<'a>) -> Result<Log<'a>, AllocError>
        requires { IsLog p.now items.entries }
        ensures { IfOk result (λ log. log ≡ record {
          pres = p.entry.now;
          entries = items.entry.entries;
          seal = items.entry.seal;
        }) }
    {
        let index = Index::of_list(alloc, &items)?;
        Ok(Log { p, items, index })
    }

    /// The presentation.
    pub fn pres(&self) -> &Presentation
        ensures is { result.now ≡ self.now.pres }
        ensures log { IsLog self.now.pres self.now.entries }
    {
        self.p
    }

    /// The items with their index.
    fn indexed(&self) -> Indexed<'_, Items<'a>>
        ensures { result.list.now ≡ record { entries = self.now.entries; seal = self.now.seal } }
    {
        Indexed::over(&self.items, &self.index)
    }
}

impl<'a> VecList for Log<'a> {
    ghost vectors = { λ x. vectors_of x.entries };

    fn count(&self) -> u32 {
        self.items.count()
    }

    fn vector(&self, at: u32) -> &ModVec {
        self.items.vector(at)
    }

    fn find(&self, front: u32, at: &Place) -> Option<u32> {
        self.indexed().find(front, at)
    }
}

impl<'a> Front for Log<'a> {
    ghost entries = { λ x. x.entries };

    ghost seal = { λ x. x.seal };

    ghost vectors_are = { λ x. refl };

    fn front(&self) -> u32 {
        self.items.front()
    }

    fn sealed(&self) -> Option<&Sealed> {
        self.items.sealed()
    }

    fn entry(&self, at: u32) -> &Arc<Entry> {
        self.items.entry(at)
    }
}
