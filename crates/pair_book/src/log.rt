//! `Log`: the entries of a book.

ghost use Rattle.std.specs.Prelude.{◌≡◌, ◌≤◌, ◌<◌, ◌++◌, ◌∷◌, [], List, Some, None, length, map, slice_get, IfOk};
ghost use Rattle.std.proofs.Common.{refl};
ghost use Rattle.std.specs.Arc.{arc_value};
ghost use Rattle.task_table.specs.declared.TheConstants.{ENTRIES as MOST};
ghost use Rattle.strong_pairs.specs.Pairs.{lead_of};
ghost use Rattle.basis_entry.specs.Entries.{BasisEntry, IsBasisEntry, vectors_of};
ghost use Rattle.pair_book.specs.Fellows.{FindsLast, component_at};
ghost use Rattle.pair_book.specs.LogEntries.{IsLogged};

use crate::links::Links;
use basis_entry::{Entry, Front, Sealed};
use module_vec::{ModVec, VecList};
use std::alloc::{AllocError, Global};
use std::marker::Model;
use std::sync::Arc;
use strong_pairs::lead;

/// The entries of a log, with room for further ones.
#[derive(Drop)]
pub struct Log {
    entries: Vec<Arc<Entry>>,
    room: u32,
    links: Links,
}

impl Model for Log {
    ghost use Rattle.pair_book.specs.LogEntries.{Logged};

    ghost Value = { Logged };

    ghost use Rattle.pair_book.specs.LogEntries.{logged, IsRoomy};

    ghost view = { logged };

    ghost invariant = { IsRoomy };
}

impl Log {
    /// The log without entries, with room for so many.
    pub fn with_room(alloc: Global, room: u32) -> Result<Log, AllocError>
        requires { room ≤ MOST }
        ensures { IfOk result (λ log. log ≡ record { room = room; entries = [] }) }
    {
        Ok(Log {
            entries: Vec::with_capacity(alloc, room as usize)?,
            room,
            links: Links::with_room(alloc, room)?,
        })
    }

    /// Puts an entry at the end. No memory is taken.
    pub fn push(&mut self, entry: Arc<Entry>)
        requires { length self.old.entries < self.old.room }
        ensures { self.new ≡ record self.old { entries = self.old.entries ++ arc_value entry ∷ [] } }
    {
        self.links.push(component(&entry));
        self.entries.push_reserved(entry);
    }

    /// The entries in order.
    pub fn entries(&self) -> &[Arc<Entry>]
        ensures is { map arc_value result.now ≡ self.now.entries }
        ensures log { IsLogged self.now }
    {
        &self.entries
    }

    /// The entry with this number.
    pub fn get(&self, at: u32) -> &Arc<Entry>
        requires { at < length self.now.entries }
        ensures is { slice_get self.now.entries at ≡ Some (arc_value result.now) }
    {
        &self.entries[at as usize]
    }

    /// The last entry in the component of the one with this number.
    pub fn last_fellow(&self, at: u32) -> Option<u32>
        requires { at < length self.now.entries }
        ensures { FindsLast (component_at self.now.entries) (length self.now.entries)
            (component_at self.now.entries at) result }
    {
        let component = lead(self, at).at.c;
        self.links.last(component)
    }

    /// The last entry before the one with this number in its component.
    pub fn fellow_before(&self, at: u32) -> Option<u32>
        requires { at < length self.now.entries }
        ensures { FindsLast (component_at self.now.entries) at (component_at self.now.entries at) result }
    {
        self.links.previous(at)
    }
}

/// The component of an entry's lead.
fn component(entry: &Entry) -> u8
    ensures is { result ≡ (lead_of (entry.now).vector).at.c }
    ensures entry { IsBasisEntry entry.now }
{
    entry.vector().terms()[0].at.c
}

impl VecList for Log {
    ghost vectors = { λ l. vectors_of l.entries };

    fn count(&self) -> u32 {
        self.entries.len() as u32
    }

    fn vector(&self, at: u32) -> &ModVec {
        self.get(at).vector()
    }
}

impl Front for Log {
    ghost entries = { λ l. l.entries };

    ghost seal = { λ l. None };

    ghost vectors_are = { λ l. refl };

    fn front(&self) -> u32 {
        self.entries.len() as u32
    }

    fn sealed(&self) -> Option<&Sealed> {
        None
    }

    fn entry(&self, at: u32) -> &Arc<Entry> {
        self.get(at)
    }
}
