//! Opening of books.

ghost use Rattle.std.specs.Prelude.{◌≡◌, ◌≤◌, ◌↔◌, [], map, length, IfOk, IsTrue, OnOk};
ghost use Rattle.std.specs.Arc.{arc_value};
ghost use Rattle.basis_entry.specs.declared.TheConstants.{BASE};
ghost use Rattle.pair_book.specs.Books.{AreWithin, AreNew};
ghost use Rattle.pair_book.specs.LogEntries.{terms_of};

use crate::Limits;
use crate::log::Log;
use crate::newcomers::enter;
use basis_entry::Entry;
use presentation::Presentation;
use std::alloc::{AllocError, Global};
use std::sync::Arc;
use task_table::TaskTable;

/// Whether the generator entries of the presentation are within the limits, so that a book can be opened with them.
pub fn can_open(alloc: Global, p: &Arc<Presentation>, limits: &Limits) -> Result<bool, AllocError>
    ensures { IfOk result (λ can. IsTrue can ↔ AreWithin (arc_value p.now) limits.now) }
{
    let base = Entry::base(alloc, p)?;
    if base.len() > limits.entries as usize {
        return Ok(false);
    }
    Ok(count_terms(&base) <= limits.terms as usize)
}

/// The number of terms of entries.
fn count_terms(entries: &[Arc<Entry>]) -> usize
    requires few { length entries.now ≤ BASE }
    ensures { result ≡ terms_of (map arc_value entries.now) }
{
    let mut terms = 0;
    for entry in entries {
        terms += entry.vector().terms().len();
    }
    terms
}

/// Enters the entries into an empty log and its table, and answers the number of their terms.
pub fn enter_all(
    log: &mut Log,
    tasks: &mut TaskTable,
    base: &[Arc<Entry>],
) -> Result<u32, AllocError>
    requires log { log.old.entries ≡ [] }
    requires tasks { AreNew [] tasks.old }
    requires room { tasks.old.room ≡ log.old.room }
    requires within { length base.now ≤ log.old.room }
    ensures log { OnOk result (log.new ≡ record log.old { entries = map arc_value base.now }) }
    ensures tasks { OnOk result (AreNew (map arc_value base.now) tasks.new) }
    ensures same { OnOk result ((tasks.new.order ≡ tasks.old.order) × (tasks.new.room ≡ tasks.old.room)) }
    ensures terms { IfOk result (λ terms. terms ≡ terms_of (map arc_value base.now)) }
{
    let mut terms = 0;
    for entry in base {
        terms += entry.vector().terms().len() as u32;
        enter(log, tasks, Arc::try_clone(entry)?);
    }
    Ok(terms)
}
