//! The tasks of an entry that is appended.

ghost use Rattle.std.specs.Prelude.{◌≡◌, ◌<◌, ◌++◌, ◌∷◌, [], pos, ◌<ℤ◌, length};
ghost use Rattle.strong_pairs.specs.Pairs.{lead_of};
ghost use Rattle.std.specs.Arc.{arc_value};
ghost use Rattle.module_vec.specs.Reducers.{IsEntry};
ghost use Rattle.task_table.specs.Rows.{grown};
ghost use Rattle.pair_book.specs.Settled.{settled_by, settled_row};

use crate::log::Log;
use basis_entry::Entry;
use module_vec::{ModVec, Term};
use std::marker::Model;
use std::sync::Arc;
use strong_pairs::{divides, lead};
use task_table::{Row, Settled, TaskTable};

/// An entry's lead before the entries of a log.
#[derive(Drop)]
struct Newcomer<'a> {
    log: &'a Log,
    lead: Term,
}

impl<'a> Model for Newcomer<'a> {
    ghost use Rattle.std.specs.Prelude.{pos, ◌<ℤ◌, List};
    ghost use Rattle.module_vec.specs.declared.places.Term.{Term};
    ghost use Rattle.basis_entry.specs.Entries.{BasisEntry};

    ghost Value = { List BasisEntry × Term };

    ghost view = { λ n. (n.log.now.entries, n.lead) };

    ghost invariant = { λ n. pos 0 <ℤ n.lead.k };
}

impl<'a> Row for Newcomer<'a> {
    ghost use Rattle.std.specs.Prelude.{map};
    ghost use Rattle.strong_pairs.specs.Pairs.{lead_of};

    ghost settled = { λ n. map (λ e. settled_by (lead_of e.vector) n.1) n.0 };

    fn settled(&self, i: u32) -> Settled {
        settled(&lead(self.log, i), &self.lead)
    }
}

/// Which tasks of a pair with these leads are settled.
fn settled(first: &Term, second: &Term) -> Settled
    requires first { pos 0 <ℤ first.now.k }
    requires second { pos 0 <ℤ second.now.k }
    ensures { result ≡ settled_by first.now second.now }
{
    let s = first.at.c != second.at.c;
    Settled {
        g: s || divides(first.k, second.k) || divides(second.k, first.k),
        s,
    }
}

/// The lead of an entry.
pub fn entry_lead(entry: &Entry) -> Term
    ensures is { result ≡ lead_of (entry.now).vector }
    ensures positive { pos 0 <ℤ result.k }
{
    entry.vector().terms()[0]
}

/// Appends an entry and its tasks.
pub fn enter(log: &mut Log, tasks: &mut TaskTable, entry: Arc<Entry>)
    requires count { tasks.old.count ≡ length log.old.entries }
    requires room { tasks.old.room ≡ log.old.room }
    requires within { length log.old.entries < log.old.room }
    ensures log { log.new ≡ record log.old { entries = log.old.entries ++ arc_value entry ∷ [] } }
    ensures tasks { tasks.new ≡ grown tasks.old (settled_row log.old.entries (arc_value entry).vector)
        (arc_value entry).vector }
{
    let lead = entry_lead(&entry);
    tasks.push(&Newcomer { log, lead }, entry.vector());
    log.push(entry);
}
