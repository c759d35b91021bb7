//! `run`: workers complete a book while sessions ask.

ghost use Rattle.std.specs.Prelude.{◌≡◌, ◌≤◌, ◌+◌, IfOk, length};
ghost use Rattle.std.specs.Arc.{arc_value};
ghost use Rattle.basis_log.specs.Rows.{row_source};
ghost use Rattle.task_table.specs.declared.TheConstants.{ENTRIES as MOST};
ghost use Rattle.pair_book.specs.Books.{AreWithin, IsOpened};
ghost use Rattle.report_text.specs.Reports.{reported};
ghost use Rattle.legal_report.specs.Gathering.{questions_of};
ghost use Rattle.legal_report.specs.Last.{AreLastKinds};
ghost use Rattle.legal_report.specs.Solutions.{AreNewSessions, IsConclusion};

use crate::cast::{cast, seated};
use basis_log::Row;
use completion_workers::{Gate, run_actors};
use legal_report::{Solved, gather, shared};
use pair_book::{Book, Limits};
use presentation::Presentation;
use session_core::Session;
use std::alloc::{AllocError, Global};
use std::sync::{Arc, Mutex, Wait};
use std::thread::Threads;

/// Completes the book by so many workers while the sessions ask, then alone what is left to do, and reports what was
/// found. It returns if each call returns that waits for another thread.
///
/// The row has as many cells as the log may get entries, and one for the seal.
pub fn run<G: Gate + Sync, R: Threads + Wait + Sync>(
    rt: &R,
    alloc: Global,
    p: &Arc<Presentation>,
    book: Book,
    sessions: Vec<Session>,
    workers: u32,
    limits: Limits,
    gate: &G,
) -> Result<Solved, AllocError>
    requires most { limits.entries ≤ MOST }
    requires within { AreWithin (arc_value p.now) limits }
    requires opened { IsOpened (arc_value p.now) limits book }
    requires sessions { AreNewSessions (arc_value p.now) (length book.entries) sessions.items }
    ensures conclusion { IfOk result (λ s. IsConclusion (arc_value p.now) limits (questions_of sessions.items)
        (reported s.report)) }
    ensures last { IfOk result (λ s. AreLastKinds (reported s.report) s.last.items) }
{
    let row = row(alloc, p, &book, limits)?;
    let mut actors = cast(alloc, p, &row, workers, sessions)?;
    let book = Mutex::new(book);
    run_actors(rt, alloc, p, &book, &mut actors, gate);
    let report = gather(alloc, p, book.into_inner(), seated(alloc, actors)?, limits)?;
    Solved::of(alloc, report)
}

/// The row for a log within these limits that begins with the entries of the book: it has a cell for each further
/// entry, and one for the seal.
fn row(alloc: Global, p: &Presentation, book: &Book, limits: Limits) -> Result<Row, AllocError>
    requires most { limits.entries ≤ MOST }
    requires opened { IsOpened p.now limits book.now }
    ensures base { IfOk result (λ row. row.base ≡ book.now.entries) }
    ensures source { IfOk result (λ row. row_source row ≡ p.now) }
    ensures cells { IfOk result (λ row. length row.base + row.cells ≡ limits.entries + 1) }
{
    p.known();
    book.known();
    let base = shared(alloc, book.entries())?;
    let cells = limits.entries - base.len() as u32 + 1;
    Row::open(alloc, base, cells)
}
