//! What a run begins with: an opened book, and sessions before their first reply.

ghost use Rattle.std.specs.Prelude.{◌≤◌, length, IfErr};
ghost use Rattle.mb_io.specs.Shelf.{CountRose};
ghost use Rattle.command_floor.specs.Files.{HasCause};
ghost use Rattle.command_floor.specs.Parsing.{shown};
ghost use Rattle.solve_commands.specs.Found.{FitTable, Begins};

use crate::limits::opened;
use crate::sessions::load_sessions;
use command_floor::{Halt, load_presentation};
use mb_io::Shelf;
use module_vec::VecList;
use pair_book::{Book, Limits};
use presentation::Presentation;
use session_core::Session;
use std::alloc::Global;
use std::sync::Arc;

/// A presentation, its book before the completion, and the sessions before their first reply.
#[derive(Drop)]
pub(crate) struct Begun {
    pub(crate) p: Arc<Presentation>,
    pub(crate) book: Book,
    pub(crate) sessions: Vec<Session>,
}

/// Reads the presentation and then the sessions under these names, and opens the book.
pub(crate) fn begin<S: Shelf>(
    alloc: Global,
    shelf: &mut S,
    presentation: &str,
    sessions: &[&str],
    limits: Limits,
) -> Result<Begun, Halt>
    requires within { FitTable limits (length sessions.now) }
    ensures begins { Begins (CountRose (S.faults shelf.old) (S.faults shelf.new)) (S.under shelf.old) presentation.now
        (shown sessions.now) limits result }
    ensures cause { IfErr result (HasCause (CountRose (S.faults shelf.old) (S.faults shelf.new))) }
    ensures later { S.faults shelf.old ≤ S.faults shelf.new }
{
    let p = load_presentation(alloc, shelf, presentation)?;
    let p = Arc::new(alloc, p)?;
    let book = opened(alloc, &p, limits)?;
    let sessions = load_sessions(alloc, shelf, &p, sessions, book.count())?;
    Ok(Begun { p, book, sessions })
}
