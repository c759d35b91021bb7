//! Which replies stand that were made over the lists of seats.

ghost use Rattle.std.specs.Prelude.{◌↔◌, map, IfOk, IsTrue};
ghost use Rattle.std.specs.Arc.{arc_value};
ghost use mathlib.Core.List.{IsPrefix};
ghost use Rattle.legal_report.specs.Seats.{Begins, Keeps, AreKept};

use basis_entry::{Entry, Front};
use basis_log::{Seat, same_seal};
use module_vec::VecList;
use pair_book::Book;
use session_core::Session;
use std::alloc::{AllocError, Global};
use std::sync::Arc;

/// Whether the entries of the list begin these.
fn begin<F: Front>(list: &F, entries: &[Arc<Entry>]) -> bool
    ensures { IsTrue result ↔ IsPrefix (F.entries list.now) (map arc_value entries.now) }
{
    let count = list.count() as usize;
    if count > entries.len() {
        return false;
    }
    for at in 0..count {
        if !list.entry(at as u32).same(&entries[at]) {
            return false;
        }
    }
    true
}

/// Whether the list of the seat begins the items of the book.
fn begins(seat: &Seat<'_>, book: &Book) -> bool
    ensures { IsTrue result ↔ Begins seat.now book.now.entries book.now.seal }
{
    let entries = book.entries();
    let front = seat.front() as usize;
    match (seat.sealed(), book.sealed()) {
        (None, _) => begin(seat, entries),
        (Some(seal), Some(other)) => {
            // Nothing comes behind a seal.
            if front != entries.len() + 1 || !begin(seat, entries) {
                return false;
            }
            same_seal(seal, other)
        }
        (Some(_), None) => false,
    }
}

/// The session, which forgets its replies where it has a seat whose list doesn't begin the items of the book.
fn kept(book: &Book, session: Session, seat: Option<Seat<'_>>) -> Session
    ensures { Keeps book.now.entries book.now.seal (session, seat.entry) result }
{
    let mut session = session;
    if let Some(seat) = seat
        && !begins(&seat, book)
    {
        session.forget();
    }
    session
}

/// The sessions, each of which keeps its replies where it has no seat, or one whose list begins the items of the book.
pub fn all_kept(
    alloc: Global,
    book: &Book,
    actors: Vec<(Session, Option<Seat<'_>>)>,
) -> Result<Vec<Session>, AllocError>
    ensures { IfOk result (λ sessions. AreKept book.now.entries book.now.seal actors.entry.items sessions.items) }
{
    let mut sessions = Vec::with_capacity(alloc, actors.len())?;
    for actor in actors {
        let (session, seat) = actor;
        sessions.push(kept(book, session, seat))?;
    }
    Ok(sessions)
}
