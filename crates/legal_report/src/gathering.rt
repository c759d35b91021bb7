//! `gather`: the end of a run.

ghost use Rattle.std.specs.List.{AllByRecursion};
ghost use Rattle.std.specs.Prelude.{◌≡◌, ◌≢◌, ◌+◌, ◌≤◌, ◌++◌, ℕ, List, length, map, slice_get, Some, None, option_map};
ghost use Rattle.std.specs.Prelude.{IfOk};
ghost use Rattle.std.specs.Prelude.{OnOk, ◌↔◌, IsTrue};
ghost use Rattle.std.specs.Arc.{arc_value};
ghost use Rattle.basis_entry.specs.Entries.{BasisEntry, AreOf, vectors_of};
ghost use Rattle.basis_entry.specs.Seals.{item_count};
ghost use Rattle.session_core.specs.Questions.{CanBeAsked};
ghost use Rattle.session_core.specs.Sessions.{SessionState, last_front};
ghost use Rattle.completion_solo.specs.Finishing.{NoneTaken};
ghost use Rattle.pair_book.specs.Books.{IsBook, AreWithin};
ghost use Rattle.task_table.specs.declared.TheConstants.{ENTRIES as MOST};
ghost use Rattle.report_text.specs.Reports.{reported};
ghost use Rattle.legal_report.specs.Legal.{IsLegal, seal_at};
ghost use Rattle.legal_report.specs.Gathering.{questions_of, AreAskers, CanGoOn, IsAnsweredOn, AreAnsweredOn};
ghost use Rattle.legal_report.specs.Gathering.{IsCompleted, IsEnded};
ghost use Rattle.legal_report.specs.Seats.{AreActors, AreEnded, sessions_of};

use crate::seating::all_kept;
use basis_entry::{Entry, Front, Sealed};
use basis_log::Seat;
use completion_solo::finish;
use outcomes::End;
use pair_book::{Book, Limits, SealFault};
use presentation::Presentation;
use reducer_index::{Index, Indexed};
use report_text::Report;
use session_core::Session;
use std::alloc::{AllocError, Global};
use std::sync::Arc;

/// Completes the log of the book, unless it is sealed already.
fn complete(alloc: Global, p: &Arc<Presentation>, book: &mut Book) -> Result<End, AllocError>
    requires source { book.old.source ≡ arc_value p.now }
    requires none_taken { NoneTaken book.old }
    ensures { IfOk result (λ end. IsCompleted (arc_value p.now) book.old end book.new) }
{
    book.known();
    match book.sealed() {
        Some(seal) => {
            seal.known();
            Ok(End::Sealed)
        }
        None => finish(alloc, p, book),
    }
}

/// Asks each question of the session that has no reply yet by all items of the list.
fn answer_session<F: Front>(
    alloc: Global,
    p: &Presentation,
    list: &F,
    session: &mut Session,
) -> Result<(), AllocError>
    requires entries { AreOf p.now (F.entries list.now) }
    requires questions { AllByRecursion (CanBeAsked p.now) session.old.questions }
    requires front { last_front session.old ≤ item_count (F.entries list.now) (F.seal list.now) }
    ensures { OnOk result (IsAnsweredOn p.now (F.entries list.now) (F.seal list.now) session.old session.new) }
{
    while session.next().is_some() {
        let _ = session.ask(alloc, p, list)?;
    }
    session.known();
    Ok(())
}

/// Asks each question of the sessions that has no reply yet by all items of the list, in order of sessions and
/// questions.
#[tactic(auto, using(crate::proofs::Answering::answering))]
fn answer<F: Front>(
    alloc: Global,
    p: &Presentation,
    list: &F,
    sessions: &mut [Session],
) -> Result<(), AllocError>
    requires entries { AreOf p.now (F.entries list.now) }
    requires sessions { (i : ℕ) (s : SessionState) → slice_get sessions.old i ≡ Some s
        → CanGoOn p.now (F.entries list.now) (F.seal list.now) s }
    ensures { OnOk result (AreAnsweredOn p.now (F.entries list.now) (F.seal list.now) sessions.old sessions.new) }
{
    for at in 0..sessions.len() {
        answer_session(alloc, p, list, &mut sessions[at])?;
    }
    Ok(())
}

/// The sessions with each question that had no reply yet answered by all items of the list.
pub fn answered<F: Front>(
    alloc: Global,
    p: &Presentation,
    list: &F,
    sessions: Vec<Session>,
) -> Result<Vec<Session>, AllocError>
    requires entries { AreOf p.now (F.entries list.now) }
    requires sessions { (i : ℕ) (s : SessionState) → slice_get sessions.items i ≡ Some s
        → CanGoOn p.now (F.entries list.now) (F.seal list.now) s }
    ensures { IfOk result (λ news. AreAnsweredOn p.now (F.entries list.now) (F.seal list.now)
        sessions.items news.items) }
{
    let mut sessions = sessions;
    answer(alloc, p, list, &mut sessions)?;
    Ok(sessions)
}

/// The same entries.
#[tactic(auto, using(basis_entry::proofs::Growing::map_more))]
pub fn shared(alloc: Global, entries: &[Arc<Entry>]) -> Result<Vec<Arc<Entry>>, AllocError>
    ensures { IfOk result (λ same. map arc_value same.items ≡ map arc_value entries.now) }
{
    let mut same = Vec::with_capacity(alloc, entries.len())?;
    for entry in entries {
        same.push(Arc::try_clone(entry)?)?;
    }
    Ok(same)
}

/// The seal of a book whose completion has ended so.
fn seal_of(alloc: Global, book: &mut Book, end: &End) -> Result<Option<Arc<Sealed>>, AllocError>
    requires { book.old.seal ≡ seal_at (book.old).source (book.old).entries end.now }
    ensures { IfOk result (λ seal. option_map arc_value seal ≡ seal_at (book.old).source (book.old).entries end.now) }
{
    book.known();
    match end {
        End::Sealed => match book.seal(alloc) {
            Ok(seal) => Ok(Some(seal)),
            Err(SealFault::NoMemory) => Err(AllocError),
            Err(SealFault::StillOpen { .. }) => unreachable!(),
        },
        _ => Ok(None),
    }
}

/// The report of a completed book and of sessions that have their replies.
fn report(
    alloc: Global,
    p: &Arc<Presentation>,
    book: Book,
    end: End,
    sessions: Vec<Session>,
) -> Result<Report, AllocError>
    requires source { book.source ≡ arc_value p.now }
    requires seal { book.seal ≡ seal_at book.source book.entries end }
    ensures { IfOk result (λ r. reported r ≡ record {
      pres = arc_value p.now;
      entries = book.entries;
      seal = seal_at (arc_value p.now) book.entries end;
      end = end;
      sessions = sessions.items;
    }) }
{
    let mut book = book;
    let entries = shared(alloc, book.entries())?;
    let sealed = seal_of(alloc, &mut book, &end)?;
    Ok(Report {
        pres: Arc::try_clone(p)?,
        entries,
        end,
        sealed,
        sessions,
    })
}

/// Gives back the tasks that are taken, and completes the log of the book.
#[tactic(auto, using(crate::proofs::Completed::none_taken))]
fn finished(alloc: Global, p: &Arc<Presentation>, book: &mut Book) -> Result<End, AllocError>
    requires source { book.old.source ≡ arc_value p.now }
    ensures completed { IfOk result (λ end. IsCompleted (arc_value p.now) book.old end book.new) }
    ensures books { IfOk result (λ _. IsBook book.old × IsBook book.new) }
{
    book.known();
    book.release();
    let end = complete(alloc, p, book)?;
    book.known();
    Ok(end)
}

/// The report of a book whose completion has ended, and of sessions that have asked over its items: each question that
/// has no reply yet is asked by all of them.
fn reported_on(
    alloc: Global,
    p: &Arc<Presentation>,
    book: Book,
    end: End,
    sessions: Vec<Session>,
) -> Result<Report, AllocError>
    requires ended { IsEnded (arc_value p.now) book.limits end book }
    requires sessions { AreAskers book sessions.items }
    ensures legal { IfOk result (λ r. IsLegal (arc_value p.now) book.limits (questions_of sessions.items)
        (reported r)) }
    ensures entries { IfOk result (λ r. map arc_value r.entries.items ≡ book.entries) }
    ensures seal { IfOk result (λ r. option_map arc_value r.sealed ≡ book.seal) }
    ensures answered { IfOk result (λ r. AreAnsweredOn (arc_value p.now) (map arc_value r.entries.items)
        (option_map arc_value r.sealed) sessions.items r.sessions.items) }
{
    book.known();
    let index = Index::of_list(alloc, &book)?;
    let sessions = answered(alloc, p, &Indexed::over(&book, &index), sessions)?;
    report(alloc, p, book, end, sessions)
}

/// Ends a run that waits for nobody, over a book of the presentation and sessions that have asked over it: gives back
/// the tasks that are taken, completes the log, asks each question that has no reply yet by all items, and reports what
/// was found.
pub fn gather_alone(
    alloc: Global,
    p: &Arc<Presentation>,
    book: Book,
    sessions: Vec<Session>,
) -> Result<Report, AllocError>
    requires source { book.source ≡ arc_value p.now }
    requires sessions { AreAskers book sessions.items }
    ensures legal { IfOk result (λ r. IsLegal (arc_value p.now) book.limits (questions_of sessions.items)
        (reported r)) }
    // The log goes on where the book's ends, and a sealed one stays as it is. Replies stand.
    ensures begins { IfOk result (λ r. (more : List BasisEntry)
        × (map arc_value r.entries.items ≡ book.entries ++ more)) }
    ensures sealed { IfOk result (λ r. book.seal ≢ None → (map arc_value r.entries.items ≡ book.entries)
        × (option_map arc_value r.sealed ≡ book.seal)) }
    ensures stand { IfOk result (λ r. AreAnsweredOn (arc_value p.now) (map arc_value r.entries.items)
        (option_map arc_value r.sealed) sessions.items r.sessions.items) }
{
    let mut book = book;
    let ended = finished(alloc, p, &mut book)?;
    let report = reported_on(alloc, p, book, ended, sessions)?;
    Ok(report)
}

/// Whether the book is of the presentation and of these limits. It has an entry, which tells its presentation.
fn is_of(book: &Book, p: &Presentation, limits: Limits) -> bool
    ensures { IsTrue result ↔ ((book.now.source ≡ p.now) × (book.now.limits ≡ limits)) }
{
    p.known();
    match book.entries().first() {
        Some(entry) => entry.presentation().same(p) && book.limits() == limits,
        None => false,
    }
}

/// The book, where it is of the presentation and of these limits, and else a new one.
fn book_of(
    alloc: Global,
    p: &Arc<Presentation>,
    book: Book,
    limits: Limits,
) -> Result<Book, AllocError>
    requires most { limits.entries ≤ MOST }
    requires within { AreWithin (arc_value p.now) limits }
    ensures source { IfOk result (λ b. b.source ≡ arc_value p.now) }
    ensures limits { IfOk result (λ b. b.limits ≡ limits) }
    ensures same { IfOk result (λ b. book.source ≡ arc_value p.now → book.limits ≡ limits → b ≡ book) }
{
    if is_of(&book, p, limits) {
        return Ok(book);
    }
    Book::open(alloc, p, limits)
}

/// Ends a run over a book that stood behind a lock, and sessions that have asked over the lists of their seats: takes a
/// new book where that one isn't of the presentation and of these limits, gives back the tasks that are taken,
/// completes the log, has a session forget its replies where the list of its seat doesn't begin the final items, asks
/// each question that has no reply by all of these, and reports what was found. A session without a seat has asked over
/// the book.
pub fn gather(
    alloc: Global,
    p: &Arc<Presentation>,
    book: Book,
    actors: Vec<(Session, Option<Seat<'_>>)>,
    limits: Limits,
) -> Result<Report, AllocError>
    requires most { limits.entries ≤ MOST }
    requires within { AreWithin (arc_value p.now) limits }
    requires actors { AreActors (arc_value p.now) limits book actors.items }
    ensures legal { IfOk result (λ r. IsLegal (arc_value p.now) limits (questions_of (sessions_of actors.entry.items))
        (reported r)) }
    // The log goes on where that of a book of the presentation and of these limits ends.
    ensures begins { IfOk result (λ r. book.source ≡ arc_value p.now → book.limits ≡ limits → (more : List BasisEntry)
        × (map arc_value r.entries.items ≡ book.entries ++ more)) }
    // Replies stand where the session has no seat, or one whose list begins the items of the report.
    ensures stand { IfOk result (λ r. AreEnded (arc_value p.now) (map arc_value r.entries.items)
        (option_map arc_value r.sealed) actors.entry.items r.sessions.items) }
{
    let mut book = book_of(alloc, p, book, limits)?;
    let end = finished(alloc, p, &mut book)?;
    let sessions = all_kept(alloc, &book, actors)?;
    reported_on(alloc, p, book, end, sessions)
}
