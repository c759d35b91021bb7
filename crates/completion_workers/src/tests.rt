//! Completions of a small presentation by two workers, while two sessions ask.

ghost use Rattle.std.specs.List.{AllByRecursion};
ghost use Rattle.std.specs.Prelude.{◌≡◌, ◌≤◌, length, IfOk};
ghost use Rattle.std.specs.Arc.{arc_value};
ghost use Rattle.basis_log.specs.Rows.{row_source};
ghost use Rattle.session_core.specs.Questions.{CanBeAsked};
ghost use Rattle.completion_workers.specs.Acting.{IsReady};

use crate::pace::Pace;
use crate::{Actor, Gate, OpenGate, run_actors};
use basis_entry::{Entry, Front};
use basis_log::{Item, Row, Seat};
use pair_book::{Book, Limits, Order, can_open};
use presentation::{Presentation, read_presentation};
use session_core::{Session, Tag};
use session_text::{Question, first_long_image, read_question};
use std::alloc::Global;
use std::rt::HostRuntime;
use std::sync::atomic::AtomicBool;
use std::sync::atomic::Ordering::SeqCst;
use std::sync::{Arc, Mutex, Wait};
use std::test::Fail;
use std::thread::{self, Threads};

const TORSION: &str = "<a,b | [a,b]^2, [a,b]^3>";

const LIMITS: Limits = Limits {
    entries: 40,
    terms: 8_000_000,
    steps: 8_000_000,
    budget: None,
    order: Order::ByNumber,
};

fn presentation(alloc: Global, text: &str) -> Result<Arc<Presentation>, Fail> {
    match read_presentation(alloc, text.as_bytes()) {
        Ok(p) => Ok(Arc::new(alloc, p)?),
        Err(_) => Err(Fail::from("no presentation")),
    }
}

fn open(alloc: Global, p: &Arc<Presentation>, limits: Limits) -> Result<Mutex<Book>, Fail> {
    if limits.entries > 40 || !can_open(alloc, p, &limits)? {
        return Err(Fail::from("too narrow"));
    }
    Ok(Mutex::new(Book::open(alloc, p, limits)?))
}

/// A row with so many cells.
fn row(alloc: Global, p: &Arc<Presentation>, cells: u32) -> Result<Row, Fail>
    ensures { IfOk result (λ row. row_source row ≡ arc_value p.now) }
{
    p.known();
    if cells > 41 {
        return Err(Fail::from("too many cells"));
    }
    let row = Row::open(alloc, Entry::base(alloc, p)?, cells)?;
    if !row.presentation().same(p) {
        return Err(Fail::from("another presentation"));
    }
    Ok(row)
}

fn question(alloc: Global, p: &Presentation, text: &str) -> Result<Question, Fail>
    ensures { IfOk result (CanBeAsked p.now) }
{
    let Some(q) = read_question(alloc, p, text.as_bytes())? else {
        return Err(Fail::from("no question"));
    };
    if first_long_image(&q).is_some() {
        return Err(Fail::from("a long image"));
    }
    Ok(q)
}

fn worker<'r>(
    alloc: Global,
    p: &Arc<Presentation>,
    row: &'r Row,
    number: u32,
) -> Result<Actor<'r>, Fail>
    requires { row_source row.now ≡ arc_value p.now }
    ensures { IfOk result (IsReady (arc_value p.now)) }
{
    let seat = row.seat(alloc)?;
    Ok(Actor::Worker { number, seat })
}

/// The questions are three times the same.
fn questions(alloc: Global, p: &Arc<Presentation>) -> Result<Vec<Question>, Fail>
    ensures asked { IfOk result (λ qs. AllByRecursion (CanBeAsked (arc_value p.now)) qs.items) }
    ensures count { IfOk result (λ qs. length qs.items ≤ 3) }
{
    let mut questions = Vec::new(alloc);
    questions.push(question(alloc, p, "trivial a b a^-1 b^-1")?)?;
    questions.push(question(alloc, p, "trivial a b a^-1 b^-1")?)?;
    questions.push(question(alloc, p, "trivial a b a^-1 b^-1")?)?;
    Ok(questions)
}

fn session<'r>(
    alloc: Global,
    p: &Arc<Presentation>,
    row: &'r Row,
    number: u32,
) -> Result<Actor<'r>, Fail>
    requires { row_source row.now ≡ arc_value p.now }
    ensures { IfOk result (IsReady (arc_value p.now)) }
{
    let base = row.base().len() as u32;
    let seat = row.seat(alloc)?;
    let session = Session::open(alloc, number, questions(alloc, p)?, base)?;
    Ok(Actor::Session {
        session,
        seat,
        dry: false,
    })
}

/// Whether all questions have their replies. Which entries come first depends on the threads, so a reply may be unknown
/// below the front of all items; by all items the word is trivial.
fn is_answered(session: &Session, all: u32) -> bool {
    for number in 1..=session.count() {
        match session.kept(number) {
            Some(kept) if kept.tag == Tag::Trivial => {}
            Some(kept) if kept.tag == (Tag::Unknown { subject: 1 }) && kept.front < all => {}
            _ => return false,
        }
    }
    true
}

/// Runs two workers and two sessions. Tells whether all questions are answered, the book is sealed, and a worker has
/// seen all of its items.
fn completes<G: Gate + Sync, R: Threads + Wait + Sync>(
    rt: &R,
    alloc: Global,
    gate: &G,
) -> Result<bool, Fail> {
    let p = presentation(alloc, TORSION)?;
    let book = open(alloc, &p, LIMITS)?;
    // A cell for each entry up to the limit, and one for the seal.
    let row = row(alloc, &p, 41)?;
    let mut actors = [
        worker(alloc, &p, &row, 1)?,
        worker(alloc, &p, &row, 2)?,
        session(alloc, &p, &row, 1)?,
        session(alloc, &p, &row, 2)?,
    ];
    run_actors(rt, alloc, &p, &book, &mut actors, gate);
    let book = book.into_inner();
    let mut answered = true;
    let mut seen = 0;
    for actor in &actors {
        match actor {
            Actor::Worker { seat, .. } => seen = seat.front().max(seen),
            Actor::Session { session, dry, .. } => answered = answered
                && !*dry
                && is_answered(session, book.front()),
        }
    }
    Ok(answered && book.sealed().is_some() && seen == book.front())
}

#[test]
fn workers_complete_while_sessions_ask(rt: HostRuntime) -> Result<(), Fail> {
    let alloc = rt.alloc();
    assert!(rt; completes(&rt, alloc, &OpenGate)?);
    Ok(())
}

/// Holds each of four actors at its first pass until all stand there.
#[derive(Drop)]
struct Meeting {
    stands: [AtomicBool; 4],
    failed: AtomicBool,
}

impl Meeting {
    fn all_stand(&self) -> bool {
        self.stands.iter().all(|flag| flag.load(SeqCst))
    }
}

impl Gate for Meeting {
    fn pass<R: Wait>(&self, _: &R, actor: u32, place: u8) {
        let at = if place == 2 {
            actor
        } else {
            actor.saturating_add(2)
        };
        let Some(own) = self.stands.get(at.saturating_sub(1) as usize) else {
            return;
        };
        if own.swap(true, SeqCst) {
            return;
        }
        for _ in 0..5_000_000u32 {
            if self.all_stand() {
                return;
            }
            thread::yield_now();
        }
        self.failed.store(true, SeqCst);
    }
}

#[test]
fn all_actors_run_at_once(rt: HostRuntime) -> Result<(), Fail> {
    let alloc = rt.alloc();
    let gate = Meeting {
        stands: [
            AtomicBool::new(false),
            AtomicBool::new(false),
            AtomicBool::new(false),
            AtomicBool::new(false),
        ],
        failed: AtomicBool::new(false),
    };
    assert!(rt; completes(&rt, alloc, &gate)?);
    assert!(rt; gate.all_stand() && !gate.failed.load(SeqCst));
    Ok(())
}

#[test]
fn workers_wait_for_tasks_from_before_the_log_grew(rt: HostRuntime) -> Result<(), Fail> {
    let pace = Pace::new(rt.alloc(), 2);
    pace.takes(0, 5);
    assert!(rt; !pace.is_another_behind(1));
    pace.is_done(1, 6);
    assert!(rt; pace.is_another_behind(1));
    assert!(rt; !pace.is_another_behind(0));
    pace.is_done(0, 6);
    assert!(rt; !pace.is_another_behind(1));
    Ok(())
}

/// Whether the cell takes the item, or holds another one. `None` where the item can't be published by this seat.
fn publish(seat: &mut Seat<'_>, item: Box<Item>) -> Option<bool> {
    if seat.sealed().is_some() || !item.presentation().same(seat.row().presentation()) {
        return None;
    }
    Some(seat.publish(item).is_ok())
}

#[test]
fn a_seal_is_the_last_item(rt: HostRuntime) -> Result<(), Fail> {
    let alloc = rt.alloc();
    let p = presentation(alloc, "<a|>")?;
    let mut book = open(alloc, &p, LIMITS)?.into_inner();
    let Ok(seal) = book.seal(alloc) else {
        return Err(Fail::from("a task is left"));
    };
    let row = row(alloc, &p, 2)?;
    let Some(first) = row.base().first() else {
        return Err(Fail::from("no generators"));
    };
    let mut one = row.seat(alloc)?;
    let mut two = row.seat(alloc)?;
    let entry = Box::new(alloc, Item::Entry(Arc::try_clone(first)?))?;
    let again = Box::new(alloc, Item::Seal(Arc::try_clone(&seal)?))?;
    assert!(rt; publish(&mut one, entry) == Some(true));
    assert_eq!(rt; one.front(), 2);
    assert!(rt; publish(&mut one, Box::new(alloc, Item::Seal(seal))?) == Some(true));
    assert_eq!(rt; one.front(), 3);
    // This seat hasn't looked, and finds the entry where it would have put the seal.
    assert!(rt; publish(&mut two, again) == Some(false));
    assert_eq!(rt; two.front(), 2);
    assert!(rt; two.sealed().is_none());
    assert_eq!(rt; two.look(), 3);
    assert!(rt; two.sealed().is_some());
    Ok(())
}
