//! Books that are worked by hand.

ghost use Rattle.std.specs.Prelude.{◌≡◌, ◌↔◌, map, IsTrue, IfOk};
ghost use Rattle.std.specs.Arc.{arc_value};
ghost use Rattle.basis_entry.specs.Entries.{AreOf};

use crate::{
    Book, Close, CommitFault, Committed, Limits, Order, Outcome, PairKind, SealFault, Task,
    can_open, work,
};
use basis_entry::{Entry, Front, Items, Recipe};
use laurent_terms::Mono;
use module_vec::{Step, VecList};
use outcomes::Measure;
use presentation::{Presentation, read_presentation};
use std::alloc::Global;
use std::sync::Arc;
use std::test::Fail;
use strong_pairs::is_pair;

const FREE: &str = "<a,b|>";

const SOLVABLE: &str = "<a,t | t a t^-1 a^-2>";

const TORSION: &str = "<a,b | [a,b]^2, [a,b]^3>";

const WIDE: Limits = Limits {
    entries: 20,
    terms: 8_000_000,
    steps: 8_000_000,
    budget: None,
    order: Order::ByNumber,
};

fn presentation(alloc: Global, text: &str) -> Result<Arc<Presentation>, Fail> {
    match read_presentation(alloc, text.as_bytes()) {
        Ok(p) => Ok(Arc::new(alloc, p)?),
        Err(_) => Err(Fail::from("no presentation")),
    }
}

fn open(alloc: Global, p: &Arc<Presentation>, limits: Limits) -> Result<Book, Fail> {
    if limits.entries > 20 || !can_open(alloc, p, &limits)? {
        return Err(Fail::from("too narrow"));
    }
    Ok(Book::open(alloc, p, limits)?)
}

fn s_task(i: u32, j: u32) -> Task {
    Task {
        i,
        j,
        kind: PairKind::S,
    }
}

/// The entries with these numbers, as a list.
fn list(
    alloc: Global,
    p: &Arc<Presentation>,
    entries: &[Arc<Entry>],
    numbers: &[usize],
) -> Result<Vec<Arc<Entry>>, Fail>
    ensures { IfOk result (λ es. AreOf (arc_value p.now) (map arc_value es.items)) }
{
    let mut list = Vec::new(alloc);
    for number in numbers {
        match entries.get(*number) {
            Some(entry) => put(&mut list, p, entry)?,
            None => return Err(Fail::from("no entry")),
        }
    }
    Ok(list)
}

/// Puts the entry at the end, which is of the presentation.
fn put(list: &mut Vec<Arc<Entry>>, p: &Arc<Presentation>, entry: &Arc<Entry>) -> Result<(), Fail>
    requires { AreOf (arc_value p.now) (map arc_value list.old.items) }
    ensures { IfOk result (λ _. AreOf (arc_value p.now) (map arc_value list.new.items)) }
{
    if !entry.presentation().same(p) {
        return Err(Fail::from("no entry of the presentation"));
    }
    list.push(Arc::try_clone(entry)?)?;
    Ok(())
}

/// The outcome of a task by the list.
fn worked(
    alloc: Global,
    p: &Arc<Presentation>,
    entries: &[Arc<Entry>],
    task: Task,
) -> Result<Outcome, Fail>
    requires { AreOf (arc_value p.now) (map arc_value entries.now) }
{
    if entries.len() > 100 {
        return Err(Fail::from("many entries"));
    }
    let list = Items::of(entries, None);
    if !is_pair(&list, task.i, task.j) {
        return Err(Fail::from("no pair"));
    }
    match work(alloc, p, &list, task) {
        Ok(outcome) => Ok(outcome),
        Err(_) => Err(Fail::from("no outcome")),
    }
}

/// The outcome of a task by the first entries of the log.
fn outcome(alloc: Global, p: &Arc<Presentation>, book: &Book, task: Task) -> Result<Outcome, Fail> {
    let mut all = Vec::new(alloc);
    for entry in book.entries() {
        put(&mut all, p, entry)?;
    }
    worked(alloc, p, &all, task)
}

fn taken(book: &mut Book) -> Result<Task, Fail> {
    match book.take() {
        Some(task) => Ok(task),
        None => Err(Fail::from("no open task")),
    }
}

/// The outcome of the least open task, which is taken.
fn next(alloc: Global, p: &Arc<Presentation>, book: &mut Book) -> Result<Outcome, Fail> {
    let task = taken(book)?;
    outcome(alloc, p, book, task)
}

fn committed(book: &mut Book, outcome: Outcome) -> Result<Committed, Fail> {
    match book.commit(outcome) {
        Ok(done) => Ok(done),
        Err(_) => Err(Fail::from("refused")),
    }
}

/// The refusal of an outcome, which is handed back.
fn refused(book: &mut Book, outcome: Outcome) -> Result<(CommitFault, Outcome), Fail> {
    match book.commit(outcome) {
        Ok(_) => Err(Fail::from("committed")),
        Err(refusal) => Ok(refusal),
    }
}

/// Commits the outcomes of so many tasks.
fn advance(alloc: Global, p: &Arc<Presentation>, book: &mut Book, tasks: u32) -> Result<(), Fail> {
    for _ in 0..tasks {
        let outcome = next(alloc, p, book)?;
        committed(book, outcome)?;
    }
    Ok(())
}

/// Whether the book of the presentation is sealed after so many commits, with so many entries.
fn is_sealed(
    alloc: Global,
    text: &str,
    limits: Limits,
    commits: u32,
    entries: usize,
) -> Result<bool, Fail> {
    let p = presentation(alloc, text)?;
    let mut book = open(alloc, &p, limits)?;
    advance(alloc, &p, &mut book, commits)?;
    if book.take().is_some() || book.least().is_some() || book.commits() != commits {
        return Ok(false);
    }
    match book.seal(alloc) {
        Ok(seal) => Ok(seal.entries().len() == entries && book.entries().len() == entries),
        Err(_) => Ok(false),
    }
}

#[test]
fn books_are_sealed(rt: HostRuntime) -> Result<(), Fail> {
    let alloc = rt.alloc();
    assert!(rt; is_sealed(alloc, FREE, WIDE, 2, 4)?);
    assert!(rt; is_sealed(alloc, SOLVABLE, WIDE, 14, 10)?);
    assert!(rt; is_sealed(alloc, TORSION, WIDE, 25, 11)?);
    Ok(())
}

#[test]
fn cheap_tasks_go_first(rt: HostRuntime) -> Result<(), Fail> {
    let alloc = rt.alloc();
    let p = presentation(alloc, TORSION)?;
    let limits = Limits {
        order: Order::ByCost,
        ..WIDE
    };
    let mut book = open(alloc, &p, limits)?;
    let first = s_task(2, 4);
    assert!(rt; book.least() == Some(first) && book.take() == Some(first));
    book.give_back(first, false);
    assert!(rt; book.take() == Some(first) && book.take() == Some(s_task(3, 5)));
    let last = taken(&mut book)?;
    assert!(rt; last.i == 0 && last.j == 1 && last.kind == PairKind::G);
    assert!(rt; is_sealed(alloc, TORSION, limits, 11, 9)?);
    Ok(())
}

#[test]
fn seals_want_every_task_closed(rt: HostRuntime) -> Result<(), Fail> {
    let alloc = rt.alloc();
    let p = presentation(alloc, FREE)?;
    let mut book = open(alloc, &p, WIDE)?;
    advance(alloc, &p, &mut book, 1)?;
    let last = next(alloc, &p, &mut book)?;
    assert!(rt; book.take().is_none());
    match book.seal(alloc) {
        Err(SealFault::StillOpen { task }) => assert!(rt; task == s_task(1, 3)),
        _ => return Err(Fail::from("sealed")),
    }
    assert!(rt; committed(&mut book, last)? == Committed::Closed);
    assert_eq!(rt; book.front(), 4);
    for _ in 0..2 {
        match book.seal(alloc) {
            Ok(seal) => assert!(rt; seal.presentation().same(&p) && seal.entries().len() == 4),
            Err(_) => return Err(Fail::from("not sealed")),
        }
    }
    assert_eq!(rt; book.front(), 5);
    let again = outcome(alloc, &p, &book, s_task(1, 3))?;
    let (fault, back) = refused(&mut book, again)?;
    assert!(rt; fault == CommitFault::NotTaken && back.task() == s_task(1, 3));
    Ok(())
}

#[test]
fn tasks_are_taken_first(rt: HostRuntime) -> Result<(), Fail> {
    let alloc = rt.alloc();
    let p = presentation(alloc, FREE)?;
    let mut book = open(alloc, &p, WIDE)?;
    let outcome = next(alloc, &p, &mut book)?;
    let task = outcome.task();
    assert!(rt; task == s_task(0, 2) && book.is_taken(task));
    book.give_back(task, false);
    let (fault, back) = refused(&mut book, outcome)?;
    assert!(rt; fault == CommitFault::NotTaken && back.task() == task && back.front() == 4);
    assert!(rt; book.take() == Some(task));
    assert!(rt; committed(&mut book, back)? == Committed::Closed);
    assert!(rt; !book.is_taken(task));
    Ok(())
}

#[test]
fn budgets_are_spent(rt: HostRuntime) -> Result<(), Fail> {
    let alloc = rt.alloc();
    let p = presentation(alloc, FREE)?;
    let limits = Limits {
        budget: Some(1),
        ..WIDE
    };
    let mut book = open(alloc, &p, limits)?;
    advance(alloc, &p, &mut book, 1)?;
    let outcome = next(alloc, &p, &mut book)?;
    let (fault, back) = refused(&mut book, outcome)?;
    assert!(rt; fault == CommitFault::Spent { commits: 1 } && back.task() == s_task(1, 3));
    assert!(rt; book.least() == Some(s_task(1, 3)) && book.commits() == 1);
    Ok(())
}

#[test]
fn used_entries_are_the_logs(rt: HostRuntime) -> Result<(), Fail> {
    let alloc = rt.alloc();
    let p = presentation(alloc, SOLVABLE)?;
    let mut book = open(alloc, &p, WIDE)?;
    let task = taken(&mut book)?;
    let turned = list(alloc, &p, book.entries(), &[0, 1, 4, 3, 2])?;
    let (fault, _) = refused(&mut book, worked(alloc, &p, &turned, task)?)?;
    assert!(rt; fault == CommitFault::Stranger { entry: 2 });
    let other = presentation(alloc, "<b,t | t b t^-1 b^-2>")?;
    let base = open(alloc, &other, WIDE)?;
    let (fault, _) = refused(&mut book, outcome(alloc, &other, &base, task)?)?;
    assert!(rt; fault == CommitFault::Stranger { entry: 0 });
    Ok(())
}

#[test]
fn rests_are_of_the_whole_log(rt: HostRuntime) -> Result<(), Fail> {
    let alloc = rt.alloc();
    let p = presentation(alloc, SOLVABLE)?;
    let mut book = open(alloc, &p, WIDE)?;
    advance(alloc, &p, &mut book, 1)?;
    let outcome = next(alloc, &p, &mut book)?;
    let late = next(alloc, &p, &mut book)?;
    assert!(rt;
        committed(&mut book, outcome)?
            == Committed::Appended {
                entry: 7,
                closed: true
            }
    );
    let (fault, back) = refused(&mut book, late)?;
    assert!(rt; fault == CommitFault::Stale { front: 7, now: 8 } && back.task() == s_task(0, 4));
    let narrow = list(alloc, &p, book.entries(), &[0, 0, 2, 3, 4, 5, 6, 7])?;
    let (fault, _) = refused(&mut book, worked(alloc, &p, &narrow, s_task(0, 4))?)?;
    assert!(rt; fault == CommitFault::Stranger { entry: 1 });
    Ok(())
}

/// The refusal of the second task's rest by limits.
fn passed(alloc: Global, limits: Limits) -> Result<CommitFault, Fail> {
    let p = presentation(alloc, SOLVABLE)?;
    let mut book = open(alloc, &p, limits)?;
    advance(alloc, &p, &mut book, 1)?;
    let outcome = next(alloc, &p, &mut book)?;
    let (fault, _) = refused(&mut book, outcome)?;
    Ok(fault)
}

#[test]
fn limits_are_kept(rt: HostRuntime) -> Result<(), Fail> {
    let alloc = rt.alloc();
    let full = |measure, count| CommitFault::Full { measure, count };
    assert!(rt; passed(alloc, Limits { entries: 7, ..WIDE })? == full(Measure::Entries, 8));
    assert!(rt; passed(alloc, Limits { terms: 18, ..WIDE })? == full(Measure::Terms, 19));
    assert!(rt; passed(alloc, Limits { steps: 1, ..WIDE })? == full(Measure::Steps, 2));
    Ok(())
}

#[test]
fn third_entries_close_tasks(rt: HostRuntime) -> Result<(), Fail> {
    let alloc = rt.alloc();
    let p = presentation(alloc, SOLVABLE)?;
    let mut book = open(alloc, &p, WIDE)?;
    advance(alloc, &p, &mut book, 2)?;
    let outcome = next(alloc, &p, &mut book)?;
    assert!(rt; outcome.task() == s_task(0, 4));
    assert!(rt;
        committed(&mut book, outcome)?
            == Committed::Appended {
                entry: 8,
                closed: true
            }
    );
    assert!(rt; book.take() == Some(s_task(1, 5)) && book.commits() == 3);
    Ok(())
}

#[test]
fn tasks_go_back(rt: HostRuntime) -> Result<(), Fail> {
    let alloc = rt.alloc();
    let p = presentation(alloc, FREE)?;
    let mut book = open(alloc, &p, WIDE)?;
    let (first, second) = (s_task(0, 2), s_task(1, 3));
    book.give_back(first, true);
    book.give_back(s_task(7, 30), true);
    assert!(rt; book.take() == Some(first) && book.take() == Some(second) && book.take().is_none());
    book.give_back(first, true);
    assert!(rt; book.take().is_none() && book.soften() == 1 && book.take() == Some(first));
    assert!(rt; book.release() == 2 && book.release() == 0 && book.soften() == 0);
    assert!(rt; book.take() == Some(first) && book.limits() == WIDE);
    Ok(())
}

#[test]
fn g_tasks_leave_the_commutator(rt: HostRuntime) -> Result<(), Fail> {
    let alloc = rt.alloc();
    let p = presentation(alloc, TORSION)?;
    let mut book = open(alloc, &p, WIDE)?;
    let outcome = next(alloc, &p, &mut book)?;
    assert!(rt; outcome.task().kind == PairKind::G && outcome.used().len() == 2);
    let one = Mono::one();
    let steps = [
        Step {
            q: 2,
            t: one,
            by: 0,
        },
        Step {
            q: -1,
            t: one,
            by: 1,
        },
    ];
    let Close::Rest { entry } = outcome.close() else {
        return Err(Fail::from("no rest"));
    };
    match entry.recipe() {
        Recipe::Sum { steps: made } => assert!(rt; made.steps() == &steps[..]),
        Recipe::Gen { .. } => return Err(Fail::from("a generator")),
    }
    assert_eq!(rt; entry.vector().terms().len(), 4);
    assert!(rt;
        committed(&mut book, outcome)?
            == Committed::Appended {
                entry: 6,
                closed: true
            }
    );
    Ok(())
}
