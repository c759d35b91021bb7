//! Completions of small presentations, worked out by hand.

ghost use Rattle.std.specs.Prelude.{◌≡◌, IfOk};
ghost use Rattle.std.specs.Arc.{arc_value};
ghost use Rattle.completion_solo.specs.Finishing.{NoneTaken};

use crate::{finish, laws};
use laurent_terms::Mono;
use module_vec::{Place, Stop, VecList};
use outcomes::{End, Measure, PairKind, Task};
use pair_book::{Book, Limits, Order, can_open};
use presentation::{Presentation, read_presentation};
use std::alloc::Global;
use std::rt::HostRuntime;
use std::sync::Arc;
use std::test::Fail;

const MANY: u32 = 8_000_000;

const SOLVABLE: &str = "<a,t | t a t^-1 a^-2>";

fn presentation(alloc: Global, text: &str) -> Result<Arc<Presentation>, Fail> {
    match read_presentation(alloc, text.as_bytes()) {
        Ok(p) => Ok(Arc::new(alloc, p)?),
        Err(_) => Err(Fail::from("no presentation")),
    }
}

fn limits(entries: u32, terms: u32, steps: u32, budget: Option<u32>) -> Limits {
    Limits {
        entries,
        terms,
        steps,
        budget,
        order: Order::ByNumber,
    }
}

fn open(alloc: Global, p: &Arc<Presentation>, limits: Limits) -> Result<Book, Fail>
    ensures source { IfOk result (λ book. book.source ≡ arc_value p.now) }
    ensures none_taken { IfOk result (λ book. NoneTaken book) }
{
    if limits.entries > 4_096 || !can_open(alloc, p, &limits)? {
        return Err(Fail::from("no book"));
    }
    laws::books_can_be_completed();
    Ok(Book::open(alloc, p, limits)?)
}

/// Whether the completion of the book comes to this end.
fn completes(alloc: Global, p: &Arc<Presentation>, book: &mut Book, end: End) -> Result<bool, Fail>
    requires source { (book.old).source ≡ arc_value p.now }
    requires none_taken { NoneTaken book.old }
{
    let same = match finish(alloc, p, book)? {
        End::Sealed => matches!(end, End::Sealed),
        End::Stopped { task, stop } => {
            matches!(end, End::Stopped { task: t, stop: s } if t == task && s == stop)
        }
        End::Full { measure, count } => {
            matches!(end, End::Full { measure: m, count: c } if m == measure && c == count)
        }
        End::Spent { commits, task } => {
            matches!(end, End::Spent { commits: c, task: t } if c == commits && t == task)
        }
    };
    Ok(same)
}

/// Whether the completion comes to this end with so many entries.
fn want(alloc: Global, text: &str, limits: Limits, end: End, entries: u32) -> Result<(), Fail> {
    let p = presentation(alloc, text)?;
    let mut book = open(alloc, &p, limits)?;
    if !completes(alloc, &p, &mut book, end)? || book.count() != entries {
        return Err(Fail::from("another end"));
    }
    Ok(())
}

/// A limit on commits alone.
fn commits(budget: u32) -> Limits {
    limits(2_048, MANY, MANY, Some(budget))
}

fn spent(commits: u32, i: u32, j: u32) -> End {
    let kind = PairKind::S;
    let task = Task { i, j, kind };
    End::Spent { commits, task }
}

fn full(measure: Measure, count: u32) -> End {
    End::Full { measure, count }
}

/// The first S task stops in step 14, at a in the component of b.
fn stopped() -> End {
    let m = Mono::of_generator(0, true);
    let at = Place { m, c: 1 };
    let stop = Stop::Wide { at, step: 14 };
    let kind = PairKind::S;
    let task = Task { i: 0, j: 1, kind };
    End::Stopped { task, stop }
}

#[test]
fn budgets_are_spent(rt: HostRuntime) -> Result<(), Fail> {
    let alloc = rt.alloc();
    want(alloc, "<a,b|>", commits(0), spent(0, 0, 2), 4)?;
    want(alloc, "<a,b|>", commits(1), spent(1, 1, 3), 4)?;
    want(alloc, "<a,b|>", commits(2), End::Sealed, 4)?;
    want(alloc, SOLVABLE, commits(3), spent(3, 1, 5), 9)
}

#[test]
fn limits_are_met(rt: HostRuntime) -> Result<(), Fail> {
    let alloc = rt.alloc();
    let entries = limits(7, MANY, MANY, None);
    want(alloc, SOLVABLE, entries, full(Measure::Entries, 8), 7)?;
    let terms = limits(2_048, 18, MANY, None);
    want(alloc, SOLVABLE, terms, full(Measure::Terms, 19), 7)?;
    let steps = limits(2_048, MANY, 1, None);
    want(alloc, SOLVABLE, steps, full(Measure::Steps, 2), 7)
}

#[test]
fn completions_end(rt: HostRuntime) -> Result<(), Fail> {
    let alloc = rt.alloc();
    let all = limits(2_048, MANY, MANY, None);
    want(alloc, "<a,b | [a,b]^2, [a,b]^3>", all, End::Sealed, 11)?;
    let growing = "<a,b | a [a,b] a^-1 [a,b]^-512, a^15 [a,b] a^-15 [a,b]^-1>";
    want(alloc, growing, all, stopped(), 9)
}

#[test]
fn hard_tasks_are_tried_again(rt: HostRuntime) -> Result<(), Fail> {
    let alloc = rt.alloc();
    let p = presentation(alloc, "<a,b|>")?;
    let mut book = open(alloc, &p, limits(2_048, MANY, MANY, None))?;
    if let Some(task) = book.take() {
        book.give_back(task, true);
    }
    laws::books_can_be_completed();
    book.release();
    if !completes(alloc, &p, &mut book, End::Sealed)? {
        return Err(Fail::from("not sealed"));
    }
    Ok(())
}
