//! Schedules over groups whose entries can be worked out by hand.

ghost use Rattle.std.specs.Prelude.{◌≡◌, All, IfOk, length};
ghost use Rattle.std.specs.Arc.{arc_value};
ghost use Rattle.session_text.specs.Schedule.{IsEvent};
ghost use Rattle.interleave_core.specs.Opening.{IsNewSession};

use crate::{Core, laws};
use basis_entry::{Entry, Front};
use module_vec::VecList;
use outcomes::{PairKind, Task};
use pair_book::{Limits, Order, can_open};
use presentation::{Presentation, read_presentation};
use session_core::{Kept, Session, Tag};
use session_text::{Event, read_schedule, read_session};
use std::alloc::Global;
use std::rt::HostRuntime;
use std::sync::Arc;
use std::test::Fail;

/// The commutator is trivial, which the G-vector of the first two entries shows. The log is sealed with 11 entries.
const CUBE: &str = "<a,b | [a,b]^2, [a,b]^3>";

/// The S-vector of the first two entries meets a limit, and all other tasks can be closed.
const GROWING: &str = "<a,b | a [a,b] a^-1 [a,b]^-512, a^15 [a,b] a^-15 [a,b]^-1>";

fn presentation(alloc: Global, text: &str) -> Result<Arc<Presentation>, Fail> {
    match read_presentation(alloc, text.as_bytes()) {
        Ok(p) => Ok(Arc::new(alloc, p)?),
        Err(_) => Err(Fail::from("no presentation")),
    }
}

/// A session that asks three times whether the commutator is trivial.
fn session(alloc: Global, p: &Arc<Presentation>) -> Result<Session, Fail>
    ensures { IfOk result (IsNewSession (arc_value p.now) 1) }
{
    basis_entry::laws::generator_entries_are_short();
    let base = Entry::base(alloc, p)?.len() as u32;
    let text = "trivial [a,b]\ntrivial [a,b]\ntrivial [a,b]\n";
    match read_session(alloc, p, text.as_bytes()) {
        Ok(questions) => Ok(Session::open(alloc, 1, questions, base)?),
        Err(_) => Err(Fail::from("no session")),
    }
}

fn open(alloc: Global, text: &str, budget: Option<u32>, order: Order) -> Result<Core, Fail>
    ensures { IfOk result (λ core. length core.sessions ≡ 1) }
{
    let p = presentation(alloc, text)?;
    let limits = Limits {
        entries: 2_048,
        terms: 8_000_000,
        steps: 8_000_000,
        budget,
        order,
    };
    if !can_open(alloc, &p, &limits)? {
        return Err(Fail::from("no book"));
    }
    let sessions = vec![in alloc; session(alloc, &p)?]?;
    Ok(Core::open(alloc, &p, sessions, limits)?)
}

fn events(alloc: Global, text: &str) -> Result<Vec<Event>, Fail>
    ensures { IfOk result (λ events. All (IsEvent 1) events.items) }
{
    match read_schedule(alloc, text.as_bytes(), 1) {
        Ok(events) => Ok(events),
        Err(_) => Err(Fail::from("no schedule")),
    }
}

/// Whether after the schedule the log has so many entries, after so many commits, and the session these replies.
fn plays(
    alloc: Global,
    budget: Option<u32>,
    schedule: &str,
    entries: u32,
    commits: u32,
    replies: &[Kept],
) -> Result<bool, Fail> {
    let mut core = open(alloc, CUBE, budget, Order::ByNumber)?;
    core.play(alloc, &events(alloc, schedule)?)?;
    let (book, sessions) = core.parts();
    if sessions.len() != 1 || sessions[0].count() != 3 {
        return Err(Fail::from("another session"));
    }
    let mut same = book.count() == entries && book.commits() == commits;
    for at in 0..3u32 {
        let wanted = replies.get(at as usize).copied();
        same = same && sessions[0].kept(at + 1) == wanted;
    }
    Ok(same)
}

#[test]
fn schedules_are_played(rt: HostRuntime) -> Result<(), Fail> {
    let alloc = rt.alloc();
    let tag = Tag::Unknown { subject: 1 };
    let unknown = Kept { front: 6, tag };
    let tag = Tag::Trivial;
    let trivial = Kept { front: 7, tag };
    let between = [unknown, unknown, trivial];
    let behind = [trivial];
    for (budget, schedule, entries, commits, replies) in [
        (None, "", 6, 0, &[] as &[Kept]),
        // Questions come between a task's being taken and its commit. No fourth question is left.
        (None, "s1 w1 s1 w1 s1 s1", 7, 1, &between),
        // Each worker has a task of its own.
        (None, "w1 w2 w1 w2 s1", 7, 2, &behind),
        // The third worker's rest is stale at its second turn, and is appended at its third.
        (None, "w1 w2 w3 w1 w3", 7, 1, &[]),
        (None, "w1 w2 w3 w1 w3 w3", 8, 2, &[]),
        // Behind the one commit tasks are given back.
        (Some(1), "w1 w2 w3 w1 w3", 7, 1, &[]),
        (Some(0), "w1 w1 w1 w1", 6, 0, &[]),
    ] {
        if !plays(alloc, budget, schedule, entries, commits, replies)? {
            return Err(Fail::from(schedule));
        }
    }
    laws::runs_compose();
    laws::runs_keep();
    Ok(())
}

fn s_task(i: u32, j: u32) -> Task {
    let kind = PairKind::S;
    Task { i, j, kind }
}

fn g_task(i: u32, j: u32) -> Task {
    let kind = PairKind::G;
    Task { i, j, kind }
}

#[test]
fn tasks_in_hand_are_given_back(rt: HostRuntime) -> Result<(), Fail> {
    let alloc = rt.alloc();
    for (text, schedule, first, second) in [
        // Outcomes in hand: their tasks are open again.
        (CUBE, "w2 w1", g_task(0, 1), s_task(0, 1)),
        (CUBE, "w1 w1 w2", s_task(0, 1), s_task(0, 3)),
        // A limit in hand, and one that was in hand: its task is hard.
        (GROWING, "w1", s_task(0, 3), s_task(1, 3)),
        (GROWING, "w1 w1", s_task(0, 3), s_task(1, 3)),
        (GROWING, "w1 w2 w1", s_task(0, 3), s_task(1, 3)),
    ] {
        let mut core = open(alloc, text, None, Order::ByNumber)?;
        core.play(alloc, &events(alloc, schedule)?)?;
        let (mut book, _) = core.parts();
        if book.take() != Some(first) || book.take() != Some(second) {
            return Err(Fail::from(schedule));
        }
    }
    Ok(())
}

/// How many entries the log has after sixty turns of each of these workers, and whether it is sealed.
fn ends(alloc: Global, text: &str, order: Order, workers: &str) -> Result<(u32, bool), Fail> {
    let mut schedule = String::new(alloc);
    for _ in 0..60 {
        schedule.push_str(workers)?;
    }
    schedule.push_str("s1 s1 s1")?;
    let mut core = open(alloc, text, None, order)?;
    core.play(alloc, &events(alloc, &schedule)?)?;
    let (book, sessions) = core.parts();
    for session in &sessions {
        if session.front() != book.front() {
            return Err(Fail::from("asked by fewer items"));
        }
    }
    Ok((book.count(), book.sealed().is_some()))
}

#[test]
fn workers_come_to_an_end(rt: HostRuntime) -> Result<(), Fail> {
    let alloc = rt.alloc();
    for (text, order, workers, count, sealed) in [
        (CUBE, Order::ByNumber, "w1 w1 w1 ", 11, true),
        (CUBE, Order::ByNumber, "w1 w2 w3 ", 11, true),
        (CUBE, Order::ByCost, "w1 w2 w3 ", 9, true),
        // The hard task is left, and the workers find nothing to do.
        (GROWING, Order::ByNumber, "w1 w1 w1 ", 9, false),
        (GROWING, Order::ByNumber, "w1 w2 w3 ", 9, false),
        (GROWING, Order::ByCost, "w1 w2 w3 ", 9, false),
    ] {
        if ends(alloc, text, order, workers)? != (count, sealed) {
            return Err(Fail::from(workers));
        }
    }
    Ok(())
}
