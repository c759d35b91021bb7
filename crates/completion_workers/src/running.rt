//! `run_actors`: workers and sessions at once.

ghost use Rattle.std.specs.List.{AllByRecursion};
ghost use Rattle.std.specs.Prelude.{◌≡◌};
ghost use Rattle.std.specs.Arc.{arc_value};
ghost use Rattle.completion_workers.specs.Acting.{IsReady, HaveActed};

use crate::actors::Actor;
use crate::gates::Gate;
use crate::pace::Pace;
use crate::shared::Shared;
use pair_book::Book;
use presentation::Presentation;
use std::alloc::Global;
use std::sync::{Arc, Mutex, Wait};
use std::thread::{Threads, for_each_mut};

/// Runs workers and sessions over a book and a row of the presentation, each in a call of its own, and so in a thread
/// of its own where one can be made. It returns when all have ended.
///
/// Before it the sessions have kept no reply, and their questions can be asked. Each actor's own part is told: a seat's
/// list only grows, a session is as it was but for its replies, each of which is the verdict by the items below its
/// front, and `dry` is set exactly where a question has none. Where memory runs out in an actor that actor alone ends.
pub fn run_actors<'r, G: Gate + Sync, R: Threads + Wait + Sync>(
    rt: &R,
    alloc: Global,
    p: &Arc<Presentation>,
    book: &Mutex<Book>,
    actors: &mut [Actor<'r>],
    gate: &G,
)
    requires { AllByRecursion (IsReady (arc_value p.now)) actors.old }
    ensures { HaveActed (arc_value p.now) actors.old actors.new }
{
    if actors.is_empty() {
        return;
    }
    let pace = Pace::new(alloc, actors.len());
    let shared = Shared {
        alloc,
        p,
        book,
        pace: &pace,
    };
    let threads = actors.len();
    for_each_mut(
        rt,
        actors,
        threads,
        &|at, actor| actor.run(rt, &shared, gate, at),
    );
}
