//! `Core`: the machine.

ghost use Rattle.std.specs.List.{AllByRecursion};
ghost use Rattle.std.specs.Prelude.{◌≡◌, ℕ, ◌<◌, ◌≤◌, All, IfOk, IsTrue, OnOk, OnErr, length, replicate, take};
ghost use Rattle.std.specs.Arc.{arc_value};
ghost use Rattle.task_table.specs.declared.TheConstants.{ENTRIES as MOST};
ghost use Rattle.session_text.specs.Schedule.{IsEvent};
ghost use Rattle.session_text.specs.declared.question.Event.TheVariants.{Worker, Session as TheSession};
ghost use Rattle.pair_book.specs.Books.{IsBook, AreWithin};
ghost use Rattle.session_core.specs.Sessions.{IsSession};
ghost use Rattle.interleave_core.specs.declared.hands.Hand.TheVariants.{Idle};
ghost use Rattle.interleave_core.specs.Machine.{Step};
ghost use Rattle.interleave_core.specs.Inner.{IsUnclosed};
ghost use Rattle.interleave_core.specs.Invariants.{IsCore, IsHand};
ghost use Rattle.interleave_core.specs.Opening.{AreNewSessions, IsOpened, IsLeft, given_back};
ghost use Rattle.interleave_core.specs.Runs.{Run};

use crate::hands::some_busy;
use crate::sessions::ask;
use crate::turns::{catch_up, turn};
use crate::{Hand, WORKERS};
use pair_book::{Book, Limits};
use presentation::Presentation;
use reducer_index::{Index, Indexed};
use session_core::Session;
use session_text::Event;
use std::alloc::{AllocError, Global};
use std::marker::Model;
use std::sync::Arc;

/// A book, workers that work its tasks, and sessions that are answered by its items, on one thread.
#[derive(Drop)]
pub struct Core {
    source: Arc<Presentation>,
    book: Book,
    /// The leads of the log, as far as they were needed. All workers and sessions share them.
    index: Index,
    hands: Vec<Hand>,
    sessions: Vec<Session>,
    /// Whether the last turn of a worker found no task open and not all closed. Then the log isn't tried again for its
    /// seal, which can be a walk through all tasks.
    stuck: bool,
}

impl Model for Core {
    ghost use Rattle.interleave_core.specs.Machine.{State};

    ghost Value = { State };

    ghost use Rattle.interleave_core.specs.Inner.{state_in, IsKept};

    ghost view = { state_in };

    ghost invariant = { IsKept };
}

impl Core {
    /// The machine with the generator entries of the presentation, [`WORKERS`] workers that hold nothing, and these
    /// sessions, which have no reply yet.
    pub fn open(
        alloc: Global,
        p: &Arc<Presentation>,
        sessions: Vec<Session>,
        limits: Limits,
    ) -> Result<Core, AllocError>
        requires most { limits.entries ≤ MOST }
        requires within { AreWithin (arc_value p.now) limits }
        requires sessions { AreNewSessions (arc_value p.now) sessions.items }
        ensures { IfOk result (λ core. IsOpened (arc_value p.now) limits sessions.items core) }
    {
        let book = Book::open(alloc, p, limits)?;
        book.known();
        Ok(Core {
            source: Arc::try_clone(p)?,
            book,
            index: Index::new(alloc),
            hands: idle_hands(alloc)?,
            sessions,
            stuck: false,
        })
    }

    /// What holds of the machine between two events: the log is lawful, a task that is marked closed is truly closed,
    /// and each reply is the verdict by the items below its front. The call does nothing.
    pub fn known(&self)
        ensures core { IsCore self.now }
        ensures sessions { AllByRecursion IsSession self.now.sessions }
    {
        Session::all_known(&self.sessions);
    }

    /// Plays the events in order. A worker that holds nothing takes the least open task and works it by the log of that
    /// moment; where none is open it seals the log, if all tasks are closed. A worker that holds an outcome commits it;
    /// a stale one is worked again instead, and where the budget is spent, or there is no room, its task is given back.
    /// A task whose work met a limit becomes hard. A session is answered its next question by all items, if one is
    /// left.
    ///
    /// Where memory runs out, the machine stands behind the events before the one that met it.
    #[tactic(auto, using(crate::proofs::Running::playing))]
    pub fn play(&mut self, alloc: Global, events: &[Event]) -> Result<(), AllocError>
        requires { All (IsEvent (length self.old.sessions)) events.now }
        ensures ok { OnOk result (Run self.old events.now self.new) }
        ensures err { OnErr result ((n : ℕ) × (n < length events.now) × Run self.old (take n events.now) self.new) }
    {
        self.known();
        for event in events {
            self.step(alloc, *event)?;
            self.known();
        }
        Ok(())
    }

    /// Plays one event. Where memory runs out nothing is changed.
    fn step(&mut self, alloc: Global, event: Event) -> Result<(), AllocError>
        requires { IsEvent (length self.old.sessions) event }
        ensures ok { OnOk result (Step self.old event self.new) }
        ensures err { OnErr result (self.new ≡ self.old) }
    {
        match event {
            Event::Worker(number) => self.worker_turn(alloc, number),
            Event::Session(number) => self.session_turn(alloc, number),
        }
    }

    /// The turn of the worker with this number.
    fn worker_turn(&mut self, alloc: Global, number: u32) -> Result<(), AllocError>
        requires { IsEvent (length self.old.sessions) (Worker number) }
        ensures ok { OnOk result (Step self.old (Worker number) self.new) }
        ensures err { OnErr result (self.new ≡ self.old) }
    {
        let unclosed = self.is_unclosed();
        catch_up(&self.book, &mut self.index)?;
        let hand = &mut self.hands[number as usize - 1];
        self.stuck = turn(
            alloc,
            &self.source,
            &mut self.book,
            &self.index,
            unclosed,
            hand,
        )?;
        Ok(())
    }

    /// Whether some task is known not to be closed.
    fn is_unclosed(&self) -> bool
        ensures { IsTrue result → IsUnclosed self.now.book }
    {
        self.stuck || some_busy(&self.hands)
    }

    /// The turn of the session with this number.
    fn session_turn(&mut self, alloc: Global, number: u32) -> Result<(), AllocError>
        requires { IsEvent (length self.old.sessions) (TheSession number) }
        ensures ok { OnOk result (Step self.old (TheSession number) self.new) }
        ensures err { OnErr result (self.new ≡ self.old) }
    {
        catch_up(&self.book, &mut self.index)?;
        let list = Indexed::over(&self.book, &self.index);
        ask(
            alloc,
            &self.source,
            &list,
            &mut self.sessions[number as usize - 1],
        )
    }

    /// The book and the sessions. Each task in hand is given back, in the order of the workers: it is open again, or
    /// hard where its work met a limit.
    pub fn parts(self) -> (Book, Vec<Session>)
        ensures { IsLeft self result.0 result.1.items }
    {
        let Core {
            book,
            hands,
            sessions,
            ..
        } = self;
        let mut book = book;
        for hand in &hands {
            give_back(&mut book, hand);
        }
        (book, sessions)
    }
}

/// Workers that hold nothing.
#[tactic(auto, using(crate::proofs::Lists::replicate_more))]
fn idle_hands(alloc: Global) -> Result<Vec<Hand>, AllocError>
    ensures { IfOk result (λ hands. hands.items ≡ replicate WORKERS Idle) }
{
    let mut hands = Vec::with_capacity(alloc, WORKERS as usize)?;
    for _ in 0..WORKERS {
        hands.push(Hand::Idle)?;
    }
    Ok(hands)
}

/// Gives back the task in hand.
fn give_back(book: &mut Book, hand: &Hand)
    requires { IsHand book.old hand.now }
    ensures is { book.new ≡ given_back book.old hand.now }
    ensures book { IsBook book.new }
{
    match hand {
        Hand::Idle => {}
        Hand::Holds(outcome) => book.give_back(outcome.task(), false),
        Hand::Stopped { task, .. } => book.give_back(*task, true),
    }
    book.known();
}
