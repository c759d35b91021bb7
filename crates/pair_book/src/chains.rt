//! What the chain rule closes behind a commit.

ghost use Rattle.std.specs.Prelude.{◌≡◌, ◌≢◌, ◌<◌, ◌↔◌, IsTrue, true, length};
ghost use Rattle.outcomes.specs.declared.kinds.PairKind.TheVariants.{S};
ghost use Rattle.strong_pairs.specs.Tasks.{IsClosed};
ghost use Rattle.task_table.specs.Tasks as tasks;
ghost use Rattle.task_table.specs.Tables.{state_of};
ghost use Rattle.basis_entry.specs.Entries.{vectors_of};
ghost use Rattle.pair_book.specs.Books.{IsBook};
ghost use Rattle.pair_book.specs.Fellows.{FindsLast, component_at};
ghost use Rattle.pair_book.specs.Chaining.{IsDueBy, ChainsWith, ChainsAt, AreChained, ClosesChained, s_task};
ghost use Rattle.pair_book.specs.Chaining.{is_waiting};

use crate::Book;
use chain_rule::{Shut, chained};
use module_vec::VecList;
use outcomes::{PairKind, Task};
use strong_pairs::is_pair;
use task_table::TaskState;

impl Shut for Book {
    ghost use Rattle.pair_book.specs.Chaining.{shut_pairs};

    ghost vectors = { λ b. vectors_of b.entries };

    ghost pairs = { λ b. shut_pairs b.entries b.tasks };

    fn shut(&self, i: u32, j: u32) -> bool {
        self.known();
        let task = s_task_of(i, j);
        if task.i >= task.j || task.j >= self.count() {
            return false;
        }
        is_closed_state(self.state(task))
    }
}

impl Book {
    /// Closes what is due behind a commit on this task, where the commit has closed it.
    pub(crate) fn chain_behind(&mut self, task: Task, closed: bool)
        requires task { tasks.IsTask (length self.old.entries) task }
        ensures { ClosesChained self.old task closed self.new }
    {
        if !closed {
            return;
        }
        match task.kind {
            PairKind::S => self.chain(task.i, task.j),
            PairKind::G => {}
        }
    }

    /// Closes what is due behind the S task of two entries. Third entries of other components are passed over: nothing
    /// is due with them.
    fn chain(&mut self, a: u32, b: u32)
        requires order { a < b }
        requires within { b < length self.old.entries }
        ensures { AreChained (length self.old.entries) self.old a b self.new }
    {
        let mut third = self.last_fellow(a);
        while let Some(x) = third {
            self.chain_at(a, b, x);
            third = self.fellow_before(x);
        }
    }

    /// The last entry in the component of this one.
    fn last_fellow(&self, at: u32) -> Option<u32>
        requires { at < length self.now.entries }
        ensures { FindsLast (component_at self.now.entries) (length self.now.entries)
            (component_at self.now.entries at) result }
    {
        self.log().last_fellow(at)
    }

    /// The last entry before this one in its component.
    fn fellow_before(&self, at: u32) -> Option<u32>
        requires { at < length self.now.entries }
        ensures { FindsLast (component_at self.now.entries) at (component_at self.now.entries at) result }
    {
        self.log().fellow_before(at)
    }

    /// Closes what is due with this entry, where it is a third one.
    fn chain_at(&mut self, a: u32, b: u32, x: u32)
        requires first { a < length self.old.entries }
        requires second { b < length self.old.entries }
        requires third { x < length self.old.entries }
        requires apart { a ≢ b }
        ensures chained { ChainsAt self.old a b x self.new }
        ensures book { IsBook self.old }
    {
        self.known();
        if x == a || x == b {
            return;
        }
        self.chain_with(a, b, x);
    }

    /// Closes what is due with one third entry.
    fn chain_with(&mut self, a: u32, b: u32, x: u32)
        requires first { a < length self.old.entries }
        requires second { b < length self.old.entries }
        requires third { x < length self.old.entries }
        requires apart { (a ≢ b) × (x ≢ a) × (x ≢ b) }
        ensures { ChainsWith self.old a b x self.new }
    {
        self.known();
        let first = self.is_due(a, x, b);
        let second = self.is_due(b, x, a);
        self.close_if(first, s_task_of(a, x));
        self.close_if(second, s_task_of(b, x));
    }

    /// Whether the S task of a and x is open or hard, and its pair is closed through b.
    fn is_due(&self, a: u32, x: u32, b: u32) -> bool
        requires first { a < length self.now.entries }
        requires third { x < length self.now.entries }
        requires apart { x ≢ a }
        ensures is { IsTrue result ↔ IsDueBy self.now a x b }
        ensures closed { IsTrue result → IsClosed (vectors_of self.now.entries) S (s_task a x).i (s_task a x).j }
    {
        let task = s_task_of(a, x);
        is_waiting_state(self.state(task))
            && is_pair(self, task.i, task.j)
            && chained(self, self, task.i, task.j, b)
    }
}

/// Whether the chain rule may close a task in this state.
fn is_waiting_state(state: TaskState) -> bool
    ensures { result ≡ is_waiting state }
{
    matches!(state, TaskState::Open | TaskState::Hard)
}

/// Whether a task in this state was closed by a commit.
fn is_closed_state(state: TaskState) -> bool
    ensures { result ≡ tasks.is_closed_later state }
{
    matches!(state, TaskState::Closed)
}

/// The S task of two entries in either order.
fn s_task_of(a: u32, b: u32) -> Task
    ensures { result ≡ s_task a b }
{
    let kind = PairKind::S;
    if a < b {
        Task { i: a, j: b, kind }
    } else {
        Task { i: b, j: a, kind }
    }
}
