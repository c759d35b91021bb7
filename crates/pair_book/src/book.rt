//! `Book`: what a completion has come to.

ghost use Rattle.std.specs.Prelude.{◌≡◌, ◌≤◌, ◌<◌, ◌↔◌, ◌++◌, ◌∷◌, [], IsTrue, true, map, length, Some, None, IfOk};
ghost use Rattle.std.specs.Prelude.{MatchOption, MatchResult};
ghost use Rattle.std.proofs.Common.{refl};
ghost use Rattle.std.specs.Arc.{arc_value};
ghost use Rattle.outcomes.specs.declared.kinds.PairKind.TheVariants.{S};
ghost use Rattle.strong_pairs.specs.Pairs.{IsPair, lead_of};
ghost use Rattle.strong_pairs.specs.Tasks.{IsClosed};
ghost use Rattle.task_table.specs.declared.TheConstants.{ENTRIES as MOST};
ghost use Rattle.task_table.specs.declared.states.Wanted.TheVariants.{Unclosed};
ghost use Rattle.task_table.specs.declared.states.Reopened.TheVariants.{HardOnes, TakenOnes};
ghost use Rattle.task_table.specs.Tasks.{IsTask};
ghost use Rattle.task_table.specs.Tables.{FindsLeast, reopen, reopened_count, state_of};
ghost use Rattle.basis_entry.specs.Entries.{vectors_of};
ghost use Rattle.pair_work.specs.Outcomes.{IsRestOf, recipe_steps};
ghost use Rattle.pair_book.specs.Books.{IsBook, AreWithin, IsOpened, IsTaken, TakesTask, GivesBack, given_state};
ghost use Rattle.pair_book.specs.Books.{IsSealed, IsNotSealed};
ghost use Rattle.pair_book.specs.Chaining.{is_waiting, closed_if};
ghost use Rattle.pair_book.specs.Commits.{MayCommit, Fits, Passes, closed_by, appended_by, state_after};
ghost use Rattle.pair_book.specs.Logs.{NoneDivides};

use crate::log::Log;
use crate::newcomers::enter;
use crate::opening::enter_all;
use crate::{Limits, SealFault};
use basis_entry::{Entry, Front, Recipe, Sealed};
use module_vec::{ModVec, VecList};
use outcomes::{Measure, PairKind, Task};
use presentation::Presentation;
use std::alloc::{AllocError, Global};
use std::marker::Model;
use std::sync::Arc;
use strong_pairs::covers;
use task_table::{Reopened, TaskState, TaskTable, Wanted};

/// A lawful log of a presentation, the states of its tasks, the number of commits and the seal.
#[derive(Drop)]
pub struct Book {
    source: Arc<Presentation>,
    limits: Limits,
    base: u32,
    log: Log,
    tasks: TaskTable,
    terms: u32,
    steps: u32,
    commits: u32,
    seal: Option<Arc<Sealed>>,
}

impl Model for Book {
    ghost use Rattle.pair_book.specs.Books.{Held};

    ghost Value = { Held };

    ghost use Rattle.pair_book.specs.Inner.{held_of, IsKept};

    ghost view = { held_of };

    ghost invariant = { IsKept };
}

impl Book {
    /// The book of the generator entries, without commits. All room that the limits allow is taken here.
    pub fn open(alloc: Global, p: &Arc<Presentation>, limits: Limits) -> Result<Book, AllocError>
        requires most { limits.entries ≤ MOST }
        requires within { AreWithin (arc_value p.now) limits }
        ensures { IfOk result (λ book. IsOpened (arc_value p.now) limits book) }
    {
        let base = Entry::base(alloc, p)?;
        let mut log = Log::with_room(alloc, limits.entries)?;
        let mut tasks = TaskTable::with_capacity(alloc, limits.order, limits.entries)?;
        let terms = enter_all(&mut log, &mut tasks, &base)?;
        Ok(Book {
            source: Arc::try_clone(p)?,
            limits,
            base: base.len() as u32,
            log,
            tasks,
            terms,
            steps: 0,
            commits: 0,
            seal: None,
        })
    }

    /// What holds of every book.
    pub fn known(&self)
        ensures { IsBook self.now }
    {
        let _commits = &self.commits;
    }

    /// Takes the least open task. `None` is answered exactly where no task is open.
    pub fn take(&mut self) -> Option<Task>
        ensures { TakesTask self.old result self.new }
    {
        self.tasks.take(&self.log)
    }

    /// Whether the task is taken in this book.
    pub fn is_taken(&self, task: Task) -> bool
        ensures { IsTrue result ↔ IsTaken self.now task }
    {
        task.i < task.j && task.j < self.tasks.count() && self.tasks.state(task) == TaskState::Taken
    }

    /// A taken task becomes hard, or open. For any other task nothing changes.
    pub fn give_back(&mut self, task: Task, hard: bool)
        ensures { GivesBack self.old task hard self.new }
    {
        if !self.is_taken(task) {
            return;
        }
        self.tasks.set(task, given(hard));
    }

    /// Each hard task becomes open. Answers their number.
    pub fn soften(&mut self) -> u32
        ensures new { self.new ≡ record self.old { tasks = reopen HardOnes (self.old).tasks } }
        ensures count { result ≡ reopened_count HardOnes (self.old).tasks }
    {
        self.tasks.reopen(Reopened::HardOnes)
    }

    /// Each taken task becomes open. Answers their number.
    pub fn release(&mut self) -> u32
        ensures new { self.new ≡ record self.old { tasks = reopen TakenOnes (self.old).tasks } }
        ensures count { result ≡ reopened_count TakenOnes (self.old).tasks }
    {
        self.tasks.reopen(Reopened::TakenOnes)
    }

    /// The limits that the book was opened with.
    pub fn limits(&self) -> Limits
        ensures { result ≡ self.now.limits }
    {
        self.limits
    }

    /// The entries of the log.
    pub fn entries(&self) -> &[Arc<Entry>]
        ensures is { map arc_value result.now ≡ self.now.entries }
        ensures book { IsBook self.now }
    {
        self.log.entries()
    }

    /// The number of commits.
    pub fn commits(&self) -> u32
        ensures is { result ≡ self.now.commits }
        ensures book { IsBook self.now }
    {
        self.commits
    }

    /// The least task that isn't closed, or `None` where all are closed.
    pub fn least(&self) -> Option<Task>
        ensures { FindsLeast Unclosed (vectors_of self.now.entries) self.now.tasks result }
    {
        self.tasks.least(&self.log, Wanted::Unclosed)
    }

    /// Seals the book where every task is closed: the entries of its log are then a strong basis. The book keeps the
    /// seal for good, and answers it again. `StillOpen` comes exactly where a task isn't closed.
    pub fn seal(&mut self, alloc: Global) -> Result<Arc<Sealed>, SealFault>
        ensures { MatchResult result (λ s. IsSealed self.old (arc_value s) self.new)
            (λ fault. IsNotSealed self.old fault self.new) }
    {
        if let Some(task) = self.tasks.least(&self.log, Wanted::Unclosed) {
            return Err(SealFault::StillOpen { task });
        }
        let sealed = Sealed::make(alloc, &self.source, self.log.entries())?;
        let seal = Arc::new(alloc, sealed)?;
        self.seal = Some(Arc::try_clone(&seal)?);
        Ok(seal)
    }
}

/// What the calls on a book change and see of it.
impl Book {
    ghost use Rattle.pair_work.specs.Outcomes.{IsShort};

    /// The presentation.
    pub(crate) fn source(&self) -> &Presentation
        ensures { result.now ≡ self.now.source }
    {
        &self.source
    }

    /// The log.
    pub(crate) fn log(&self) -> &Log
        ensures { (result.now).entries ≡ self.now.entries }
    {
        &self.log
    }

    /// The state of a task.
    pub(crate) fn state(&self, task: Task) -> TaskState
        requires { IsTask (length self.now.entries) task }
        ensures { result ≡ state_of self.now.tasks task }
    {
        self.tasks.state(task)
    }

    /// Closes a task by a commit.
    pub(crate) fn close(&mut self, task: Task)
        requires may { MayCommit self.old task }
        requires truly { IsClosed (vectors_of self.old.entries) task.kind task.i task.j }
        ensures { self.new ≡ closed_by self.old task }
    {
        let commits = self.commits + 1;
        self.tasks.set(task, TaskState::Closed);
        self.commits = commits;
    }

    /// Appends the rest of a task by a commit, and answers whether the task is closed now.
    pub(crate) fn append(&mut self, task: Task, entry: Arc<Entry>) -> bool
        requires may { MayCommit self.old task }
        requires pair { IsPair (vectors_of self.old.entries) task.i task.j }
        requires rest { IsRestOf (vectors_of self.old.entries) task (arc_value entry) }
        requires source { (arc_value entry).source ≡ (self.old).source }
        requires undivided { NoneDivides (vectors_of self.old.entries) (lead_of (arc_value entry).vector) }
        requires fits { Fits self.old (arc_value entry) }
        ensures closed { IsTrue result ↔ IsClosed (vectors_of (self.old.entries ++ arc_value entry ∷ [])) task.kind
            task.i task.j }
        ensures new { self.new ≡ appended_by self.old task (arc_value entry) result }
    {
        let commits = self.commits + 1;
        let terms = self.terms + entry.vector().terms().len() as u32;
        let steps = self.steps + steps_in(entry.recipe()) as u32;
        enter(&mut self.log, &mut self.tasks, entry);
        let closed = is_closed(&self.log, task);
        self.tasks.set(task, after(closed));
        self.terms = terms;
        self.steps = steps;
        self.commits = commits;
        closed
    }

    /// Closes a task that is open or hard, and truly closed, where it is due.
    pub(crate) fn close_if(&mut self, due: bool, task: Task)
        requires task { IsTask (length self.old.entries) task }
        requires waiting { IsTrue due → is_waiting (state_of self.old.tasks task) ≡ true }
        requires closed { IsTrue due → IsClosed (vectors_of self.old.entries) task.kind task.i task.j }
        ensures { self.new ≡ closed_if due self.old task }
    {
        if due {
            self.tasks.set(task, TaskState::Closed);
        }
    }

    /// The measure that the entry would take past its limit, and how far.
    pub(crate) fn passed(&self, entry: &Entry) -> Option<(Measure, u32)>
        requires { IsShort entry.now }
        ensures { MatchOption result (Fits self.now entry.now) (λ p. Passes self.now entry.now p.0 p.1) }
    {
        let limits = self.limits;
        let entries = self.log.count() + 1;
        if entries > limits.entries {
            return Some((Measure::Entries, entries));
        }
        let terms = self.terms + entry.vector().terms().len() as u32;
        if terms > limits.terms {
            return Some((Measure::Terms, terms));
        }
        let steps = self.steps + steps_in(entry.recipe()) as u32;
        if steps > limits.steps {
            return Some((Measure::Steps, steps));
        }
        None
    }
}

/// Whether the task of a pair is truly closed, where this is known of S tasks.
fn is_closed(log: &Log, task: Task) -> bool
    requires pair { IsPair (vectors_of log.now.entries) task.i task.j }
    requires s { task.kind ≡ S → IsClosed (vectors_of log.now.entries) S task.i task.j }
    ensures { IsTrue result ↔ IsClosed (vectors_of log.now.entries) task.kind task.i task.j }
{
    match task.kind {
        PairKind::S => true,
        PairKind::G => covers(log, log.count(), task.i, task.j).is_some(),
    }
}

/// The state of a task whose rest was appended.
fn after(closed: bool) -> TaskState
    ensures { result ≡ state_after closed }
{
    if closed {
        TaskState::Closed
    } else {
        TaskState::Open
    }
}

/// How many steps a recipe has.
fn steps_in(recipe: &Recipe) -> usize
    ensures { result ≡ recipe_steps recipe.now }
{
    match recipe {
        Recipe::Gen { .. } => 0,
        Recipe::Sum { steps } => steps.steps().len(),
    }
}

/// The state of a task that is given back.
fn given(hard: bool) -> TaskState
    ensures { result ≡ given_state hard }
{
    if hard {
        TaskState::Hard
    } else {
        TaskState::Open
    }
}

impl VecList for Book {
    ghost vectors = { λ b. vectors_of b.entries };

    fn count(&self) -> u32 {
        self.log.count()
    }

    fn vector(&self, at: u32) -> &ModVec {
        self.log.vector(at)
    }
}

impl Front for Book {
    ghost entries = { λ b. b.entries };

    ghost seal = { λ b. b.seal };

    ghost vectors_are = { λ b. refl };

    fn front(&self) -> u32 {
        let count = self.log.count();
        if self.seal.is_some() {
            count + 1
        } else {
            count
        }
    }

    fn sealed(&self) -> Option<&Sealed> {
        match &self.seal {
            Some(seal) => Some(seal),
            None => None,
        }
    }

    fn entry(&self, at: u32) -> &Arc<Entry> {
        self.log.get(at)
    }
}
