//! `TaskTable`: the states of all tasks of a log.

ghost use Rattle.std.specs.Prelude.{◌≡◌, ◌<◌, ◌≤◌, List, length, IfOk};
ghost use Rattle.module_vec.specs.declared.places.Term.{Term};
ghost use Rattle.module_vec.specs.Reducers.{IsEntry};
ghost use Rattle.task_table.specs.declared.order.Order.TheVariants.{ByNumber, ByCost};
ghost use Rattle.task_table.specs.declared.TheConstants.{ENTRIES as MOST};
ghost use Rattle.task_table.specs.Tasks.{IsTask};
ghost use Rattle.task_table.specs.Tables.{IsTable, IsOver, Takes, FindsLeast, empty, put, reopen, reopened_count};
ghost use Rattle.task_table.specs.Tables.{state_of};
ghost use Rattle.task_table.specs.Rows.{grown};

use crate::Order;
use crate::by_cost::{cheapest, first_open, queue_anew, queue_last, requeue};
use crate::costs::Costs;
use crate::hints::{Hint, advanced, after, task_at};
use crate::numbers::{number, row};
use crate::reopening::reopen_all;
use crate::rows::{Row, push_row};
use crate::states::{Reopened, TaskState, Wanted};
use module_vec::{ModVec, VecList};
use outcomes::Task;
use std::alloc::{AllocError, Global};
use std::marker::Model;

/// The states of all tasks of a log, in an order of the tasks.
///
/// Searches go on where the last one ended, and no call but [`with_capacity`](TaskTable::with_capacity) takes memory.
#[derive(Drop)]
pub struct TaskTable {
    order: Order,
    room: u32,
    count: u32,
    states: Vec<TaskState>,
    open_hint: Hint,
    unclosed_hint: Hint,
    costs: Costs,
}

impl Model for TaskTable {
    ghost use Rattle.task_table.specs.Tables.{Table};

    ghost Value = { Table };

    ghost use Rattle.task_table.specs.Inner.{table_of, IsKept};

    ghost view = { table_of };

    ghost invariant = { IsKept };
}

impl TaskTable {
    /// The table of a log without entries, with room for the tasks of so many.
    pub fn with_capacity(alloc: Global, order: Order, entries: u32) -> Result<TaskTable, AllocError>
        requires { entries ≤ MOST }
        ensures { IfOk result (λ table. table ≡ empty order entries) }
    {
        let start = Hint { number: 0, row: 0 };
        let queued = match order {
            Order::ByNumber => 0,
            Order::ByCost => row(entries),
        };
        Ok(TaskTable {
            order,
            room: entries,
            count: 0,
            states: Vec::with_capacity(alloc, row(entries))?,
            open_hint: start,
            unclosed_hint: start,
            costs: Costs::with_room(alloc, entries, queued)?,
        })
    }

    /// The order of the tasks.
    pub fn order(&self) -> Order
        ensures is { result ≡ self.now.order }
        ensures table { IsTable self.now }
    {
        self.order
    }

    /// The number of entries whose tasks these are.
    pub fn count(&self) -> u32
        ensures is { result ≡ self.now.count }
        ensures table { IsTable self.now }
    {
        self.count
    }

    /// The number of entries for whose tasks there is room.
    pub fn room(&self) -> u32
        ensures { result ≡ self.now.room }
    {
        self.room
    }

    /// The state of a task.
    pub fn state(&self, task: Task) -> TaskState
        requires { IsTask self.now.count task }
        ensures { result ≡ state_of self.now task }
    {
        self.states[number(task)]
    }

    /// Gives a task another state.
    pub fn set(&mut self, task: Task, state: TaskState)
        requires { IsTask self.old.count task }
        ensures { self.new ≡ put self.old task state }
    {
        self.open_hint = after(self.open_hint, Wanted::OpenOnes, task, state);
        self.unclosed_hint = after(self.unclosed_hint, Wanted::Unclosed, task, state);
        let at = number(task);
        let before = self.states[at];
        self.states[at] = state;
        requeue(self.order, &mut self.costs, &self.states, task, before);
    }

    /// Adds the tasks of one more entry, which has this vector. Each is open, or `Never` where it is settled.
    pub fn push<R: Row>(&mut self, row: &R, vector: &ModVec)
        requires room { self.old.count < self.old.room }
        requires row { length (R.settled row.now) ≡ self.old.count }
        requires entry { IsEntry vector.now }
        ensures { self.new ≡ grown self.old (R.settled row.now) vector.now }
    {
        push_row(&mut self.states, row, self.count);
        self.costs.add(vector);
        queue_last(self.order, &mut self.costs, &self.states, self.count);
        self.count += 1;
    }

    /// Takes the least open task. `None` is answered exactly where no task is open. The list has the entries' vectors.
    pub fn take<L: VecList>(&mut self, list: &L) -> Option<Task>
        requires { IsOver (L.vectors list.now) self.old }
        ensures { Takes (L.vectors list.now) self.old result self.new }
    {
        match self.order {
            Order::ByNumber => self.take_by_number(),
            Order::ByCost => self.take_by_cost(),
        }
    }

    /// The least task with a wanted state, or `None` where there is none. The list has the entries' vectors. By cost
    /// all states are gone through.
    pub fn least<L: VecList>(&self, list: &L, wanted: Wanted) -> Option<Task>
        requires { IsOver (L.vectors list.now) self.now }
        ensures { FindsLeast wanted (L.vectors list.now) self.now result }
    {
        match self.order {
            Order::ByNumber => self.least_by_number(wanted),
            Order::ByCost => self.least_by_cost(wanted),
        }
    }

    /// Opens all hard tasks, or all that are taken, and answers their number.
    pub fn reopen(&mut self, from: Reopened) -> u32
        ensures new { self.new ≡ reopen from self.old }
        ensures count { result ≡ reopened_count from self.old }
    {
        let count = reopen_all(&mut self.states, from);
        self.open_hint = self.unclosed_hint;
        queue_anew(self.order, &mut self.costs, &self.states);
        count as u32
    }

    fn take_by_number(&mut self) -> Option<Task>
        requires { self.old.order ≡ ByNumber }
        ensures { (entries : List (List Term)) → Takes entries self.old result self.new }
    {
        self.unclosed_hint = advanced(
            &self.states,
            self.count,
            Wanted::Unclosed,
            self.unclosed_hint,
        );
        self.open_hint = advanced(&self.states, self.count, Wanted::OpenOnes, self.open_hint);
        if self.open_hint.number == self.states.len() {
            return None;
        }
        self.states[self.open_hint.number] = TaskState::Taken;
        Some(task_at(self.open_hint))
    }

    fn least_by_number(&self, wanted: Wanted) -> Option<Task>
        requires { self.now.order ≡ ByNumber }
        ensures { (entries : List (List Term)) → FindsLeast wanted entries self.now result }
    {
        let hint = match wanted {
            Wanted::OpenOnes => self.open_hint,
            Wanted::Unclosed => self.unclosed_hint,
        };
        let at = advanced(&self.states, self.count, wanted, hint);
        if at.number == self.states.len() {
            return None;
        }
        Some(task_at(at))
    }

    fn least_by_cost(&self, wanted: Wanted) -> Option<Task>
        requires { self.now.order ≡ ByCost }
        ensures { (entries : List (List Term)) → IsOver entries self.now → FindsLeast wanted entries self.now result }
    {
        self.costs.known();
        cheapest(&self.costs, &self.states, wanted)
    }

    fn take_by_cost(&mut self) -> Option<Task>
        requires { self.old.order ≡ ByCost }
        ensures { (entries : List (List Term)) → IsOver entries self.old → Takes entries self.old result self.new }
    {
        self.costs.known();
        let task = first_open(&mut self.costs, &self.states)?;
        self.open_hint = after(self.open_hint, Wanted::OpenOnes, task, TaskState::Taken);
        self.unclosed_hint = after(self.unclosed_hint, Wanted::Unclosed, task, TaskState::Taken);
        self.states[number(task)] = TaskState::Taken;
        Some(task)
    }
}
