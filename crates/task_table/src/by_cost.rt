//! Tasks by their cost.

ghost use Rattle.std.specs.Prelude.{◌≡◌, ◌<◌, ◌≤◌, ◌+◌, ℕ, true, length, Contains};
ghost use Rattle.task_table.specs.declared.TheConstants.{ENTRIES as MOST};
ghost use Rattle.task_table.specs.declared.order.Order.TheVariants.{ByCost};
ghost use Rattle.task_table.specs.declared.states.Wanted.TheVariants.{OpenOnes};
ghost use Rattle.task_table.specs.Keys.{AreQueued, key_of};
ghost use Rattle.task_table.specs.Queueing.{FindsCheapest, FindsCheapestBelow, LeavesQueued, AreQueuedBut};
ghost use Rattle.task_table.specs.Queueing.{AreQueuedBelow};
ghost use Rattle.task_table.specs.Tables.{state_at};
ghost use Rattle.task_table.specs.Tasks.{IsTask, number_of, tasks_below, is_open};

use crate::Order;
use crate::costs::Costs;
use crate::numbers::number;
use crate::states::{TaskState, Wanted};
use outcomes::{PairKind, Task};

/// Takes tasks from the queue up to the first that is open.
pub fn first_open(costs: &mut Costs, states: &[TaskState]) -> Option<Task>
    requires states { length states.now ≡ tasks_below (length (costs.old).profiles) }
    requires queued { AreQueued costs.old.profiles states.now costs.old.queue.numbers }
    ensures same { ((costs.new).profiles ≡ (costs.old).profiles) × ((costs.new).room ≡ (costs.old).room) }
    ensures room { (costs.new).queue.room ≡ (costs.old).queue.room }
    ensures task { FindsCheapest OpenOnes costs.old.profiles states.now result }
    ensures rest { LeavesQueued costs.old.profiles states.now result costs.new.queue.numbers }
{
    while let Some(task) = costs.next() {
        if Wanted::OpenOnes.is(states[number(task)]) {
            return Some(task);
        }
    }
    None
}

/// Queues a task that has got a state, if it has become open. Before it had the state `before`.
pub fn requeue(order: Order, costs: &mut Costs, states: &[TaskState], task: Task, before: TaskState)
    requires few { length (costs.old).profiles ≤ MOST }
    requires states { length states.now ≡ tasks_below (length (costs.old).profiles) }
    requires task { IsTask (length (costs.old).profiles) task }
    requires others { order ≡ ByCost → AreQueuedBut task costs.old.profiles states.now costs.old.queue.numbers }
    requires before { order ≡ ByCost → is_open before ≡ true
        → Contains costs.old.queue.numbers (key_of costs.old.profiles task) }
    requires room { order ≡ ByCost → tasks_below (length (costs.old).profiles) ≤ (costs.old).queue.room }
    ensures same { ((costs.new).profiles ≡ (costs.old).profiles) × ((costs.new).room ≡ (costs.old).room) }
    ensures room { (costs.old).queue.room ≤ (costs.new).queue.room }
    ensures queued { order ≡ ByCost → AreQueued costs.old.profiles states.now costs.new.queue.numbers }
{
    if order != Order::ByCost {
        return;
    }
    if Wanted::OpenOnes.is(before) {
        return;
    }
    if Wanted::OpenOnes.is(states[number(task)]) {
        queue_one(costs, states, task);
    }
}

/// Queues the open tasks of the entry number `j`, the last one, where they are taken by cost.
pub fn queue_last(order: Order, costs: &mut Costs, states: &[TaskState], j: u32)
    requires few { j < MOST }
    requires last { length (costs.old).profiles ≡ j + 1 }
    requires states { length states.now ≡ tasks_below (j + 1) }
    requires others { order ≡ ByCost
        → AreQueuedBelow (tasks_below j) costs.old.profiles states.now costs.old.queue.numbers }
    requires room { order ≡ ByCost → tasks_below (j + 1) ≤ (costs.old).queue.room }
    ensures same { ((costs.new).profiles ≡ (costs.old).profiles) × ((costs.new).room ≡ (costs.old).room) }
    ensures room { (costs.old).queue.room ≤ (costs.new).queue.room }
    ensures queued { order ≡ ByCost → AreQueued costs.old.profiles states.now costs.new.queue.numbers }
{
    if order == Order::ByCost {
        queue_row(costs, states, j);
    }
}

/// Queues the open tasks, and no others, where they are taken by cost.
pub fn queue_anew(order: Order, costs: &mut Costs, states: &[TaskState])
    requires few { length (costs.old).profiles ≤ MOST }
    requires states { length states.now ≡ tasks_below (length (costs.old).profiles) }
    requires room { order ≡ ByCost → tasks_below (length (costs.old).profiles) ≤ (costs.old).queue.room }
    ensures same { ((costs.new).profiles ≡ (costs.old).profiles) × ((costs.new).room ≡ (costs.old).room) }
    ensures room { (costs.old).queue.room ≤ (costs.new).queue.room }
    ensures queued { order ≡ ByCost → AreQueued costs.old.profiles states.now costs.new.queue.numbers }
{
    if order == Order::ByCost {
        queue_all(costs, states);
    }
}

/// Queues a task that has become open.
fn queue_one(costs: &mut Costs, states: &[TaskState], task: Task)
    requires few { length (costs.old).profiles ≤ MOST }
    requires states { length states.now ≡ tasks_below (length (costs.old).profiles) }
    requires task { IsTask (length (costs.old).profiles) task }
    requires others { AreQueuedBut task costs.old.profiles states.now costs.old.queue.numbers }
    requires room { tasks_below (length (costs.old).profiles) ≤ (costs.old).queue.room }
    ensures same { ((costs.new).profiles ≡ (costs.old).profiles) × ((costs.new).room ≡ (costs.old).room) }
    ensures room { (costs.old).queue.room ≤ (costs.new).queue.room }
    ensures queued { AreQueued costs.old.profiles states.now costs.new.queue.numbers }
{
    if costs.has_room(1) {
        costs.put(task);
    } else {
        queue_all(costs, states);
    }
}

/// Queues the open tasks of the entry number `j`, the last one.
fn queue_row(costs: &mut Costs, states: &[TaskState], j: u32)
    requires few { j < MOST }
    requires last { length (costs.old).profiles ≡ j + 1 }
    requires states { length states.now ≡ tasks_below (j + 1) }
    requires others { AreQueuedBelow (tasks_below j) costs.old.profiles states.now costs.old.queue.numbers }
    requires room { tasks_below (j + 1) ≤ (costs.old).queue.room }
    ensures same { ((costs.new).profiles ≡ (costs.old).profiles) × ((costs.new).room ≡ (costs.old).room) }
    ensures room { (costs.old).queue.room ≤ (costs.new).queue.room }
    ensures queued { AreQueued costs.old.profiles states.now costs.new.queue.numbers }
{
    if j > 0 && costs.has_room(2 * j as usize) {
        queue_from(costs, states, first_of(j));
    } else {
        queue_all(costs, states);
    }
}

/// Queues the open tasks, and no others.
fn queue_all(costs: &mut Costs, states: &[TaskState])
    requires few { length (costs.old).profiles ≤ MOST }
    requires states { length states.now ≡ tasks_below (length (costs.old).profiles) }
    requires room { tasks_below (length (costs.old).profiles) ≤ (costs.old).queue.room }
    ensures same { ((costs.new).profiles ≡ (costs.old).profiles) × ((costs.new).room ≡ (costs.old).room) }
    ensures room { (costs.old).queue.room ≤ (costs.new).queue.room }
    ensures queued { AreQueued costs.old.profiles states.now costs.new.queue.numbers }
{
    costs.clear();
    queue_from(costs, states, first_of(1));
}

/// Queues the open tasks from this one on.
fn queue_from(costs: &mut Costs, states: &[TaskState], from: Task)
    requires few { length (costs.old).profiles ≤ MOST }
    requires states { length states.now ≡ tasks_below (length (costs.old).profiles) }
    requires from { from.i < from.j }
    requires small { from.j ≤ MOST }
    requires room { length costs.old.queue.numbers + length states.now ≤ (costs.old).queue.room + number_of from }
    requires others { AreQueuedBelow (number_of from) costs.old.profiles states.now costs.old.queue.numbers }
    ensures same { ((costs.new).profiles ≡ (costs.old).profiles) × ((costs.new).room ≡ (costs.old).room) }
    ensures room { (costs.old).queue.room ≤ (costs.new).queue.room }
    ensures queued { AreQueued costs.old.profiles states.now costs.new.queue.numbers }
{
    let mut task = from;
    for at in number(from)..states.len() {
        queue_if_open(costs, states, task);
        task = following(task);
    }
}

/// Queues a task if it is open.
fn queue_if_open(costs: &mut Costs, states: &[TaskState], task: Task)
    requires few { length (costs.old).profiles ≤ MOST }
    requires states { length states.now ≡ tasks_below (length (costs.old).profiles) }
    requires task { IsTask (length (costs.old).profiles) task }
    requires room { length costs.old.queue.numbers + 1 ≤ (costs.old).queue.room }
    ensures same { ((costs.new).profiles ≡ (costs.old).profiles) × ((costs.new).room ≡ (costs.old).room) }
    ensures room { (costs.old).queue.room ≤ (costs.new).queue.room }
    ensures count { length costs.new.queue.numbers ≤ length costs.old.queue.numbers + 1 }
    ensures kept { (x : ℕ) → Contains costs.old.queue.numbers x → Contains costs.new.queue.numbers x }
    ensures queued { is_open (state_at states.now (number_of task)) ≡ true
        → Contains costs.new.queue.numbers (key_of costs.old.profiles task) }
{
    if Wanted::OpenOnes.is(states[number(task)]) {
        costs.put(task);
    }
}

/// The cheapest task with a wanted state.
pub fn cheapest(costs: &Costs, states: &[TaskState], wanted: Wanted) -> Option<Task>
    requires few { length (costs.now).profiles ≤ MOST }
    requires states { length states.now ≡ tasks_below (length (costs.now).profiles) }
    ensures { FindsCheapest wanted (costs.now).profiles states.now result }
{
    let mut best = None;
    let mut task = first_of(1);
    for at in 0..states.len() {
        best = cheaper(costs, states, wanted, best, task);
        task = following(task);
    }
    best
}

/// The cheaper one of the cheapest wanted task before this one, and this one if it is wanted.
fn cheaper(
    costs: &Costs,
    states: &[TaskState],
    wanted: Wanted,
    best: Option<Task>,
    task: Task,
) -> Option<Task>
    requires few { length (costs.now).profiles ≤ MOST }
    requires states { length states.now ≡ tasks_below (length (costs.now).profiles) }
    requires task { IsTask (length (costs.now).profiles) task }
    requires best { FindsCheapestBelow (number_of task) wanted (costs.now).profiles states.now best }
    ensures { FindsCheapestBelow (number_of task + 1) wanted (costs.now).profiles states.now result }
{
    if !wanted.is(states[number(task)]) {
        return best;
    }
    let Some(least) = best else {
        return Some(task);
    };
    if costs.key(least) <= costs.key(task) {
        return Some(least);
    }
    Some(task)
}

/// The first task of the entry number `j`.
fn first_of(j: u32) -> Task
    ensures number { number_of result ≡ tasks_below j }
    ensures is { (result.i ≡ 0) × (result.j ≡ j) }
{
    Task {
        i: 0,
        j,
        kind: PairKind::G,
    }
}

/// The task with the next number.
#[tactic(auto, using(crate::proofs::Counting::tasks_below_next))]
fn following(task: Task) -> Task
    requires pair { task.i < task.j }
    requires small { task.j < MOST }
    ensures number { number_of result ≡ number_of task + 1 }
    ensures pair { result.i < result.j }
    ensures small { result.j ≤ MOST }
{
    match task.kind {
        PairKind::G => Task {
            kind: PairKind::S,
            ..task
        },
        PairKind::S => following_pair(task.i, task.j),
    }
}

/// The first task of the next pair.
#[tactic(auto, using(crate::proofs::Counting::tasks_below_next))]
fn following_pair(i: u32, j: u32) -> Task
    requires pair { i < j }
    requires small { j < MOST }
    ensures number { number_of result ≡ tasks_below j + (i + i + 2) }
    ensures pair { result.i < result.j }
    ensures small { result.j ≤ MOST }
{
    if i + 1 < j {
        return Task {
            i: i + 1,
            j,
            kind: PairKind::G,
        };
    }
    first_of(j + 1)
}
