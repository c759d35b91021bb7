//! The turns of a worker.

ghost use Rattle.std.specs.Prelude.{◌≡◌, ◌≢◌, ◌<◌, ◌^◌, length, IfOk};
ghost use Rattle.std.specs.Arc.{arc_value};
ghost use Rattle.basis_log.specs.Items.{LogItem, shown, item_source};
ghost use Rattle.basis_log.specs.Rows.{row_source};
ghost use Rattle.pair_book.specs.Commits.{OnRest, IfRest};
ghost use Rattle.completion_workers.specs.Growth.{HasGrown, AreFirstLeads};
ghost use Rattle.completion_workers.specs.declared.fates.Fate.TheVariants as fate;

use crate::commits::{append, close, seal};
use crate::fates::Fate;
use crate::gates::Gate;
use crate::leads::look;
use crate::shared::Shared;
use basis_entry::Entry;
use basis_log::{Item, Seat};
use module_vec::VecList;
use pair_book::{Book, Close, Outcome, Task, WorkFault, work};
use reducer_index::{Index, Indexed};
use std::alloc::{AllocError, Global};
use std::sync::{Arc, Mutex, Wait};
use strong_pairs::is_pair;

/// How many tasks a worker takes at most. No run reaches this number: commits and hard tasks together are fewer.
const TAKES: u32 = 33_554_432;

/// Takes tasks and works them, until no task is open, or something stands against going on.
#[tactic(auto, using(crate::proofs::Growing::growing))]
pub(crate) fn run_worker<G: Gate, R: Wait>(
    rt: &R,
    shared: &Shared<'_>,
    gate: &G,
    at: usize,
    number: u32,
    seat: &mut Seat<'_>,
)
    requires { row_source seat.old.row ≡ arc_value shared.now.p.now }
    ensures { HasGrown seat.old seat.new }
{
    let mut index = Index::new(shared.alloc);
    for _ in 0..TAKES {
        if !turn(rt, shared, gate, at, number, seat, &mut index) {
            return;
        }
    }
}

/// One turn. Tells whether there may be another.
#[tactic(auto, using(crate::proofs::Growing::growing))]
fn turn<G: Gate, R: Wait>(
    rt: &R,
    shared: &Shared<'_>,
    gate: &G,
    at: usize,
    number: u32,
    seat: &mut Seat<'_>,
    index: &mut Index,
) -> bool
    requires source { row_source seat.old.row ≡ arc_value shared.now.p.now }
    requires leads { AreFirstLeads seat.old.items index.old }
    ensures grows { HasGrown seat.old seat.new }
    ensures leads { AreFirstLeads seat.new.items index.new }
{
    if seat.reserve(shared.alloc).is_err() {
        return false;
    }
    shared.pace.wait(at);
    let (taken, length) = take(rt, shared.book);
    let Some(task) = taken else {
        try_to_seal(rt, shared, seat);
        return false;
    };
    shared.pace.takes(at, length);
    gate.pass(rt, number, 2);
    let goes_on = carry_out(rt, shared, seat, index, task);
    shared.pace.is_done(at, seat.front());
    goes_on
}

/// Takes the least open task, with the number of entries of the log.
fn take<R: Wait>(rt: &R, book: &Mutex<Book>) -> (Option<Task>, u32) {
    let mut book = book.lock(rt);
    (book.take(), book.count())
}

/// Tries once to seal the book.
#[tactic(auto, using(crate::proofs::Growing::growing))]
fn try_to_seal<R: Wait>(rt: &R, shared: &Shared<'_>, seat: &mut Seat<'_>)
    requires { row_source seat.old.row ≡ arc_value shared.now.p.now }
    ensures { HasGrown seat.old seat.new }
{
    let mut book = shared.book.lock(rt);
    seal(shared.alloc, shared.p, &mut book, seat);
}

/// Works the task in hand until it isn't stale, and commits it or gives it back. Tells whether the worker goes on.
#[tactic(auto, using(crate::proofs::Growing::growing))]
fn carry_out<R: Wait>(
    rt: &R,
    shared: &Shared<'_>,
    seat: &mut Seat<'_>,
    index: &mut Index,
    task: Task,
) -> bool
    requires source { row_source seat.old.row ≡ arc_value shared.now.p.now }
    requires leads { AreFirstLeads seat.old.items index.old }
    ensures grows { HasGrown seat.old seat.new }
    ensures leads { AreFirstLeads seat.new.items index.new }
{
    loop {
        match work_once(rt, shared, seat, index, task) {
            Fate::Stale => {}
            fate => return fate.settle(rt, shared.book, task),
        }
    }
}

/// Looks, works the task in hand by the seat's list, and commits the outcome.
#[tactic(auto, using(crate::proofs::Growing::growing))]
fn work_once<R: Wait>(
    rt: &R,
    shared: &Shared<'_>,
    seat: &mut Seat<'_>,
    index: &mut Index,
    task: Task,
) -> Fate
    requires source { row_source seat.old.row ≡ arc_value shared.now.p.now }
    requires leads { AreFirstLeads seat.old.items index.old }
    ensures grows { HasGrown seat.old seat.new }
    ensures leads { AreFirstLeads seat.new.items index.new }
    ensures stale { result ≡ fate.Stale → (length seat.old.items < length seat.new.items)
        × (length seat.old.items < 2 ^ 32) }
{
    if look(seat, index).is_err() || seat.sealed().is_some() || !is_pair(seat, task.i, task.j) {
        return Fate::Open;
    }
    match work(shared.alloc, shared.p, &Indexed::over(seat, index), task) {
        Ok(outcome) => commit(rt, shared, seat, outcome),
        Err(WorkFault::Stop(_)) => Fate::Hard,
        Err(WorkFault::NoMemory) => Fate::Open,
    }
}

/// Commits the outcome of the task in hand, and publishes its rest if it has one.
#[tactic(auto, using(crate::proofs::Growing::growing))]
fn commit<R: Wait>(rt: &R, shared: &Shared<'_>, seat: &mut Seat<'_>, outcome: Outcome) -> Fate
    requires source { row_source seat.old.row ≡ arc_value shared.now.p.now }
    requires rest { IfRest outcome.close (λ e. e.source ≡ arc_value shared.now.p.now) }
    ensures grows { HasGrown seat.old seat.new }
    ensures stale { result ≡ fate.Stale → outcome.front < length seat.new.items }
{
    match outcome.close() {
        Close::Rest { entry } => match item_of(shared.alloc, entry) {
            Ok(item) => commit_rest(rt, shared, seat, outcome, item),
            Err(_) => Fate::Open,
        },
        _ => commit_closed(rt, shared, seat, outcome),
    }
}

/// Commits an outcome without a rest.
#[tactic(auto, using(crate::proofs::Growing::growing))]
fn commit_closed<R: Wait>(
    rt: &R,
    shared: &Shared<'_>,
    seat: &mut Seat<'_>,
    outcome: Outcome,
) -> Fate
    requires { OnRest outcome.close (λ e. Unit {0}) → ⊥ }
    ensures grows { seat.new.items ≡ seat.old.items }
    ensures row { seat.new.row ≡ seat.old.row }
    ensures stale { result ≢ fate.Stale }
{
    if seat.reserve(shared.alloc).is_err() {
        return Fate::Open;
    }
    let mut book = shared.book.lock(rt);
    close(&mut book, outcome)
}

/// Commits an outcome with a rest, which the item shows, and publishes it.
#[tactic(auto, using(crate::proofs::Growing::growing))]
fn commit_rest<R: Wait>(
    rt: &R,
    shared: &Shared<'_>,
    seat: &mut Seat<'_>,
    outcome: Outcome,
    item: Box<Item>,
) -> Fate
    requires rest { OnRest outcome.close (λ e. shown item.value ≡ LogItem.an_entry e) }
    requires source { item_source (shown item.value) ≡ row_source seat.old.row }
    ensures grows { HasGrown seat.old seat.new }
    ensures stale { result ≡ fate.Stale → outcome.front < length seat.new.items }
{
    if seat.reserve(shared.alloc).is_err() {
        return Fate::Open;
    }
    let mut book = shared.book.lock(rt);
    append(&mut book, seat, outcome, item)
}

/// The item of an entry.
fn item_of(alloc: Global, entry: &Arc<Entry>) -> Result<Box<Item>, AllocError>
    ensures { IfOk result (λ item. shown item.value ≡ LogItem.an_entry (arc_value entry.now)) }
{
    Ok(Box::new(alloc, Item::Entry(Arc::try_clone(entry)?))?)
}
