//! A worker's turn, on the book that it changes.

ghost use Rattle.std.specs.Prelude.{◌≡◌, ◌⊎◌, Some, IfOk, IfErr, OnOk, OnErr, IsTrue};
ghost use Rattle.std.specs.Arc.{arc_value};
ghost use Rattle.strong_pairs.specs.Pairs.{IsPair};
ghost use Rattle.task_table.specs.declared.states.Wanted.TheVariants.{OpenOnes};
ghost use Rattle.task_table.specs.Tables.{NoneIs};
ghost use Rattle.reducer_index.specs.Leads.{AreLeads};
ghost use Rattle.basis_entry.specs.Entries.{vectors_of};
ghost use Rattle.task_table.specs.declared.states.TaskState.TheVariants.{Open};
ghost use Rattle.pair_book.specs.Books.{IsBook, IsTaken, with_state};
ghost use Rattle.pair_book.specs.Commits.{Refuses};
ghost use Rattle.interleave_core.specs.declared.hands.Hand.TheVariants.{Idle, Holds};
ghost use Rattle.interleave_core.specs.Machine.{HoldsWork, SealsLog, FindsNone, Turns};
ghost use Rattle.interleave_core.specs.Invariants.{IsHand};
ghost use Rattle.interleave_core.specs.Inner.{HasLeads, IsUnclosed};

use crate::Hand;
use basis_entry::Front;
use module_vec::VecList;
use outcomes::Task;
use pair_book::{Book, CommitFault, Outcome, SealFault, WorkFault, work};
use presentation::Presentation;
use reducer_index::{Index, Indexed};
use std::alloc::{AllocError, Global};
use std::mem;
use std::sync::Arc;
use strong_pairs::lead;

/// Pushes the leads of the entries that have come to the log since the index was last brought up to it.
pub fn catch_up(book: &Book, index: &mut Index) -> Result<(), AllocError>
    requires { HasLeads (vectors_of book.now.entries) index.old }
    ensures all { OnOk result (AreLeads (vectors_of book.now.entries) index.new) }
    ensures first { HasLeads (vectors_of book.now.entries) index.new }
{
    for at in index.len()..book.count() {
        index.push(lead(book, at))?;
    }
    Ok(())
}

/// The turn of a worker, whose hand it changes. `unclosed` says that some task is known not to be closed. Answers
/// whether the worker found nothing to do, so that some task isn't closed. Where memory runs out nothing is changed.
pub fn turn(
    alloc: Global,
    p: &Arc<Presentation>,
    book: &mut Book,
    index: &Index,
    unclosed: bool,
    hand: &mut Hand,
) -> Result<bool, AllocError>
    requires source { book.old.source ≡ arc_value p.now }
    requires hand { IsHand book.old hand.old }
    requires leads { AreLeads (vectors_of book.old.entries) index.now }
    requires unclosed { IsTrue unclosed → IsUnclosed book.old }
    ensures ok { OnOk result (Turns book.old hand.old book.new hand.new) }
    ensures stuck { IfOk result (λ stuck. IsTrue stuck → IsUnclosed book.new) }
    ensures err { OnErr result ((book.new ≡ book.old) × (hand.new ≡ hand.old)) }
    ensures book { IsBook book.new }
{
    let was_idle = hand.is_idle();
    let held = mem::replace(hand, Hand::Idle);
    match next_hand(alloc, p, book, index, unclosed, held) {
        Ok(next) => {
            *hand = next;
            Ok(was_idle && hand.is_idle() && book.sealed().is_none())
        }
        Err((error, back)) => {
            *hand = back;
            Err(error)
        }
    }
}

/// What a worker holds after its turn, or where memory runs out what it held before.
fn next_hand(
    alloc: Global,
    p: &Arc<Presentation>,
    book: &mut Book,
    index: &Index,
    unclosed: bool,
    hand: Hand,
) -> Result<Hand, (AllocError, Hand)>
    requires source { book.old.source ≡ arc_value p.now }
    requires hand { IsHand book.old hand }
    requires leads { AreLeads (vectors_of book.old.entries) index.now }
    requires unclosed { IsTrue unclosed → IsUnclosed book.old }
    ensures ok { IfOk result (λ next. Turns book.old hand book.new next) }
    ensures err { IfErr result (λ x. (x.1 ≡ hand) × (book.new ≡ book.old)) }
    ensures book { IsBook book.new }
{
    match hand {
        Hand::Idle => match start(alloc, p, book, index, unclosed) {
            Ok(next) => Ok(next),
            Err(error) => Err((error, Hand::Idle)),
        },
        Hand::Stopped { task, stop } => {
            let _ = stop;
            book.give_back(task, true);
            book.known();
            Ok(Hand::Idle)
        }
        Hand::Holds(outcome) => match commit(alloc, p, book, index, outcome) {
            Ok(next) => Ok(next),
            Err((error, outcome)) => Err((error, Hand::Holds(outcome))),
        },
    }
}

/// A worker that holds nothing takes the least open task and works it by the log. Where none is open it seals the log,
/// if all tasks are closed. Once the log is sealed it does nothing.
fn start(
    alloc: Global,
    p: &Arc<Presentation>,
    book: &mut Book,
    index: &Index,
    unclosed: bool,
) -> Result<Hand, AllocError>
    requires source { book.old.source ≡ arc_value p.now }
    requires leads { AreLeads (vectors_of book.old.entries) index.now }
    requires unclosed { IsTrue unclosed → IsUnclosed book.old }
    ensures ok { IfOk result (λ hand. Turns book.old Idle book.new hand) }
    ensures err { OnErr result (book.new ≡ book.old) }
    ensures book { IsBook book.new }
{
    book.known();
    if let Some(_) = book.sealed() {
        return Ok(Hand::Idle);
    }
    let Some(task) = book.take() else {
        return seal(alloc, book, unclosed);
    };
    match hold_work(alloc, p, book, index, task) {
        Ok(hand) => Ok(hand),
        Err(error) => {
            book.give_back(task, false);
            Err(error)
        }
    }
}

/// Seals the log if all tasks are closed. The worker holds nothing.
fn seal(alloc: Global, book: &mut Book, unclosed: bool) -> Result<Hand, AllocError>
    requires none_open { NoneIs OpenOnes (book.old).tasks }
    requires unclosed { IsTrue unclosed → IsUnclosed book.old }
    ensures ok { IfOk result (λ hand. SealsLog book.old book.new hand ⊎ FindsNone book.old book.new hand) }
    ensures err { OnErr result (book.new ≡ book.old) }
    ensures book { IsBook book.new }
{
    if unclosed {
        book.known();
        return Ok(Hand::Idle);
    }
    let sealed = book.seal(alloc);
    book.known();
    match sealed {
        Ok(_) => Ok(Hand::Idle),
        Err(SealFault::StillOpen { .. }) => Ok(Hand::Idle),
        Err(SealFault::NoMemory) => Err(AllocError),
    }
}

/// Works a task by the log, and gives what a worker then holds.
fn hold_work(
    alloc: Global,
    p: &Arc<Presentation>,
    book: &Book,
    index: &Index,
    task: Task,
) -> Result<Hand, AllocError>
    requires book { IsBook book.now }
    requires source { book.now.source ≡ arc_value p.now }
    requires pair { IsPair (vectors_of book.now.entries) task.i task.j }
    requires leads { AreLeads (vectors_of book.now.entries) index.now }
    ensures { IfOk result (λ hand. HoldsWork book.now task hand) }
{
    match work(alloc, p, &Indexed::over(book, index), task) {
        Ok(outcome) => Ok(Hand::Holds(outcome)),
        Err(WorkFault::Stop(stop)) => Ok(Hand::Stopped { task, stop }),
        Err(WorkFault::NoMemory) => Err(AllocError),
    }
}

/// A worker commits the outcome that it holds. An outcome with a rest is stale where the log has grown since; the task
/// is then worked again by the log as it is. Where the budget is spent, or there is no room for the rest, the task is
/// given back.
fn commit(
    alloc: Global,
    p: &Arc<Presentation>,
    book: &mut Book,
    index: &Index,
    outcome: Outcome,
) -> Result<Hand, (AllocError, Outcome)>
    requires source { book.old.source ≡ arc_value p.now }
    requires hand { IsHand book.old (Holds outcome) }
    requires leads { AreLeads (vectors_of book.old.entries) index.now }
    ensures ok { IfOk result (λ hand. Turns book.old (Holds outcome) book.new hand) }
    ensures err { IfErr result (λ x. (x.1 ≡ outcome) × (book.new ≡ book.old)) }
    ensures book { IsBook book.new }
{
    book.known();
    outcome.known();
    let committed = book.commit_known(outcome);
    book.known();
    match committed {
        Ok(_) => Ok(Hand::Idle),
        Err((fault, back)) => refused(alloc, p, book, index, fault, back),
    }
}

/// What a worker holds whose outcome was refused.
fn refused(
    alloc: Global,
    p: &Arc<Presentation>,
    book: &mut Book,
    index: &Index,
    fault: CommitFault,
    outcome: Outcome,
) -> Result<Hand, (AllocError, Outcome)>
    requires book { IsBook book.old }
    requires source { book.old.source ≡ arc_value p.now }
    requires hand { IsHand book.old (Holds outcome) }
    requires leads { AreLeads (vectors_of book.old.entries) index.now }
    requires refuses { Refuses book.old outcome (Some fault) }
    ensures ok { IfOk result (λ hand. Turns book.old (Holds outcome) book.new hand) }
    ensures err { IfErr result (λ x. (x.1 ≡ outcome) × (book.new ≡ book.old)) }
    ensures book { IsBook book.new }
{
    let task = outcome.task();
    match fault {
        CommitFault::Stale { .. } => match hold_work(alloc, p, book, index, task) {
            Ok(hand) => Ok(hand),
            Err(error) => Err((error, outcome)),
        },
        CommitFault::Spent { .. } => Ok(give_back(book, task)),
        CommitFault::Full { .. } => Ok(give_back(book, task)),
        CommitFault::NotTaken => unreachable!(),
        CommitFault::Stranger { .. } => unreachable!(),
    }
}

/// The task in hand becomes open, and the worker holds nothing.
fn give_back(book: &mut Book, task: Task) -> Hand
    requires { IsTaken book.old task }
    ensures is { book.new ≡ with_state book.old task Open }
    ensures idle { result ≡ Idle }
    ensures book { IsBook book.new }
{
    book.give_back(task, false);
    book.known();
    Hand::Idle
}
