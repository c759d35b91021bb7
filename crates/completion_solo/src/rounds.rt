//! The rounds of a completion.

ghost use Rattle.std.specs.Prelude.{◌≡◌, ◌↔◌, IsTrue, false, Some, Ok};
ghost use Rattle.std.specs.Arc.{arc_value};
ghost use Rattle.task_table.specs.declared.states.Wanted.TheVariants.{OpenOnes, Unclosed};
ghost use Rattle.task_table.specs.Tables.{NoneIs};
ghost use Rattle.pair_book.specs.Books.{IsBook};
ghost use Rattle.pair_work.specs.Works.{Works};
ghost use Rattle.completion_solo.specs.Finishing.{NoneTaken, IsWithinBudget, IsFirstUnclosed, EndsWith, Finishes};
ghost use Rattle.completion_solo.specs.Rounds.{Rounds, IsReady, IsInHand, IsWorkDue, IsFullAt};

use outcomes::{End, Task};
use pair_book::{Book, CommitFault, Committed, Outcome, SealFault, WorkFault, work};
use presentation::Presentation;
use reducer_index::{Index, Indexed};
use std::alloc::{AllocError, Global};
use std::sync::Arc;
use strong_pairs::lead;

/// What a round has come to.
#[derive(Clone, Copy)]
pub enum Round {
    Ended(End),
    /// Another round is due; `stale` says whether some hard task may have stopped by a shorter log.
    GoesOn { stale: bool },
}

/// One round. The index has the leads of the log.
pub fn one_round(
    alloc: Global,
    p: &Arc<Presentation>,
    book: &mut Book,
    index: &mut Index,
    stale: bool,
) -> Result<Round, AllocError>
    requires { IsReady (arc_value p.now) book.old index.old stale }
    ensures { Rounds (arc_value p.now) book.old stale result book.new index.new }
{
    if is_spent(book) {
        return Ok(Round::Ended(spent(alloc, book)?));
    }
    if let Some(task) = book.take() {
        return work_taken(alloc, p, book, index, task, stale);
    }
    let Some(least) = book.least() else {
        return Ok(Round::Ended(sealed(alloc, book)?));
    };
    if stale {
        book.soften();
        return Ok(Round::GoesOn { stale: false });
    }
    Ok(Round::Ended(stopped(alloc, p, book, index, least)?))
}

/// Whether the commits have reached the budget.
fn is_spent(book: &Book) -> bool
    ensures is { IsTrue result ↔ (book.now.limits.budget ≡ Some book.now.commits) }
    ensures book { IsBook book.now }
{
    book.limits().budget == Some(book.commits())
}

/// The end where the commits have reached the budget.
fn spent(alloc: Global, book: &mut Book) -> Result<End, AllocError>
    requires none_taken { NoneTaken book.old }
    requires spent { (book.old).limits.budget ≡ Some (book.old).commits }
    ensures { Finishes (book.old).source book.old result book.new }
{
    book.known();
    let Some(task) = book.least() else {
        return Ok(sealed(alloc, book)?);
    };
    Ok(End::Spent {
        commits: book.commits(),
        task,
    })
}

/// Seals a book all of whose tasks are closed.
fn sealed(alloc: Global, book: &mut Book) -> Result<End, AllocError>
    requires none_taken { NoneTaken book.old }
    requires closed { NoneIs Unclosed (book.old).tasks }
    ensures { Finishes (book.old).source book.old result book.new }
{
    book.known();
    match book.seal(alloc) {
        Ok(_) => Ok(End::Sealed),
        Err(SealFault::StillOpen { .. }) => unreachable!(),
        Err(SealFault::NoMemory) => Err(AllocError),
    }
}

/// Works the task in hand by the whole log, and commits the outcome.
fn work_taken(
    alloc: Global,
    p: &Arc<Presentation>,
    book: &mut Book,
    index: &mut Index,
    task: Task,
    stale: bool,
) -> Result<Round, AllocError>
    requires source { (book.old).source ≡ arc_value p.now }
    requires due { IsWorkDue book.old index.old task stale }
    ensures { Rounds (arc_value p.now) book.old stale result book.new index.new }
{
    book.known();
    match work(alloc, p, &Indexed::over(book, index), task) {
        Ok(outcome) => commit(book, index, outcome, stale),
        Err(WorkFault::Stop(_)) => {
            book.give_back(task, true);
            Ok(Round::GoesOn { stale })
        }
        Err(WorkFault::NoMemory) => {
            book.give_back(task, false);
            Err(AllocError)
        }
    }
}

/// Commits the outcome of the task in hand, which was worked by the whole log.
fn commit(
    book: &mut Book,
    index: &mut Index,
    outcome: Outcome,
    stale: bool,
) -> Result<Round, AllocError>
    requires due { IsWorkDue book.old index.old outcome.task stale }
    requires work { Works (book.old).source (book.old).entries outcome.task (Ok outcome) }
    ensures { Rounds (book.old).source book.old stale result book.new index.new }
{
    book.known();
    let task = outcome.task();
    let committed = book.commit_known(outcome);
    book.known();
    match committed {
        Ok(done) => match done {
            Committed::Closed => Ok(Round::GoesOn { stale }),
            Committed::Appended { entry, .. } => {
                index.push(lead(book, entry))?;
                Ok(Round::GoesOn { stale: true })
            }
        },
        Err((fault, _)) => Ok(Round::Ended(full(book, task, fault))),
    }
}

/// The end where there is no room for the rest of the task in hand, which is open again.
fn full(book: &mut Book, task: Task, fault: CommitFault) -> End
    requires hand { IsInHand book.old task }
    requires full { IsFullAt book.old task fault }
    ensures { EndsWith (book.old).source book.old result book.new }
{
    book.known();
    match fault {
        CommitFault::Full { measure, count } => {
            book.give_back(task, false);
            End::Full { measure, count }
        }
        CommitFault::NotTaken
        | CommitFault::Spent { .. }
        | CommitFault::Stranger { .. }
        | CommitFault::Stale { .. } => unreachable!(),
    }
}

/// The end of a book in which each task that isn't closed stops. `task` is the least of them.
fn stopped(
    alloc: Global,
    p: &Arc<Presentation>,
    book: &Book,
    index: &Index,
    task: Task,
) -> Result<End, AllocError>
    requires ready { IsReady (arc_value p.now) book.now index.now false }
    requires budget { IsWithinBudget book.now }
    requires first { IsFirstUnclosed book.now task }
    requires none_open { NoneIs OpenOnes (book.now).tasks }
    ensures { Finishes (arc_value p.now) book.now result book.now }
{
    book.known();
    match work(alloc, p, &Indexed::over(book, index), task) {
        Err(WorkFault::Stop(stop)) => Ok(End::Stopped { task, stop }),
        Err(WorkFault::NoMemory) => Err(AllocError),
        Ok(_) => unreachable!(),
    }
}
