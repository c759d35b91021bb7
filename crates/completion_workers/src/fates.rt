//! `Fate`: what becomes of a task in hand.

ghost use Rattle.std.specs.Prelude.{◌≡◌};
ghost use Rattle.completion_workers.specs.Fates.{goes_on};

use outcomes::Task;
use pair_book::Book;
use std::sync::{Mutex, Wait};

/// What becomes of a task that a worker holds.
#[derive(Clone, Copy)]
pub enum Fate {
    /// Its outcome is committed, and its rest, if it has one, published.
    Committed,
    /// Its outcome is committed, and its rest couldn't be published: the worker ends.
    Unpublished,
    /// The log has grown since it was worked.
    Stale,
    /// Its work meets a limit.
    Hard,
    /// It is open again, and the worker ends.
    Open,
}

impl Fate {
    /// Gives the task back where the worker still holds it, and tells whether the worker has another turn.
    pub(crate) fn settle<R: Wait>(self, rt: &R, book: &Mutex<Book>, task: Task) -> bool
        ensures { result ≡ goes_on self }
    {
        match self {
            Fate::Committed => true,
            Fate::Unpublished => false,
            Fate::Hard => {
                book.lock(rt).give_back(task, true);
                true
            }
            Fate::Stale | Fate::Open => {
                book.lock(rt).give_back(task, false);
                false
            }
        }
    }
}
