//! `finish`: a completion to its end.

ghost use Rattle.std.specs.Prelude.{◌≡◌};
ghost use Rattle.std.specs.Arc.{arc_value};
ghost use Rattle.completion_solo.specs.Finishing.{Finishes, NoneTaken};

use crate::rounds::{Round, one_round};
use outcomes::End;
use pair_book::Book;
use presentation::Presentation;
use reducer_index::Index;
use std::alloc::{AllocError, Global};
use std::sync::Arc;

/// Completes the log of a book of the presentation, no task of which is taken, in rounds. A round does the first of
/// these that can be done:
///
/// - where all tasks are closed the book is sealed, and the end is `Sealed`;
/// - where the commits equal the budget, the end is `Spent`, with the least task that isn't closed;
/// - the least open task is worked by the whole log. Its outcome is committed, or the task becomes hard where its work
///   meets a limit. Where there is no room for the rest the task is open again, and the end is `Full`;
/// - where some hard task may have stopped by a shorter log, all hard tasks are opened again;
/// - the end is `Stopped`, with the least task that isn't closed and the limit that its work meets.
///
/// Where memory runs out no task is taken, and the commits that were made stay.
pub fn finish(alloc: Global, p: &Arc<Presentation>, book: &mut Book) -> Result<End, AllocError>
    requires source { book.old.source ≡ arc_value p.now }
    requires none_taken { NoneTaken book.old }
    ensures { Finishes (arc_value p.now) book.old result book.new }
{
    let mut index = Index::of_list(alloc, book)?;
    let mut stale = true;
    loop {
        match one_round(alloc, p, book, &mut index, stale)? {
            Round::Ended(end) => return Ok(end),
            Round::GoesOn { stale: again } => stale = again,
        }
    }
}
