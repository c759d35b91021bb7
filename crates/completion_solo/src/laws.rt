//! The laws of books that can be completed, as contracts of functions that do nothing.

ghost use Rattle.std.specs.Prelude.{◌≡◌};
ghost use Rattle.presentation.specs.Presented.{Presented};
ghost use Rattle.task_table.specs.declared.states.Reopened.TheVariants.{TakenOnes};
ghost use Rattle.task_table.specs.Tables.{reopen};
ghost use Rattle.pair_book.specs.declared.limits.Limits.{Limits as TheLimits};
ghost use Rattle.pair_book.specs.Books.{Held, IsOpened};
ghost use Rattle.completion_solo.specs.Finishing.{NoneTaken};

/// No task of a book is taken when it was opened, nor when its taken tasks were released.
#[tactic(auto, using(crate::proofs::Free::none_at_opening, crate::proofs::Free::none_released))]
pub fn books_can_be_completed()
    ensures opened { (p : Presented) (limits : TheLimits) (h : Held) → IsOpened p limits h
        → (h.source ≡ p) × NoneTaken h }
    ensures released { (h : Held) → NoneTaken (record h { tasks = reopen TakenOnes h.tasks }) }
{}
