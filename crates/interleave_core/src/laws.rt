//! The laws of runs, as contracts of functions that do nothing.

ghost use Rattle.std.specs.Prelude.{◌≡◌, List, ◌++◌};
ghost use Rattle.session_text.specs.declared.question.Event.{Event as TheEvent};
ghost use Rattle.presentation.specs.Presented.{Presented};
ghost use Rattle.pair_book.specs.declared.limits.Limits.{Limits as TheLimits};
ghost use Rattle.pair_book.specs.Books.{Held};
ghost use Rattle.session_core.specs.Sessions.{SessionState};
ghost use Rattle.interleave_core.specs.Machine.{State};
ghost use Rattle.interleave_core.specs.Runs.{Run, Keeps, IsPlayed, CanBeEnded};

/// Runs follow one another.
#[tactic(auto, using(crate::proofs::Running::run_on))]
pub fn runs_compose()
    ensures { (a b c : State) (es fs : List TheEvent) → Run a es b → Run b fs c → Run a (es ++ fs) c }
{}

/// What a run keeps: the items go on, a seal stands with nothing behind it, and replies stand.
#[tactic(auto, using(crate::proofs::Running::run_keeps))]
pub fn runs_keep()
    ensures { (old new : State) (es : List TheEvent) → Run old es new → Keeps old new }
{}

/// What is left of a machine that has played events can be ended: it is a book of the presentation and of the limits,
/// and sessions with the questions that they had, which ask its items.
pub fn played_machines_can_be_ended()
    ensures { (p : Presented) (l : TheLimits) (ss : List SessionState) (es : List TheEvent) (book : Held)
        (ts : List SessionState) → IsPlayed p l ss es book ts → CanBeEnded p l ss book ts }
{}
