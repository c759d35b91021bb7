//! What a worker holds between two turns.

ghost use Rattle.std.specs.Prelude.{◌≡◌, ℕ, slice_get, Some, IsTrue, ◌↔◌};
ghost use Rattle.interleave_core.specs.declared.hands.Hand.{Hand as TheHand};
ghost use Rattle.interleave_core.specs.declared.hands.Hand.TheVariants.{Idle as IdleOne};

use module_vec::Stop;
use outcomes::Task;
use pair_book::Outcome;

/// What a worker holds: nothing, or what the work of the task that it took has come to.
#[derive(Drop)]
pub enum Hand {
    Idle,
    Holds(Outcome),
    Stopped { task: Task, stop: Stop },
}

impl Hand {
    /// Whether the worker holds nothing.
    pub fn is_idle(&self) -> bool
        ensures { IsTrue result ↔ (self.now ≡ IdleOne) }
    {
        matches!(self, Hand::Idle)
    }
}

/// Whether some worker holds something.
pub fn some_busy(hands: &[Hand]) -> bool
    ensures { IsTrue result → (n : ℕ) × (x : TheHand) × (slice_get hands.now n ≡ Some x) × (x ≡ IdleOne → ⊥) }
{
    for hand in hands {
        if !hand.is_idle() {
            return true;
        }
    }
    false
}
