//! A count of faults.

ghost use Rattle.std.specs.Prelude.{◌≡◌, ℕ, ◌<◌, ◌≤◌, ◌^◌};
ghost use Rattle.mb_io.specs.Calls.{next_count};

use crate::shelf::Failed;
use std::marker::Model;

/// How many faults there were. The count stays at its last value.
#[derive(Drop)]
pub struct Faults {
    count: u64,
}

impl Model for Faults {
    ghost Value = { ℕ };

    ghost view = { λ f. f.count };
}

impl Faults {
    /// No faults yet.
    pub fn new() -> Faults
        ensures { result ≡ 0 }
    {
        Faults { count: 0 }
    }

    /// Counts a fault.
    pub fn add(&mut self) -> Failed
        ensures after { self.new ≡ next_count self.old }
        ensures later { self.old ≤ self.new }
        ensures below { self.new < 2 ^ 64 }
    {
        self.count = self.count.saturating_add(1);
        Failed
    }
}
