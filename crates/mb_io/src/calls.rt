//! The calls made so far, and those that are to fail.

ghost use Rattle.std.specs.Prelude.{◌≡◌, ◌<◌, ◌≤◌, ◌^◌};
ghost use Rattle.mb_io.specs.Calls.{Calls as State, Counts, next_count, no_calls};

use crate::faults::Faults;
use crate::shelf::Failed;
use std::marker::Model;

/// How many calls were made and how many failed, with the numbers of those that are to fail.
#[derive(Drop)]
pub struct Calls {
    failing: Vec<u32>,
    made: u64,
    faults: Faults,
}

impl Model for Calls {
    ghost Value = { State };

    ghost view = { λ c. record { failing = c.failing.items; made = c.made; faults = c.faults } };

    ghost invariant = { λ c. c.faults < 2 ^ 64 };
}

impl Calls {
    /// No calls yet. Those with these numbers, from 1, are to fail.
    pub fn new(failing: Vec<u32>) -> Calls
        ensures { result ≡ no_calls failing.items }
    {
        Calls {
            failing,
            made: 0,
            faults: Faults::new(),
        }
    }

    /// Counts a call, and a fault where it is to fail.
    pub fn count(&mut self) -> Result<(), Failed>
        ensures counts { Counts self.old result self.new }
        ensures later { self.old.faults ≤ self.new.faults }
        ensures below { self.new.faults < 2 ^ 64 }
    {
        self.made = self.made.saturating_add(1);
        let number = self.made;
        if self.failing.iter().any(|n| u64::from(*n) == number) {
            return Err(self.faults.add());
        }
        Ok(())
    }

    /// Counts a fault.
    pub fn fault(&mut self) -> Failed
        ensures after { self.new ≡ record self.old { faults = next_count self.old.faults } }
        ensures later { self.old.faults ≤ self.new.faults }
        ensures below { self.new.faults < 2 ^ 64 }
    {
        self.faults.add()
    }
}
