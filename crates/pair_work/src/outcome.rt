//! Outcomes of work.

ghost use Rattle.std.specs.Prelude.{◌≡◌, map};
ghost use Rattle.pair_work.specs.Outcomes.{used_entry};

use crate::Used;
use basis_entry::Entry;
use outcomes::Task;
use std::marker::Model;
use std::sync::Arc;
use step_lists::Steps;

/// How the work of a task has ended.
#[derive(Drop)]
pub enum Close {
    /// The entry number `by` covers the pair of a G task.
    Covered { by: u32 },
    /// The chain of an S-vector came to zero by these steps.
    Zero { steps: Steps },
    /// The rest of the chain, which no step reduces, as an entry.
    Rest { entry: Arc<Entry> },
}

/// The outcome of the work of a task. Its close is true of each list that has the used entries under their numbers.
#[derive(Drop)]
pub struct Outcome {
    task: Task,
    front: u32,
    used: Vec<Used>,
    close: Close,
}

impl Model for Outcome {
    ghost use Rattle.std.specs.Prelude.{map};
    ghost use Rattle.pair_work.specs.Outcomes.{Worked, IsOutcome, used_entry};

    ghost Value = { Worked };

    ghost view = { λ o. record {
      task = o.task;
      front = o.front;
      used = map used_entry o.used.items;
      close = o.close;
    } };

    ghost invariant = { λ o. IsOutcome (record {
      task = o.task;
      front = o.front;
      used = map used_entry o.used.items;
      close = o.close;
    }) };
}

impl Outcome {
    ghost use Rattle.pair_work.specs.Outcomes.{IsOutcome};

    /// The outcome of a task that was worked by a list of `front` entries.
    pub(crate) fn of(task: Task, front: u32, used: Vec<Used>, close: Close) -> Outcome
        requires { IsOutcome (record { task = task; front = front; used = map used_entry used.items; close = close }) }
        ensures { result ≡ record { task = task; front = front; used = map used_entry used.items; close = close } }
    {
        Outcome {
            task,
            front,
            used,
            close,
        }
    }

    /// What holds of every outcome: its pair and its close are true of each list that has the entries used.
    pub fn known(&self)
        ensures { IsOutcome self.now }
    {
        let _front = &self.front;
    }

    /// The task that was worked.
    pub fn task(&self) -> Task
        ensures is { result ≡ self.now.task }
        ensures outcome { IsOutcome self.now }
    {
        self.task
    }

    /// The number of entries of the list that it was worked by.
    pub fn front(&self) -> u32
        ensures { result ≡ self.now.front }
    {
        self.front
    }

    /// How its work has ended.
    pub fn close(&self) -> &Close
        ensures { result.now ≡ self.now.close }
    {
        &self.close
    }

    /// How its work has ended, for who is done with the outcome.
    pub fn into_close(self) -> Close
        ensures { result ≡ self.close }
    {
        self.close
    }

    /// The entries that were used, by rising numbers.
    pub fn used(&self) -> &[Used]
        ensures { map used_entry result.now ≡ self.now.used }
    {
        &self.used
    }
}
