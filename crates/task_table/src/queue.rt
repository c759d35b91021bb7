//! `Queue`: numbers of which the least comes first.

ghost use Rattle.std.specs.Prelude.{◌≡◌, ◌↔◌, ◌+◌, ◌<◌, ◌≤◌, [], length, IfOk, IsTrue};
ghost use Rattle.task_table.specs.Queues.{HasMore, TakesLeast};

use std::alloc::{AllocError, Global};
use std::cmp::Reverse;
use std::collections::BinaryHeap;
use std::marker::Model;

/// Numbers, each of which can come more than once. The least comes first.
#[derive(Drop)]
pub struct Queue {
    heap: BinaryHeap<Reverse<u64>, Global>,
}

impl Model for Queue {
    ghost use Rattle.task_table.specs.Queues.{Queued, queued, IsOrdered};

    ghost Value = { Queued };

    ghost view = { queued };

    ghost invariant = { IsOrdered };
}

impl Queue {
    /// The queue without numbers, with room for so many.
    pub fn with_room(alloc: Global, room: usize) -> Result<Queue, AllocError>
        ensures { IfOk result (λ queue. queue ≡ record { room = room; numbers = [] }) }
    {
        Ok(Queue {
            heap: BinaryHeap::with_capacity(alloc, room)?,
        })
    }

    /// Whether there is room for so many more numbers.
    pub fn has_room(&self, more: usize) -> bool
        ensures { IsTrue result ↔ (length self.now.numbers + more ≤ self.now.room) }
    {
        more <= self.heap.capacity() - self.heap.len()
    }

    /// Puts a number into the queue. No memory is taken.
    pub fn push(&mut self, number: u64)
        requires { length self.old.numbers < self.old.room }
        ensures room { (self.old).room ≤ (self.new).room }
        ensures numbers { HasMore self.old.numbers number self.new.numbers }
    {
        match self.heap.push(Reverse(number)) {
            Ok(()) => {}
            Err(_) => unreachable!(),
        }
    }

    /// Takes the least number, once.
    pub fn pop(&mut self) -> Option<u64>
        ensures room { (self.new).room ≡ (self.old).room }
        ensures numbers { TakesLeast self.old.numbers result self.new.numbers }
    {
        match self.heap.pop() {
            Some(Reverse(number)) => Some(number),
            None => None,
        }
    }

    /// Takes all numbers away.
    pub fn clear(&mut self)
        ensures { self.new ≡ record self.old { numbers = [] } }
    {
        self.heap.clear();
    }
}
