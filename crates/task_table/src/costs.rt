//! `Costs`: the profiles of a log's vectors, and tasks of the log by their cost.

ghost use Rattle.std.specs.Prelude.{◌≡◌, ◌<◌, ◌≤◌, ◌+◌, ◌++◌, ◌∷◌, [], ◌↔◌, IsTrue, length, IfOk};
ghost use Rattle.module_vec.specs.Reducers.{IsEntry};
ghost use Rattle.task_table.specs.declared.TheConstants.{ENTRIES as MOST};
ghost use Rattle.task_table.specs.Keys.{AreCosts, key_of, TakesCheapest};
ghost use Rattle.task_table.specs.Profiles.{profile_of};
ghost use Rattle.task_table.specs.Queues.{HasMore};
ghost use Rattle.task_table.specs.Tasks.{IsTask};

use crate::keys::{key, task_of};
use crate::profiles::Profile;
use crate::queue::Queue;
use module_vec::ModVec;
use outcomes::Task;
use std::alloc::{AllocError, Global};
use std::marker::Model;

/// The profiles of a log's vectors, and a queue of its tasks, of which the cheapest comes first. A task may be queued
/// more than once.
#[derive(Drop)]
pub struct Costs {
    profiles: Vec<Profile>,
    queue: Queue,
}

impl Model for Costs {
    ghost use Rattle.task_table.specs.Keys.{Costed, costed, AreKept};

    ghost Value = { Costed };

    ghost view = { costed };

    ghost invariant = { AreKept };
}

impl Costs {
    /// No vector and no task, with room for so many.
    pub fn with_room(alloc: Global, vectors: u32, tasks: usize) -> Result<Costs, AllocError>
        ensures profiles { IfOk result (λ costs. costs.profiles ≡ []) }
        ensures room { IfOk result (λ costs. vectors ≤ costs.room) }
        ensures queue { IfOk result (λ costs. costs.queue ≡ record { room = tasks; numbers = [] }) }
    {
        Ok(Costs {
            profiles: Vec::with_capacity(alloc, vectors as usize)?,
            queue: Queue::with_room(alloc, tasks)?,
        })
    }

    /// What holds of all costs: the profiles are those of entries.
    pub fn known(&self)
        ensures { AreCosts self.now }
    {
        let _profiles = &self.profiles;
    }

    /// Whether so many more tasks can be queued.
    pub fn has_room(&self, more: usize) -> bool
        ensures { IsTrue result ↔ (length self.now.queue.numbers + more ≤ self.now.queue.room) }
    {
        self.queue.has_room(more)
    }

    /// Adds the profile of one more vector.
    pub fn add(&mut self, vector: &ModVec)
        requires few { length self.old.profiles < MOST }
        requires room { length self.old.profiles < self.old.room }
        requires entry { IsEntry vector.now }
        ensures { self.new ≡ record self.old { profiles = self.old.profiles ++ profile_of vector.now ∷ [] } }
    {
        self.profiles.push_reserved(Profile::of(vector));
    }

    /// The key of a task. The cheaper task has the lesser key.
    pub fn key(&self, task: Task) -> u64
        requires { IsTask (length self.now.profiles) task }
        ensures { result ≡ key_of self.now.profiles task }
    {
        key(&self.profiles, task)
    }

    /// Queues a task. No memory is taken.
    pub fn put(&mut self, task: Task)
        requires task { IsTask (length self.old.profiles) task }
        requires room { length self.old.queue.numbers + 1 ≤ self.old.queue.room }
        ensures same { ((self.new).profiles ≡ (self.old).profiles) × ((self.new).room ≡ (self.old).room) }
        ensures room { (self.old).queue.room ≤ (self.new).queue.room }
        ensures queued { HasMore self.old.queue.numbers (key_of self.old.profiles task) self.new.queue.numbers }
    {
        self.queue.push(key(&self.profiles, task));
    }

    /// Takes the cheapest task from the queue, once.
    pub fn next(&mut self) -> Option<Task>
        ensures same { ((self.new).profiles ≡ (self.old).profiles) × ((self.new).room ≡ (self.old).room) }
        ensures room { (self.new).queue.room ≡ (self.old).queue.room }
        ensures few { length (self.old).profiles ≤ MOST }
        ensures task { TakesCheapest self.old.profiles self.old.queue.numbers result self.new.queue.numbers }
    {
        match self.queue.pop() {
            Some(key) => Some(task_of(key)),
            None => None,
        }
    }

    /// Empties the queue.
    pub fn clear(&mut self)
        ensures { self.new ≡ record self.old { queue = record (self.old.queue) { numbers = [] } } }
    {
        self.queue.clear();
    }
}
