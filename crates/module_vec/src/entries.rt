//! `Entries`: a list of vectors in memory.

ghost use Rattle.std.specs.Prelude.{◌≡◌, ◌+◌, ◌<◌, ◌^◌, ◌++◌, ◌∷◌, [], IfOk, OnErr, length, slice_get, Some};
ghost use Rattle.module_vec.specs.Reducers.{IsEntry, AreEntries};

use crate::{ModVec, VecList};
use std::alloc::{AllocError, Global};
use std::marker::Model;

/// A list of entries in the order in which they were pushed.
#[derive(Drop)]
pub struct Entries {
    list: Vec<ModVec>,
}

impl Model for Entries {
    ghost use Rattle.std.specs.Prelude.{List, ◌<◌, ◌^◌, length};
    ghost use Rattle.module_vec.specs.declared.places.Term.{Term};
    ghost use Rattle.module_vec.specs.Reducers.{AreEntries};

    ghost Value = { List (List Term) };

    ghost view = { λ e. e.list.items };

    ghost invariant = { λ e. AreEntries e.list.items × (length e.list.items < 2 ^ 32) };
}

impl Entries {
    /// The list without entries.
    pub fn new(alloc: Global) -> Entries
        ensures { result ≡ [] }
    {
        Entries {
            list: Vec::new(alloc),
        }
    }

    /// Puts a vector at the end. The list stays below 2^32 entries.
    pub fn push(&mut self, vector: ModVec) -> Result<(), AllocError>
        requires entry { IsEntry vector }
        requires room { length self.old + 1 < 2 ^ 32 }
        ensures ok { IfOk result (λ _. self.new ≡ self.old ++ vector ∷ []) }
        ensures err { OnErr result (self.new ≡ self.old) }
    {
        self.list.push(vector)?;
        Ok(())
    }
}

impl VecList for Entries {
    ghost use Rattle.std.specs.Prelude.{List};

    ghost vectors = { λ e. e };

    fn count(&self) -> u32 {
        self.list.len() as u32
    }

    fn vector(&self, at: u32) -> &ModVec {
        &self.list[at as usize]
    }
}
