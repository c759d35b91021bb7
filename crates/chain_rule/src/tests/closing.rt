//! Pairs that were closed because their S-vectors are empty.

ghost use Rattle.std.specs.List.{Contains};
ghost use Rattle.std.specs.Prelude.{◌≡◌, ◌↔◌, IsTrue};

use crate::Shut;
use module_vec::{Entries, VecList};
use std::alloc::Global;
use std::marker::Model;
use std::test::Fail;
use strong_pairs::{is_pair, s_vector};

/// Entries, and pairs of them whose S tasks are closed.
#[derive(Drop)]
pub struct ClosedPairs {
    entries: Entries,
    pairs: Vec<(u32, u32)>,
}

impl Model for ClosedPairs {
    ghost use Rattle.std.specs.Prelude.{ℕ, List};
    ghost use Rattle.module_vec.specs.declared.places.Term.{Term};
    ghost use Rattle.chain_rule.specs.ClosedPairs.{AreClosedPairs};

    ghost Value = { List (List Term) × List (ℕ × ℕ) };

    ghost view = { λ c. (c.entries, c.pairs.items) };

    ghost invariant = { λ c. AreClosedPairs c.entries c.pairs.items };
}

impl ClosedPairs {
    /// No pair of these entries.
    pub fn new(alloc: Global, entries: Entries) -> ClosedPairs {
        ClosedPairs {
            entries,
            pairs: Vec::new(alloc),
        }
    }

    pub fn entries(&self) -> &Entries
        ensures { result.now ≡ self.now.0 }
    {
        &self.entries
    }

    /// One pair more, whose S-vector is empty.
    pub fn with(self, alloc: Global, i: u32, j: u32) -> Result<ClosedPairs, Fail> {
        let ClosedPairs { entries, mut pairs } = self;
        if !is_pair(&entries, i, j) || entries.count() == 0 {
            return Err(Fail::from("no pair"));
        }
        let Ok(v) = s_vector(alloc, &entries, i, j) else {
            return Err(Fail::from("no S-vector"));
        };
        if !v.terms().is_empty() {
            return Err(Fail::from("an S-vector with terms"));
        }
        pairs.push((i, j))?;
        Ok(ClosedPairs { entries, pairs })
    }
}

impl Shut for ClosedPairs {
    ghost vectors = { λ c. c.0 };

    ghost pairs = { λ c. c.1 };

    fn shut(&self, i: u32, j: u32) -> bool {
        has(&self.pairs, i, j) || has(&self.pairs, j, i)
    }
}

/// Whether the numbers are one of the pairs.
fn has(pairs: &[(u32, u32)], i: u32, j: u32) -> bool
    ensures { IsTrue result ↔ Contains pairs.now (i, j) }
{
    pairs.contains(&(i, j))
}
