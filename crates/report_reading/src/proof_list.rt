//! `ProofList`: the proofs of an answer.

ghost use Rattle.std.specs.Prelude.{◌≡◌, ◌++◌, ◌∷◌, [], OnOk};

use std::alloc::{AllocError, Global};
use std::marker::Model;
use step_lists::Steps;

/// The steps of each proof of an answer, which contracts see as a list of lists.
#[derive(Drop)]
pub struct ProofList {
    list: Vec<Steps>,
}

impl Model for ProofList {
    ghost use Rattle.std.specs.Prelude.{List};
    ghost use Rattle.module_vec.specs.declared.steps.Step.{Step};

    ghost Value = { List (List Step) };

    ghost view = { λ p. p.list.items };
}

impl ProofList {
    /// No proofs.
    pub fn new(alloc: Global) -> ProofList
        ensures { result ≡ [] }
    {
        ProofList {
            list: Vec::new(alloc),
        }
    }

    /// The proofs in order.
    pub fn proofs(&self) -> &[Steps]
        ensures { result.now ≡ self.now }
    {
        &self.list
    }

    /// Puts the proof of one more subject behind them.
    pub fn push(&mut self, steps: Steps) -> Result<(), AllocError>
        ensures { OnOk result (self.new ≡ self.old ++ steps ∷ []) }
    {
        self.list.push(steps)?;
        Ok(())
    }
}
