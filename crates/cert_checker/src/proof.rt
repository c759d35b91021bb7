//! Whether a proof shows its subject.

ghost use Rattle.std.specs.Prelude.{◌≡◌, ◌≤◌, length};
ghost use Rattle.std.specs.List.{AllByRecursion};
ghost use Rattle.free_words.specs.declared.TheConstants.{COMPOSED};
ghost use Rattle.free_words.specs.Words.{IsOver};
ghost use Rattle.module_vec.specs.Vectors.{InRange};
ghost use Rattle.step_lists.specs.declared.way.Way.TheVariants.{Take};
ghost use Rattle.step_lists.specs.Sums.{zero_vector};
ghost use Rattle.cert_checker.specs.States.{AreNear};
ghost use Rattle.cert_checker.specs.Checking.{StepsLead, fox_at, ProofFails, Outcome};

use crate::CertKind;
use crate::faults::LineFault;
use crate::steps::pass;
use fox_calculus::fox;
use free_words::Word;
use module_vec::{ModVec, Step};
use presentation::Presentation;
use std::alloc::Global;
use step_lists::{Sum, Way};

/// Whether the steps take away the whole Fox vector of the word.
pub fn proof_agrees(
    alloc: Global,
    p: &Presentation,
    entries: &[ModVec],
    word: &Word,
    steps: &[Step],
) -> Result<(), LineFault>
    requires over { IsOver (length p.now.names) word.now }
    requires short { length word.now ≤ COMPOSED }
    requires near { AreNear entries.now steps.now }
    requires range { AllByRecursion (λ s. InRange s.q) steps.now }
    ensures { Outcome (λ _. StepsLead Take entries.now (fox_at word.now) steps.now zero_vector)
        (ProofFails entries.now word.now steps.now) result }
{
    let vector = fox(alloc, p, word)?;
    let sum = pass(alloc, Sum::of(alloc, &vector), Way::Take, entries, steps)?;
    match sum.lead() {
        Some(at) => Err(LineFault::Fails(CertKind::NotZero { at })),
        None => Ok(()),
    }
}
