//! Whether an entry is what it is made to be.

ghost use Rattle.std.specs.Prelude.{◌≡◌, ◌<◌, ℕ, List, length, IfOk};
ghost use Rattle.std.specs.List.{AllByRecursion};
ghost use Rattle.module_vec.specs.declared.places.Place.{Place};
ghost use Rattle.module_vec.specs.declared.places.Term.{Term};
ghost use Rattle.module_vec.specs.Vectors.{coefficient_at, InRange};
ghost use Rattle.module_vec.specs.Modules.{vector_at};
ghost use Rattle.report_lines.specs.declared.lines.Made.TheVariants as made;
ghost use Rattle.cert_checker.specs.States.{IsInTurnAt, AreNear, HaveRange};
ghost use Rattle.cert_checker.specs.Checking.{signed, IsMadeAt, EntryFailsAt, Outcome};

use crate::CertKind;
use crate::faults::LineFault;
use crate::steps::pass;
use module_vec::{ModVec, Place, Step};
use report_lines::Made;
use std::alloc::{AllocError, Global};
use step_lists::{Sum, Way};

/// Whether the vector is what the entry with this number in the history is made to be, behind these entries.
pub fn entry_agrees(
    alloc: Global,
    generators: &[ModVec],
    entries: &[ModVec],
    number: usize,
    made: &Made,
    vector: &ModVec,
) -> Result<(), LineFault>
    requires turn { IsInTurnAt generators.now entries.now number made.now }
    requires range { HaveRange made.now }
    ensures { Outcome (λ _. IsMadeAt generators.now entries.now number made.now (coefficient_at vector.now))
        (EntryFailsAt generators.now entries.now number made.now vector.now) result }
{
    match made {
        Made::Gen { negated } => generator_agrees(alloc, &generators[number], *negated, vector),
        Made::Sum { steps } => recipe_agrees(alloc, entries, steps.steps(), vector),
    }
}

/// Whether the vector is the generator, or its negative.
fn generator_agrees(
    alloc: Global,
    generator: &ModVec,
    negated: bool,
    vector: &ModVec,
) -> Result<(), LineFault>
    ensures { (gens entries : List (List Term)) (i : ℕ) → vector_at gens i ≡ generator.now
        → Outcome (λ _. IsMadeAt gens entries i (made.Gen negated) (coefficient_at vector.now))
        (EntryFailsAt gens entries i (made.Gen negated) vector.now) result }
{
    let generator = signed(alloc, generator, negated)?;
    match Sum::of(alloc, &generator).difference(vector) {
        Some(at) => Err(LineFault::Fails(CertKind::NotEqual { at })),
        None => Ok(()),
    }
}

/// Whether the vector is the sum of the steps.
fn recipe_agrees(
    alloc: Global,
    entries: &[ModVec],
    steps: &[Step],
    vector: &ModVec,
) -> Result<(), LineFault>
    requires near { AreNear entries.now steps.now }
    requires range { AllByRecursion (λ s. InRange s.q) steps.now }
    ensures { (gens : List (List Term)) (i : ℕ)
        → Outcome (λ _. IsMadeAt gens entries.now i (made.Sum steps.now) (coefficient_at vector.now))
        (EntryFailsAt gens entries.now i (made.Sum steps.now) vector.now) result }
{
    let sum = pass(alloc, Sum::empty(alloc), Way::Add, entries, steps)?;
    match sum.difference(vector) {
        Some(at) => Err(LineFault::Fails(CertKind::NotEqual { at })),
        None => Ok(()),
    }
}

/// The vector, or its negative.
fn signed(alloc: Global, vector: &ModVec, negated: bool) -> Result<ModVec, AllocError>
    ensures { IfOk result (λ v. (x : Place) → coefficient_at v x ≡ signed negated vector.now x) }
{
    let mut made = copied(alloc, vector)?;
    if !negated {
        return Ok(made);
    }
    made.negate();
    Ok(made)
}

/// The same vector once more.
fn copied(alloc: Global, vector: &ModVec) -> Result<ModVec, AllocError>
    ensures { IfOk result (λ v. v ≡ vector.now) }
{
    let terms = vector.terms();
    let mut copy = Vec::with_capacity(alloc, terms.len())?;
    copy.extend_from_slice(terms)?;
    Ok(ModVec::of_falling(copy))
}
