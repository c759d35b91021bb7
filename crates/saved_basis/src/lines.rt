//! Whether an entry is what it is made to be.

ghost use Rattle.std.specs.Prelude.{◌≡◌, ◌↔◌, ℕ, Bool, IsTrue, IfOk, MatchBool, negsuc, List, length};
ghost use Rattle.std.specs.List.{AllByRecursion};
ghost use Rattle.presentation.specs.Presented.{Presented};
ghost use Rattle.formal_sums.specs.FormalSum.{scale};
ghost use Rattle.module_vec.specs.declared.places.Term.{Term};
ghost use Rattle.module_vec.specs.Modules.{vector_at};
ghost use Rattle.module_vec.specs.Reducers.{IsEntry};
ghost use Rattle.module_vec.specs.Vectors.{InRange, coefficient_at, sum_of};
ghost use Rattle.step_lists.specs.declared.way.Way.TheVariants.{Add};
ghost use Rattle.step_lists.specs.Sums.{zero_vector};
ghost use Rattle.report_lines.specs.declared.lines.Made.TheVariants as made;
ghost use Rattle.basis_entry.specs.Base.{IsOfGenerator};
ghost use Rattle.basis_entry.specs.declared.recipes.Recipe.TheVariants.{Gen};
ghost use Rattle.cert_checker.specs.States.{IsNear, AreNear};
ghost use Rattle.cert_checker.specs.Checking.{StepsLead, StepsFail, EntryFails};
ghost use Rattle.saved_basis.specs.Lines.{Outcome, as_checked};

use crate::LineKind;
use crate::faults::LineFault;
use basis_entry::{Entry, Recipe};
use module_vec::{ModVec, Step, VecList};
use std::alloc::{AllocError, Global};
use step_lists::{Sum, Way};

/// Whether the vector is the sum of the steps over the list.
pub fn recipe_agrees<L: VecList>(
    alloc: Global,
    list: &L,
    steps: &[Step],
    vector: &ModVec,
) -> Result<(), LineFault>
    requires near { AreNear (L.vectors list.now) steps.now }
    requires range { AllByRecursion (λ s. InRange s.q) steps.now }
    ensures { let b = L.vectors list.now in
        (gens : List (List Term)) → Outcome (λ _. StepsLead Add b zero_vector steps.now (coefficient_at vector.now))
        (λ k. EntryFails gens b (made.Sum steps.now) vector.now (as_checked k)) result }
{
    match sum_of(alloc, list, steps)?.difference(vector) {
        Some(at) => Err(LineFault::Fails(LineKind::NotEqual { at })),
        None => Ok(()),
    }
}

/// The sum of the steps over the list, one after another.
fn sum_of<'a, L: VecList>(alloc: Global, list: &L, steps: &[Step]) -> Result<Sum<'a>, LineFault>
    requires near { AreNear (L.vectors list.now) steps.now }
    requires range { AllByRecursion (λ s. InRange s.q) steps.now }
    ensures { let b = L.vectors list.now in
        Outcome (λ v. StepsLead Add b zero_vector steps.now (coefficient_at v))
        (λ k. StepsFail Add b zero_vector steps.now (as_checked k)) result }
{
    let count = list.count();
    let mut sum = Sum::empty(alloc);
    for step in steps {
        if step.by >= count {
            return Err(LineFault::Fails(LineKind::NoEntry));
        }
        sum = sum.pass(alloc, Way::Add, step, list.vector(step.by))?;
    }
    Ok(sum)
}

/// Whether the multiple of each step is in reach that names an entry of the list.
pub fn are_near<L: VecList>(list: &L, steps: &[Step]) -> bool
    ensures { IsTrue result ↔ AreNear (L.vectors list.now) steps.now }
{
    for step in steps {
        if !is_near(list, step) {
            return false;
        }
    }
    true
}

/// Whether the multiple of the step is in reach, if it names an entry of the list.
fn is_near<L: VecList>(list: &L, step: &Step) -> bool
    ensures { IsTrue result ↔ IsNear (L.vectors list.now) step.now }
{
    step.by >= list.count() || list.vector(step.by).has_room(&step.t)
}

/// Whether the vector, whose lead coefficient is positive, is the generator of this entry with this sign.
pub fn generator_agrees(
    alloc: Global,
    generator: &Entry,
    negated: bool,
    vector: &ModVec,
) -> Result<(), LineFault>
    requires { IsEntry vector.now }
    ensures { (p : Presented) (gens b : List (List Term)) →
        IsOfGenerator p (length b) (vector_at gens (length b)) generator.now →
        Outcome (λ _. (vector.now ≡ generator.now.vector) × (generator.now.recipe ≡ Gen (length b) negated))
        (λ k. EntryFails gens b (made.Gen negated) vector.now (as_checked k)) result }
{
    let turned = if is_negated(generator.recipe()) {
        !negated
    } else {
        negated
    };
    let wanted = signed(alloc, generator.vector(), turned)?;
    match Sum::of(alloc, &wanted).difference(vector) {
        Some(at) => Err(LineFault::Fails(LineKind::NotEqual { at })),
        None => Ok(()),
    }
}

/// Whether all signs of a generator were turned.
fn is_negated(recipe: &Recipe) -> bool
    ensures { (number : ℕ) (negated : Bool) → recipe.now ≡ Gen number negated → result ≡ negated }
{
    match recipe {
        Recipe::Gen { negated, .. } => *negated,
        Recipe::Sum { .. } => false,
    }
}

/// The vector, or its negative.
fn signed(alloc: Global, vector: &ModVec, negated: bool) -> Result<ModVec, AllocError>
    ensures { IfOk result (λ v. MatchBool negated (sum_of v ≡ scale (negsuc 0) (sum_of vector.now)) (v ≡ vector.now)) }
{
    let mut made = copied(alloc, vector)?;
    if !negated {
        return Ok(made);
    }
    made.negate();
    Ok(made)
}

/// The same vector once more.
fn copied(alloc: Global, vector: &ModVec) -> Result<ModVec, AllocError>
    ensures { IfOk result (λ v. v ≡ vector.now) }
{
    let terms = vector.terms();
    let mut copy = Vec::with_capacity(alloc, terms.len())?;
    copy.extend_from_slice(terms)?;
    Ok(ModVec::of_falling(copy))
}
