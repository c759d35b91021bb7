//! Which entries are used.

ghost use Rattle.std.specs.List.{AllByRecursion};
ghost use Rattle.std.specs.Prelude.{◌≡◌, ◌↔◌, ◌⊎◌, ◌<◌, ℕ, IfOk, List, Some, length, slice_get};
ghost use Rattle.module_vec.specs.declared.steps.Step.{Step as AStep};
ghost use Rattle.report_reading.specs.declared.entry.EntryData.{EntryData as AnEntry};
ghost use Rattle.report_trimming.specs.Kept.{IsMarked};
ghost use Rattle.report_trimming.specs.Used.{Name, NamedInProof, steps_in, IsNeeded, IsUsed, CanBeTrimmed};

use basis_entry::Recipe;
use module_vec::Step;
use report_reading::{EntryData, ProofList, ReplyData, ReportData};
use std::alloc::{AllocError, Global};

/// Marks for the entries, set exactly for the used ones.
pub fn used_entries(alloc: Global, report: &ReportData) -> Result<Vec<bool>, AllocError>
    requires { CanBeTrimmed report.now }
    ensures length { IfOk result (λ marks. length marks.items ≡ length report.now.entries) }
    ensures is { IfOk result (λ marks. (k : ℕ) → IsMarked marks.items k ↔ IsUsed report.now k) }
{
    let entries = report.entries.entries();
    let mut marks = unmarked(alloc, entries.len())?;
    mark_replies(&mut marks, report.replies.replies());
    mark_recipes(&mut marks, entries);
    Ok(marks)
}

/// Marks for so many entries, none of them set.
fn unmarked(alloc: Global, count: usize) -> Result<Vec<bool>, AllocError>
    ensures length { IfOk result (λ marks. length marks.items ≡ count) }
    ensures none { IfOk result (λ marks. (k : ℕ) → IsMarked marks.items k → ⊥) }
{
    let mut marks = Vec::new(alloc);
    marks.resize(count, false)?;
    Ok(marks)
}

/// Marks what the proofs of the replies name.
fn mark_replies(marks: &mut Vec<bool>, replies: &[ReplyData])
    requires { (k : ℕ) → NamedInProof replies.now k → k < length marks.old.items }
    ensures length { length marks.new.items ≡ length marks.old.items }
    ensures set { (k : ℕ) → NamedInProof replies.now k → IsMarked marks.new.items k }
    ensures only { (k : ℕ) → IsMarked marks.new.items k → IsMarked marks.old.items k ⊎ NamedInProof replies.now k }
{
    for reply in replies {
        mark_proofs(marks, &reply.proofs);
    }
}

/// Marks what the proofs name.
fn mark_proofs(marks: &mut Vec<bool>, proofs: &ProofList)
    requires { (j k : ℕ) (steps : List AStep) → slice_get proofs.now j ≡ Some steps → Name steps k
        → k < length marks.old.items }
    ensures length { length marks.new.items ≡ length marks.old.items }
    ensures set { (j k : ℕ) (steps : List AStep) → slice_get proofs.now j ≡ Some steps → Name steps k
        → IsMarked marks.new.items k }
    ensures kept { (k : ℕ) → IsMarked marks.old.items k → IsMarked marks.new.items k }
    ensures only { (k : ℕ) → IsMarked marks.new.items k → IsMarked marks.old.items k
        ⊎ ((j : ℕ) × (steps : List AStep) × (slice_get proofs.now j ≡ Some steps) × Name steps k) }
{
    for steps in proofs.proofs() {
        mark_steps(marks, steps.steps());
    }
}

/// Marks the entries that the steps name.
fn mark_steps(marks: &mut Vec<bool>, steps: &[Step])
    requires { AllByRecursion (λ s. s.by < length marks.old.items) steps.now }
    ensures length { length marks.new.items ≡ length marks.old.items }
    ensures set { (i : ℕ) (s : AStep) → slice_get steps.now i ≡ Some s → IsMarked marks.new.items s.by }
    ensures kept { (k : ℕ) → IsMarked marks.old.items k → IsMarked marks.new.items k }
    ensures only { (k : ℕ) → IsMarked marks.new.items k → IsMarked marks.old.items k ⊎ Name steps.now k }
{
    for step in steps {
        marks[step.by as usize] = true;
    }
}

/// Marks what the recipes of marked entries name, from the last entry on: each names lower ones.
fn mark_recipes(marks: &mut Vec<bool>, entries: &[EntryData])
    requires length { length marks.old.items ≡ length entries.now }
    requires lower { (j k : ℕ) (e : AnEntry) → slice_get entries.now j ≡ Some e → Name (steps_in e.recipe) k → k < j }
    ensures length { length marks.new.items ≡ length marks.old.items }
    ensures is { (k : ℕ) → IsMarked marks.new.items k ↔ IsNeeded (IsMarked marks.old.items) entries.now k }
{
    let mut left = entries.len();
    while left > 0 {
        left -= 1;
        if marks[left] {
            mark_recipe(marks, &entries[left].recipe);
        }
    }
}

/// Marks what the recipe names.
fn mark_recipe(marks: &mut Vec<bool>, recipe: &Recipe)
    requires { (k : ℕ) → Name (steps_in recipe.now) k → k < length marks.old.items }
    ensures length { length marks.new.items ≡ length marks.old.items }
    ensures set { (k : ℕ) → Name (steps_in recipe.now) k → IsMarked marks.new.items k }
    ensures kept { (k : ℕ) → IsMarked marks.old.items k → IsMarked marks.new.items k }
    ensures only { (k : ℕ) → IsMarked marks.new.items k → IsMarked marks.old.items k ⊎ Name (steps_in recipe.now) k }
{
    match recipe {
        Recipe::Gen { .. } => {}
        Recipe::Sum { steps } => mark_steps(marks, steps.steps()),
    }
}
