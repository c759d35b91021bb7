//! Which entries of a list were used.

ghost use Rattle.std.specs.Prelude.{◌≡◌, ◌≢◌, ◌⊎◌, ℕ, ◌<◌, IfOk, Some, true, map, length, slice_get, Contains};
ghost use Rattle.std.specs.List.{AllByRecursion};
ghost use Rattle.module_vec.specs.Modules.{AreSteps};
ghost use Rattle.module_vec.specs.declared.steps.Step.{Step as AStep};
ghost use Rattle.basis_entry.specs.Entries.{vectors_of};
ghost use Rattle.pair_work.specs.Outcomes.{used_entry};
ghost use Rattle.pair_work.specs.Works.{AreUsed, AreMarked, numbers_of};

use crate::Used;
use basis_entry::Front;
use module_vec::Step;
use std::alloc::{AllocError, Global};
use std::sync::Arc;

/// The entries with these numbers and those that the steps name, by rising numbers.
pub fn used<F: Front>(
    alloc: Global,
    list: &F,
    numbers: &[u32],
    steps: &[Step],
) -> Result<Vec<Used>, AllocError>
    requires numbers { AllByRecursion (λ n. n < length (F.entries list.now)) numbers.now }
    requires steps { AllByRecursion (λ s. s.by < length (F.entries list.now)) steps.now }
    ensures { IfOk result (λ made. AreUsed (F.entries list.now) numbers.now steps.now (map used_entry made.items)) }
{
    let mut marks = unmarked(alloc, list.count())?;
    mark_numbers(&mut marks, numbers);
    mark_steps(&mut marks, steps);
    marked(alloc, list, &marks)
}

/// Marks for so many entries, none of them set.
fn unmarked(alloc: Global, count: u32) -> Result<Vec<bool>, AllocError>
    ensures length { IfOk result (λ marks. length marks.items ≡ count) }
    ensures none { IfOk result (λ marks. (n : ℕ) → slice_get marks.items n ≢ Some true) }
{
    let mut marks = Vec::new(alloc);
    marks.resize(count as usize, false)?;
    Ok(marks)
}

/// Sets the marks with these numbers.
fn mark_numbers(marks: &mut Vec<bool>, numbers: &[u32])
    requires { AllByRecursion (λ n. n < length marks.old.items) numbers.now }
    ensures length { length marks.new.items ≡ length marks.old.items }
    ensures set { (k n : ℕ) → slice_get numbers.now k ≡ Some n → slice_get marks.new.items n ≡ Some true }
    ensures only { (n : ℕ) → slice_get marks.new.items n ≡ Some true
        → (slice_get marks.old.items n ≡ Some true) ⊎ Contains numbers.now n }
{
    for number in numbers {
        marks[*number as usize] = true;
    }
}

/// Sets the marks of the entries that the steps name.
fn mark_steps(marks: &mut Vec<bool>, steps: &[Step])
    requires { AllByRecursion (λ s. s.by < length marks.old.items) steps.now }
    ensures length { length marks.new.items ≡ length marks.old.items }
    ensures set { (k : ℕ) (s : AStep) → slice_get steps.now k ≡ Some s → slice_get marks.new.items s.by ≡ Some true }
    ensures kept { (n : ℕ) → slice_get marks.old.items n ≡ Some true → slice_get marks.new.items n ≡ Some true }
    ensures only { (n : ℕ) → slice_get marks.new.items n ≡ Some true
        → (slice_get marks.old.items n ≡ Some true) ⊎ Contains (numbers_of steps.now) n }
{
    for step in steps {
        marks[step.by as usize] = true;
    }
}

/// The entries that are marked.
fn marked<F: Front>(alloc: Global, list: &F, marks: &[bool]) -> Result<Vec<Used>, AllocError>
    requires { length marks.now ≡ length (F.entries list.now) }
    ensures { IfOk result (λ made. AreMarked (F.entries list.now) marks.now (map used_entry made.items)) }
{
    let count = list.count();
    let mut used = Vec::new(alloc);
    for number in 0..count {
        if marks[number as usize] {
            used.push(Used {
                number,
                entry: Arc::try_clone(list.entry(number))?,
            })?;
        }
    }
    Ok(used)
}
