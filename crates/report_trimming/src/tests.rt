//! Trimmed reports.

ghost use Rattle.std.specs.Prelude.{◌≡◌, ◌<◌, ℕ, IsTrue, List, slice_get, Some};
ghost use Rattle.module_vec.specs.declared.steps.Step.{Step as AStep};
ghost use Rattle.report_reading.specs.declared.entry.EntryData.{EntryData as AnEntry};
ghost use Rattle.report_trimming.specs.Used.{Name, NamedInProof, steps_in, CanBeTrimmed};

use crate::trim;
use basis_entry::Recipe;
use module_vec::Step;
use presentation::read_presentation;
use report_reading::{EntryData, ProofList, ReplyData, ReportData, read_report};
use std::alloc::Global;
use std::test::Fail;

/// Whether each step names an entry below this number.
fn are_below(steps: &[Step], count: usize) -> bool
    ensures { IsTrue result → (k : ℕ) → Name steps.now k → k < count }
{
    for step in steps {
        if step.by as usize >= count {
            return false;
        }
    }
    true
}

fn proofs_are_below(proofs: &ProofList, count: usize) -> bool
    ensures { IsTrue result → (j k : ℕ) (steps : List AStep) → slice_get proofs.now j ≡ Some steps → Name steps k
        → k < count }
{
    for steps in proofs.proofs() {
        if !are_below(steps.steps(), count) {
            return false;
        }
    }
    true
}

fn replies_are_below(replies: &[ReplyData], count: usize) -> bool
    ensures { IsTrue result → (k : ℕ) → NamedInProof replies.now k → k < count }
{
    for reply in replies {
        if !proofs_are_below(&reply.proofs, count) {
            return false;
        }
    }
    true
}

fn recipe_is_below(recipe: &Recipe, count: usize) -> bool
    ensures { IsTrue result → (k : ℕ) → Name (steps_in recipe.now) k → k < count }
{
    match recipe {
        Recipe::Gen { .. } => true,
        Recipe::Sum { steps } => are_below(steps.steps(), count),
    }
}

fn recipes_are_lower(entries: &[EntryData]) -> bool
    ensures { IsTrue result → (j k : ℕ) (e : AnEntry) → slice_get entries.now j ≡ Some e → Name (steps_in e.recipe) k
        → k < j }
{
    for (number, entry) in entries.iter().enumerate() {
        if !recipe_is_below(&entry.recipe, number) {
            return false;
        }
    }
    true
}

/// Whether the report can be trimmed.
fn can_be_trimmed(report: &ReportData) -> bool
    ensures { IsTrue result → CanBeTrimmed report.now }
{
    let entries = report.entries.entries();
    if report.from.numbers().len() != entries.len() {
        return false;
    }
    if !replies_are_below(report.replies.replies(), entries.len()) {
        return false;
    }
    recipes_are_lower(entries)
}

/// The numbers of the entries that the steps name.
fn named(alloc: Global, steps: &[Step]) -> Result<Vec<u32>, Fail> {
    let mut numbers = Vec::new(alloc);
    for step in steps {
        numbers.push(step.by)?;
    }
    Ok(numbers)
}

const TEXT: &str = "metab report 1
pres <a, t | t a t^-1 a^-2>
entry 0 gen - : +1*a@t +1*a'@a -1*t@a -1*1@t +1*1@a
entry 1 gen + : +1*a'@a -1*1@a
entry 2 gen + : +1*a'@t -1*1@t
entry 3 gen + : +1*a.a'@a -1*1@a
entry 4 gen + : +1*a.a'@t -1*1@t
entry 5 gen + : +1*t.t'@a -1*1@a
entry 6 gen + : +1*t.t'@t -1*1@t
entry 7 sum -1*a@1 +1*1@3 : +1*a@a -1*1@a
entry 8 sum -1*a'@0 +1*1@4 +1*a'@1 -1*t@1 -1*1@2 +2*1@1 : +1*t@a -2*1@a
entry 9 sum +1*1@5 -1*t'@8 : +2*t'@a -1*1@a
seal
live 1 1 11 equal a^2 = t a t^-1 : trivial
proof 1 +1*a@0 -1*a@1 -1*1@7
live 1 2 11 normal a : normal +1*1@a
live 1 3 11 trivial a t a t^-1 a^-1 t a^-1 t^-1 : trivial
proof 1 -1*a@0 +1*a@1 +1*1@0 +1*1@7 -1*1@1
end sealed
done
";

#[test]
fn what_proofs_use_is_kept(rt: HostRuntime) -> Result<(), Fail> {
    let p = read_presentation(rt.alloc(), b"<a, t | t a t^-1 a^-2>")?;
    let Ok(report) = read_report(rt.alloc(), &p, TEXT.as_bytes()) else {
        return Err("no report".into());
    };
    if !can_be_trimmed(&report) {
        return Err("a step names no entry".into());
    }
    let trimmed = trim(rt.alloc(), report)?;
    assert_eq!(rt; (trimmed.version, trimmed.items), (2, 11));
    assert_eq!(rt; trimmed.from.numbers(), [0, 1, 3, 7].as_slice());
    let entries = trimmed.entries.entries();
    assert_eq!(rt; entries.len(), 4);
    let Recipe::Sum { steps } = &entries[3].recipe else {
        return Err("no sum".into());
    };
    assert_eq!(rt;
        named(rt.alloc(), steps.steps())?.as_slice(),
        [1, 2].as_slice()
    );
    let replies = trimmed.replies.replies();
    assert_eq!(rt; replies.len(), 3);
    let Some(proof) = replies[2].proofs.proofs().first() else {
        return Err("no proof".into());
    };
    assert_eq!(rt;
        named(rt.alloc(), proof.steps())?.as_slice(),
        [0, 1, 0, 3, 1].as_slice()
    );
    Ok(())
}
