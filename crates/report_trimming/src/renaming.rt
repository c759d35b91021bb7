//! Steps whose entries are named by their places among those that are kept.

ghost use Rattle.std.specs.Prelude.{◌≡◌, ℕ, IfOk, List, slice_get, Some};
ghost use Rattle.module_vec.specs.declared.steps.Step.{Step as AStep};
ghost use Rattle.report_trimming.specs.Used.{Name, steps_in};
ghost use Rattle.report_trimming.specs.Kept.{kept_by, IsMarked};
ghost use Rattle.report_trimming.specs.Trimming.{Pairwise, AreStepsRenamed, IsRecipeRenamed, IsEntryRenamed};
ghost use Rattle.report_trimming.specs.Trimming.{IsReplyRenamed};

use crate::kept::Kept;
use basis_entry::Recipe;
use module_vec::Step;
use report_reading::{EntryData, ProofList, ReplyData};
use std::alloc::{AllocError, Global};
use step_lists::Steps;

/// The steps, renamed.
fn renamed_steps(alloc: Global, steps: &[Step], kept: &Kept) -> Result<Steps, AllocError>
    requires { (k : ℕ) → Name steps.now k → IsMarked kept.now k }
    ensures { IfOk result (AreStepsRenamed (kept_by kept.now) steps.now) }
{
    let mut renamed = Vec::with_capacity(alloc, steps.len())?;
    for step in steps {
        let mut named = *step;
        named.by = kept.place(step.by);
        renamed.push(named)?;
    }
    Ok(Steps::of(renamed))
}

/// The recipe, renamed.
fn renamed_recipe(alloc: Global, recipe: Recipe, kept: &Kept) -> Result<Recipe, AllocError>
    requires { (k : ℕ) → Name (steps_in recipe) k → IsMarked kept.now k }
    ensures { IfOk result (IsRecipeRenamed (kept_by kept.now) recipe) }
{
    match recipe {
        Recipe::Gen { number, negated } => Ok(Recipe::Gen { number, negated }),
        Recipe::Sum { steps } => Ok(Recipe::Sum {
            steps: renamed_steps(alloc, steps.steps(), kept)?,
        }),
    }
}

/// The entry, with its recipe renamed.
pub fn renamed_entry(alloc: Global, entry: EntryData, kept: &Kept) -> Result<EntryData, AllocError>
    requires { (k : ℕ) → Name (steps_in entry.recipe) k → IsMarked kept.now k }
    ensures { IfOk result (IsEntryRenamed (kept_by kept.now) entry) }
{
    let recipe = renamed_recipe(alloc, entry.recipe, kept)?;
    Ok(EntryData {
        recipe,
        vector: entry.vector,
    })
}

/// The proofs, renamed.
fn renamed_proofs(alloc: Global, proofs: &ProofList, kept: &Kept) -> Result<ProofList, AllocError>
    requires { (j k : ℕ) (steps : List AStep) → slice_get proofs.now j ≡ Some steps → Name steps k
        → IsMarked kept.now k }
    ensures { IfOk result (Pairwise (AreStepsRenamed (kept_by kept.now)) proofs.now) }
{
    let mut renamed = ProofList::new(alloc);
    for steps in proofs.proofs() {
        renamed.push(renamed_steps(alloc, steps.steps(), kept)?)?;
    }
    Ok(renamed)
}

/// The reply, with its proofs renamed.
pub fn renamed_reply(alloc: Global, reply: ReplyData, kept: &Kept) -> Result<ReplyData, AllocError>
    requires { (j k : ℕ) (steps : List AStep) → slice_get reply.proofs j ≡ Some steps → Name steps k
        → IsMarked kept.now k }
    ensures { IfOk result (IsReplyRenamed (kept_by kept.now) reply) }
{
    let proofs = renamed_proofs(alloc, &reply.proofs, kept)?;
    Ok(ReplyData {
        session: reply.session,
        question: reply.question,
        live: reply.live,
        front: reply.front,
        verdict: reply.verdict,
        proofs,
    })
}
