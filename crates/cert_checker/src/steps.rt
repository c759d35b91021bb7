//! Steps over the entries, one after another.

ghost use Rattle.std.specs.Prelude.{◌≡◌, ◌↔◌, ◌<◌, ◌≤◌, length, IsTrue, MatchOption};
ghost use Rattle.std.specs.List.{AllByRecursion};
ghost use Rattle.module_vec.specs.Vectors.{coefficient_at, InRange};
ghost use Rattle.module_vec.specs.Modules.{vector_at};
ghost use Rattle.cert_checker.specs.States.{IsNear, AreNear};
ghost use Rattle.cert_checker.specs.Checking.{StepsLead, StepsFail, Outcome};

use crate::CertKind;
use crate::faults::LineFault;
use module_vec::{ModVec, Step};
use std::alloc::Global;
use step_lists::{Sum, Way};

/// The sum with the steps added to it, or taken from it, one after another.
pub fn pass<'a>(
    alloc: Global,
    sum: Sum<'a>,
    way: Way,
    entries: &[ModVec],
    steps: &[Step],
) -> Result<Sum<'a>, LineFault>
    requires near { AreNear entries.now steps.now }
    requires range { AllByRecursion (λ s. InRange s.q) steps.now }
    ensures { let f = coefficient_at sum.entry in
        Outcome (λ v. StepsLead way entries.now f steps.now (coefficient_at v))
        (StepsFail way entries.now f steps.now) result }
{
    let mut sum = sum;
    for step in steps {
        let Some(entry) = named(entries, step) else {
            return Err(LineFault::Fails(CertKind::NoEntry));
        };
        sum = sum.pass(alloc, way, step, entry)?;
    }
    Ok(sum)
}

/// Whether the multiple of each step is in reach that names one of the entries.
pub fn are_near(entries: &[ModVec], steps: &[Step]) -> bool
    ensures { IsTrue result ↔ AreNear entries.now steps.now }
{
    for step in steps {
        if !is_near(entries, step) {
            return false;
        }
    }
    true
}

/// Whether the multiple of the step is in reach, if it names one of the entries.
fn is_near(entries: &[ModVec], step: &Step) -> bool
    ensures { IsTrue result ↔ IsNear entries.now step.now }
{
    match named(entries, step) {
        Some(entry) => entry.has_room(&step.t),
        None => true,
    }
}

/// The entry that the step names, if it is there.
fn named<'a>(entries: &'a [ModVec], step: &Step) -> Option<&'a ModVec>
    ensures { MatchOption result (length entries.now ≤ step.now.by) (λ g. (step.now.by < length entries.now)
        × (g.now ≡ vector_at entries.now step.now.by)) }
{
    entries.get(step.by as usize)
}
