//! The proof that a subject is trivial.

ghost use Rattle.std.specs.Prelude.{◌≡◌, ◌≤◌, length, take, IfOk, MatchResult};
ghost use Rattle.module_vec.specs.declared.places.Place.{Place};
ghost use Rattle.module_vec.specs.Modules.{steps_at};
ghost use Rattle.reduce_cofactor.specs.Answers.{Fails};
ghost use Rattle.session_text.specs.Questions.{subjects};
ghost use Rattle.hom_check.specs.Subjects.{subject_at};
ghost use Rattle.hom_check.specs.Shown.{fox_at, IsShown};
ghost use Rattle.session_core.specs.Questions.{CanBeAsked};
ghost use Rattle.session_core.specs.Proofs.{AreStepsOf};

use fox_calculus::fox;
use hom_check::subject;
use presentation::Presentation;
use reduce_cofactor::{ReduceFault, VecList, reduce};
use session_text::Question;
use std::alloc::Global;
use step_lists::Steps;

/// The steps of the chain of one subject's Fox vector by the entries below `front`. Where the chain ends at zero, they
/// add up to that Fox vector, and so are a proof that the subject is trivial. The fault is the limit at which the chain
/// stops.
pub fn proof<L: VecList>(
    alloc: Global,
    p: &Presentation,
    list: &L,
    front: u32,
    q: &Question,
    number: u32,
) -> Result<Steps, ReduceFault>
    requires question { CanBeAsked p.now q.now }
    requires front { front ≤ length (L.vectors list.now) }
    requires number { 1 ≤ number }
    requires within { number ≤ length (subjects q.now) }
    ensures is { let b = take front (L.vectors list.now) in
        let w = subject_at q.now number in
        MatchResult result (AreStepsOf b w) (Fails b (fox_at w)) }
    ensures sum { let b = take front (L.vectors list.now) in
        let w = subject_at q.now number in
        IfOk result (λ steps. IsShown b w → (x : Place) → fox_at w x ≡ steps_at b steps x) }
{
    let w = subject(alloc, q, number)?;
    let vector = fox(alloc, p, &w)?;
    let (_, steps) = reduce(alloc, list, front, &vector)?;
    Ok(Steps::of(steps))
}
