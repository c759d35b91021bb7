//! The verdict on a question.

ghost use Rattle.std.specs.Prelude.{◌≡◌, ◌↔◌, List, Option, IsTrue, IfOk};
ghost use Rattle.presentation.specs.Presented.{Presented};
ghost use Rattle.module_vec.specs.declared.places.Term.{Term};
ghost use Rattle.session_text.specs.declared.question.Question.{Question};
ghost use Rattle.hom_check.specs.declared.shown.Shown.TheVariants as shows;
ghost use Rattle.hom_check.specs.Shown.{Shows};
ghost use Rattle.basis_entry.specs.Entries.{AreOf};
ghost use Rattle.basis_entry.specs.Seals.{Seal};
ghost use Rattle.outcomes.specs.declared.verdicts.Verdict.TheVariants.{Trivial, Extends};
ghost use Rattle.session_core.specs.Questions.{CanBeAsked};
ghost use Rattle.session_core.specs.Verdicts.{IsSealedFor, IsVerdict};
ghost use Rattle.session_core.specs.Meaning.{AllAreTrivial, MapExtends};

use basis_entry::Front;
use hom_check::{Shown, first_unshown};
use module_vec::ModVec;
use outcomes::Verdict;
use presentation::Presentation;
use session_text::Question;
use std::alloc::{AllocError, Global};

/// The verdict on the question by all items of the list. A seal of another presentation counts as none.
///
/// Whatever the list is, `Trivial` says that moves carry each subject to the empty word, and `Extends` that the map
/// extends to a homomorphism (Magnus 1939).
pub fn verdict<F: Front>(
    alloc: Global,
    p: &Presentation,
    list: &F,
    q: &Question,
) -> Result<Verdict, AllocError>
    requires question { CanBeAsked p.now q.now }
    requires entries { AreOf p.now (F.entries list.now) }
    ensures is { IfOk result (IsVerdict p.now (F.vectors list.now) (F.seal list.now) q.now) }
    ensures trivial { IfOk result (λ v. v ≡ Trivial → AllAreTrivial p.now q.now) }
    ensures extends { IfOk result (λ v. v ≡ Extends → MapExtends p.now q.now) }
{
    list.known();
    p.known();
    let sealed = is_sealed_for(list, p);
    let shown = first_unshown(alloc, p, list, list.count(), q)?;
    Ok(on_shown(sealed, q, shown))
}

/// The verdict on what is shown of the subjects.
fn on_shown(sealed: bool, q: &Question, shown: Shown) -> Verdict
    ensures { (p : Presented) (b : List (List Term)) (seal : Option Seal) → (IsTrue sealed ↔ IsSealedFor p seal)
        → Shows b q.now shown → IsVerdict p b seal q.now result }
{
    match shown {
        Shown::All => on_all(q),
        Shown::Stopped { subject, stop } => Verdict::Stop { subject, stop },
        Shown::Rest { subject, rest } => on_rest(sealed, q, subject, rest),
    }
}

/// Whether the items end with a seal of this presentation.
fn is_sealed_for<F: Front>(list: &F, p: &Presentation) -> bool
    ensures { IsTrue result ↔ IsSealedFor p.now (F.seal list.now) }
{
    match list.sealed() {
        Some(seal) => seal.presentation().same(p),
        None => false,
    }
}

/// The verdict where all subjects are shown.
fn on_all(q: &Question) -> Verdict
    ensures { (p : Presented) (b : List (List Term)) (seal : Option Seal) → Shows b q.now shows.All
        → IsVerdict p b seal q.now result }
{
    match q {
        Question::Trivial(_) | Question::Equal(_, _) | Question::Normal(_) => Verdict::Trivial,
        Question::Hom { .. } => Verdict::Extends,
    }
}

/// The verdict where this subject is the first that isn't shown, and leaves this rest.
fn on_rest(sealed: bool, q: &Question, subject: u32, rest: ModVec) -> Verdict
    ensures { (p : Presented) (b : List (List Term)) (seal : Option Seal) → (IsTrue sealed ↔ IsSealedFor p seal)
        → Shows b q.now (shows.Rest subject rest) → IsVerdict p b seal q.now result }
{
    if !sealed {
        return Verdict::Unknown { subject };
    }
    match q {
        Question::Trivial(_) | Question::Equal(_, _) => Verdict::NotTrivial,
        Question::Normal(_) => Verdict::Normal(rest),
        Question::Hom { .. } => Verdict::Fails { subject },
    }
}
