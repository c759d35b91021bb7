//! Laws, as functions that do nothing.

ghost use Rattle.std.specs.Prelude.{◌≡◌, ◌↔◌, List, [], Option, Some};
ghost use Rattle.free_words.specs.declared.letter.Letter.{Letter};
ghost use Rattle.presentation.specs.Presented.{Presented, IsPresented};
ghost use Rattle.derivation.specs.Moves.{IsWordOver};
ghost use Rattle.derivation.specs.Moves as moves;
ghost use Rattle.module_vec.specs.declared.places.Term.{Term};
ghost use Rattle.module_vec.specs.Reducers.{AreEntries};
ghost use Rattle.hom_check.specs.Shown.{EndsIn};
ghost use Rattle.session_text.specs.declared.question.Question.{Question};
ghost use Rattle.session_text.specs.Questions.{HasSource};
ghost use Rattle.basis_entry.specs.Entries.{BasisEntry, vectors_of};
ghost use Rattle.basis_entry.specs.Seals.{Seal, IsSeal, IsStrongBasis};
ghost use Rattle.outcomes.specs.declared.verdicts.Verdict.{Verdict};
ghost use Rattle.session_core.specs.Questions.{CanBeAsked};
ghost use Rattle.session_core.specs.Verdicts.{IsVerdict, IsSealedFor};
ghost use Rattle.session_core.specs.Meaning.{IsExact};

use crate::Session;
use fox_calculus::laws::{members_are_sums_of_the_list, sums_of_the_list_are_members};
use magnus_laws::magnus::trivial_exactly_where_member;
use strong_pairs::laws::chains_decide_membership;

/// The law that the solver stands on: a word is trivial exactly where the chain of its Fox vector by a strong basis
/// ends at zero, if no limit is met (Magnus 1939, Lichtblau 2012).
pub fn trivial_exactly_where_chains_end_at_zero()
    ensures { (p : Presented) (b : List (List Term)) (w : List Letter) (rest : List Term) → IsPresented p
        → IsWordOver p w →
        AreEntries b → IsStrongBasis p b → EndsIn b rest w → moves.Trivial p w ↔ (rest ≡ []) }
{
    trivial_exactly_where_member();
    members_are_sums_of_the_list();
    sums_of_the_list_are_members();
    chains_decide_membership();
}

/// A verdict by a strong basis that is known to be one is exact (Magnus 1939, Lichtblau 2012).
#[tactic(auto, using(crate::proofs::Exactness::strong_verdict))]
pub fn verdicts_by_strong_bases_are_exact()
    ensures { (p : Presented) (q : Question) (b : List (List Term)) (seal : Option Seal) (v : Verdict) → IsPresented p
        → CanBeAsked p q → HasSource q →
        AreEntries b → IsStrongBasis p b → IsSealedFor p seal → IsVerdict p b seal q v → IsExact p q v }
{}

/// A verdict by items that end with a seal of the presentation is exact, where the entries are those of the seal.
#[tactic(auto, using(crate::proofs::Exactness::sealed_verdict))]
pub fn verdicts_after_the_seal_are_exact()
    ensures { (p : Presented) (q : Question) (es : List BasisEntry) (s : Seal) (v : Verdict) → IsPresented p
        → CanBeAsked p q → HasSource q →
        IsSeal s → s.source ≡ p → s.entries ≡ es → IsVerdict p (vectors_of es) (Some s) q v → IsExact p q v }
{}

/// A session moves between threads: it is `Send`.
pub fn sessions_move_between_threads() {
    is_sent::<Session>();
}

fn is_sent<T: Send>() {}
