//! The laws of leads, as contracts of functions that do nothing.

ghost use Rattle.std.specs.Prelude.{◌≡◌, ◌++◌, ◌∷◌, [], ◌≤◌, ℕ, List, length, take, true};
ghost use Rattle.laurent_terms.specs.Monomials.{divides};
ghost use Rattle.module_vec.specs.declared.places.Term.{Term};
ghost use Rattle.std.specs.Prelude.{bit_and};
ghost use Rattle.reducer_index.specs.Leads.{AreLeads};
ghost use Rattle.reducer_index.specs.Masks.{IsMask};

/// The leads of a list with one more vector are those of the list and that of the vector.
#[tactic(auto, using(crate::proofs::Leading::leads_more))]
pub fn leads_grow()
    ensures none { AreLeads [] [] }
    ensures more { (b : List (List Term)) (es : List Term) (e : Term) (g : List Term) → AreLeads b es →
        AreLeads (b ++ (e ∷ g) ∷ []) (es ++ e ∷ []) }
{}

/// The mask of a divisor has no bit that the monomial's hasn't.
#[tactic(auto, using(crate::proofs::Masking::mask_divides))]
pub fn masks_of_divisors()
    ensures { (s t : List ℕ) (a b : ℕ) → IsMask s a → IsMask t b → divides s t ≡ true → bit_and a b ≡ a }
{}
