//! The rules of the free differential calculus, and of the module that it stands in (Fox 1953).

ghost use Rattle.std.specs.Prelude.{ℕ, ℤ, negsuc, List, [], ◌++◌};
ghost use Rattle.free_words.specs.declared.letter.Letter.{Letter};
ghost use Rattle.free_words.specs.Words.{inverse, Cancels};
ghost use Rattle.presentation.specs.Presented.{Presented, IsPresented};
ghost use Rattle.derivation.specs.Moves.{IsWordOver};
ghost use Rattle.formal_sums.specs.FormalSum.{FormalSum, Same, rename};
ghost use Rattle.formal_sums.specs.Span.{multiple};
ghost use Rattle.module_vec.specs.declared.places.Place.{Place};
ghost use Rattle.module_vec.specs.Places.{same_place, moved};
ghost use Rattle.fox_calculus.specs.Fox.{image, fox};
ghost use Rattle.fox_calculus.specs.Module.{HasVariables, IsMember};
ghost use Rattle.magnus_laws.specs.Congruence.{AreCongruent};

/// The Fox vector of uv is that of u and [u] times that of v, modulo the module.
#[tactic(auto, using(crate::proofs::FoxRules::fox_of_product))]
pub fn fox_of_product()
    ensures { (p : Presented) (u v : List Letter) → IsPresented p → IsWordOver p u → IsWordOver p v
        → AreCongruent p (fox (u ++ v)) (fox u ++ rename (moved (image u)) (fox v)) }
{}

/// The Fox vector of an inverse w^-1 is -[w^-1] times that of w, modulo the module.
#[tactic(auto, using(crate::proofs::FoxRules::fox_of_inverse))]
pub fn fox_of_inverse()
    ensures { (p : Presented) (w : List Letter) → IsPresented p → IsWordOver p w
        → AreCongruent p (fox (inverse w)) (multiple moved (negsuc 0) (image (inverse w)) (fox w)) }
{}

/// Leaving out pairs of a letter and its inverse keeps the Fox vector, so a word and its freely reduced form have the
/// same.
#[tactic(auto, using(crate::proofs::FoxRules::fox_of_cancelled))]
pub fn fox_of_cancelled()
    ensures { (w v : List Letter) → Cancels w v → Same same_place (fox w) (fox v) }
{}

/// The module has 0, sums, multiples by integers and monomials, and each sum that is the same as one of its elements.
#[tactic(auto, using(crate::proofs::Members::member_sums))]
pub fn members_form_a_module()
    ensures nothing { (p : Presented) → IsMember p [] }
    ensures sum { (p : Presented) (v w : FormalSum Place) → IsMember p v → IsMember p w → IsMember p (v ++ w) }
    ensures multiple { (p : Presented) (q : ℤ) (t : List ℕ) (v : FormalSum Place) → HasVariables t → IsMember p v
        → IsMember p (multiple moved q t v) }
    ensures same { (p : Presented) (v w : FormalSum Place) → Same same_place v w → IsMember p w → IsMember p v }
{}

/// Congruence is an equivalence.
#[tactic(auto, using(crate::proofs::Members::congruent_same, crate::proofs::Members::congruent_back))]
pub fn congruence_is_an_equivalence()
    ensures same { (p : Presented) (v w : FormalSum Place) → Same same_place v w → AreCongruent p v w }
    ensures back { (p : Presented) (v w : FormalSum Place) → AreCongruent p v w → AreCongruent p w v }
    ensures on { (p : Presented) (u v w : FormalSum Place) → AreCongruent p u v → AreCongruent p v w
        → AreCongruent p u w }
{}
