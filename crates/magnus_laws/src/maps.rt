//! Maps of the generators of a presentation to words over another one.

ghost use Rattle.std.specs.Prelude.{◌≡◌, ◌↔◌, List, Contains};
ghost use Rattle.free_words.specs.declared.letter.Letter.{Letter};
ghost use Rattle.free_words.specs.Words.{word_image};
ghost use Rattle.presentation.specs.Presented.{Presented, IsPresented};
ghost use Rattle.fox_calculus.specs.Fox.{fox};
ghost use Rattle.fox_calculus.specs.Module.{IsMember};
ghost use Rattle.magnus_laws.specs.Maps.{AreImages, KeepsRelators, Extends};

/// A map that keeps the relators of a presentation without a modulus extends to a homomorphism.
#[tactic(auto, using(crate::proofs::Homomorphisms::kept_relators_suffice))]
pub fn kept_relators_suffice()
    ensures { (q p : Presented) (images : List (List Letter)) → q.modulus ≡ 0 → AreImages q images p
        → KeepsRelators q images p
        → Extends q images p }
{}

/// A map that extends to a homomorphism keeps the relators.
pub fn homomorphisms_keep_relators()
    ensures { (q p : Presented) (images : List (List Letter)) → IsPresented q → Extends q images p
        → KeepsRelators q images p }
{}

/// A map of a presentation without a modulus extends to a homomorphism exactly where the Fox vectors of the images of
/// the relators lie in the module of the other presentation.
pub fn extends_exactly_where_images_are_members()
    ensures { (q p : Presented) (images : List (List Letter)) → IsPresented q → IsPresented p → q.modulus ≡ 0
        → AreImages q images p
        → Extends q images p ↔ ((r : List Letter) → Contains q.relators r → IsMember p (fox (word_image images r))) }
{}
