//! Trivial words, equal words, and the module.

ghost use Rattle.std.specs.Prelude.{◌↔◌, List};
ghost use Rattle.free_words.specs.declared.letter.Letter.{Letter};
ghost use Rattle.presentation.specs.Presented.{Presented, IsPresented};
ghost use Rattle.derivation.specs.Moves.{IsWordOver, Trivial, Equal};
ghost use Rattle.fox_calculus.specs.Fox.{fox};
ghost use Rattle.fox_calculus.specs.Module.{IsMember};
ghost use Rattle.magnus_laws.specs.Congruence.{AreCongruent};

/// The Fox vector of a trivial word lies in the module (Fox 1953).
#[tactic(auto, using(crate::proofs::Theorem::trivial_is_member))]
pub fn trivial_is_member()
    ensures { (p : Presented) (w : List Letter) → IsPresented p → IsWordOver p w → Trivial p w → IsMember p (fox w) }
{}

/// A word whose Fox vector lies in the module is trivial (Magnus 1939).
#[tactic(auto, using(crate::proofs::Theorem::member_is_trivial))]
pub fn member_is_trivial()
    ensures { (p : Presented) (w : List Letter) → IsPresented p → IsWordOver p w → IsMember p (fox w) → Trivial p w }
{}

/// Equal words have Fox vectors that differ by an element of the module.
#[tactic(auto, using(crate::proofs::Theorem::equal_are_congruent))]
pub fn equal_are_congruent()
    ensures { (p : Presented) (u v : List Letter) → IsPresented p → IsWordOver p u → IsWordOver p v → Equal p u v
        → AreCongruent p (fox u) (fox v) }
{}

/// Words whose Fox vectors differ by an element of the module are equal.
#[tactic(auto, using(crate::proofs::Theorem::congruent_are_equal))]
pub fn congruent_are_equal()
    ensures { (p : Presented) (u v : List Letter) → IsPresented p → IsWordOver p u → IsWordOver p v
        → AreCongruent p (fox u) (fox v)
        → Equal p u v }
{}

/// A word is trivial exactly where its Fox vector lies in the module.
pub fn trivial_exactly_where_member()
    ensures { (p : Presented) (w : List Letter) → IsPresented p → IsWordOver p w → Trivial p w ↔ IsMember p (fox w) }
{
    trivial_is_member();
    member_is_trivial();
}

/// Words are equal exactly where their Fox vectors are congruent.
pub fn equal_exactly_where_congruent()
    ensures { (p : Presented) (u v : List Letter) → IsPresented p → IsWordOver p u → IsWordOver p v
        → Equal p u v ↔ AreCongruent p (fox u) (fox v) }
{
    equal_are_congruent();
    congruent_are_equal();
}
