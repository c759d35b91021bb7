//! Laws: the list of generators makes the module. Each function does nothing: its contract is the law.

ghost use Rattle.std.specs.Prelude.{List};
ghost use Rattle.presentation.specs.Presented.{Presented};
ghost use Rattle.formal_sums.specs.FormalSum.{FormalSum, coefficient};
ghost use Rattle.module_vec.specs.declared.places.Place.{Place};
ghost use Rattle.module_vec.specs.declared.places.Term.{Term};
ghost use Rattle.module_vec.specs.Places.{same_place};
ghost use Rattle.module_vec.specs.Modules.{InModule};
ghost use Rattle.fox_calculus.specs.Generators.{AreGenerators};
ghost use Rattle.fox_calculus.specs.Module.{IsMember};

/// What lies in the module of a presentation is a sum of multiples of the listed generators.
#[tactic(auto, using(crate::proofs::Members::member_listed))]
pub fn members_are_sums_of_the_list()
    ensures { (p : Presented) (gens : List (List Term)) (v : FormalSum Place) → AreGenerators p gens → IsMember p v
        → InModule gens (λ x. coefficient same_place v x) }
{}

/// A sum of multiples of the listed generators lies in the module of the presentation.
#[tactic(auto, using(crate::proofs::Members::listed_member))]
pub fn sums_of_the_list_are_members()
    ensures { (p : Presented) (gens : List (List Term)) (v : FormalSum Place) → AreGenerators p gens
        → InModule gens (λ x. coefficient same_place v x) → IsMember p v }
{}
