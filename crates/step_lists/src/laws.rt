//! Laws: what steps add up to. Each function does nothing: its contract is the law.

ghost use Rattle.step_lists.specs.Laws.{AddingAddsUp, TakingTakesAway, ProvenVectorsAreSums, ValuesAreSums};

/// Adding steps to a vector gives the vector and the sum of the steps.
#[tactic(auto, using(crate::proofs::AddingUp::adding_adds_up))]
pub fn adding_adds_up()
    ensures { AddingAddsUp }
{}

/// A vector is the sum of the steps that are taken from it and of what is left.
#[tactic(auto, using(crate::proofs::AddingUp::taking_takes_away))]
pub fn taking_takes_away()
    ensures { TakingTakesAway }
{}

/// A vector of which steps leave nothing is the sum of these steps, so it lies in the module of what they multiply.
#[tactic(auto, using(crate::proofs::AddingUp::proven_vectors_are_sums))]
pub fn proven_vectors_are_sums()
    ensures { ProvenVectorsAreSums }
{}

/// The value of a recipe is the sum of its steps.
#[tactic(auto, using(crate::proofs::AddingUp::values_are_sums))]
pub fn values_are_sums()
    ensures { ValuesAreSums }
{}
