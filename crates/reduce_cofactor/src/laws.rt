//! The laws of reductions, as contracts of functions that do nothing.

ghost use Rattle.std.specs.Prelude.{◌≡◌, ◌+ℤ◌, List};
ghost use Rattle.module_vec.specs.declared.places.Place.{Place};
ghost use Rattle.module_vec.specs.declared.places.Term.{Term};
ghost use Rattle.module_vec.specs.declared.steps.Step.{Step};
ghost use Rattle.module_vec.specs.declared.faults.Stop.{Stop};
ghost use Rattle.module_vec.specs.Vectors.{Coefficients};
ghost use Rattle.module_vec.specs.Modules.{steps_at};
ghost use Rattle.module_vec.specs.Chains.{Chain, ChainStops};
ghost use Rattle.reduce_cofactor.specs.Answers.{IsRest};

/// What the steps of a chain take away and what they leave add up to the vector.
pub fn chains_add_up()
    ensures { (b : List (List Term)) (ss : List Step) (f g : Coefficients) → Chain b f ss g → (x : Place)
        → f x ≡ steps_at b ss x +ℤ g x }
{}

/// A reduction has one answer: one rest with its steps, or one limit, and never both.
pub fn answers_are_determined()
    ensures rest { (b : List (List Term)) (f : Coefficients) (v w : List Term) (ss rs : List Step) →
        IsRest b f v ss → IsRest b f w rs → (v ≡ w) × (ss ≡ rs) }
    ensures either { (b : List (List Term)) (f : Coefficients) (v : List Term) (ss : List Step) (stop : Stop) →
        IsRest b f v ss → ChainStops b f stop → ⊥ }
    ensures stop { (b : List (List Term)) (f : Coefficients) (s t : Stop) →
        ChainStops b f s → ChainStops b f t → s ≡ t }
{}
