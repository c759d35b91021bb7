//! The laws of strong lists, as contracts of functions that do nothing: when a list is strong, and what a strong list
//! decides. They hold for the module that any list of vectors generates.

ghost use Rattle.std.specs.Int.{IsGcd};
ghost use Rattle.std.specs.List.{AllByRecursion};
ghost use Rattle.std.specs.Prelude.{◌≡◌, ℕ, ◌<◌, ◌↔◌, pos, unsigned_abs, [], ◌∷◌, List, length};
ghost use Rattle.formal_sums.specs.FormalSum.{Falling};
ghost use Rattle.module_vec.specs.declared.places.Place.{Place};
ghost use Rattle.module_vec.specs.declared.places.Term.{Term};
ghost use Rattle.module_vec.specs.declared.steps.Step.{Step};
ghost use Rattle.module_vec.specs.Chains.{Chain, IsEnd};
ghost use Rattle.module_vec.specs.Modules.{vector_at, steps_at, AreSteps, InModule, IsStrong, IsReduced};
ghost use Rattle.module_vec.specs.Places.{IsBelow};
ghost use Rattle.module_vec.specs.Reducers.{AreEntries};
ghost use Rattle.module_vec.specs.Vectors.{Coefficients, coefficient_at, difference_at, IsSparse};
ghost use Rattle.outcomes.specs.declared.kinds.PairKind.{PairKind};
ghost use Rattle.outcomes.specs.declared.kinds.PairKind.TheVariants.{S, G};
ghost use Rattle.strong_pairs.specs.Generating.{BeginsWith, Holds, IsGenerating};
ghost use Rattle.strong_pairs.specs.Pairs.{lead_at, IsPair, pair_place, ArePairSteps};
ghost use Rattle.strong_pairs.specs.Results.{IsPairVector};
ghost use Rattle.strong_pairs.specs.Tasks.{step_places, IsUpTo, StandsAt, AreStepsAt, AreStepsBelow, IsClosed};
ghost use Rattle.strong_pairs.specs.Tasks.{IsClosedFromStart, AreClosed, AllClosed, Reaches, DividesAll};

/// A task that is closed from the start is truly closed.
pub fn starts_close_tasks()
    ensures { (b : List (List Term)) → AreEntries b → (kind : PairKind) (i j : ℕ) → IsPair b i j →
        IsClosedFromStart b kind i j → IsClosed b kind i j }
{}

/// A task is truly closed where the chain of its pair's vector ends at zero.
pub fn chains_to_zero_close_tasks()
    ensures { (b : List (List Term)) → AreEntries b → (i j : ℕ) → IsPair b i j → (kind : PairKind) (v : List Term) →
        IsPairVector kind b i j v → (steps : List Step) (g : Coefficients) → Chain b (coefficient_at v) steps g →
        ((x : Place) → g x ≡ pos 0) → IsClosed b kind i j }
{}

/// A pair has one S-vector and one G-vector, since their steps are determined.
pub fn pair_steps_are_determined()
    ensures { (b : List (List Term)) → AreEntries b → (kind : PairKind) (i j : ℕ) → IsPair b i j →
        (first second third fourth : Step) → ArePairSteps kind b i j first second
        → ArePairSteps kind b i j third fourth →
        (first ≡ third) × (second ≡ fourth) }
{}

/// An S-vector stands below the pair's place. A G-vector stands up to it, and has the greatest common divisor of the
/// lead coefficients there.
pub fn pair_vectors_stand()
    ensures s { (b : List (List Term)) → AreEntries b → (i j : ℕ) → IsPair b i j → (v : List Term) →
        IsPairVector S b i j v → StandsAt (λ x. IsBelow x (pair_place b i j)) (coefficient_at v) }
    ensures g { (b : List (List Term)) → AreEntries b → (i j : ℕ) → IsPair b i j → (v : List Term) →
        IsPairVector G b i j v → StandsAt (λ x. IsUpTo x (pair_place b i j)) (coefficient_at v) }
    ensures divisor { (b : List (List Term)) → AreEntries b → (i j : ℕ) → IsPair b i j → (v : List Term) →
        IsPairVector G b i j v → (d : ℕ) × IsGcd (unsigned_abs (lead_at b i).k) (unsigned_abs (lead_at b j).k) d ×
        (coefficient_at v (pair_place b i j) ≡ pos d) }
{}

/// Coverage of greatest common divisors: where the G tasks are closed, of the entries whose leads divide a place, and
/// of which some are given, one has a lead coefficient that divides those of all the given ones.
pub fn divisors_are_covered()
    ensures { (b : List (List Term)) → AreEntries b → AreClosed b G → (p : Place) (i : ℕ) (numbers : List ℕ) →
        AllByRecursion (Reaches b p) (i ∷ numbers) → (k : ℕ) × DividesAll b p (i ∷ numbers) k }
{}

/// The strong criterion (Möller 1988; Lichtblau 2012): a list of entries that generates the module, and all of whose
/// tasks are truly closed, is strong.
pub fn closed_lists_are_strong()
    ensures { (gens b : List (List Term)) → IsGenerating gens b → AllClosed b → IsStrong gens b }
{}

/// The converse: the tasks of a strong list are truly closed.
pub fn strong_lists_are_closed()
    ensures { (gens b : List (List Term)) → AreEntries b → IsStrong gens b → AllClosed b }
{}

/// A list that begins with the generators holds them.
pub fn beginnings_are_held()
    ensures { (gens b : List (List Term)) → BeginsWith gens b → Holds gens b }
{}

/// Over a strong list a chain that has an end ends in the reduced vector.
pub fn chains_reduce()
    ensures { (gens b : List (List Term)) → AreEntries b → IsStrong gens b →
        (f g : Coefficients) (steps : List Step) → Chain b f steps g → IsEnd b g → IsReduced gens f g }
{}

/// Over a strong list the end of a chain is empty exactly where the chain began with a member of the module.
pub fn chains_decide_membership()
    ensures { (gens b : List (List Term)) → AreEntries b → IsStrong gens b →
        (f : Coefficients) (rest : List Term) (steps : List Step) → IsSparse rest →
        Chain b f steps (coefficient_at rest) → IsEnd b (coefficient_at rest) → (rest ≡ []) ↔ InModule gens f }
{}

/// A vector has at most one reduced form.
pub fn reduced_vectors_are_determined()
    ensures { (gens : List (List Term)) (f g h : Coefficients) → IsReduced gens f g → IsReduced gens f h →
        (x : Place) → g x ≡ h x }
{}

/// What a chain takes away is the sum of its steps.
pub fn chains_take_away_their_steps()
    ensures { (b : List (List Term)) → AreEntries b → (steps : List Step) (f g : Coefficients) → Chain b f steps g →
        AreSteps b steps × ((x : Place) → difference_at f g x ≡ steps_at b steps x) }
{}

/// The chain of what stands below a place, or up to it, takes away multiples whose lead places lie there too; and these
/// places fall strictly from step to step.
pub fn chains_stay_below()
    ensures below { (b : List (List Term)) → AreEntries b → (p : Place) (steps : List Step) (f g : Coefficients) →
        StandsAt (λ x. IsBelow x p) f → Chain b f steps g → AreStepsBelow b p steps }
    ensures up_to { (b : List (List Term)) → AreEntries b → (p : Place) (steps : List Step) (f g : Coefficients) →
        StandsAt (λ x. IsUpTo x p) f → Chain b f steps g → AreStepsAt (λ x. IsUpTo x p) b steps }
    ensures falling { (b : List (List Term)) → AreEntries b → (steps : List Step) (f g : Coefficients) →
        StandsAt (λ x. Unit {0}) f → Chain b f steps g → Falling IsBelow (step_places b steps) }
{}

/// Sums of multiples of members of the module are members.
pub fn sums_of_members_are_members()
    ensures { (gens b : List (List Term)) → ((i : ℕ) → i < length b → InModule gens (coefficient_at (vector_at b i))) →
        (steps : List Step) → AreSteps b steps → InModule gens (steps_at b steps) }
{}
