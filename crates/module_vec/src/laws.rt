//! The laws of vectors, as contracts of functions that do nothing: what the calls of this crate give can be relied on
//! to stand for finite maps, and the reduction of a vector to have one course.

ghost use Rattle.std.specs.Prelude.{◌≡◌, ◌∷◌, ◌≤◌, ℕ, ◌↔◌, ◌≤ℤ◌, List, length};
ghost use Rattle.std.specs.Cmp.{IsTotalOrder};
ghost use Rattle.std.specs.List.{AllByRecursion};
ghost use Rattle.laurent_terms.specs.Monomials.{degree};
ghost use Rattle.std.specs.declared.cmp.Ordering.TheVariants.{Equal};
ghost use Rattle.module_vec.specs.declared.places.Place.{Place};
ghost use Rattle.module_vec.specs.declared.places.Term.{Term};
ghost use Rattle.module_vec.specs.declared.steps.Step.{Step};
ghost use Rattle.module_vec.specs.Places.{place_cmp, moved};
ghost use Rattle.module_vec.specs.Vectors.{Coefficients, coefficient_at, IsSparse};
ghost use Rattle.module_vec.specs.Reducers.{Entry, Reduces, IsReducer};
ghost use Rattle.module_vec.specs.Chains.{IsNext, Chain, IsEnd, Runs};

/// The order of places is a strict total order, and only a place itself is equal to it.
pub fn order_is_total()
    ensures total { IsTotalOrder place_cmp }
    ensures exact { (p q : Place) → (place_cmp p q ≡ Equal) ↔ (p ≡ q) }
{}

/// Multiples by one monomial stand as the places themselves do.
pub fn order_is_kept_by_multiples()
    ensures { (t : List ℕ) (p q : Place) → length p.m ≡ length t → length q.m ≡ length t
        → place_cmp (moved t p) (moved t q) ≡ place_cmp p q }
{}

/// A vector is determined by its coefficients.
pub fn coefficients_determine_vectors()
    ensures { (v w : List Term) → IsSparse v → IsSparse w → ((x : Place)
        → coefficient_at v x ≡ coefficient_at w x) → v ≡ w }
{}

/// The lead of a vector has its greatest degree.
pub fn leads_have_the_greatest_degree()
    ensures { (e : Term) (g : List Term) → IsSparse (e ∷ g) → AllByRecursion (λ t. degree t.at.m ≤ degree e.at.m) g }
{}

/// A place has at most one reducer, and no entry that reduces the place has a smaller lead coefficient.
pub fn reducers_are_determined()
    ensures one { (b : List (List Term)) (p : Place) (i j : ℕ) (e f : Term) (g h : List Term) →
        IsReducer b p i e g → IsReducer b p j f h → i ≡ j }
    ensures least { (b : List (List Term)) (p : Place) (i j : ℕ) (e f : Term) (g h : List Term) →
        IsReducer b p i e g → Entry b j f h → Reduces f p → e.k ≤ℤ f.k }
{}

/// The reduction of a vector by a list has one course: there is at most one next step, and two chains that come to an
/// end make the same steps and have the same end.
pub fn chains_are_determined()
    ensures next { (b : List (List Term)) (f : Coefficients) (s t : Step) → IsNext b f s → IsNext b f t → s ≡ t }
    ensures end { (b : List (List Term)) (ss rs : List Step) (f g h : Coefficients) → Chain b f ss g → IsEnd b g
        → Chain b f rs h → IsEnd b h → (ss ≡ rs) × ((x : Place) → g x ≡ h x) }
    ensures within_limits { (b : List (List Term)) (ss : List Step) (f g : Coefficients) → Runs b f ss g
        → Chain b f ss g }
{}
