//! The laws of work, as contracts of functions that do nothing.

ghost use Rattle.std.specs.Prelude.{◌≡◌, ℕ, List, ◌++◌, length};
ghost use Rattle.std.specs.List.{AllByRecursion};
ghost use Rattle.presentation.specs.Presented.{Presented};
ghost use Rattle.module_vec.specs.declared.places.Place.{Place};
ghost use Rattle.module_vec.specs.declared.places.Term.{Term};
ghost use Rattle.module_vec.specs.declared.faults.Stop.TheVariants.{Wide};
ghost use Rattle.outcomes.specs.declared.kinds.PairKind.{PairKind as TheKind};
ghost use Rattle.outcomes.specs.declared.tasks.Task.{Task as TheTask};
ghost use Rattle.strong_pairs.specs.Pairs.{IsPair};
ghost use Rattle.strong_pairs.specs.Tasks.{IsClosed};
ghost use Rattle.vector_text.specs.Over.{PlaceIsOver};
ghost use Rattle.basis_entry.specs.Entries.{BasisEntry, IsBasisEntry, AreOf, vectors_of};
ghost use Rattle.pair_work.specs.Works.{Stops};

/// What is truly closed of a list stays so when further vectors are appended.
pub fn closed_tasks_stay_closed()
    ensures { (b more : List (List Term)) (kind : TheKind) (i j : ℕ) → IsPair b i j → IsClosed b kind i j
        → IsClosed (b ++ more) kind i j }
{}

/// The place at which the work of a task by entries of a presentation leaves the range is over the presentation's
/// generators.
pub fn places_of_stops_are_over()
    ensures { (p : Presented) (es : List BasisEntry) (t : TheTask) (place : Place) (step : ℕ)
        → AllByRecursion IsBasisEntry es → AreOf p es →
        Stops (vectors_of es) t (Wide place step) → PlaceIsOver (length p.names) place }
{}
