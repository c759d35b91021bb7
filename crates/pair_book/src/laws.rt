//! The laws of books, as contracts of functions that do nothing.

ghost use Rattle.std.specs.Prelude.{◌≡◌, ◌≢◌, ◌↔◌, ℕ, ◌≤◌, List, [], ◌∷◌, ◌++◌, true, length};
ghost use Rattle.presentation.specs.Presented.{Presented, IsPresented};
ghost use Rattle.module_vec.specs.declared.places.Term.{Term};
ghost use Rattle.module_vec.specs.Reducers.{AreEntries};
ghost use Rattle.outcomes.specs.declared.kinds.PairKind.{PairKind as TheKind};
ghost use Rattle.strong_pairs.specs.Pairs.{IsPair, lead_at};
ghost use Rattle.strong_pairs.specs.Tasks.{IsClosedFromStart};
ghost use Rattle.task_table.specs.Rows.{settled_of};
ghost use Rattle.basis_entry.specs.declared.TheConstants.{BASE, BASE_TERMS};
ghost use Rattle.basis_entry.specs.Entries.{BasisEntry, IsBasisEntry, vectors_of};
ghost use Rattle.pair_book.specs.declared.limits.Limits.{Limits as TheLimits};
ghost use Rattle.pair_book.specs.Books.{AreWithin};
ghost use Rattle.pair_book.specs.Logs.{IsLawful, IsNextEntry};
ghost use Rattle.pair_book.specs.Settled.{settled_by};

pub use pair_work::laws::{closed_tasks_stay_closed, places_of_stops_are_over};

/// A lawful log stays lawful when an entry is appended that may stand behind it.
pub fn lawful_logs_grow()
    ensures { (p : Presented) (base : ℕ) (es : List BasisEntry) (e : BasisEntry) → IsLawful p base es → e.source ≡ p
        → IsBasisEntry e →
        IsNextEntry (vectors_of es) e → IsLawful p base (es ++ e ∷ []) }
{}

/// Limits on entries and terms that allow what any presentation's generator entries can have, with which a book of any
/// can be opened.
pub fn generator_entries_are_within()
    ensures { (p : Presented) (limits : TheLimits) → IsPresented p → BASE ≤ limits.entries → BASE_TERMS ≤ limits.terms
        → AreWithin p limits }
{}

/// The test of two leads is right: of a pair the tasks that are closed from the start are settled, and where the
/// components differ both tasks are.
pub fn tests_of_leads_are_right()
    ensures pair { (b : List (List Term)) → AreEntries b → (kind : TheKind) (i j : ℕ) → IsPair b i j →
        (settled_of kind (settled_by (lead_at b i) (lead_at b j)) ≡ true) ↔ IsClosedFromStart b kind i j }
    ensures other { (d e : Term) (kind : TheKind) → d.at.c ≢ e.at.c → settled_of kind (settled_by d e) ≡ true }
{}
