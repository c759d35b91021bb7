//! Laws, as functions that do nothing: what each says is its contract.

ghost use Rattle.std.specs.List.{AllByRecursion};
ghost use Rattle.std.specs.Prelude.{◌≡◌, ℕ, ◌<◌, ◌≤◌, List, length, sum_by};
ghost use Rattle.presentation.specs.Presented.{Presented, IsPresented};
ghost use Rattle.module_vec.specs.declared.places.Term.{Term};
ghost use Rattle.module_vec.specs.Modules.{vector_at, InModule};
ghost use Rattle.module_vec.specs.Reducers.{AreEntries};
ghost use Rattle.module_vec.specs.Vectors.{coefficient_at};
ghost use Rattle.fox_calculus.specs.Generators.{AreGenerators};
ghost use Rattle.basis_entry.specs.declared.TheConstants.{BASE_TERMS};
ghost use Rattle.basis_entry.specs.Base.{AreBase};
ghost use Rattle.basis_entry.specs.Entries.{BasisEntry, IsBasisEntry, AreOf, vectors_of};

use crate::{Entry, Items, Sealed};
use presentation::Presentation;

/// Entries, their presentations and seals are shared by threads: each is `Send` and `Sync`.
pub fn entries_are_shared_by_threads() {
    is_shared::<Presentation>();
    is_shared::<Entry>();
    is_shared::<Items<'_>>();
    is_shared::<Sealed>();
}

/// The vectors of entries have positive lead coefficients, and those of entries of one presentation are sums of
/// multiples of its listed generators.
#[tactic(auto, using(crate::proofs::Vectors::are_entries, crate::proofs::Members::entries_listed))]
pub fn entries_lie_in_their_module()
    ensures positive { (es : List BasisEntry) → AllByRecursion IsBasisEntry es → AreEntries (vectors_of es) }
    ensures sums { (p : Presented) (gens : List (List Term)) (es : List BasisEntry) → AreGenerators p gens →
        AllByRecursion IsBasisEntry es → AreOf p es → (j : ℕ) → j < length (vectors_of es) →
        InModule gens (coefficient_at (vector_at (vectors_of es) j)) }
{}

/// The generator entries of a presentation have few terms together. Any two lists of them have as many entries, and as
/// many terms.
pub fn generator_entries_are_short()
    ensures few { (p : Presented) (es : List BasisEntry) → IsPresented p → AreBase p es →
        sum_by (λ (e : BasisEntry). length e.vector) es ≤ BASE_TERMS }
    ensures alike { (p : Presented) (es fs : List BasisEntry) → AreBase p es → AreBase p fs →
        (length es ≡ length fs) × (sum_by (λ (e : BasisEntry). length e.vector) es
        ≡ sum_by (λ (e : BasisEntry). length e.vector) fs) }
{}

fn is_shared<T: Send + Sync>() {}
