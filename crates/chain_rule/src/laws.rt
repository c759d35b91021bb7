//! The chain rule, and lists of pairs that are given by a test, as contracts of functions that do nothing.

ghost use Rattle.std.specs.List.{Contains};
ghost use Rattle.std.specs.Prelude.{ℕ, ◌<◌, ◌↔◌, Bool, IsTrue, List, length};
ghost use Rattle.module_vec.specs.declared.places.Term.{Term};
ghost use Rattle.module_vec.specs.Reducers.{AreEntries};
ghost use Rattle.chain_rule.specs.ClosedPairs.{IsClosedPair, AreClosedPairs, pairs_where};
ghost use Rattle.chain_rule.specs.Chaining.{ChainRule};

/// The chain rule holds in each list of entries.
pub fn chains_close_tasks()
    ensures { (b : List (List Term)) → AreEntries b → ChainRule b }
{}

/// The list of the pairs that pass a test has these pairs and no others. So who keeps a state for each pair can give
/// [`Shut`](crate::Shut) its list by a test of the states.
pub fn tests_select_pairs()
    ensures exact { (test : ℕ → ℕ → Bool) (n i j : ℕ) →
        Contains (pairs_where test n) (i, j) ↔ ((i < j) × (j < n) × IsTrue (test i j)) }
    ensures closed { (b : List (List Term)) (test : ℕ → ℕ → Bool) →
        ((i j : ℕ) → i < j → j < length b → IsTrue (test i j) → IsClosedPair b i j) →
        AreClosedPairs b (pairs_where test (length b)) }
{}
