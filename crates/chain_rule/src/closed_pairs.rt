//! Whoever knows of pairs whose S tasks are closed.

ghost use Rattle.std.specs.Prelude.{ℕ, ◌↔◌, IsTrue, List};
ghost use Rattle.module_vec.specs.declared.places.Term.{Term};
ghost use Rattle.chain_rule.specs.ClosedPairs.{IsAmong, AreClosedPairs};

/// A list of pairs of entries whose S tasks are truly closed.
pub trait Shut {
    /// The vectors of the entries of which it speaks.
    ghost vectors: { Self → List (List Term) };

    /// The pairs, as numbers of entries, the lesser number first.
    ghost pairs: { Self → List (ℕ × ℕ) };

    /// Whether the entries with these numbers, in either order, are one of the pairs.
    fn shut(&self, i: u32, j: u32) -> bool
        ensures exact { IsTrue result ↔ IsAmong (pairs self.now) i j }
        ensures closed { AreClosedPairs (vectors self.now) (pairs self.now) };
}
