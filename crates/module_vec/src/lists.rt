//! Lists of vectors, and the entry that reduces a place.

ghost use Rattle.std.specs.Prelude.{◌≡◌, ◌≤◌, ◌<◌, ◌↔◌, ◌+◌, ◌++◌, ◌∷◌, [], List, IsTrue, Some, length, slice_get};
ghost use Rattle.std.specs.Prelude.{take};
ghost use Rattle.module_vec.specs.declared.places.Term.{Term};
ghost use Rattle.module_vec.specs.Reducers.{IsEntry, AreEntries, Reduces, FindsReducer};
ghost use Rattle.module_vec.specs.Scanning.{FindsCandidate};

use crate::{ModVec, Place, Term};

/// A list of vectors with positive lead coefficients, its entries. They are numbered from 0.
pub trait VecList {
    /// The vectors in order.
    ghost vectors: { Self → List (List Term) };

    /// How many entries the list has.
    fn count(&self) -> u32
        ensures is { result ≡ length (vectors self.now) }
        ensures entries { AreEntries (vectors self.now) };

    /// The entry with this number.
    fn vector(&self, at: u32) -> &ModVec
        requires { at < length (vectors self.now) }
        ensures is { slice_get (vectors self.now) at ≡ Some result.now }
        ensures entry { IsEntry result.now };

    /// The number of the reducer of a place among the entries below `front`, or `None` where none of them reduces it.
    ///
    /// An entry reduces a place of its lead's component where its lead monomial divides that of the place. The reducer
    /// is the one with the least lead coefficient and, among equals, the least number. This body scans the list.
    fn find(&self, front: u32, at: &Place) -> Option<u32>
        requires { front ≤ length (vectors self.now) }
        ensures { FindsReducer (take front (vectors self.now)) at.now result }
    {
        let mut best = None;
        for i in 0..front {
            best = better(best, i, self.vector(i), at);
        }
        match best {
            Some(candidate) => Some(candidate.number),
            None => None,
        }
    }
}

/// An entry that may be the reducer: its number and its lead coefficient.
#[derive(Clone, Copy)]
struct Candidate {
    number: u32,
    coefficient: i128,
}

/// The reducer among the entries so far and `entry`, whose number is greater than theirs.
fn better(best: Option<Candidate>, number: u32, entry: &ModVec, at: &Place) -> Option<Candidate>
    requires { IsEntry entry.now }
    ensures { (b : List (List Term)) → length b ≡ number → FindsCandidate b at.now best
        → FindsCandidate (b ++ entry.now ∷ []) at.now result }
{
    let lead = &entry.terms()[0];
    if !reduces(lead, at) {
        return best;
    }
    match best {
        Some(other) if other.coefficient <= lead.k => best,
        _ => Some(Candidate {
            number,
            coefficient: lead.k,
        }),
    }
}

/// Whether an entry with this lead reduces the place.
fn reduces(lead: &Term, at: &Place) -> bool
    ensures { IsTrue result ↔ Reduces lead.now at.now }
{
    lead.at.c == at.c && lead.at.m.divides(&at.m)
}
