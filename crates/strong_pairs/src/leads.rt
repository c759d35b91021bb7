//! The lead of an entry, and division of lead coefficients.

ghost use Rattle.std.specs.Prelude.{◌≡◌, ◌<◌, ◌↔◌, pos, ◌<ℤ◌, IsTrue, length};
ghost use Rattle.module_vec.specs.Vectors.{IsTerm};
ghost use Rattle.strong_pairs.specs.Covering.{Divides, divides_number};
ghost use Rattle.strong_pairs.specs.Pairs.{lead_at};

use module_vec::{Term, VecList};

/// The first term of the entry with this number.
pub fn lead<L: VecList>(list: &L, at: u32) -> Term
    requires { at < length (L.vectors list.now) }
    ensures is { result ≡ lead_at (L.vectors list.now) at }
    ensures term { IsTerm result }
    ensures positive { pos 0 <ℤ result.k }
{
    list.vector(at).terms()[0]
}

/// Whether a lead coefficient divides another one.
pub fn divides(by: i128, k: i128) -> bool
    requires by { pos 0 <ℤ by }
    requires k { pos 0 <ℤ k }
    ensures test { result ≡ divides_number by k }
    ensures divides { IsTrue result ↔ Divides by k }
{
    k % by == 0
}
