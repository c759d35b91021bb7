//! Searches in the candidates of an index.

ghost use Rattle.std.specs.List.{AllByRecursion, insert};
ghost use Rattle.std.specs.Prelude.{◌≡◌, ◌<◌, ◌≤◌, length, nat_lt};
ghost use Rattle.reducer_index.specs.Candidates.{IsCandidateOf, IsInOrder, FindsFirst, BeginsAt, stands_before};

use crate::candidates::Candidate;
use crate::masks::mask;
use module_vec::{Place, Term};

/// Where a new candidate belongs, whose number is greater than those of the others.
pub fn place_of(candidates: &[Candidate], new: &Candidate) -> usize
    requires order { IsInOrder candidates.now }
    requires later { AllByRecursion (λ x. x.number < new.now.number) candidates.now }
    ensures bound { result ≤ length candidates.now }
    ensures order { IsInOrder (insert candidates.now result new.now) }
{
    candidates.partition_point(
        |x: &Candidate| -> bool
            ensures { result ≡ stands_before new.entry.now x.now }
        { x.stands_before(new) },
    )
}

/// The candidates without those of the components below `c`.
pub fn from_component(candidates: &[Candidate], c: u8) -> &[Candidate]
    requires { IsInOrder candidates.now }
    ensures { BeginsAt c candidates.now result.now }
{
    let start = candidates.partition_point(
        |x: &Candidate| -> bool
            ensures { result ≡ nat_lt x.now.component c }
        { x.component < c },
    );
    candidates.split_at(start).1
}

/// The number of the first candidate below `front` whose lead reduces the place. None of the candidates is of a
/// component below that of the place.
pub fn first_reducer(
    candidates: &[Candidate],
    leads: &[Term],
    front: u32,
    at: &Place,
) -> Option<u32>
    requires candidates { AllByRecursion (IsCandidateOf leads.now) candidates.now }
    requires order { IsInOrder candidates.now }
    requires component { AllByRecursion (λ x. at.now.c ≤ x.component) candidates.now }
    ensures { FindsFirst leads.now front at.now candidates.now result }
{
    let mask = mask(&at.m);
    for x in candidates {
        if x.component != at.c {
            return None;
        }
        if x.number < front && x.reduces(leads, at, mask) {
            return Some(x.number);
        }
    }
    None
}
