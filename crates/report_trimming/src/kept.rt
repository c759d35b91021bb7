//! `Kept`: which entries are kept, and their places among those.

ghost use Rattle.std.specs.Prelude.{◌≡◌, ◌↔◌, ℕ, if◌then◌else◌, IsTrue, IfOk, length, slice_get, Some};
ghost use Rattle.report_trimming.specs.Kept.{kept_by, place_of, IsMarked};

use std::alloc::{AllocError, Global};
use std::marker::Model;

/// Which of some entries are kept: a mark for each. With each goes the number of those kept before it.
#[derive(Drop)]
pub struct Kept {
    marks: Vec<bool>,
    places: Vec<usize>,
}

impl Model for Kept {
    ghost use Rattle.std.specs.Prelude.{◌≡◌, ℕ, List, Bool, length, slice_get, Some};
    ghost use Rattle.report_trimming.specs.Kept.{place_of};

    ghost Value = { List Bool };

    ghost view = { λ k. k.marks.items };

    ghost invariant = { λ k. (length k.places.items ≡ length k.marks.items)
        × ((i x : ℕ) → slice_get k.places.items i ≡ Some x → x ≡ place_of k.marks.items i) };
}

impl Kept {
    /// The entries that are marked.
    pub fn of(alloc: Global, marks: Vec<bool>) -> Result<Kept, AllocError>
        ensures { IfOk result (λ kept. kept ≡ marks.items) }
    {
        let places = places_of(alloc, &marks)?;
        Ok(Kept { marks, places })
    }

    /// Whether the entry with this number is kept.
    pub fn holds(&self, number: usize) -> bool
        ensures { IsTrue result ↔ IsMarked self.now number }
    {
        match self.marks.get(number) {
            Some(mark) => *mark,
            None => false,
        }
    }

    /// The place of the entry with this number among those that are kept.
    pub fn place(&self, number: u32) -> u32
        requires { IsMarked self.now number }
        ensures { slice_get (kept_by self.now) result ≡ Some number }
    {
        self.places[number as usize] as u32
    }
}

/// For each entry the number of those that are kept before it.
fn places_of(alloc: Global, marks: &[bool]) -> Result<Vec<usize>, AllocError>
    ensures length { IfOk result (λ places. length places.items ≡ length marks.now) }
    ensures each { IfOk result (λ places. (i x : ℕ) → slice_get places.items i ≡ Some x → x ≡ place_of marks.now i) }
{
    let mut places = Vec::new(alloc);
    let mut count = 0;
    for mark in marks {
        places.push(count)?;
        count += number_of(*mark);
    }
    Ok(places)
}

/// How many are marked of one.
fn number_of(mark: bool) -> usize
    ensures { result ≡ (if mark then 1 else 0) }
{
    usize::from(mark)
}
