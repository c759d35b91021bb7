//! `Sight`: what was seen in a cell that is set once.

ghost use Rattle.std.specs.Prelude.{◌≡◌, ◌≤◌, ◌⊎◌, ◌++◌, length, drop, IfSome, MatchOption};
ghost use mathlib.Core.List.{IsPrefix};
ghost use Rattle.std.specs.Vec.{vec_capacity};
ghost use Rattle.once_cell.specs.Once.{cell_name};
ghost use Rattle.basis_log.specs.Sights.{cells_in, Agree};

use once_cell::race::{Note, OnceBox};
use std::marker::Model;

/// A value that was seen in a cell, and a note that knows it.
#[derive(Drop)]
pub(crate) struct Sight<'r, T> {
    note: Note<T>,
    value: &'r T,
}

impl<'r, T> Model for Sight<'r, T> {
    ghost use Rattle.std.specs.Prelude.{◌≡◌, Some};
    ghost use Rattle.basis_log.specs.Sights.{Sighted};

    ghost Value = { Sighted T };

    ghost view = { λ s. record { cell = s.note.cell; value = s.value.now } };

    ghost invariant = { λ s. s.note.known ≡ Some s.value.now };
}

impl<'r, T> Sight<'r, T> {
    /// What the cell holds, if it is set.
    pub(crate) fn read(cell: &'r OnceBox<T>) -> Option<Sight<'r, T>>
        ensures { IfSome result (λ s. s.cell ≡ cell_name cell.entry.now) }
    {
        let mut note = cell.note();
        match cell.get_as(&mut note) {
            Some(value) => Some(Sight { note, value }),
            None => None,
        }
    }

    /// The value.
    pub(crate) fn value(&self) -> &'r T
        ensures { result.now ≡ self.now.value }
    {
        self.value
    }

    /// The same once more.
    pub(crate) fn again(&mut self) -> Sight<'r, T>
        ensures same { self.new ≡ self.old }
        ensures is { result ≡ self.old }
    {
        Sight {
            note: self.note.again(),
            value: self.value,
        }
    }

    /// What was seen of one cell is the same.
    pub(crate) fn agree(&mut self, other: &mut Sight<'_, T>)
        requires { self.old.cell ≡ other.old.cell }
        ensures same { (self.new ≡ self.old) × (other.new ≡ other.old) }
        ensures agree { self.old ≡ other.old }
    {
        self.note.compare(other.note.again());
    }
}

impl<'r, T: Drop> Sight<'r, T> {
    /// Sets the cell, and shows what it then holds. The value is handed back where the cell was set before.
    pub(crate) fn set(cell: &'r OnceBox<T>, value: Box<T>) -> (Sight<'r, T>, Option<Box<T>>)
        ensures cell { result.0.cell ≡ cell_name cell.entry.now }
        ensures value { MatchOption result.1 (result.0.value ≡ value.value) (λ back. back.value ≡ value.value) }
    {
        let mut note = cell.note();
        let back = cell.set_as(value, &mut note).err();
        match cell.get_as(&mut note) {
            Some(value) => (Sight { note, value }, back),
            None => unreachable!(),
        }
    }
}

/// What was seen in cells of one list is the same as far as both go.
pub(crate) fn agree<T>(sights: &mut [Sight<'_, T>], others: &mut [Sight<'_, T>])
    requires { Agree (cells_in sights.old) (cells_in others.old) }
    ensures same { (sights.new ≡ sights.old) × (others.new ≡ others.old) }
    ensures agree { Agree sights.old others.old }
{
    for at in 0..sights.len().min(others.len()) {
        sights[at].agree(&mut others[at]);
    }
}

/// Takes over what the others have seen beyond these, for which there is room.
pub(crate) fn learn<'r, T>(sights: &mut Vec<Sight<'r, T>>, others: &mut [Sight<'r, T>])
    requires cells { Agree (cells_in sights.old.items) (cells_in others.old) }
    requires room { length others.old ≤ vec_capacity sights.old }
    ensures others { others.new ≡ others.old }
    ensures grows { IsPrefix sights.old.items sights.new.items }
    ensures told { IsPrefix others.old sights.new.items }
    ensures one { (sights.new.items ≡ sights.old.items) ⊎ (sights.new.items ≡ others.old) }
    ensures capacity { vec_capacity sights.new ≡ vec_capacity sights.old }
{
    agree(sights.as_mut_slice(), others);
    extend(sights, others);
}

/// Puts what the others have seen beyond these at the end.
fn extend<'r, T>(sights: &mut Vec<Sight<'r, T>>, others: &mut [Sight<'r, T>])
    requires { length others.old ≤ vec_capacity sights.old }
    ensures others { others.new ≡ others.old }
    ensures items { sights.new.items ≡ sights.old.items ++ drop (length sights.old.items) others.old }
    ensures capacity { vec_capacity sights.new ≡ vec_capacity sights.old }
{
    for at in sights.len()..others.len() {
        sights.push_reserved(others[at].again());
    }
}
