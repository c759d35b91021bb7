//! `Seat`: a caller's view of a row.

ghost use Rattle.std.specs.Bool.{MatchBool};
ghost use Rattle.std.specs.List.{AllByRecursion};
ghost use Rattle.std.specs.Prelude.{◌≡◌, ◌≢◌, ◌≤◌, ◌<◌, ◌^◌, ◌++◌, ◌∷◌, [], max, true, false, length, Some, None};
ghost use Rattle.std.specs.Prelude.{slice_get};
ghost use Rattle.std.specs.Prelude.{IfOk, IfErr, IfSome, OnErr, IsErr, IsTrue, MatchOption};
ghost use Rattle.std.specs.Arc.{arc_value};
ghost use Rattle.std.specs.Vec.{vec_capacity};
ghost use mathlib.Core.List.{IsPrefix};
ghost use Rattle.basis_entry.specs.Entries.{IsBasisEntry, AreOf};
ghost use Rattle.basis_log.specs.Items.{LogItem, shown, item_source, entries_of, seal_of, AreItems, AreSomeItems};
ghost use Rattle.basis_log.specs.Refusals.{SaysRefused, IsAtEnd};
ghost use Rattle.basis_log.specs.Rows.{row_source};
ghost use Rattle.basis_log.specs.Seats.{items_of, shown_in, taken, in_segment};
ghost use Rattle.basis_log.specs.Sights.{Agree};

use crate::places::Places;
use crate::segments::Segment;
use crate::sights::{self, Sight};
use crate::{Item, Refused, Row};
use basis_entry::{Entry, Sealed};
use std::alloc::{AllocError, Global};
use std::marker::Model;
use std::sync::Arc;

/// A caller's view of a row: the generator entries, and the items that it has seen in the cells after them, in order.
/// Its list grows by its own calls alone, and what stands in it never changes.
#[derive(Drop)]
pub struct Seat<'r> {
    places: Places<'r>,
    seen: Vec<Sight<'r, Item>>,
    spare: Option<Box<Segment>>,
}

impl<'r> Model for Seat<'r> {
    ghost use Rattle.std.specs.Prelude.{◌≤◌, is_some};
    ghost use Rattle.std.specs.Vec.{vec_capacity};
    ghost use Rattle.basis_log.specs.Seats.{Seen, IsSeat, items_of, shown_in};

    ghost Value = { Seen };

    ghost view = { λ s. record {
      row = s.places.row;
      items = items_of s.places.row.base (shown_in s.seen.items);
      spare = is_some s.spare;
    } };

    ghost invariant = { λ s. IsSeat s.places s.seen.items × (s.places.row.cells ≤ vec_capacity s.seen) };
}

impl<'r> Seat<'r> {
    /// A seat that has seen the generator entries alone.
    pub(crate) fn new(alloc: Global, row: &'r Row) -> Result<Seat<'r>, AllocError>
        ensures { IfOk result (λ s. s ≡ record {
          row = row.entry.now;
          items = items_of row.entry.now.base [];
          spare = false;
        }) }
    {
        // The proof needs what holds of the row, and the call says so.
        let _ = row.base();
        let places = Places::new(alloc, row)?;
        let seen = Vec::with_capacity(alloc, row.cells() as usize)?;
        Ok(Seat {
            places,
            seen,
            spare: None,
        })
    }

    /// The row.
    pub fn row(&self) -> &'r Row
        ensures { result.now ≡ self.now.row }
    {
        self.places.row()
    }

    /// The number of items in the list.
    pub fn front(&self) -> u32
        ensures is { result ≡ length self.now.items }
        ensures items { AreItems (row_source self.now.row) self.now.items }
        ensures entries { AllByRecursion IsBasisEntry (entries_of self.now.items) }
        ensures source { AreOf (row_source self.now.row) (entries_of self.now.items) }
    {
        (self.row().base().len() + self.seen.len()) as u32
    }

    /// The seal, where the list ends with one.
    pub fn sealed(&self) -> Option<&'r Sealed>
        ensures { MatchOption result (seal_of self.now.items ≡ None) (λ s. seal_of self.now.items ≡ Some s.now) }
    {
        last_seal(self.seen.as_slice())
    }

    /// The entry with this number.
    pub fn entry(&self, at: u32) -> &'r Arc<Entry>
        requires { at < length (entries_of self.now.items) }
        ensures { slice_get (entries_of self.now.items) at ≡ Some (arc_value result.now) }
    {
        let base = self.row().base();
        match base.get(at as usize) {
            Some(entry) => entry,
            None => entry_in(self.seen.as_slice(), at as usize - base.len()),
        }
    }

    /// Reads cells after the list's items until it finds one that isn't set or that holds an item of another
    /// presentation, or until the list ends with a seal. Answers the number of items that the list then has.
    pub fn look(&mut self) -> u32
        ensures row { self.new.row ≡ self.old.row }
        ensures spare { self.new.spare ≡ self.old.spare }
        ensures grows { IsPrefix self.old.items self.new.items }
        ensures front { result ≡ length self.new.items }
    {
        while self.look_once() {}
        self.front()
    }

    /// Reads the cell after the list's items, and tells whether it gave an item to the list.
    fn look_once(&mut self) -> bool
        ensures row { self.new.row ≡ self.old.row }
        ensures spare { self.new.spare ≡ self.old.spare }
        ensures items { MatchBool result ((x : LogItem) × (self.new.items ≡ self.old.items ++ x ∷ [])) (self.new.items
            ≡ self.old.items) }
        ensures room { IsTrue result → taken self.old < self.old.row.cells }
    {
        let at = self.seen.len() as u32;
        if at >= self.row().cells() || self.sealed().is_some() {
            return false;
        }
        let Some(cell) = self.places.cell(at) else {
            return false;
        };
        let Some(sight) = Sight::read(cell) else {
            return false;
        };
        admit(&mut self.seen, self.places.row(), sight).is_none()
    }

    /// Takes over what another seat of the row has seen: the list is then the longer of both.
    pub fn learn(&mut self, other: &mut Seat<'r>)
        requires { other.old.row ≡ self.old.row }
        ensures other { other.new ≡ other.old }
        ensures row { self.new.row ≡ self.old.row }
        ensures spare { self.new.spare ≡ self.old.spare }
        ensures grows { IsPrefix self.old.items self.new.items }
        ensures told { IsPrefix other.old.items self.new.items }
        ensures front { length self.new.items ≡ max (length self.old.items) (length other.old.items) }
    {
        self.places.learn(&mut other.places);
        sights::learn(&mut self.seen, other.seen.as_mut_slice());
    }

    /// Makes a spare segment, if there is none.
    pub fn reserve(&mut self, alloc: Global) -> Result<(), AllocError>
        ensures ok { IfOk result (λ _. self.new ≡ record { row = self.old.row; items = self.old.items; spare = true }) }
        ensures err { OnErr result (self.new ≡ self.old) }
    {
        if self.spare.is_none() {
            self.spare = Some(Box::new(alloc, Segment::new(alloc)?)?);
        }
        Ok(())
    }

    /// Whether there is a spare segment.
    pub fn spare(&self) -> bool
        ensures { result ≡ self.now.spare }
    {
        self.spare.is_some()
    }

    /// Sets the cell after the list's items to the item, which is of the row's presentation; the list has no seal.
    /// After Ok the item stands in the list. Where the cell's segment isn't made, the spare one is taken for it.
    pub fn publish(&mut self, item: Box<Item>) -> Result<(), Refused<'r>>
        requires unsealed { seal_of self.old.items ≡ None }
        requires source { item_source (shown item.value) ≡ row_source self.old.row }
        ensures row { self.new.row ≡ self.old.row }
        ensures ok { IfOk result (λ _. self.new.items ≡ self.old.items ++ shown item.value ∷ []) }
        ensures refused { IfErr result (λ r. SaysRefused r item.value self.old self.new) }
        ensures full { IsAtEnd self.old → IsErr result }
        ensures spare { in_segment self.old ≢ 0 → self.new.spare ≡ self.old.spare }
    {
        let at = self.seen.len() as u32;
        if at >= self.row().cells() {
            return Err(Refused::NoCell { item });
        }
        let Some(cell) = self.places.cell_or_set(at, &mut self.spare) else {
            return Err(Refused::NoCell { item });
        };
        let (sight, back) = Sight::set(cell, item);
        let held = sight.value();
        if let Some(item) = admit(&mut self.seen, self.places.row(), sight) {
            return Err(Refused::Foreign { item });
        }
        match back {
            Some(item) if !item.same(held) => Err(Refused::Held),
            _ => Ok(()),
        }
    }
}

/// The lists of two seats of one row are the same as far as both go.
pub fn agree(seat: &mut Seat<'_>, other: &mut Seat<'_>)
    requires { other.old.row ≡ seat.old.row }
    ensures same { (seat.new ≡ seat.old) × (other.new ≡ other.old) }
    ensures agree { Agree seat.old.items other.old.items }
{
    seat.places.agree(&mut other.places);
    sights::agree(seat.seen.as_mut_slice(), other.seen.as_mut_slice());
}

/// Puts what was seen in the next cell at the end of the list if it is of the row's presentation, and else shows it.
fn admit<'r>(seen: &mut Vec<Sight<'r, Item>>, row: &Row, sight: Sight<'r, Item>) -> Option<&'r Item>
    requires room { length seen.old.items < vec_capacity seen.old }
    requires items { AreItems (row_source row.now) (shown_in seen.old.items) }
    requires unsealed { seal_of (shown_in seen.old.items) ≡ None }
    ensures items { AreItems (row_source row.now) (shown_in seen.new.items) }
    ensures is { MatchOption result (seen.new.items ≡ seen.old.items ++ sight.entry ∷ [])
        (λ _. seen.new.items ≡ seen.old.items) }
    ensures held { IfSome result (λ held. (held.now ≡ sight.entry.value)
        × (item_source (shown held.now) ≢ row_source row.now)) }
    ensures capacity { vec_capacity seen.new ≡ vec_capacity seen.old }
{
    let item = sight.value();
    if !item.presentation().same(row.presentation()) {
        return Some(item);
    }
    // The proof needs what holds of the item, and the call says so.
    item.known();
    seen.push_reserved(sight);
    None
}

/// The seal, if it was seen last.
fn last_seal<'r>(seen: &[Sight<'r, Item>]) -> Option<&'r Sealed>
    requires { AreSomeItems (shown_in seen.now) }
    ensures { MatchOption result (seal_of (shown_in seen.now) ≡ None) (λ s. seal_of (shown_in seen.now) ≡ Some s.now) }
{
    match seen.last()?.value() {
        Item::Entry(_) => None,
        Item::Seal(seal) => Some(seal),
    }
}

/// The entry with this number among what was seen.
fn entry_in<'r>(seen: &[Sight<'r, Item>], at: usize) -> &'r Arc<Entry>
    requires items { AreSomeItems (shown_in seen.now) }
    requires at { at < length (entries_of (shown_in seen.now)) }
    ensures { slice_get (entries_of (shown_in seen.now)) at ≡ Some (arc_value result.now) }
{
    match seen[at].value() {
        Item::Entry(entry) => entry,
        Item::Seal(_) => unreachable!(),
    }
}
