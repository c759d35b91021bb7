//! `Places`: where the cells of a row stand.

ghost use Rattle.std.specs.Prelude.{◌≡◌, ◌≢◌, ◌↔◌, ◌+◌, ◌%◌, ◌<◌, ◌≤◌, [], length, Some, None, slice_get, IfOk};
ghost use Rattle.std.specs.Prelude.{IfSome, IfNone, IsTrue};
ghost use mathlib.Core.List.{IsPrefix};
ghost use Rattle.once_cell.specs.Once.{cell_name};
ghost use Rattle.basis_log.specs.Places.{Placed, cells_of};
ghost use Rattle.basis_log.specs.Rows.{IsRow};
ghost use Rattle.basis_log.specs.Sights.{Agree};
ghost use Rattle.basis_log.specs.declared.TheConstants.{SEGMENT as CELLS};

use crate::segments::Segment;
use crate::sights::{self, Sight};
use crate::{Item, Row, SEGMENT};
use once_cell::race::OnceBox;
use std::alloc::{AllocError, Global};
use std::marker::Model;

/// A row, and those of its segments that a caller has seen in the directory: the first ones. There is room for all.
#[derive(Drop)]
pub(crate) struct Places<'r> {
    row: &'r Row,
    segments: Vec<Sight<'r, Segment>>,
}

impl<'r> Model for Places<'r> {
    ghost use Rattle.std.specs.Prelude.{◌≤◌, length};
    ghost use Rattle.std.specs.Vec.{vec_capacity};
    ghost use Rattle.basis_log.specs.Places.{Placed, ArePlaced};

    ghost Value = { Placed };

    ghost view = { λ p. record { row = p.row.now; segments = p.segments.items } };

    ghost invariant = { λ p. ArePlaced p.row.now.directory p.segments.items
        × (length p.row.now.directory ≤ vec_capacity p.segments) };
}

impl<'r> Places<'r> {
    /// A row of which no segment was seen.
    pub(crate) fn new(alloc: Global, row: &'r Row) -> Result<Places<'r>, AllocError>
        ensures { IfOk result (λ p. (p.row ≡ row.entry.now) × (p.segments ≡ [])) }
    {
        let segments = Vec::with_capacity(alloc, row.directory().len())?;
        Ok(Places { row, segments })
    }

    /// The row.
    pub(crate) fn row(&self) -> &'r Row
        ensures { result.now ≡ self.now.row }
    {
        self.row
    }

    /// The cell with this number, which is at most one past the cells of the segments seen. Where its segment wasn't
    /// seen before, the directory is read. `None` where the directory doesn't hold the segment.
    pub(crate) fn cell(&mut self, at: u32) -> Option<&'r OnceBox<Item>>
        requires some { at < self.old.row.cells }
        requires next { at ≤ length (cells_of self.old.segments) }
        ensures row { self.new.row ≡ self.old.row }
        ensures grows { IsPrefix (cells_of self.old.segments) (cells_of self.new.segments) }
        ensures cell { IfSome result (λ c. slice_get (cells_of self.new.segments) at ≡ Some (cell_name c.now)) }
        ensures none { IfNone result ((self.new ≡ self.old) × (at ≡ length (cells_of self.old.segments))
            × (at % CELLS ≡ 0)) }
    {
        if !self.holds(at) {
            let sight = Sight::read(self.next(at))?;
            self.push(sight);
        }
        Some(self.seen(at))
    }

    /// As `cell`, but where the directory doesn't hold the segment, the spare one is set there, if there is one. It
    /// stays spare where another one was set meanwhile.
    pub(crate) fn cell_or_set(
        &mut self,
        at: u32,
        spare: &mut Option<Box<Segment>>,
    ) -> Option<&'r OnceBox<Item>>
        requires some { at < self.old.row.cells }
        requires next { at ≤ length (cells_of self.old.segments) }
        ensures row { self.new.row ≡ self.old.row }
        ensures grows { IsPrefix (cells_of self.old.segments) (cells_of self.new.segments) }
        ensures cell { IfSome result (λ c. slice_get (cells_of self.new.segments) at ≡ Some (cell_name c.now)) }
        ensures none { IfNone result ((at % CELLS ≡ 0) × (spare.old ≡ None) × (spare.new ≡ None)) }
        ensures spare { at % CELLS ≢ 0 → spare.new ≡ spare.old }
    {
        if let Some(cell) = self.cell(at) {
            return Some(cell);
        }
        let segment = spare.take()?;
        let (sight, back) = Sight::set(self.next(at), segment);
        *spare = back;
        self.push(sight);
        Some(self.seen(at))
    }

    /// What another has seen of the row is the same as far as both go.
    pub(crate) fn agree(&mut self, other: &mut Places<'_>)
        requires { other.old.row ≡ self.old.row }
        ensures same { (self.new ≡ self.old) × (other.new ≡ other.old) }
        ensures agree { Agree self.old.segments other.old.segments }
    {
        sights::agree(self.segments.as_mut_slice(), other.segments.as_mut_slice());
    }

    /// Takes over the segments that another has seen.
    pub(crate) fn learn(&mut self, other: &mut Places<'r>)
        requires { other.old.row ≡ self.old.row }
        ensures other { other.new ≡ other.old }
        ensures row { self.new.row ≡ self.old.row }
        ensures grows { IsPrefix self.old.segments self.new.segments }
        ensures told { IsPrefix other.old.segments self.new.segments }
    {
        sights::learn(&mut self.segments, other.segments.as_mut_slice());
    }

    /// Whether the cell with this number stands in a segment that was seen.
    fn holds(&self, at: u32) -> bool
        ensures { IsTrue result ↔ (at < length (cells_of self.now.segments)) }
    {
        ((at / SEGMENT) as usize) < self.segments.len()
    }

    /// The cell with this number, which stands in a segment that was seen.
    fn seen(&self, at: u32) -> &'r OnceBox<Item>
        requires { at < length (cells_of self.now.segments) }
        ensures { slice_get (cells_of self.now.segments) at ≡ Some (cell_name result.now) }
    {
        let segment = self.segments[(at / SEGMENT) as usize].value();
        segment.cell((at % SEGMENT) as usize)
    }

    /// The directory's cell for the segment that the cell with this number begins: the first one not seen.
    fn next(&self, at: u32) -> &'r OnceBox<Segment>
        requires some { at < self.now.row.cells }
        requires next { at ≡ length (cells_of self.now.segments) }
        ensures is { slice_get self.now.row.directory (length self.now.segments) ≡ Some (cell_name result.now) }
        ensures first { at % CELLS ≡ 0 }
    {
        &self.row.directory()[self.segments.len()]
    }

    /// Keeps the segment after those that were seen.
    fn push(&mut self, sight: Sight<'r, Segment>)
        requires { slice_get self.old.row.directory (length self.old.segments) ≡ Some sight.cell }
        ensures row { self.new.row ≡ self.old.row }
        ensures grows { IsPrefix (cells_of self.old.segments) (cells_of self.new.segments) }
        ensures longer { length (cells_of self.new.segments) ≡ length (cells_of self.old.segments) + CELLS }
    {
        // The proof needs that a segment is full, and the call says so.
        sight.value().known();
        self.segments.push_reserved(sight);
    }
}
