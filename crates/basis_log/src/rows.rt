//! `Row`: cells that threads share.

ghost use Rattle.std.specs.Prelude.{◌≡◌, ◌+◌, ◌*◌, ◌<◌, ◌≤◌, ◌^◌, false, [], length, map, IfOk};
ghost use Rattle.std.specs.Arc.{arc_value};
ghost use Rattle.once_cell.specs.Once.{cell_name};
ghost use Rattle.basis_log.specs.Rows.{Rowed, AreBaseOfSome, IsRow, row_source};
ghost use Rattle.basis_log.specs.Seats.{items_of};
ghost use Rattle.basis_log.specs.declared.TheConstants.{SEGMENT as CELLS};

use crate::segments::Segment;
use crate::{SEGMENT, Seat};
use basis_entry::Entry;
use once_cell::race::OnceBox;
use presentation::Presentation;
use std::alloc::{AllocError, Global};
use std::marker::Model;
use std::sync::Arc;

/// The generator entries of a presentation, and cells after them that are each set once. The cells stand in segments,
/// which the cells of a directory hold. A cell whose segment the directory doesn't hold isn't set.
#[derive(Drop)]
pub struct Row {
    base: Vec<Arc<Entry>>,
    directory: Vec<OnceBox<Segment>>,
    cells: u32,
}

impl Model for Row {
    ghost use Rattle.std.specs.Prelude.{map};
    ghost use Rattle.std.specs.Arc.{arc_value};
    ghost use Rattle.once_cell.specs.Once.{cell_name};
    ghost use Rattle.basis_log.specs.Rows.{Rowed, IsRow};

    ghost Value = { Rowed };

    ghost view = { λ r. record {
      base = map arc_value r.base.items;
      cells = r.cells;
      directory = map cell_name r.directory.items;
    } };

    ghost invariant = { λ r. IsRow (record {
      base = map arc_value r.base.items;
      cells = r.cells;
      directory = map cell_name r.directory.items;
    }) };
}

impl Row {
    /// A row with these generator entries of a presentation and so many cells after them: together fewer than 2^32. The
    /// first segment is made here.
    pub fn open(alloc: Global, base: Vec<Arc<Entry>>, cells: u32) -> Result<Row, AllocError>
        requires base { AreBaseOfSome (map arc_value base.items) }
        requires few { length base.items + cells < 2 ^ 32 }
        ensures { IfOk result (λ r. (r.base ≡ map arc_value base.items) × (r.cells ≡ cells)) }
    {
        let directory = directory(alloc, cells)?;
        if let Some(cell) = directory.first() {
            let _set = cell.set(Box::new(alloc, Segment::new(alloc)?)?);
        }
        Ok(Row {
            base,
            directory,
            cells,
        })
    }

    /// A seat that has seen the generator entries alone and has no spare segment. It takes all the room that its list
    /// will need.
    pub fn seat(&self, alloc: Global) -> Result<Seat<'_>, AllocError>
        ensures { IfOk result (λ s. s ≡ record { row = self.now; items = items_of self.now.base []; spare = false }) }
    {
        Seat::new(alloc, self)
    }

    /// The presentation whose generator entries begin the row.
    pub fn presentation(&self) -> &Presentation
        ensures { result.now ≡ row_source self.now }
    {
        self.base[0].presentation()
    }

    /// The generator entries.
    pub fn base(&self) -> &[Arc<Entry>]
        ensures is { map arc_value result.now ≡ self.now.base }
        ensures row { IsRow self.now }
    {
        &self.base
    }

    /// How many cells come after the generator entries.
    pub fn cells(&self) -> u32
        ensures { result ≡ self.now.cells }
    {
        self.cells
    }

    /// The directory: a cell for each segment.
    pub(crate) fn directory(&self) -> &[OnceBox<Segment>]
        ensures is { map cell_name result.now ≡ self.now.directory }
        ensures enough { self.now.cells ≤ CELLS * length result.now }
    {
        &self.directory
    }
}

/// A directory for so many cells, none of it set.
fn directory(alloc: Global, cells: u32) -> Result<Vec<OnceBox<Segment>>, AllocError>
    ensures { IfOk result (λ made. cells ≤ CELLS * length made.items) }
{
    let count = cells.div_ceil(SEGMENT);
    let mut made = Vec::with_capacity(alloc, count as usize)?;
    for _ in 0..count {
        made.push(OnceBox::new(alloc))?;
    }
    Ok(made)
}
