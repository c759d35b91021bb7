//! `Segment`: some cells of a row.

ghost use Rattle.std.specs.Prelude.{◌≡◌, ◌<◌, length, Some, slice_get, IfOk};
ghost use Rattle.once_cell.specs.Once.{cell_name};
ghost use Rattle.basis_log.specs.declared.TheConstants.{SEGMENT as CELLS};

use crate::{Item, SEGMENT};
use once_cell::race::OnceBox;
use std::alloc::{AllocError, Global};
use std::marker::Model;

/// Cells that follow each other in a row. Contracts see their names.
#[derive(Drop)]
pub(crate) struct Segment {
    cells: Vec<OnceBox<Item>>,
}

impl Model for Segment {
    ghost use Rattle.std.specs.Prelude.{ℕ, List, ◌≡◌, map, length};
    ghost use Rattle.once_cell.specs.Once.{cell_name};
    ghost use Rattle.basis_log.specs.declared.TheConstants.{SEGMENT};

    ghost Value = { List ℕ };

    ghost view = { λ s. map cell_name s.cells.items };

    ghost invariant = { λ s. length s.cells.items ≡ SEGMENT };
}

impl Segment {
    /// A segment of cells that aren't set.
    pub(crate) fn new(alloc: Global) -> Result<Segment, AllocError> {
        let mut cells = Vec::with_capacity(alloc, SEGMENT as usize)?;
        for _ in 0..SEGMENT {
            cells.push(OnceBox::new(alloc))?;
        }
        Ok(Segment { cells })
    }

    /// The cell with this number.
    pub(crate) fn cell(&self, at: usize) -> &OnceBox<Item>
        requires { at < CELLS }
        ensures { slice_get self.now at ≡ Some (cell_name result.now) }
    {
        &self.cells[at]
    }

    /// A segment is full.
    pub(crate) fn known(&self)
        ensures { length self.now ≡ CELLS }
    {
        let _ = &self.cells;
    }
}
