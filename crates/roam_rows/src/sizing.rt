//! Rows brought to another size: all memory first, then the content.
ghost use Rattle.std.specs.Prelude.{◌≡◌, ℕ, ◌+◌, ◌<◌, true, length, IfOk, nat_lt, slice_index_or};
ghost use Rattle.roam_cells.specs.Glyph.{blank};
ghost use Rattle.roam_cells.specs.Limits.{IsSize};
ghost use Rattle.roam_cells.specs.Place.{glyph_at, IsWholeRow};
ghost use Rattle.roam_rows.specs.Row.{mended_glyph};

use crate::rings::Ring;
use roam_cells::Cell;
use std::alloc::{AllocError, Global};
use std::marker::Model;

/// All the memory that rows of a size take, with nothing written in it.
#[derive(Drop)]
pub struct Fitted {
    pub(crate) ring: Ring,
}

impl Model for Fitted {
    ghost use Rattle.roam_rows.specs.Sizing.{Size, size_of, IsFresh};

    ghost Value = { Size };

    ghost view = { size_of };

    ghost invariant = { IsFresh };
}

impl Fitted {
    /// Memory for so many rows of so many columns, which have to be within a screen's limits.
    pub fn new(alloc: Global, rows: usize, cols: usize) -> Result<Self, AllocError>
        requires size { IsSize rows cols }
        ensures size { IfOk result (λ f. f ≡ record { rows = rows; cols = cols }) }
    {
        Ok(Fitted {
            ring: Ring::new(alloc, rows, cols)?,
        })
    }

    /// The number of rows.
    pub fn rows(&self) -> usize
        ensures rows { result ≡ self.now.rows }
    {
        self.ring.rows()
    }

    /// The number of columns.
    pub fn cols(&self) -> usize
        ensures cols { result ≡ self.now.cols }
    {
        self.ring.cols()
    }
}

/// Writes a row over a blank one: cells past the edge are lost, and a wide cell that is cut there becomes a space in its style and guard.
pub fn cut_into(row: &mut [Cell], source: &[Cell])
    requires empty { (c : ℕ) → c < length row.old → slice_index_or row.old c blank ≡ blank }
    requires whole { IsWholeRow source.now }
    ensures len { length row.new ≡ length row.old }
    ensures each { (c : ℕ) → c < length row.new
        → glyph_at row.new c ≡ mended_glyph (glyph_at source.now c) (nat_lt (c + 1) (length row.new)) true }
    ensures whole { IsWholeRow row.new }
{
    let count = source.len().min(row.len());
    row[..count].copy_from_slice(&source[..count]);
    if 0 < count {
        let last = row[count - 1];
        if last.is_wide() {
            row[count - 1] = last.space_in();
        }
    }
}

impl Ring {
    ghost use Rattle.roam_rows.specs.Sizing.{sized_rows};

    /// Brings the rows to another size, after `off` of them have left at the top; takes no memory.
    pub fn adopt(&mut self, fitted: Fitted, off: usize)
        ensures ring { self.new ≡ sized_rows fitted.rows fitted.cols off self.old }
    {
        let Fitted { ring } = fitted;
        let mut ring = ring;
        ring.facts();
        self.facts();
        let count = self.rows().saturating_sub(off).min(ring.rows());
        for row in 0..count {
            ring.take_row(row, self, row + off);
        }
        ring.facts();
        *self = ring;
    }
}
