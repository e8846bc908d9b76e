//! One row of a history, in memory that is used again for a later row.
ghost use Rattle.std.specs.Prelude.{◌≡◌, ℕ, ◌<◌, ◌≤◌, length, replicate, IfOk};
ghost use Rattle.roam_cells.specs.Glyph.{blank};
ghost use Rattle.roam_cells.specs.Place.{glyph_at};
ghost use Rattle.roam_history.specs.Lines.{refitted_at, refitted_row, with_blanks};

use roam_cells::Cell;
use std::alloc::{AllocError, Global};
use std::marker::Model;

/// A row of cells that knows how far it may have been written: from there on it is blank, so that it is overwritten and copied at the cost
/// of its columns in use.
#[derive(Drop)]
pub struct Line {
    cells: Vec<Cell>,
    written: usize,
}

impl Model for Line {
    ghost use Rattle.std.specs.Prelude.{List};
    ghost use Rattle.roam_cells.specs.Glyph.{Glyph};
    ghost use Rattle.roam_history.specs.Lines.{IsWritten};

    ghost Value = { List Glyph };

    ghost view = { λ a. a.cells.items };

    ghost invariant = { λ a. IsWritten a.written a.cells.items };
}

/// Writes a row over a line whose columns from `written` on are blank: cells that don't fit are lost, and blanks fill the rest.
fn cover(line: &mut [Cell], row: &[Cell], written: usize)
    requires few { written ≤ length line.old }
    requires rest { (c : ℕ) → written ≤ c → glyph_at line.old c ≡ blank }
    ensures len { length line.new ≡ length line.old }
    ensures each { (c : ℕ) → c < length line.old → glyph_at line.new c ≡ glyph_at row.now c }
{
    let count = row.len().min(line.len());
    line[..count].copy_from_slice(&row[..count]);
    line[count..written.max(count)].fill(Cell::blank());
}

/// Makes a space of a wide cell in the last column.
fn mend_last(line: &mut [Cell])
    ensures len { length line.new ≡ length line.old }
    ensures each { (c : ℕ) → c < length line.old → glyph_at line.new c ≡ refitted_at (length line.old) line.old c }
{
    let count = line.len();
    if 0 < count {
        let last = line[count - 1];
        if last.is_wide() {
            line[count - 1] = last.space_in();
        }
    }
}

/// Writes a row over a line, of which the columns from `written` on are blank: it is cut or padded to the line's columns.
fn write_over(line: &mut [Cell], row: &[Cell], written: usize)
    requires few { written ≤ length line.old }
    requires rest { (c : ℕ) → written ≤ c → glyph_at line.old c ≡ blank }
    ensures len { length line.new ≡ length line.old }
    ensures line { line.new ≡ refitted_row (length line.old) row.now }
{
    cover(line, row, written);
    // A row that ends before it leaves the last column blank, which isn't read then: it is apart from the written part.
    if line.len() <= row.len() {
        mend_last(line);
    }
}

impl Line {
    /// A blank row of so many columns.
    pub fn blank(alloc: Global, cols: usize) -> Result<Self, AllocError>
        ensures line { IfOk result (λ line. line ≡ replicate cols blank) }
    {
        Ok(Line {
            cells: vec![in alloc; Cell::blank(); cols]?,
            written: 0,
        })
    }

    /// Its cells.
    pub fn cells(&self) -> &[Cell]
        ensures cells { result.now ≡ self.now }
    {
        &self.cells
    }

    /// Its cells but for blank ones at its end.
    pub fn front(&self) -> &[Cell]
        ensures row { self.now ≡ with_blanks (length self.now) result.now }
        ensures few { length result.now ≤ length self.now }
    {
        &self.cells[..self.written]
    }

    /// Makes it another row, cut or padded to its own columns.
    pub fn take(&mut self, row: &[Cell])
        ensures line { self.new ≡ refitted_row (length self.old) row.now }
    {
        let written = self.written;
        self.written = row.len().min(self.cells.len());
        write_over(&mut self.cells, row, written);
    }
}
