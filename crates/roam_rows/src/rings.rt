//! The rows themselves: their fields, and the calls that read or change one of them.
ghost use Rattle.std.specs.Prelude.{◌≡◌, ℕ, ◌+◌, ◌-◌, ◌*◌, ◌<◌, ◌≤◌, ◌++◌, true, false, length, replicate, IfOk};
ghost use Rattle.roam_cells.specs.Glyph.{inked_bytes, blank, is_wide, is_right_half};
ghost use Rattle.roam_cells.specs.Limits.{IsSize};
ghost use Rattle.roam_cells.specs.Place.{cell_at, row_of};
ghost use Rattle.roam_rows.specs.Writing.{ArePrintable, joined_rows, writing_source, written_run};
ghost use Rattle.roam_rows.specs.Erasing.{erasure_source, unguarded_blanked};
ghost use Rattle.roam_rows.specs.Editing.{insertion_source, deletion_source};
ghost use Rattle.roam_rows.specs.Vertical.{AreBlanked};

use crate::changing::{Delete, Erase, EraseUnguarded, Insert, Put, PutRun, RowChange};
use crate::lengths::raise;
use crate::places::{bring_back, place, start_of};
use crate::sizing::cut_into;
use crate::spans::blank_between;
use crate::writing::base_column;
use roam_cells::Cell;
use std::alloc::{AllocError, Global};
use std::marker::Model;

/// Rows of cells that go round in one buffer.
#[derive(Drop)]
pub struct Ring {
    // the rows, from row `first` on and round to it
    cells: Vec<Cell>,
    // for each row of `cells` how many of its columns may have been written: those past it are blank, so that a row is blanked and copied
    // at the cost of its columns in use
    lengths: Vec<u16>,
    rows: usize,
    cols: usize,
    first: usize,
}

impl Model for Ring {
    ghost use Rattle.roam_rows.specs.Rows.{Rows};

    ghost Value = { Rows };

    ghost use Rattle.roam_rows.specs.Kept.{view_of, IsKept};

    ghost view = { view_of };

    ghost invariant = { IsKept };
}

impl Ring {
    ghost use Rattle.roam_rows.specs.Rows.{AreRows, blank_rows, buffer_of, filled_rows, with_row};
    ghost use Rattle.roam_rows.specs.Vertical.{IsSameShape, AreTurned, IsCopied, IsTaken};

    /// So many blank rows of so many columns, which have to be within a screen's limits.
    pub fn new(alloc: Global, rows: usize, cols: usize) -> Result<Self, AllocError>
        requires size { IsSize rows cols }
        ensures ring { IfOk result (λ r. r ≡ blank_rows rows cols) }
    {
        Ok(Ring {
            cells: vec![in alloc; Cell::blank(); rows * cols]?,
            lengths: vec![in alloc; 0; rows]?,
            rows,
            cols,
            first: 0,
        })
    }

    /// Facts about all rows: a size within the limits, as many cells, and whole characters in each row.
    #[inline]
    pub fn facts(&self)
        ensures rows { AreRows self.now }
    {
        let _ = &self.cells;
    }

    /// The number of rows.
    #[inline]
    pub fn rows(&self) -> usize
        ensures rows { result ≡ self.now.rows }
    {
        self.rows
    }

    /// The number of columns.
    #[inline]
    pub fn cols(&self) -> usize
        ensures cols { result ≡ self.now.cols }
    {
        self.cols
    }

    /// The row of the buffer that the rows begin with, from 0.
    #[inline]
    pub fn first(&self) -> usize
        ensures first { result ≡ self.now.first }
    {
        self.first
    }

    /// All cells, from the buffer's first row on.
    pub fn buffer(&self) -> &[Cell]
        ensures buffer { result.now ≡ buffer_of self.now }
    {
        &self.cells
    }

    /// The cells of row i, from 0.
    pub fn row(&self, i: usize) -> &[Cell]
        requires row_in { i < self.now.rows }
        ensures row { result.now ≡ row_of self.now.cols self.now.cells i }
        ensures len { length result.now ≡ self.now.cols }
    {
        let at = place(self.rows, self.first, i);
        let start = start_of(self.rows, self.cols, at);
        &self.cells[start..start + self.cols]
    }

    /// The cells of row i, from 0, but for blank ones at its end: a copy of a row costs its columns in use.
    pub fn front_of_row(&self, i: usize) -> &[Cell]
        requires row_in { i < self.now.rows }
        ensures row { row_of self.now.cols self.now.cells i ≡ result.now ++ replicate (self.now.cols - length result.now) blank }
        ensures few { length result.now ≤ self.now.cols }
    {
        let at = place(self.rows, self.first, i);
        let start = start_of(self.rows, self.cols, at);
        &self.cells[start..start + self.lengths[at] as usize]
    }

    // Changes the cells of row `row`, from 0.
    #[inline]
    fn change_row<C: RowChange>(&mut self, row: usize, change: C)
        requires row_in { row < self.old.rows }
        requires fits { C.fits change self.old.cols }
        ensures ring { self.new ≡ with_row row (C.source change (row_of self.old.cols self.old.cells row)) self.old }
    {
        let at = place(self.rows, self.first, row);
        let start = start_of(self.rows, self.cols, at);
        let len = self.lengths[at];
        self.lengths[at] = change.apply(&mut self.cells[start..start + self.cols], len);
    }

    /// Writes a cell of one or two columns into row `row` at column `col`, both from 0, with its right half if it is wide.
    #[inline]
    pub fn put(&mut self, row: usize, col: usize, cell: Cell)
        requires on_rows { (row < self.old.rows) × (col < self.old.cols) }
        requires room { is_wide cell ≡ true → col + 1 < self.old.cols }
        requires no_half { is_right_half cell ≡ false }
        ensures ring { self.new ≡ with_row row (writing_source cell col) self.old }
    {
        self.change_row(row, Put { col, cell });
    }

    /// Writes printable ASCII into row `row` from column `col` on, both from 0, in the style and guard of a pen.
    #[inline]
    pub fn put_run(&mut self, row: usize, col: usize, pen: Cell, bytes: &[u8])
        requires on_rows { (row < self.old.rows) × (col + length bytes.now ≤ self.old.cols) }
        requires some { 0 < length bytes.now }
        requires printable { ArePrintable bytes.now }
        ensures ring { self.new ≡ with_row row (written_run (inked_bytes pen bytes.now) col) self.old }
    {
        self.change_row(row, PutRun { col, pen, bytes });
    }

    /// Blanks the columns of row `row` from `from` on and before `to`, all from 0; guarded cells too.
    pub fn erase(&mut self, row: usize, from: usize, to: usize)
        requires on_rows { (row < self.old.rows) × (from < to) × (to ≤ self.old.cols) }
        ensures ring { self.new ≡ with_row row (erasure_source from to) self.old }
    {
        self.change_row(row, Erase { from, to });
    }

    /// Blanks those that aren't guarded of the columns of row `row` from `from` on and before `to`, all from 0.
    pub fn erase_unguarded(&mut self, row: usize, from: usize, to: usize)
        requires on_rows { (row < self.old.rows) × (from < to) × (to ≤ self.old.cols) }
        ensures ring { self.new ≡ with_row row (unguarded_blanked (row_of self.old.cols self.old.cells row) from to) self.old }
    {
        self.change_row(row, EraseUnguarded { from, to });
    }

    /// Joins a code point to the character at a column of a row, both from 0; nothing changes if it joins none.
    pub fn join(&mut self, row: usize, col: usize, point: char)
        requires on_rows { (row < self.old.rows) × (col < self.old.cols) }
        ensures ring { self.new ≡ joined_rows row col point self.old }
    {
        let at = place(self.rows, self.first, row);
        let start = start_of(self.rows, self.cols, at);
        let base = base_column(&self.cells[start..start + self.cols], col);
        // A blank that a code point joins is no blank any more.
        raise(self.lengths.as_mut_slice(), at, (base + 1) as u16);
        let cell = self.cells[start + base];
        self.cells[start + base] = cell.with_point(point);
    }

    /// Makes every cell a cell of one column.
    pub fn fill(&mut self, cell: Cell)
        requires narrow { (is_wide cell ≡ false) × (is_right_half cell ≡ false) }
        ensures ring { self.new ≡ filled_rows cell self.old }
    {
        self.cells.as_mut_slice().fill(cell);
        self.lengths.as_mut_slice().fill(self.cols as u16);
    }

    /// Inserts n blanks at a column of a row, both from 0; the cells from there on go to the right, and the last ones are lost.
    pub fn insert(&mut self, row: usize, col: usize, n: usize)
        requires on_rows { (row < self.old.rows) × (col < self.old.cols) }
        ensures ring { self.new ≡ with_row row (insertion_source col n) self.old }
    {
        self.change_row(row, Insert { col, n });
    }

    /// Deletes n cells at a column of a row, both from 0; those right of them go to the left, and blanks come in at the edge.
    pub fn delete(&mut self, row: usize, col: usize, n: usize)
        requires on_rows { (row < self.old.rows) × (col < self.old.cols) }
        ensures ring { self.new ≡ with_row row (deletion_source self.old.cols col n) self.old }
    {
        self.facts();
        self.change_row(row, Delete { col, n });
    }

    /// Blanks a row.
    #[inline]
    pub(crate) fn blank_row(&mut self, row: usize)
        requires on_rows { row < self.old.rows }
        ensures shape { IsSameShape self.old self.new }
        ensures blanked { AreBlanked self.old.rows self.old.cols row (row + 1) self.old.cells self.new.cells }
    {
        let at = place(self.rows, self.first, row);
        let start = start_of(self.rows, self.cols, at);
        let len = self.lengths[at] as usize;
        self.lengths[at] = 0;
        blank_between(&mut self.cells, start, start + len);
    }

    /// Makes a row what another is.
    #[inline]
    pub(crate) fn copy_row(&mut self, source: usize, target: usize)
        requires on_rows { (source < self.old.rows) × (target < self.old.rows) }
        ensures copied { IsCopied source target self.old self.new }
    {
        let from = place(self.rows, self.first, source);
        let to = place(self.rows, self.first, target);
        let size = self.lengths[from];
        let count = size as usize;
        let end = count.max(self.lengths[to] as usize);
        let source_start = start_of(self.rows, self.cols, from);
        let target_start = start_of(self.rows, self.cols, to);
        self.lengths[to] = size;
        let cells = self.cells.as_mut_slice();
        cells.copy_within(source_start..source_start + count, target_start);
        blank_between(cells, target_start + count, target_start + end);
    }

    /// Copies a row of other rows, cut at the right edge, over a blank row.
    pub(crate) fn take_row(&mut self, row: usize, other: &Ring, source: usize)
        requires on_rows { (row < self.old.rows) × (source < other.now.rows) }
        requires empty { (c : ℕ) → c < self.old.cols → cell_at self.old.cols self.old.cells row c ≡ blank }
        ensures taken { IsTaken row source other.now self.old self.new }
    {
        other.facts();
        let front = other.front_of_row(source);
        let at = place(self.rows, self.first, row);
        let start = start_of(self.rows, self.cols, at);
        self.lengths[at] = front.len().min(self.cols) as u16;
        cut_into(&mut self.cells[start..start + self.cols], front);
    }

    /// Lets the rows begin n rows later.
    #[inline]
    pub(crate) fn turn(&mut self, n: usize)
        requires few { n ≤ self.old.rows }
        ensures turned { AreTurned n self.old self.new }
    {
        self.first = bring_back(self.rows, self.first + n);
    }
}
