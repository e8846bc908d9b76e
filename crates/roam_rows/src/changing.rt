//! Changes of the cells of one row, wherever it is in the buffer.
ghost use Rattle.std.specs.Prelude.{◌≡◌, ℕ, ◌+◌, ◌<◌, ◌≤◌, List, true, false, length, slice_index_or};
ghost use Rattle.roam_cells.specs.Glyph.{Glyph, blank, inked_bytes, is_right_half, is_wide};
ghost use Rattle.roam_cells.specs.Place.{IsWholeRow};
ghost use Rattle.roam_rows.specs.Row.{RowSource, IsInRow, row_moved};
ghost use Rattle.roam_rows.specs.Writing.{ArePrintable, writing_source, written_run};
ghost use Rattle.roam_rows.specs.Erasing.{erasure_source, unguarded_blanked};
ghost use Rattle.roam_rows.specs.Editing.{insertion_source, deletion_source};

use crate::editing::{delete, insert};
use crate::erasing::{erase, erase_unguarded};
use crate::lengths::{end_of, length_after, length_deleted, length_inserted};
use crate::writing::{write, write_run};
use roam_cells::Cell;

/// A change of the cells of one row.
pub trait RowChange {
    /// Where each column of a row takes its cell then.
    ghost source: { Self → List Glyph → ℕ → RowSource };

    /// True if the change is possible in a row of so many columns.
    ghost fits: { Self → ℕ → Type 0 };

    /// Changes a row whose cells from `len` on are blank, and returns the new such length.
    fn apply(self, row: &mut [Cell], len: u16) -> u16
        requires fits { fits self (length row.old) }
        requires few { length row.old ≤ 500 }
        requires len_in { len ≤ length row.old }
        requires rest { (c : ℕ) → len ≤ c → c < length row.old → slice_index_or row.old c blank ≡ blank }
        requires whole { IsWholeRow row.old }
        ensures stays { (c : ℕ) → c < length row.old → IsInRow (length row.old) (source self row.old c) }
        ensures after { row.new ≡ row_moved row.old (source self row.old) }
        ensures whole { IsWholeRow row.new }
        ensures low { result ≤ length row.old }
        ensures rest { (c : ℕ) → result ≤ c → c < length row.old → slice_index_or row.new c blank ≡ blank };
}

/// Writes a cell of one or two columns at a column, with its right half if it is wide.
#[derive(Clone, Copy)]
pub struct Put {
    pub col: usize,
    pub cell: Cell,
}

/// Printable ASCII is written from a column on, in the style and guard of a pen.
#[derive(Clone, Copy)]
pub struct PutRun<'a> {
    pub col: usize,
    pub pen: Cell,
    pub bytes: &'a [u8],
}

/// The columns from one on and before another are blanked, guarded ones too.
#[derive(Clone, Copy)]
pub struct Erase {
    pub from: usize,
    pub to: usize,
}

/// Blanks the unguarded columns from one on and before another.
#[derive(Clone, Copy)]
pub struct EraseUnguarded {
    pub from: usize,
    pub to: usize,
}

/// So many blanks come in at a column.
#[derive(Clone, Copy)]
pub struct Insert {
    pub col: usize,
    pub n: usize,
}

/// So many cells go out at a column.
#[derive(Clone, Copy)]
pub struct Delete {
    pub col: usize,
    pub n: usize,
}

impl RowChange for Put {
    ghost source = { λ put row. writing_source put.cell put.col };

    ghost fits = { λ put cols. (put.col < cols) × (is_wide put.cell ≡ true → put.col + 1 < cols) × (is_right_half put.cell ≡ false) };

    #[inline]
    fn apply(self, row: &mut [Cell], len: u16) -> u16 {
        let end = end_of(&self.cell, self.col, row.len());
        write(row, self.col, self.cell);
        len.max(end)
    }
}

impl RowChange for PutRun<'_> {
    ghost source = { λ run row. written_run (inked_bytes run.pen run.bytes.now) run.col };

    ghost fits = { λ run cols. (run.col + length run.bytes.now ≤ cols) × (0 < length run.bytes.now) × ArePrintable run.bytes.now };

    #[inline]
    fn apply(self, row: &mut [Cell], len: u16) -> u16 {
        write_run(row, self.col, self.pen, self.bytes);
        len.max((self.col + self.bytes.len()) as u16)
    }
}

impl RowChange for Erase {
    ghost source = { λ erase row. erasure_source erase.from erase.to };

    ghost fits = { λ erase cols. (erase.from < erase.to) × (erase.to ≤ cols) };

    #[inline]
    fn apply(self, row: &mut [Cell], len: u16) -> u16 {
        erase(row, self.from, self.to, len as usize);
        length_after(len, self.from, self.to)
    }
}

impl RowChange for EraseUnguarded {
    ghost source = { λ erase row. unguarded_blanked row erase.from erase.to };

    ghost fits = { λ erase cols. (erase.from < erase.to) × (erase.to ≤ cols) };

    #[inline]
    fn apply(self, row: &mut [Cell], len: u16) -> u16 {
        erase_unguarded(row, self.from, self.to, len as usize);
        len
    }
}

impl RowChange for Insert {
    ghost source = { λ insert row. insertion_source insert.col insert.n };

    ghost fits = { λ insert cols. insert.col < cols };

    #[inline]
    fn apply(self, row: &mut [Cell], len: u16) -> u16 {
        let cols = row.len();
        insert(row, self.col, self.n, len as usize);
        length_inserted(len, self.col, self.n, cols)
    }
}

impl RowChange for Delete {
    ghost source = { λ delete row. deletion_source (length row) delete.col delete.n };

    ghost fits = { λ delete cols. delete.col < cols };

    #[inline]
    fn apply(self, row: &mut [Cell], len: u16) -> u16 {
        delete(row, self.col, self.n, len as usize);
        length_deleted(len, self.col, self.n)
    }
}
