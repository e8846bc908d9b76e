//! Writing in one row.
ghost use Rattle.std.specs.Prelude.{◌≡◌, ℕ, ◌+◌, ◌-◌, ◌<◌, ◌≤◌, ◌⊎◌, true, false, length, slice_index, slice_index_or, if◌then◌else◌};
ghost use Rattle.roam_cells.specs.Glyph.{ascii_in, inked_bytes, blank, is_wide, is_right_half};
ghost use Rattle.roam_cells.specs.Place.{glyph_at, IsWholeRow};
ghost use Rattle.roam_rows.specs.Row.{row_moved};
ghost use Rattle.roam_rows.specs.Writing.{writing_source, written_run, ArePrintable};

use crate::halves::part_twice;
use roam_cells::Cell;

/// Writes a cell of one or two columns, with its right half if it is wide, into a row.
#[inline]
pub fn write(row: &mut [Cell], col: usize, cell: Cell)
    requires col_in { col < length row.old }
    requires room { is_wide cell ≡ true → col + 1 < length row.old }
    requires no_half { is_right_half cell ≡ false }
    requires whole { IsWholeRow row.old }
    ensures after { row.new ≡ row_moved row.old (writing_source cell col) }
    ensures whole { IsWholeRow row.new }
{
    if cell.is_wide() {
        part_twice(row, col, col + 2);
        row[col] = cell;
        row[col + 1] = cell.right();
    } else {
        part_twice(row, col, col + 1);
        row[col] = cell;
    }
}

/// Lays ASCII cells in the style and guard of a pen over those from a column on.
#[inline]
fn lay(row: &mut [Cell], col: usize, pen: Cell, bytes: &[u8])
    requires fits { col + length bytes.now ≤ length row.old }
    requires printable { ArePrintable bytes.now }
    ensures len { length row.new ≡ length row.old }
    ensures inside { (k : ℕ) → k < length bytes.now
        → slice_index_or row.new (col + k) blank ≡ ascii_in (slice_index bytes.now k) pen }
    ensures outside { (k : ℕ) → (k < col) ⊎ (col + length bytes.now ≤ k)
        → slice_index_or row.new k blank ≡ slice_index_or row.old k blank }
{
    for i in 0..bytes.len() {
        let mut cell = pen;
        cell.set_ascii(bytes[i]);
        row[col + i] = cell;
    }
}

/// Writes ASCII cells beside each other into a row, in the style and guard of a pen.
#[inline]
pub fn write_run(row: &mut [Cell], col: usize, pen: Cell, bytes: &[u8])
    requires fits { col + length bytes.now ≤ length row.old }
    requires some { 0 < length bytes.now }
    requires printable { ArePrintable bytes.now }
    requires whole { IsWholeRow row.old }
    ensures after { row.new ≡ row_moved row.old (written_run (inked_bytes pen bytes.now) col) }
    ensures whole { IsWholeRow row.new }
{
    part_twice(row, col, col + bytes.len());
    lay(row, col, pen, bytes);
}

/// The column of the character that a column of a row is part of: of a pair the left half's.
pub fn base_column(row: &[Cell], col: usize) -> usize
    requires col_in { col < length row.now }
    requires whole { IsWholeRow row.now }
    ensures base { result ≡ (if is_right_half (glyph_at row.now col) then col - 1 else col) }
    ensures low { result ≤ col }
    ensures no_half { is_right_half (glyph_at row.now result) ≡ false }
{
    let cell = row[col];
    if cell.is_right_half() { col - 1 } else { col }
}
