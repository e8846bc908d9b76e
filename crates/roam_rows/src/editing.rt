//! Cells that come in and go out in one row.
ghost use Rattle.std.specs.Prelude.{◌≡◌, ℕ, ◌<◌, ◌≤◌, length, slice_index_or};
ghost use Rattle.roam_cells.specs.Glyph.{blank};
ghost use Rattle.roam_cells.specs.Place.{IsWholeRow};
ghost use Rattle.roam_rows.specs.Row.{row_moved};
ghost use Rattle.roam_rows.specs.Editing.{insertion_source, deletion_source};

use crate::halves::part_twice;
use crate::spans::blank_between;
use roam_cells::Cell;

/// Inserts n blanks at a column of a row that is blank from `len` on; cells past the edge are lost.
pub fn insert(row: &mut [Cell], col: usize, n: usize, len: usize)
    requires col_in { col < length row.old }
    requires rest { (c : ℕ) → len ≤ c → c < length row.old → slice_index_or row.old c blank ≡ blank }
    requires whole { IsWholeRow row.old }
    ensures after { row.new ≡ row_moved row.old (insertion_source col n) }
    ensures whole { IsWholeRow row.new }
{
    let n = n.min(row.len() - col);
    if 0 < n {
        let edge = row.len() - n;
        part_twice(row, col, edge);
        let last = len.min(edge).max(col);
        row.copy_within(col..last, col + n);
        blank_between(row, col, col + n);
    }
}

/// Takes n cells out at a column of a row that is blank from `len` on; blanks come in at the edge.
pub fn delete(row: &mut [Cell], col: usize, n: usize, len: usize)
    requires col_in { col < length row.old }
    requires len_in { len ≤ length row.old }
    requires rest { (c : ℕ) → len ≤ c → c < length row.old → slice_index_or row.old c blank ≡ blank }
    requires whole { IsWholeRow row.old }
    ensures after { row.new ≡ row_moved row.old (deletion_source (length row.old) col n) }
    ensures whole { IsWholeRow row.new }
{
    let n = n.min(row.len() - col);
    if 0 < n {
        part_twice(row, col, col + n);
        let end = len.max(col + n);
        row.copy_within(col + n..end, col);
        blank_between(row, end - n, end);
    }
}
