//! Erasing in one row.
ghost use Rattle.std.specs.Prelude.{◌≡◌, ℕ, ◌<◌, ◌≤◌, length, slice_index_or};
ghost use Rattle.roam_cells.specs.Glyph.{blank};
ghost use Rattle.roam_cells.specs.Place.{IsWholeRow};
ghost use Rattle.roam_rows.specs.Row.{row_moved};
ghost use Rattle.roam_rows.specs.Erasing.{erasure_source, unguarded_blanked};

use crate::halves::{part_twice, part_unguarded};
use crate::spans::blank_between;
use roam_cells::Cell;

/// Blanks the columns of a row from one on and before another; those from `len` on are blank already.
pub fn erase(row: &mut [Cell], from: usize, to: usize, len: usize)
    requires range { (from < to) × (to ≤ length row.old) }
    requires rest { (c : ℕ) → len ≤ c → c < length row.old → slice_index_or row.old c blank ≡ blank }
    requires whole { IsWholeRow row.old }
    ensures after { row.new ≡ row_moved row.old (erasure_source from to) }
    ensures whole { IsWholeRow row.new }
{
    part_twice(row, from, to);
    let end = to.min(len);
    blank_between(row, from.min(end), end);
}

/// Blanks those that aren't guarded of the columns of a row from one on and before another; those from `len` on are blank already.
pub fn erase_unguarded(row: &mut [Cell], from: usize, to: usize, len: usize)
    requires range { (from < to) × (to ≤ length row.old) }
    requires rest { (c : ℕ) → len ≤ c → c < length row.old → slice_index_or row.old c blank ≡ blank }
    requires whole { IsWholeRow row.old }
    ensures after { row.new ≡ row_moved row.old (unguarded_blanked row.old from to) }
    ensures whole { IsWholeRow row.new }
{
    part_unguarded(row, from);
    part_unguarded(row, to);
    for c in from..to.min(len) {
        if !row[c].guard() {
            row[c] = Cell::blank();
        }
    }
}
