//! The two halves of a wide character at a boundary between columns that is cut.
ghost use Rattle.std.specs.Prelude.{◌<◌, ◌≤◌, length};
ghost use Rattle.roam_cells.specs.Place.{IsWholeRow};
ghost use Rattle.roam_rows.specs.Halves.{AreParted, cut_at, cut_twice, cut_unguarded};

use roam_cells::Cell;

/// Makes two spaces of a wide cell before a column of a row and its right half in it.
#[inline]
pub fn part_inside(row: &mut [Cell], col: usize)
    requires col_in { col < length row.old }
    requires whole { IsWholeRow row.old }
    ensures parted { AreParted (cut_at col) row.old row.new }
    ensures whole { IsWholeRow row.new }
{
    let right = row[col];
    if right.is_right_half() {
        let left = row[col - 1];
        row[col - 1] = left.space_in();
        row[col] = right.space_in();
    }
}

/// The same for a column that may be past the row's last; then nothing is in it.
#[inline]
pub fn part(row: &mut [Cell], col: usize)
    requires whole { IsWholeRow row.old }
    ensures parted { AreParted (cut_at col) row.old row.new }
    ensures whole { IsWholeRow row.new }
{
    if col < row.len() {
        part_inside(row, col);
    }
}

/// The same before two columns.
#[inline]
pub fn part_twice(row: &mut [Cell], col: usize, last: usize)
    requires col_in { col < length row.old }
    requires order { col ≤ last }
    requires whole { IsWholeRow row.old }
    ensures parted { AreParted (cut_twice col last) row.old row.new }
    ensures whole { IsWholeRow row.new }
{
    part_inside(row, col);
    part(row, last);
}

/// The same before one column, but for a guarded pair.
pub fn part_unguarded(row: &mut [Cell], col: usize)
    requires whole { IsWholeRow row.old }
    ensures parted { AreParted (cut_unguarded row.old col) row.old row.new }
    ensures whole { IsWholeRow row.new }
{
    if col < row.len() && !row[col].guard() {
        part(row, col);
    }
}
