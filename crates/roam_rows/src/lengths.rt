//! The length of a row: how many of its columns may have been written. Those past it are blank.
ghost use Rattle.std.specs.Prelude.{◌≡◌, ℕ, ◌+◌, ◌-◌, ◌<◌, ◌≤◌, ◌⊎◌, true, false, max, length, slice_set, slice_index_or};
ghost use Rattle.roam_cells.specs.Glyph.{is_wide};

use roam_cells::Cell;

/// A row's length after its columns from one on and before another became blank.
#[inline]
pub fn length_after(len: u16, from: usize, to: usize) -> u16
    requires few { from ≤ 500 }
    ensures low { result ≤ len }
    ensures rest { (c : ℕ) → result ≤ c → (len ≤ c) ⊎ ((from ≤ c) × (c < to)) }
    ensures short { len ≤ to → result ≤ from }
{
    if to < len as usize {
        len
    } else {
        len.min(from as u16)
    }
}

/// A row's length after n blanks came in at a column.
#[inline]
pub fn length_inserted(len: u16, col: usize, n: usize, cols: usize) -> u16
    requires few { (cols ≤ 500) × (len ≤ cols) }
    ensures low { result ≤ cols }
    ensures left { (c : ℕ) → result ≤ c → c < col → len ≤ c }
    ensures right { (c : ℕ) → result ≤ c → c < cols → col + n ≤ c → len ≤ c - n }
{
    if len as usize <= col {
        len
    } else {
        (len as usize + n.min(cols)).min(cols) as u16
    }
}

/// A row's length after n cells went out at a column.
#[inline]
pub fn length_deleted(len: u16, col: usize, n: usize) -> u16
    ensures low { result ≤ len }
    ensures left { (c : ℕ) → result ≤ c → c < col → len ≤ c }
    ensures right { (c : ℕ) → result ≤ c → col ≤ c → len ≤ c + n }
    ensures short { result ≤ max col (len - n) }
{
    if len as usize <= col {
        len
    } else {
        (len as usize).saturating_sub(n).max(col) as u16
    }
}

/// The column after a cell that is written in one.
#[inline]
pub fn end_of(cell: &Cell, col: usize, cols: usize) -> u16
    requires room { (cols ≤ 500) × (col < cols) }
    ensures narrow { is_wide cell.now ≡ false → result ≡ col + 1 }
    ensures wide { is_wide cell.now ≡ true → result ≡ col + 2 }
{
    let width = if cell.is_wide() { 2 } else { 1 };
    (col + width) as u16
}

/// Makes a row at least as long as up to a column.
#[inline]
pub fn raise(lengths: &mut [u16], at: usize, end: u16)
    requires at_in { at < length lengths.old }
    ensures lengths { lengths.new ≡ slice_set lengths.old at (max (slice_index_or lengths.old at 0) end) }
{
    if lengths[at] < end {
        lengths[at] = end;
    }
}
