//! Blank cells in large moves.
ghost use Rattle.std.specs.Prelude.{◌≡◌, ℕ, ◌<◌, ◌≤◌, length, slice_index_or};
ghost use Rattle.roam_cells.specs.Glyph.{blank};

use roam_cells::Cell;

/// How many cells are blanked field by field before the others are copied from them.
const FIRST_BLANKS: usize = 8;

/// Writes blanks from one index on and before another, each field by field.
#[inline]
fn fill_between(cells: &mut [Cell], start: usize, end: usize)
    requires range { (start ≤ end) × (end ≤ length cells.old) }
    ensures len { length cells.new ≡ length cells.old }
    ensures before { (k : ℕ) → k < start → slice_index_or cells.new k blank ≡ slice_index_or cells.old k blank }
    ensures inside { (k : ℕ) → start ≤ k → k < end → slice_index_or cells.new k blank ≡ blank }
    ensures after { (k : ℕ) → end ≤ k → slice_index_or cells.new k blank ≡ slice_index_or cells.old k blank }
{
    cells[start..end].fill(Cell::blank());
}

/// Blanks the cells from one index on and before another: a few, and then twice as many each time, since cells are copied in larger moves
/// than they are written.
pub fn blank_between(cells: &mut [Cell], start: usize, end: usize)
    requires range { (start ≤ end) × (end ≤ length cells.old) }
    ensures len { length cells.new ≡ length cells.old }
    ensures before { (k : ℕ) → k < start → slice_index_or cells.new k blank ≡ slice_index_or cells.old k blank }
    ensures inside { (k : ℕ) → start ≤ k → k < end → slice_index_or cells.new k blank ≡ blank }
    ensures after { (k : ℕ) → end ≤ k → slice_index_or cells.new k blank ≡ slice_index_or cells.old k blank }
{
    let mut done = start + (end - start).min(FIRST_BLANKS);
    fill_between(cells, start, done);
    while done < end {
        let count = (end - done).min(done - start);
        cells.copy_within(start..start + count, done);
        done += count;
    }
}
