//! The places of rows in the buffer.
ghost use Rattle.std.specs.Prelude.{◌≡◌, ◌+◌, ◌*◌, ◌<◌, ◌≤◌};
ghost use Rattle.roam_rows.specs.Turned.{brought_back};

/// Brings a row number that goes round once back below the number of rows.
#[inline]
pub fn bring_back(rows: usize, at: usize) -> usize
    ensures row { result ≡ brought_back rows at }
{
    if at < rows { at } else { at - rows }
}

/// Returns the row of the buffer, from 0, that is row `row` of the screen, from 0.
#[inline]
pub fn place(rows: usize, first: usize, row: usize) -> usize
    requires rows { (rows ≤ 200) × (first < rows) × (row < rows) }
    ensures place { result ≡ brought_back rows (first + row) }
    ensures low { result < rows }
{
    bring_back(rows, first + row)
}

/// Returns the index in the buffer at which the buffer's row `at` begins.
#[inline]
#[tactic(auto, using(roam_cells::proofs::Places::row_from))]
pub fn start_of(rows: usize, cols: usize, at: usize) -> usize
    requires size { (rows ≤ 200) × (cols ≤ 500) }
    requires row { at < rows }
    ensures start { result ≡ at * cols }
    ensures room { result + cols ≤ rows * cols }
{
    at * cols
}
