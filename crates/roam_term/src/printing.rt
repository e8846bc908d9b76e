//! Characters that are printed: the rows that they push off the screen go to the history before they are gone.
ghost use Rattle.std.specs.Prelude.{◌≡◌, ◌+◌, ◌≤◌, ◌<◌, [], IsTrue, replicate, false, length, take, if◌then◌else◌};
ghost use Rattle.roam_cells.specs.Glyph.{is_right_half, inked_bytes};
ghost use Rattle.roam_grid.specs.Marks.{marks_put, marks_put_all};
ghost use Rattle.roam_grid.specs.Screen.{IsSameSize};
ghost use Rattle.roam_grid.specs.Writing.{wrap_done, put_on, put_all};
ghost use Rattle.roam_rows.specs.Writing.{ArePrintable};
ghost use Rattle.roam_term.specs.Leaving.{left_by_put, left_by_puts};
ghost use Rattle.roam_term.specs.Terminal.{on_main, with_rows};

use crate::leaving::{leave_by_put, stays};
use roam_cells::Cell;
use roam_grid::{Grid, Writing};
use roam_history::History;

// Writes a cell anywhere, and takes the rows that scroll off. It is not part of the loop over characters, which would be slower with it.
#[inline(never)]
fn put_at_edge(
    grid: &mut Grid,
    cell: Cell,
    writing: Writing,
    alternate: bool,
    history: &mut History,
)
    requires no_half { is_right_half cell ≡ false }
    requires cols { history.old.cols ≡ grid.old.screen.cols }
    ensures screen { grid.new.screen ≡ put_on cell writing grid.old.screen }
    ensures marks { grid.new.marks ≡ marks_put cell writing grid.old.screen grid.old.marks }
    ensures history { history.new ≡ with_rows (on_main alternate (left_by_put cell writing grid.old.screen)) history.old }
    ensures size { IsSameSize grid.old.screen grid.new.screen }
{
    leave_by_put(grid, cell, writing, alternate, history);
    grid.put(cell, writing);
}

/// Writes a cell, and takes the rows that scroll off.
#[inline]
pub fn put(grid: &mut Grid, cell: Cell, writing: Writing, alternate: bool, history: &mut History)
    requires no_half { is_right_half cell ≡ false }
    requires cols { history.old.cols ≡ grid.old.screen.cols }
    ensures screen { grid.new.screen ≡ put_on cell writing grid.old.screen }
    ensures marks { grid.new.marks ≡ marks_put cell writing grid.old.screen grid.old.marks }
    ensures history { history.new ≡ with_rows (on_main alternate (left_by_put cell writing grid.old.screen)) history.old }
    ensures size { IsSameSize grid.old.screen grid.new.screen }
{
    stays(history);
    if !writing.inserts && grid.fits_inside(cell) {
        grid.put_inside(cell, writing);
    } else {
        put_at_edge(grid, cell, writing, alternate, history);
    }
}

/// Writes a cell so many times, and takes the rows that scroll off.
pub fn put_times(
    grid: &mut Grid,
    cell: Cell,
    n: u16,
    writing: Writing,
    alternate: bool,
    history: &mut History,
)
    requires no_half { is_right_half cell ≡ false }
    requires cols { history.old.cols ≡ grid.old.screen.cols }
    ensures screen { grid.new.screen ≡ put_all (replicate n cell) writing grid.old.screen }
    ensures marks { grid.new.marks ≡ marks_put_all (replicate n cell) writing grid.old.screen grid.old.marks }
    ensures history { history.new ≡ with_rows (on_main alternate (left_by_puts (replicate n cell) writing grid.old.screen)) history.old }
    ensures size { IsSameSize grid.old.screen grid.new.screen }
{
    for _ in 0..n {
        leave_by_put(grid, cell, writing, alternate, history);
        grid.put(cell, writing);
    }
    stays(history);
}

// How many columns are left of the row that the next character of one column is written in.
fn columns_left(grid: &Grid) -> usize
    ensures left { (wrap_done grid.now.screen).col + result ≡ (wrap_done grid.now.screen).cols }
    ensures some { 0 < result }
{
    grid.facts();
    if grid.pending() {
        grid.cols()
    } else {
        grid.room()
    }
}

// Writes as much of the front of a run as scrolls no row off after its first character, and returns the number of its bytes.
#[inline]
fn put_front(
    grid: &mut Grid,
    pen: Cell,
    bytes: &[u8],
    writing: Writing,
    alternate: bool,
    history: &mut History,
) -> usize
    requires some { 0 < length bytes.now }
    requires printable { ArePrintable bytes.now }
    requires cols { history.old.cols ≡ grid.old.screen.cols }
    ensures some { 0 < result }
    ensures within { result ≤ length bytes.now }
    ensures screen { grid.new.screen ≡ put_all (inked_bytes pen (take result bytes.now)) writing grid.old.screen }
    ensures marks { grid.new.marks
        ≡ marks_put_all (inked_bytes pen (take result bytes.now)) writing grid.old.screen grid.old.marks }
    ensures history { history.new ≡ with_rows (on_main alternate
        (left_by_puts (inked_bytes pen (take result bytes.now)) writing grid.old.screen)) history.old }
    ensures size { IsSameSize grid.old.screen grid.new.screen }
{
    let mut cell = pen;
    cell.set_ascii(bytes[0]);
    leave_by_put(grid, cell, writing, alternate, history);
    let count = bytes.len().min(columns_left(grid));
    grid.put_row_run(pen, &bytes[..count], writing);
    count
}

// Writes printable ASCII bytes in the style and guard of a pen, as many at once as fit a row, and takes the rows that scroll off.
fn put_rows(
    grid: &mut Grid,
    pen: Cell,
    bytes: &[u8],
    writing: Writing,
    alternate: bool,
    history: &mut History,
)
    requires printable { ArePrintable bytes.now }
    requires cols { history.old.cols ≡ grid.old.screen.cols }
    ensures screen { grid.new.screen ≡ put_all (inked_bytes pen bytes.now) writing grid.old.screen }
    ensures marks { grid.new.marks ≡ marks_put_all (inked_bytes pen bytes.now) writing grid.old.screen grid.old.marks }
    ensures history { history.new ≡ with_rows (on_main alternate
        (left_by_puts (inked_bytes pen bytes.now) writing grid.old.screen)) history.old }
    ensures size { IsSameSize grid.old.screen grid.new.screen }
{
    let mut at = 0;
    while at < bytes.len() {
        let count = put_front(grid, pen, &bytes[at..], writing, alternate, history);
        at += count;
    }
    stays(history);
}

// Returns true if so many cells of one column fit into the rest of the cursor's row, and no wrap is pending: then no row scrolls off.
#[inline]
fn fits_row(grid: &Grid, n: usize) -> bool
    ensures settled { IsTrue result → grid.now.screen.pending ≡ false }
    ensures room { IsTrue result → grid.now.screen.col + n ≤ grid.now.screen.cols }
    ensures only { grid.now.screen.pending ≡ false → grid.now.screen.col + n ≤ grid.now.screen.cols → IsTrue result }
{
    grid.facts();
    !grid.pending() && n <= grid.room()
}

/// Writes printable ASCII bytes in the style and guard of a pen, and takes the rows that scroll off.
#[inline]
pub fn put_run(
    grid: &mut Grid,
    pen: Cell,
    bytes: &[u8],
    writing: Writing,
    alternate: bool,
    history: &mut History,
)
    requires some { 0 < length bytes.now }
    requires printable { ArePrintable bytes.now }
    requires cols { history.old.cols ≡ grid.old.screen.cols }
    ensures screen { grid.new.screen ≡ put_all (inked_bytes pen bytes.now) writing grid.old.screen }
    ensures marks { grid.new.marks ≡ marks_put_all (inked_bytes pen bytes.now) writing grid.old.screen grid.old.marks }
    ensures history { history.new ≡ with_rows (on_main alternate
        (left_by_puts (inked_bytes pen bytes.now) writing grid.old.screen)) history.old }
    ensures size { IsSameSize grid.old.screen grid.new.screen }
{
    stays(history);
    if fits_row(grid, bytes.len()) {
        grid.put_row_run(pen, bytes, writing);
    } else {
        put_rows(grid, pen, bytes, writing, alternate, history);
    }
}
