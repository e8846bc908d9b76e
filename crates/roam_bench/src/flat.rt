//! The same bytes in one flat list, filled and moved plainly, as a yardstick for a grid.
ghost use Rattle.std.specs.Prelude.{◌≤◌};

use roam_cells::{Cell, Style};

/// The work on the list.
#[derive(Clone, Copy)]
pub enum Flat {
    /// One row is filled.
    FillRow,
    /// All cells are filled.
    FillAll,
    /// The rows between margins one row from the edges go up, and a blank row comes in.
    MoveBetween,
    /// All rows but one go down and up again: as IL and then DL.
    MoveRows,
    /// All cells of a row but one go right and left again: as ICH and then DCH.
    MoveCells,
}

// By turns one of two, so that no write is one that changes nothing.
fn filler(turn: u64) -> Cell {
    if turn % 2 == 0 {
        Cell::blank()
    } else {
        Cell::ascii(b'a', Style::default(), false)
    }
}

fn fill(cells: &mut [Cell], times: u64) {
    for turn in 0..times {
        cells.fill(filler(turn));
    }
}

fn move_between(cells: &mut [Cell], rows: usize, cols: usize, times: u64)
    requires size { (rows ≤ 200) × (cols ≤ 500) }
{
    if rows < 4 || cells.len() != rows * cols {
        return;
    }
    for _ in 0..times {
        cells.copy_within(2 * cols..(rows - 1) * cols, cols);
        cells[(rows - 2) * cols..(rows - 1) * cols].fill(Cell::blank());
    }
}

// All but `by` cells to the end, and back.
fn move_and_back(cells: &mut [Cell], by: usize, times: u64) {
    let len = cells.len();
    if len <= by {
        return;
    }
    for _ in 0..times {
        cells.copy_within(0..len - by, by);
        cells[0..by].fill(Cell::blank());
        cells.copy_within(by..len, 0);
        cells[len - by..len].fill(Cell::blank());
    }
}

/// Does it so often to a list of these rows and columns.
pub fn work(cells: &mut [Cell], flat: Flat, rows: usize, cols: usize, times: u64)
    requires size { (rows ≤ 200) × (cols ≤ 500) }
{
    if cells.len() < cols {
        return;
    }
    match flat {
        Flat::FillRow => fill(&mut cells[0..cols], times),
        Flat::FillAll => fill(cells, times),
        Flat::MoveBetween => move_between(cells, rows, cols, times),
        Flat::MoveRows => move_and_back(cells, cols, times),
        Flat::MoveCells => move_and_back(&mut cells[0..cols], 1, times),
    }
}
