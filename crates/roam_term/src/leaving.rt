//! The rows that leave the screen at its top, which the history takes before they are gone.
ghost use Rattle.std.specs.Prelude.{◌≡◌, ◌+◌, ◌≤◌, ◌<◌, [], if◌then◌else◌};
ghost use Rattle.roam_grid.specs.Frames.{leaving};
ghost use Rattle.roam_term.specs.Leaving.{top_rows, left_by_put, left_by_motion, left_by_edit};
ghost use Rattle.roam_term.specs.Terminal.{on_main, with_rows};

use roam_cells::Cell;
use roam_controls::{Edit, Motion};
use roam_grid::{Grid, Writing};
use roam_history::History;

/// A fact about every history: if no row comes in, it stays.
pub fn stays(history: &History)
    ensures stays { with_rows [] history.now ≡ history.now }
{
    history.facts();
}

/// The first n rows of a screen come in.
pub fn take_top_rows(grid: &Grid, n: usize, history: &mut History)
    requires cols { history.old.cols ≡ grid.now.screen.cols }
    requires few { n ≤ grid.now.screen.rows }
    ensures history { history.new ≡ with_rows (top_rows n grid.now.screen) history.old }
{
    stays(history);
    grid.facts();
    for i in 0..n {
        history.push_front(grid.front_of_row(i));
    }
}

// Takes the first row into the history if it scrolls off.
fn take_first_row(grid: &Grid, leaves: bool, history: &mut History)
    requires cols { history.old.cols ≡ grid.now.screen.cols }
    ensures history { history.new ≡ with_rows (if leaves then top_rows 1 grid.now.screen else []) history.old }
{
    stays(history);
    grid.facts();
    if leaves {
        take_top_rows(grid, 1, history);
    }
}

/// Takes the rows that a cell to be written will scroll off.
#[inline]
pub fn leave_by_put(
    grid: &Grid,
    cell: Cell,
    writing: Writing,
    alternate: bool,
    history: &mut History,
)
    requires cols { history.old.cols ≡ grid.now.screen.cols }
    ensures history { history.new ≡ with_rows (on_main alternate (left_by_put cell writing grid.now.screen)) history.old }
{
    let (top, _) = grid.margins();
    let columns = if cell.is_wide() { 2 } else { 1 };
    let leaves = !alternate && top == 0 && grid.leaves(columns, writing);
    take_first_row(grid, leaves, history);
}

/// Takes the rows that a move to be done will scroll off.
#[inline]
pub fn leave_by_motion(grid: &Grid, motion: Motion, alternate: bool, history: &mut History)
    requires cols { history.old.cols ≡ grid.now.screen.cols }
    ensures history { history.new ≡ with_rows (on_main alternate (left_by_motion motion grid.now.screen)) history.old }
{
    stays(history);
    grid.facts();
    match motion {
        Motion::LineFeed | Motion::Index | Motion::NextLine => {
            let (row, _) = grid.cursor();
            let (top, bottom) = grid.margins();
            let leaves = !alternate && top == 0 && row == bottom + 1;
            take_first_row(grid, leaves, history);
        }
        _ => {}
    }
}

/// Takes the rows that an edit to be done will scroll off.
pub fn leave_by_edit(grid: &Grid, edit: Edit, alternate: bool, history: &mut History)
    requires cols { history.old.cols ≡ grid.now.screen.cols }
    ensures history { history.new ≡ with_rows (on_main alternate (left_by_edit edit grid.now.screen)) history.old }
{
    stays(history);
    grid.facts();
    if let Edit::ScrollUp(n) = edit {
        let (top, bottom) = grid.margins();
        if !alternate && top == 0 {
            take_top_rows(grid, usize::from(n).min(bottom + 1), history);
        }
    }
}

/// Takes the rows that another number of rows will scroll off, so that the cursor's row stays.
pub fn leave_by_size(grid: &Grid, rows: usize, alternate: bool, history: &mut History)
    requires some { 0 < rows }
    requires cols { history.old.cols ≡ grid.now.screen.cols }
    ensures history { history.new ≡ with_rows (on_main alternate (top_rows (leaving rows grid.now.screen) grid.now.screen)) history.old }
{
    stays(history);
    if !alternate {
        take_top_rows(grid, grid.leaving(rows), history);
    }
}
