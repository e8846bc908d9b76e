//! Moves of the cursor.
ghost use Rattle.std.specs.Prelude.{◌≡◌, ◌-◌, if◌then◌else◌};
ghost use Rattle.roam_grid.specs.Cursor.{after_carriage_return, after_index, moved_to};
ghost use Rattle.roam_grid.specs.Screen.{IsSameSize};
ghost use Rattle.roam_grid.specs.Marks.{marks_indexed};
ghost use Rattle.roam_term.specs.Motions.{row_under, after_home, moved_by};
ghost use Rattle.roam_term.specs.Marks.{marks_moved_by};

use roam_controls::{Modes, Motion};
use roam_grid::Grid;

// A row from 1 as a row from 0; under DECOM it counts from the top margin and stops at the bottom margin.
fn row_under(grid: &Grid, origin: bool, row: u16) -> usize
    ensures row { result ≡ row_under origin row grid.now.screen }
{
    let row = usize::from(row).saturating_sub(1);
    if !origin {
        return row;
    }
    grid.facts();
    let (top, bottom) = grid.margins();
    (top + row).min(bottom)
}

/// To the first column of the first row, under DECOM of the top margin's.
pub fn home(grid: &mut Grid, origin: bool)
    ensures homed { grid.new.screen ≡ after_home origin grid.old.screen }
    ensures marks { grid.new.marks ≡ grid.old.marks }
    ensures size { IsSameSize grid.old.screen grid.new.screen }
{
    let row = row_under(grid, origin, 1);
    grid.move_to(row, 0);
}

// LF, VT and FF: as IND, and under LNM to the first column too.
fn line_feed(grid: &mut Grid, returns: bool)
    ensures fed { grid.new.screen ≡ (if returns then after_carriage_return (after_index grid.old.screen) else after_index grid.old.screen) }
    ensures marks { grid.new.marks ≡ marks_indexed grid.old.screen grid.old.marks }
    ensures size { IsSameSize grid.old.screen grid.new.screen }
{
    grid.index();
    if returns {
        grid.carriage_return();
    }
}

// To a column from 1 of the cursor's row.
fn move_to_column(grid: &mut Grid, col: u16)
    ensures moved { grid.new.screen ≡ moved_to grid.old.screen.row (col - 1) grid.old.screen }
    ensures marks { grid.new.marks ≡ grid.old.marks }
    ensures size { IsSameSize grid.old.screen grid.new.screen }
{
    let (row, _) = grid.cursor();
    grid.move_to(row - 1, usize::from(col).saturating_sub(1));
}

// To a row from 0, in the cursor's column.
fn move_to_row(grid: &mut Grid, row: usize)
    ensures moved { grid.new.screen ≡ moved_to row grid.old.screen.col grid.old.screen }
    ensures marks { grid.new.marks ≡ grid.old.marks }
    ensures size { IsSameSize grid.old.screen grid.new.screen }
{
    let (_, col) = grid.cursor();
    grid.move_to(row, col - 1);
}

/// Moves the cursor.
pub fn move_by(grid: &mut Grid, motion: Motion, modes: Modes)
    ensures moved { grid.new.screen ≡ moved_by motion modes grid.old.screen }
    ensures marks { grid.new.marks ≡ marks_moved_by motion grid.old.screen grid.old.marks }
    ensures size { IsSameSize grid.old.screen grid.new.screen }
{
    match motion {
        Motion::Backspace => grid.backspace(),
        Motion::CarriageReturn => grid.carriage_return(),
        Motion::LineFeed => line_feed(grid, modes.newline),
        Motion::Index => grid.index(),
        Motion::NextLine => {
            grid.carriage_return();
            grid.index();
        }
        Motion::Up(n) => grid.move_up(usize::from(n)),
        Motion::Down(n) => grid.move_down(usize::from(n)),
        Motion::Right(n) => grid.move_right(usize::from(n)),
        Motion::Left(n) => grid.move_left(usize::from(n)),
        Motion::NextLines(n) => {
            grid.move_down(usize::from(n));
            grid.carriage_return();
        }
        Motion::PreviousLines(n) => {
            grid.move_up(usize::from(n));
            grid.carriage_return();
        }
        Motion::ReverseIndex => grid.reverse_index(),
        Motion::Tab(n) => grid.tab(usize::from(n)),
        Motion::BackTab(n) => grid.back_tab(usize::from(n)),
        Motion::Column(col) => move_to_column(grid, col),
        Motion::Row(row) => {
            let row = row_under(grid, modes.origin, row);
            move_to_row(grid, row);
        }
        Motion::Position(row, col) => {
            let row = row_under(grid, modes.origin, row);
            grid.move_to(row, usize::from(col).saturating_sub(1));
        }
    }
}
