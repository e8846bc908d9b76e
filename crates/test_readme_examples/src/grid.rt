//! A caller of `roam_grid`, as its README shows it (`tools/worked_callers`).

// README: begin
ghost use Rattle.std.specs.Prelude.{◌≡◌, false};
ghost use Rattle.roam_cells.specs.Glyph.{is_right_half};
ghost use Rattle.roam_grid.specs.Cursor.{after_carriage_return, after_index};
ghost use Rattle.roam_grid.specs.Screen.{IsSameSize};
ghost use Rattle.roam_grid.specs.Writing.{put_on};

use roam_cells::Cell;
use roam_grid::{Grid, Writing};

/// Writes a cell, and goes to the instance of the next row.
pub fn write_line(grid: &mut Grid, cell: Cell, writing: Writing)
    requires no_half { is_right_half cell ≡ false }
    ensures screen { grid.new.screen ≡ after_index (after_carriage_return (put_on cell writing grid.old.screen)) }
    ensures size { IsSameSize grid.old.screen grid.new.screen }
{
    grid.put(cell, writing);
    grid.carriage_return();
    grid.index();
}
// README: end
