//! Cells and lines that come in, go out and scroll.
ghost use Rattle.std.specs.Prelude.{◌≡◌};
ghost use Rattle.roam_grid.specs.Screen.{IsSameSize};
ghost use Rattle.roam_term.specs.Edits.{edited_by};
ghost use Rattle.roam_term.specs.Marks.{marks_edited_by};

use roam_controls::Edit;
use roam_grid::Grid;

/// Edits a screen.
pub fn edit_by(grid: &mut Grid, edit: Edit)
    ensures edited { grid.new.screen ≡ edited_by edit grid.old.screen }
    ensures marks { grid.new.marks ≡ marks_edited_by edit grid.old.screen grid.old.marks }
    ensures size { IsSameSize grid.old.screen grid.new.screen }
{
    match edit {
        Edit::InsertCells(n) => grid.insert_cells(usize::from(n)),
        Edit::DeleteCells(n) => grid.delete_cells(usize::from(n)),
        Edit::InsertLines(n) => grid.insert_lines(usize::from(n)),
        Edit::DeleteLines(n) => grid.delete_lines(usize::from(n)),
        Edit::ScrollUp(n) => grid.scroll_up(usize::from(n)),
        Edit::ScrollDown(n) => grid.scroll_down(usize::from(n)),
        Edit::Align => grid.align(),
    }
}
