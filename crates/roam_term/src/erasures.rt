//! Erasures.
ghost use Rattle.std.specs.Prelude.{◌≡◌};
ghost use Rattle.roam_grid.specs.Screen.{IsSameSize};
ghost use Rattle.roam_term.specs.Erasures.{erased_by};
ghost use Rattle.roam_term.specs.Marks.{marks_erased_by};

use roam_controls::Erasure;
use roam_grid::Grid;

/// Erases cells.
pub fn erase_by(grid: &mut Grid, erasure: Erasure)
    ensures erased { grid.new.screen ≡ erased_by erasure grid.old.screen }
    ensures marks { grid.new.marks ≡ marks_erased_by erasure grid.old.screen grid.old.marks }
    ensures size { IsSameSize grid.old.screen grid.new.screen }
{
    match erasure {
        Erasure::InPage(extent) => grid.erase_in_page(extent),
        Erasure::InLine(extent) => grid.erase_in_line(extent),
        Erasure::SelectivelyInPage(extent) => grid.erase_selectively_in_page(extent),
        Erasure::SelectivelyInLine(extent) => grid.erase_selectively_in_line(extent),
        Erasure::Cells(n) => grid.erase_cells(usize::from(n.max(1))),
    }
}
