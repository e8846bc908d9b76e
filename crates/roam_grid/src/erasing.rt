//! Erasures.
ghost use Rattle.std.specs.Prelude.{◌≡◌, ◌<◌, ◌≤◌};
ghost use Rattle.roam_grid.specs.Erasing.{line_from, line_to, page_from, page_to};

use crate::grids::Grid;
use crate::marks::{mark_row, mark_rows, mark_unguarded};
use roam_cells::Extent;

/// The columns that an extent names of the row of a column, from one on and before another.
fn columns(extent: Extent, cols: usize, col: usize) -> (usize, usize)
    requires col_in { col < cols }
    ensures from { result.0 ≡ line_from extent col }
    ensures to { result.1 ≡ line_to extent cols col }
    ensures some { (result.0 < result.1) × (result.1 ≤ cols) }
{
    match extent {
        Extent::ToEnd => (col, cols),
        Extent::ToStart => (0, col + 1),
        Extent::All => (0, cols),
    }
}

/// Returns the rows that an extent names besides that row, from one on and before another; all if it names all.
fn other_rows(extent: Extent, rows: usize, row: usize) -> (usize, usize)
    requires row_in { row < rows }
    ensures from { result.0 ≡ page_from extent row }
    ensures to { result.1 ≡ page_to extent rows row }
    ensures range { (result.0 ≤ result.1) × (result.1 ≤ rows) }
{
    match extent {
        Extent::ToEnd => (row + 1, rows),
        Extent::ToStart => (0, row),
        Extent::All => (0, rows),
    }
}

impl Grid {
    ghost use Rattle.roam_grid.specs.Marks.{marks_in_line, marks_erased_in_page, marks_erased_selectively_in_line, marks_erased_selectively_in_page};
    ghost use Rattle.roam_grid.specs.Screen.{IsSameSize};
    ghost use Rattle.roam_grid.specs.Erasing.{erased_in_page, erased_in_line, erased_selectively_in_page, erased_selectively_in_line};

    /// Blanks part of the screen, guarded cells too (ED, ECMA-48 8.3.39).
    #[tactic(auto, unfolding(crate::specs::Erasing::erased_in_page))]
    pub fn erase_in_page(&mut self, extent: Extent)
        ensures screen { self.new.screen ≡ erased_in_page extent self.old.screen }
        ensures first { self.new.first ≡ self.old.first }
        ensures marks { self.new.marks ≡ marks_erased_in_page extent self.old.screen self.old.marks }
        ensures size { IsSameSize self.old.screen self.new.screen }
    {
        self.ring.facts();
        let rows = self.ring.rows();
        let cols = self.ring.cols();
        self.pending = false;
        let (left, right) = columns(extent, cols, self.col);
        self.ring.erase(self.row, left, right);
        self.ring.facts();
        let (top, bottom) = other_rows(extent, rows, self.row);
        self.ring.blank_rows(top, bottom);
        mark_row(&mut self.marks, self.row);
        mark_rows(&mut self.marks, top, bottom);
    }

    /// Blanks part of the cursor's row, guarded cells too (EL, ECMA-48 8.3.41).
    #[tactic(auto, unfolding(crate::specs::Erasing::erased_in_line))]
    pub fn erase_in_line(&mut self, extent: Extent)
        ensures screen { self.new.screen ≡ erased_in_line extent self.old.screen }
        ensures first { self.new.first ≡ self.old.first }
        ensures marks { self.new.marks ≡ marks_in_line self.old.screen self.old.marks }
        ensures size { IsSameSize self.old.screen self.new.screen }
    {
        self.pending = false;
        let (from, to) = columns(extent, self.ring.cols(), self.col);
        self.ring.erase(self.row, from, to);
        mark_row(&mut self.marks, self.row);
    }

    /// Blanks part of the screen but for guarded cells (DECSED, VT220 Programmer Reference).
    #[tactic(auto, unfolding(crate::specs::Erasing::erased_selectively_in_page))]
    pub fn erase_selectively_in_page(&mut self, extent: Extent)
        ensures screen { self.new.screen ≡ erased_selectively_in_page extent self.old.screen }
        ensures first { self.new.first ≡ self.old.first }
        ensures marks { self.new.marks ≡ marks_erased_selectively_in_page extent self.old.screen self.old.marks }
        ensures size { IsSameSize self.old.screen self.new.screen }
    {
        self.ring.facts();
        let rows = self.ring.rows();
        let cols = self.ring.cols();
        self.pending = false;
        let (left, right) = columns(extent, cols, self.col);
        let (top, bottom) = other_rows(extent, rows, self.row);
        mark_unguarded(
            &mut self.marks,
            &self.ring,
            (self.row, self.row + 1),
            (left, right),
        );
        mark_unguarded(&mut self.marks, &self.ring, (top, bottom), (0, cols));
        self.ring.erase_unguarded(self.row, left, right);
        self.ring.facts();
        self.ring.blank_unguarded_rows(top, bottom);
    }

    /// Blanks part of the cursor's row but for guarded cells (DECSEL, VT220 Programmer Reference).
    #[tactic(auto, unfolding(crate::specs::Erasing::erased_selectively_in_line))]
    pub fn erase_selectively_in_line(&mut self, extent: Extent)
        ensures screen { self.new.screen ≡ erased_selectively_in_line extent self.old.screen }
        ensures first { self.new.first ≡ self.old.first }
        ensures marks { self.new.marks ≡ marks_erased_selectively_in_line extent self.old.screen self.old.marks }
        ensures size { IsSameSize self.old.screen self.new.screen }
    {
        self.pending = false;
        let (from, to) = columns(extent, self.ring.cols(), self.col);
        mark_unguarded(
            &mut self.marks,
            &self.ring,
            (self.row, self.row + 1),
            (from, to),
        );
        self.ring.erase_unguarded(self.row, from, to);
    }
}
