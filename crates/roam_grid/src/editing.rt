//! Cells and lines that come in and go out at the cursor.
ghost use Rattle.std.specs.Prelude.{◌≡◌, ◌<◌};
ghost use Rattle.roam_grid.specs.Editing.{cells_inserted, cells_deleted, cells_erased, lines_inserted, lines_deleted};
ghost use Rattle.roam_grid.specs.Marks.{marks_cells_moved, marks_in_line, marks_lines_moved};
ghost use Rattle.roam_grid.specs.Screen.{IsSameSize};

use crate::grids::Grid;
use crate::marks::{mark_moved, mark_row};

impl Grid {
    /// Inserts n blanks at the cursor; the cells from there on go to the right, and the last ones are lost (ICH, ECMA-48 8.3.64).
    #[tactic(auto, unfolding(crate::specs::Editing::cells_inserted))]
    pub fn insert_cells(&mut self, n: usize)
        ensures screen { self.new.screen ≡ cells_inserted n self.old.screen }
        ensures first { self.new.first ≡ self.old.first }
        ensures marks { self.new.marks ≡ marks_cells_moved n self.old.screen self.old.marks }
        ensures size { IsSameSize self.old.screen self.new.screen }
    {
        self.pending = false;
        self.ring.insert(self.row, self.col, n);
        mark_moved(&mut self.marks, n, self.row, self.row + 1);
    }

    /// Takes n cells out at the cursor; those right of them go to the left, and blanks come in at the edge (DCH, ECMA-48 8.3.26).
    #[tactic(auto, unfolding(crate::specs::Editing::cells_deleted))]
    pub fn delete_cells(&mut self, n: usize)
        ensures screen { self.new.screen ≡ cells_deleted n self.old.screen }
        ensures first { self.new.first ≡ self.old.first }
        ensures marks { self.new.marks ≡ marks_cells_moved n self.old.screen self.old.marks }
        ensures size { IsSameSize self.old.screen self.new.screen }
    {
        self.pending = false;
        self.ring.delete(self.row, self.col, n);
        mark_moved(&mut self.marks, n, self.row, self.row + 1);
    }

    /// Blanks n cells, one or more, from the cursor on, guarded ones too (ECH, ECMA-48 8.3.38).
    #[tactic(auto, unfolding(crate::specs::Editing::cells_erased))]
    pub fn erase_cells(&mut self, n: usize)
        requires some { 0 < n }
        ensures screen { self.new.screen ≡ cells_erased n self.old.screen }
        ensures first { self.new.first ≡ self.old.first }
        ensures marks { self.new.marks ≡ marks_in_line self.old.screen self.old.marks }
        ensures size { IsSameSize self.old.screen self.new.screen }
    {
        self.ring.facts();
        self.pending = false;
        let to = self.col.saturating_add(n).min(self.ring.cols());
        self.ring.erase(self.row, self.col, to);
        mark_row(&mut self.marks, self.row);
    }

    /// Between the margins n lines come in at the cursor's, which goes to the first column; outside nothing moves (IL, ECMA-48 8.3.67).
    #[tactic(auto, unfolding(crate::specs::Editing::lines_inserted, crate::specs::Cursor::wrap_cleared))]
    pub fn insert_lines(&mut self, n: usize)
        ensures screen { self.new.screen ≡ lines_inserted n self.old.screen }
        ensures first { self.new.first ≡ self.old.first }
        ensures marks { self.new.marks ≡ marks_lines_moved n self.old.screen self.old.marks }
        ensures size { IsSameSize self.old.screen self.new.screen }
    {
        self.pending = false;
        if self.top <= self.row && self.row <= self.bottom {
            self.col = 0;
            mark_moved(&mut self.marks, n, self.row, self.bottom + 1);
            self.ring.scroll_region_down(self.row, self.bottom, n);
        }
    }

    /// Between the margins n lines go out at the cursor's, which goes to the first column; outside nothing moves (DL, ECMA-48 8.3.32).
    #[tactic(auto, unfolding(crate::specs::Editing::lines_deleted, crate::specs::Cursor::wrap_cleared))]
    pub fn delete_lines(&mut self, n: usize)
        ensures screen { self.new.screen ≡ lines_deleted n self.old.screen }
        ensures first { self.new.first ≡ self.old.first }
        ensures marks { self.new.marks ≡ marks_lines_moved n self.old.screen self.old.marks }
        ensures size { IsSameSize self.old.screen self.new.screen }
    {
        self.pending = false;
        if self.top <= self.row && self.row <= self.bottom {
            self.col = 0;
            mark_moved(&mut self.marks, n, self.row, self.bottom + 1);
            self.ring.scroll_region_up(self.row, self.bottom, n);
        }
    }
}
