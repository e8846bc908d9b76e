//! Moves of the cursor.
ghost use Rattle.std.specs.Prelude.{◌≡◌};
ghost use Rattle.roam_grid.specs.Cursor.{after_backspace, after_carriage_return, after_index, first_indexed, moved_to, moved_up, moved_down, moved_right, moved_left, wrap_cleared, after_reverse_index, first_reverse_indexed, after_restoring};
ghost use Rattle.roam_grid.specs.Marks.{marks_indexed, marks_reverse_indexed};
ghost use Rattle.roam_grid.specs.Screen.{IsSameSize};

use crate::grids::Grid;

impl Grid {
    /// One column to the left, not past the first (BS, ECMA-48 8.3.5).
    #[tactic(auto, unfolding(crate::specs::Cursor::after_backspace))]
    pub fn backspace(&mut self)
        ensures screen { self.new.screen ≡ after_backspace self.old.screen }
        ensures first { self.new.first ≡ self.old.first }
        ensures marks { self.new.marks ≡ self.old.marks }
        ensures size { IsSameSize self.old.screen self.new.screen }
    {
        self.col = self.col.saturating_sub(1);
        self.pending = false;
    }

    /// To the first column (CR, ECMA-48 8.3.15).
    #[inline]
    #[tactic(auto, unfolding(crate::specs::Cursor::after_carriage_return))]
    pub fn carriage_return(&mut self)
        ensures screen { self.new.screen ≡ after_carriage_return self.old.screen }
        ensures first { self.new.first ≡ self.old.first }
        ensures marks { self.new.marks ≡ self.old.marks }
        ensures size { IsSameSize self.old.screen self.new.screen }
    {
        self.col = 0;
        self.pending = false;
    }

    /// One row down, and on the bottom margin the rows between the margins up (IND, VT220 Programmer
    /// Reference; LF, ECMA-48 8.3.74).
    #[inline]
    #[tactic(auto, unfolding(crate::specs::Cursor::after_index, crate::specs::Cursor::first_indexed, crate::specs::Marks::marks_indexed))]
    pub fn index(&mut self)
        ensures screen { self.new.screen ≡ after_index self.old.screen }
        ensures first { self.new.first ≡ first_indexed self.old.screen self.old.first }
        ensures marks { self.new.marks ≡ marks_indexed self.old.screen self.old.marks }
        ensures size { IsSameSize self.old.screen self.new.screen }
    {
        if self.row == self.bottom {
            self.scroll_up(1);
        } else if self.row + 1 != self.ring.rows() {
            self.row += 1;
        }
        self.pending = false;
    }

    /// To a row and a column from 0, at most the last ones (CUP, ECMA-48 8.3.21).
    #[tactic(auto, unfolding(crate::specs::Cursor::moved_to))]
    pub fn move_to(&mut self, row: usize, col: usize)
        ensures screen { self.new.screen ≡ moved_to row col self.old.screen }
        ensures first { self.new.first ≡ self.old.first }
        ensures marks { self.new.marks ≡ self.old.marks }
        ensures size { IsSameSize self.old.screen self.new.screen }
    {
        self.row = row.min(self.ring.rows() - 1);
        self.col = col.min(self.ring.cols() - 1);
        self.pending = false;
    }

    /// n rows up, not past the top margin from it or below it, else not past the first row (CUU, ECMA-48 8.3.22).
    #[tactic(auto, unfolding(crate::specs::Cursor::moved_up))]
    pub fn move_up(&mut self, n: usize)
        ensures screen { self.new.screen ≡ moved_up n self.old.screen }
        ensures first { self.new.first ≡ self.old.first }
        ensures marks { self.new.marks ≡ self.old.marks }
        ensures size { IsSameSize self.old.screen self.new.screen }
    {
        let above = self.row.saturating_sub(n);
        self.row = if self.row < self.top {
            above
        } else {
            above.max(self.top)
        };
        self.pending = false;
    }

    /// n rows down, not past the bottom margin from it or above it, else not past the last row (CUD, ECMA-48 8.3.19).
    #[tactic(auto, unfolding(crate::specs::Cursor::moved_down))]
    pub fn move_down(&mut self, n: usize)
        ensures screen { self.new.screen ≡ moved_down n self.old.screen }
        ensures first { self.new.first ≡ self.old.first }
        ensures marks { self.new.marks ≡ self.old.marks }
        ensures size { IsSameSize self.old.screen self.new.screen }
    {
        let last = if self.bottom < self.row {
            self.ring.rows() - 1
        } else {
            self.bottom
        };
        self.row += n.min(last - self.row);
        self.pending = false;
    }

    /// n columns to the right, not past the last (CUF, ECMA-48 8.3.20).
    #[tactic(auto, unfolding(crate::specs::Cursor::moved_right))]
    pub fn move_right(&mut self, n: usize)
        ensures screen { self.new.screen ≡ moved_right n self.old.screen }
        ensures first { self.new.first ≡ self.old.first }
        ensures marks { self.new.marks ≡ self.old.marks }
        ensures size { IsSameSize self.old.screen self.new.screen }
    {
        self.col += n.min(self.ring.cols() - 1 - self.col);
        self.pending = false;
    }

    /// n columns to the left, not past the first (CUB, ECMA-48 8.3.18).
    #[tactic(auto, unfolding(crate::specs::Cursor::moved_left))]
    pub fn move_left(&mut self, n: usize)
        ensures screen { self.new.screen ≡ moved_left n self.old.screen }
        ensures first { self.new.first ≡ self.old.first }
        ensures marks { self.new.marks ≡ self.old.marks }
        ensures size { IsSameSize self.old.screen self.new.screen }
    {
        self.col = self.col.saturating_sub(n);
        self.pending = false;
    }

    /// No wrap is pending any more.
    #[tactic(auto, unfolding(crate::specs::Cursor::wrap_cleared))]
    pub fn clear_wrap(&mut self)
        ensures screen { self.new.screen ≡ wrap_cleared self.old.screen }
        ensures first { self.new.first ≡ self.old.first }
        ensures marks { self.new.marks ≡ self.old.marks }
        ensures size { IsSameSize self.old.screen self.new.screen }
    {
        self.pending = false;
    }

    /// One row up, and on the top margin the rows between the margins down (RI, VT220 Programmer Reference).
    #[tactic(auto, unfolding(crate::specs::Cursor::after_reverse_index, crate::specs::Cursor::first_reverse_indexed))]
    pub fn reverse_index(&mut self)
        ensures screen { self.new.screen ≡ after_reverse_index self.old.screen }
        ensures first { self.new.first ≡ first_reverse_indexed self.old.screen self.old.first }
        ensures marks { self.new.marks ≡ marks_reverse_indexed self.old.screen self.old.marks }
        ensures size { IsSameSize self.old.screen self.new.screen }
    {
        if self.row == self.top {
            self.scroll_down(1);
        } else {
            self.row = self.row.saturating_sub(1);
        }
        self.pending = false;
    }

    /// Moves the cursor to a row and a column from 0, at most the last ones. A wrap is pending if it was saved as pending and the column is
    /// the last (DECRC, VT220 Programmer Reference).
    #[tactic(auto, unfolding(crate::specs::Cursor::after_restoring))]
    pub fn restore(&mut self, row: usize, col: usize, pending: bool)
        ensures screen { self.new.screen ≡ after_restoring row col pending self.old.screen }
        ensures first { self.new.first ≡ self.old.first }
        ensures marks { self.new.marks ≡ self.old.marks }
        ensures size { IsSameSize self.old.screen self.new.screen }
    {
        self.ring.facts();
        self.row = row.min(self.ring.rows() - 1);
        self.col = col.min(self.ring.cols() - 1);
        self.pending = pending && self.col + 1 == self.ring.cols();
    }
}
