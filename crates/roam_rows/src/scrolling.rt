//! Rows that go up and down.
ghost use Rattle.std.specs.Prelude.{◌≡◌, ◌+◌, ◌<◌, ◌≤◌};
ghost use Rattle.roam_rows.specs.Scrolling.{up, down};
ghost use Rattle.roam_rows.specs.Vertical.{AreBlanked, AreLifted, AreLowered};

use crate::rings::Ring;

impl Ring {
    ghost use Rattle.roam_rows.specs.Rows.{mapped_rows};
    ghost use Rattle.roam_rows.specs.Erasing.{rows_blanked, rows_unguarded_blanked};
    ghost use Rattle.roam_rows.specs.Scrolling.{all_up, all_down};
    ghost use Rattle.roam_rows.specs.Vertical.{IsSameShape};

    /// Blanks the rows from one on and before another, row by row.
    fn clear_rows(&mut self, from: usize, to: usize)
        requires on_rows { (from ≤ to) × (to ≤ self.old.rows) }
        ensures shape { IsSameShape self.old self.new }
        ensures blanked { AreBlanked self.old.rows self.old.cols from to self.old.cells self.new.cells }
    {
        for r in from..to {
            self.blank_row(r);
        }
    }

    /// Moves rows up by n.
    fn lift_rows(&mut self, from: usize, to: usize, n: usize)
        requires on_rows { (from ≤ to) × (to + n ≤ self.old.rows) }
        ensures shape { IsSameShape self.old self.new }
        ensures lifted { AreLifted self.old.rows self.old.cols from to n self.old.cells self.new.cells }
    {
        self.facts();
        for r in from..to {
            self.copy_row(r + n, r);
        }
    }

    /// Moves rows down by n.
    fn lower_rows(&mut self, from: usize, to: usize, n: usize)
        requires on_rows { (from ≤ to) × (to ≤ self.old.rows) × (n ≤ from) }
        ensures shape { IsSameShape self.old self.new }
        ensures lowered { AreLowered self.old.rows self.old.cols from to n self.old.cells self.new.cells }
    {
        self.facts();
        for r in (from..to).rev() {
            self.copy_row(r - n, r);
        }
    }

    /// Blanks the rows from `from` on and before `to`, both from 0.
    pub fn blank_rows(&mut self, from: usize, to: usize)
        requires on_rows { (from ≤ to) × (to ≤ self.old.rows) }
        ensures ring { self.new ≡ mapped_rows (rows_blanked from to) self.old }
    {
        self.facts();
        self.clear_rows(from, to);
        self.facts();
    }

    /// Blanks those cells that aren't guarded of the rows from `from` on and before `to`, both from 0.
    pub fn blank_unguarded_rows(&mut self, from: usize, to: usize)
        requires on_rows { (from ≤ to) × (to ≤ self.old.rows) }
        ensures ring { self.new ≡ mapped_rows (rows_unguarded_blanked self.old.cols self.old.cells from to) self.old }
    {
        self.facts();
        let cols = self.cols();
        for r in from..to {
            self.facts();
            self.erase_unguarded(r, 0, cols);
        }
        self.facts();
    }

    /// Scrolls all rows up by n.
    #[inline]
    pub fn scroll_up(&mut self, n: usize)
        ensures ring { self.new ≡ all_up n self.old }
    {
        self.facts();
        let rows = self.rows();
        let n = n.min(rows);
        self.turn(n);
        self.clear_rows(rows - n, rows);
        self.facts();
    }

    /// Scrolls all rows down by n.
    pub fn scroll_down(&mut self, n: usize)
        ensures ring { self.new ≡ all_down n self.old }
    {
        self.facts();
        let rows = self.rows();
        let n = n.min(rows);
        self.turn(rows - n);
        self.clear_rows(0, n);
        self.facts();
    }

    /// Moves the rows from `top` to `bottom`, both from 0, up by n; blank ones come in below.
    pub fn scroll_region_up(&mut self, top: usize, bottom: usize, n: usize)
        requires margins { (top ≤ bottom) × (bottom < self.old.rows) }
        ensures ring { self.new ≡ mapped_rows (up top bottom n) self.old }
    {
        self.facts();
        let n = n.min(bottom + 1 - top);
        self.lift_rows(top, bottom + 1 - n, n);
        self.clear_rows(bottom + 1 - n, bottom + 1);
        self.facts();
    }

    /// Moves the rows from `top` to `bottom`, both from 0, down by n; blank ones come in above.
    pub fn scroll_region_down(&mut self, top: usize, bottom: usize, n: usize)
        requires margins { (top ≤ bottom) × (bottom < self.old.rows) }
        ensures ring { self.new ≡ mapped_rows (down top bottom n) self.old }
    {
        self.facts();
        let n = n.min(bottom + 1 - top);
        self.lower_rows(top + n, bottom + 1, n);
        self.clear_rows(top, top + n);
        self.facts();
    }
}
