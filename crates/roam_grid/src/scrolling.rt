//! Scrolls between the margins, and the margins.
ghost use Rattle.std.specs.Prelude.{◌≡◌, ◌<◌};
ghost use Rattle.roam_grid.specs.Scrolling.{scrolled_up, scrolled_down, first_scrolled_up, first_scrolled_down, with_margins};
ghost use Rattle.roam_grid.specs.Marks.{marks_scrolled};
ghost use Rattle.roam_grid.specs.Screen.{IsSameSize};

use crate::grids::Grid;
use crate::marks::mark_moved;

impl Grid {
    /// The rows between the margins go up by n; blank ones come in below (SU, ECMA-48 8.3.147).
    #[inline]
    #[tactic(auto, unfolding(crate::specs::Scrolling::scrolled_up, crate::specs::Scrolling::first_scrolled_up))]
    pub fn scroll_up(&mut self, n: usize)
        ensures screen { self.new.screen ≡ scrolled_up n self.old.screen }
        ensures first { self.new.first ≡ first_scrolled_up n self.old.screen self.old.first }
        ensures marks { self.new.marks ≡ marks_scrolled n self.old.screen self.old.marks }
        ensures size { IsSameSize self.old.screen self.new.screen }
    {
        self.ring.facts();
        if self.top == 0 && self.bottom + 1 == self.ring.rows() {
            self.ring.scroll_up(n);
        } else {
            self.ring.scroll_region_up(self.top, self.bottom, n);
        }
        mark_moved(&mut self.marks, n, self.top, self.bottom + 1);
    }

    /// The rows between the margins go down by n; blank ones come in above (SD, ECMA-48 8.3.113).
    #[tactic(auto, unfolding(crate::specs::Scrolling::scrolled_down, crate::specs::Scrolling::first_scrolled_down))]
    pub fn scroll_down(&mut self, n: usize)
        ensures screen { self.new.screen ≡ scrolled_down n self.old.screen }
        ensures first { self.new.first ≡ first_scrolled_down n self.old.screen self.old.first }
        ensures marks { self.new.marks ≡ marks_scrolled n self.old.screen self.old.marks }
        ensures size { IsSameSize self.old.screen self.new.screen }
    {
        self.ring.facts();
        if self.top == 0 && self.bottom + 1 == self.ring.rows() {
            self.ring.scroll_down(n);
        } else {
            self.ring.scroll_region_down(self.top, self.bottom, n);
        }
        mark_moved(&mut self.marks, n, self.top, self.bottom + 1);
    }

    /// Sets the margins, rows from 0 (DECSTBM, VT220 Programmer Reference).
    #[tactic(auto, unfolding(crate::specs::Scrolling::with_margins))]
    pub fn set_margins(&mut self, top: usize, bottom: usize)
        requires margins { (top < bottom) × (bottom < self.old.screen.rows) }
        ensures screen { self.new.screen ≡ with_margins top bottom self.old.screen }
        ensures first { self.new.first ≡ self.old.first }
        ensures marks { self.new.marks ≡ self.old.marks }
        ensures size { IsSameSize self.old.screen self.new.screen }
    {
        self.top = top;
        self.bottom = bottom;
    }
}
