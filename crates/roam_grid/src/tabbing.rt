//! Tabs.
ghost use Rattle.std.specs.Prelude.{◌≡◌};
ghost use Rattle.roam_grid.specs.Tabbing.{after_tabs, after_back_tabs, stop_set, stop_cleared, stops_cleared};
ghost use Rattle.roam_grid.specs.Screen.{IsSameSize};

use crate::grids::Grid;
use crate::tabs::{stops_back, stops_on};
use roam_cells::limits::MOST_COLUMNS;

impl Grid {
    /// To the nth tab stop after the cursor, else to the last column (HT, ECMA-48 8.3.60; CHT, 8.3.10).
    #[tactic(auto, unfolding(crate::specs::Tabbing::after_tabs))]
    pub fn tab(&mut self, n: usize)
        ensures screen { self.new.screen ≡ after_tabs n self.old.screen }
        ensures first { self.new.first ≡ self.old.first }
        ensures marks { self.new.marks ≡ self.old.marks }
        ensures size { IsSameSize self.old.screen self.new.screen }
    {
        self.ring.facts();
        let last = self.ring.cols() - 1;
        self.col = stops_on(&self.stops, n, last, self.col);
        self.pending = false;
    }

    /// To the nth tab stop before the cursor, else to the first column (CBT, ECMA-48 8.3.7).
    #[tactic(auto, unfolding(crate::specs::Tabbing::after_back_tabs))]
    pub fn back_tab(&mut self, n: usize)
        ensures screen { self.new.screen ≡ after_back_tabs n self.old.screen }
        ensures first { self.new.first ≡ self.old.first }
        ensures marks { self.new.marks ≡ self.old.marks }
        ensures size { IsSameSize self.old.screen self.new.screen }
    {
        self.ring.facts();
        self.col = stops_back(&self.stops, n, self.col);
        self.pending = false;
    }

    /// Sets a tab stop in the cursor's column (HTS, ECMA-48 8.3.62).
    #[tactic(auto, unfolding(crate::specs::Tabbing::stop_set))]
    pub fn set_stop(&mut self)
        ensures screen { self.new.screen ≡ stop_set self.old.screen }
        ensures first { self.new.first ≡ self.old.first }
        ensures marks { self.new.marks ≡ self.old.marks }
        ensures size { IsSameSize self.old.screen self.new.screen }
    {
        self.ring.facts();
        self.stops[self.col] = true;
    }

    /// Clears the tab stop in the cursor's column, if there is one (TBC, ECMA-48 8.3.154).
    #[tactic(auto, unfolding(crate::specs::Tabbing::stop_cleared))]
    pub fn clear_stop(&mut self)
        ensures screen { self.new.screen ≡ stop_cleared self.old.screen }
        ensures first { self.new.first ≡ self.old.first }
        ensures marks { self.new.marks ≡ self.old.marks }
        ensures size { IsSameSize self.old.screen self.new.screen }
    {
        self.ring.facts();
        self.stops[self.col] = false;
    }

    /// Clears all tab stops (TBC, ECMA-48 8.3.154).
    #[tactic(auto, unfolding(crate::specs::Tabbing::stops_cleared))]
    pub fn clear_stops(&mut self)
        ensures screen { self.new.screen ≡ stops_cleared self.old.screen }
        ensures first { self.new.first ≡ self.old.first }
        ensures marks { self.new.marks ≡ self.old.marks }
        ensures size { IsSameSize self.old.screen self.new.screen }
    {
        self.stops = [false; MOST_COLUMNS as usize];
    }
}
