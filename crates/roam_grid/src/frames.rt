//! Changes of a whole screen at once.
ghost use Rattle.std.specs.Prelude.{◌≡◌, ◌↔◌, ◌⊎◌, ◌<◌, IfOk, IfErr, IsErrOf, OnOk, OnErr};
ghost use Rattle.roam_cells.specs.Limits.{IsSize};
ghost use Rattle.roam_grid.specs.Frames.{after_alignment, all_blank, after_restart, framed_as, leaving, after_resizing};
ghost use Rattle.roam_grid.specs.Marks.{all_on};
ghost use Rattle.roam_grid.specs.Screen.{IsSameSize};

use crate::grids::{Grid, is_size};
use crate::tabs::stops_at_start;
use roam_cells::limits::MOST_ROWS;
use roam_cells::{Cell, Fault, Style};
use std::alloc::Global;

/// All the memory that a grid of another size takes, with nothing of a screen in it.
pub use roam_rows::Fitted;

impl Grid {
    /// Fills the screen with E in the default style, with full margins and the cursor at the start (DECALN, VT220 Programmer Reference).
    #[tactic(auto, unfolding(crate::specs::Frames::after_alignment, crate::specs::Marks::all_on))]
    pub fn align(&mut self)
        ensures screen { self.new.screen ≡ after_alignment self.old.screen }
        ensures first { self.new.first ≡ self.old.first }
        ensures marks { self.new.marks ≡ all_on }
        ensures size { IsSameSize self.old.screen self.new.screen }
    {
        self.ring.facts();
        self.ring.fill(Cell::ascii(b'E', Style::default(), false));
        self.row = 0;
        self.col = 0;
        self.pending = false;
        self.top = 0;
        self.bottom = self.ring.rows() - 1;
        self.marks = [true; MOST_ROWS as usize];
    }

    /// Blanks every cell; all else stays.
    #[tactic(auto, unfolding(crate::specs::Marks::all_on))]
    pub fn blank_all(&mut self)
        ensures screen { self.new.screen ≡ all_blank self.old.screen }
        ensures first { self.new.first ≡ self.old.first }
        ensures marks { self.new.marks ≡ all_on }
        ensures size { IsSameSize self.old.screen self.new.screen }
    {
        let rows = self.ring.rows();
        self.ring.blank_rows(0, rows);
        self.marks = [true; MOST_ROWS as usize];
    }

    /// Blanks every cell, and resets the cursor, the margins and the tab stops to the start (RIS, ECMA-48 8.3.105).
    #[tactic(auto, unfolding(crate::specs::Frames::after_restart, crate::specs::Frames::all_blank))]
    pub fn restart(&mut self)
        ensures screen { self.new.screen ≡ after_restart self.old.screen }
        ensures first { self.new.first ≡ self.old.first }
        ensures marks { self.new.marks ≡ all_on }
        ensures size { IsSameSize self.old.screen self.new.screen }
    {
        self.blank_all();
        self.ring.facts();
        self.row = 0;
        self.col = 0;
        self.pending = false;
        self.top = 0;
        self.bottom = self.ring.rows() - 1;
        self.stops = stops_at_start();
    }

    /// Takes over the cursor, the margins and the tab stops of another grid of the same size; no wrap pends.
    #[tactic(auto, unfolding(crate::specs::Frames::framed_as, crate::specs::Marks::all_on))]
    pub fn take_frame(&mut self, other: &Grid)
        requires size { (other.now.screen.rows ≡ self.old.screen.rows) × (other.now.screen.cols ≡ self.old.screen.cols) }
        ensures screen { self.new.screen ≡ framed_as other.now.screen self.old.screen }
        ensures first { self.new.first ≡ self.old.first }
        ensures marks { self.new.marks ≡ all_on }
        ensures size { IsSameSize self.old.screen self.new.screen }
    {
        other.facts();
        self.row = other.row;
        self.col = other.col;
        self.pending = false;
        self.top = other.top;
        self.bottom = other.bottom;
        self.stops = other.stops;
        self.marks = [true; MOST_ROWS as usize];
    }

    /// Returns how many rows leave at the top if the screen gets this number of rows, so that the cursor's row stays.
    pub fn leaving(&self, rows: usize) -> usize
        requires some { 0 < rows }
        ensures leaving { result ≡ leaving rows self.now.screen }
        ensures few { result < self.now.screen.rows }
    {
        self.ring.facts();
        (self.row + 1).saturating_sub(rows)
    }

    /// All the memory that a grid of this size takes. Refuses a size outside 2 to 200 rows and 4 to 500 columns, and want of memory.
    pub fn fit(alloc: Global, rows: usize, cols: usize) -> Result<Fitted, Fault>
        ensures size { IfOk result (λ f. f ≡ record { rows = rows; cols = cols }) }
        ensures bad_size { IsErrOf result Fault.BadSize ↔ (¬ IsSize rows cols) }
        ensures err { IfErr result (λ e. (e ≡ Fault.BadSize) ⊎ (e ≡ Fault.OutOfMemory)) }
    {
        if !is_size(rows, cols) {
            return Err(Fault::BadSize);
        }
        Ok(Fitted::new(alloc, rows, cols)?)
    }

    /// Brings the screen to the size that memory was made for, after `off` rows have left at the top. Rows come in or are cut at the bottom
    /// and columns at the right. It takes no memory.
    #[tactic(auto, unfolding(crate::specs::Frames::after_resizing, crate::specs::Marks::all_on))]
    pub fn adopt(&mut self, fitted: Fitted, off: usize)
        ensures screen { self.new.screen ≡ after_resizing fitted.rows fitted.cols off self.old.screen }
        ensures first { self.new.first ≡ 0 }
        ensures marks { self.new.marks ≡ all_on }
    {
        let rows = fitted.rows();
        let cols = fitted.cols();
        self.ring.adopt(fitted, off);
        self.ring.facts();
        self.row = self.row.saturating_sub(off).min(rows - 1);
        self.col = self.col.min(cols - 1);
        self.pending = false;
        self.top = 0;
        self.bottom = rows - 1;
        self.marks = [true; MOST_ROWS as usize];
    }

    /// Brings the screen to another size, as `fit` and `adopt` do, after as many rows have left at the top that the cursor's stays. Refuses
    /// a size outside 2 to 200 rows and 4 to 500 columns, and want of memory, and changes nothing then.
    pub fn resize(&mut self, alloc: Global, rows: usize, cols: usize) -> Result<(), Fault>
        ensures screen { OnOk result (self.new.screen ≡ after_resizing rows cols (leaving rows self.old.screen) self.old.screen) }
        ensures first { OnOk result (self.new.first ≡ 0) }
        ensures marks { OnOk result (self.new.marks ≡ all_on) }
        ensures err { OnErr result (self.new ≡ self.old) }
        ensures bad_size { IsErrOf result Fault.BadSize ↔ (¬ IsSize rows cols) }
        ensures faults { IfErr result (λ e. (e ≡ Fault.BadSize) ⊎ (e ≡ Fault.OutOfMemory)) }
    {
        if !is_size(rows, cols) {
            return Err(Fault::BadSize);
        }
        let fitted = Grid::fit(alloc, rows, cols)?;
        let off = self.leaving(rows);
        self.adopt(fitted, off);
        Ok(())
    }
}
