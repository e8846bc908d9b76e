//! A terminal brought to another size: all memory first, then the content.
ghost use Rattle.std.specs.Prelude.{◌≡◌, ◌<◌, ◌⊎◌, ◌↔◌, IfOk, IfErr, IsErrOf, OnOk, OnErr};
ghost use Rattle.roam_cells.specs.Limits.{IsSize};
ghost use Rattle.roam_grid.specs.Marks.{all_on};
ghost use Rattle.roam_term.specs.Stands.{HasSize, Sized};
ghost use Rattle.roam_term.specs.Terminal.{sized_to};

use crate::canvases::Canvas;
use crate::leaving::leave_by_size;
use crate::terms::Term;
use roam_cells::Fault;
use roam_cells::limits::is_size;
use roam_grid::Grid;
use std::alloc::Global;
use std::marker::Model;

/// All the memory that a terminal takes in another size, with nothing of the terminal in it.
#[derive(Drop)]
pub struct Fitted {
    shown: roam_grid::Fitted,
    other: roam_grid::Fitted,
    history: roam_history::Fitted,
}

impl Model for Fitted {
    ghost use Rattle.roam_term.specs.Sizes.{TermSize, IsFit};

    ghost Value = { TermSize };

    ghost view = { λ f. record { rows = f.shown.rows; cols = f.shown.cols; lines = f.history.lines } };

    ghost invariant = { λ f. IsFit f.shown f.other f.history };
}

impl Fitted {
    /// The number of rows.
    pub fn rows(&self) -> usize
        ensures rows { result ≡ self.now.rows }
    {
        self.shown.rows()
    }

    /// The number of columns.
    pub fn cols(&self) -> usize
        ensures cols { result ≡ self.now.cols }
    {
        self.shown.cols()
    }

    /// The number of lines of history.
    pub fn lines(&self) -> usize
        ensures lines { result ≡ self.now.lines }
    {
        self.history.lines()
    }
}

impl Canvas {
    /// Brings both screens to the size that memory was made for; the rows that leave the one that is shown are gone. It takes no memory.
    #[tactic(auto, unfolding(roam_grid::specs::Frames::after_resizing))]
    pub fn adopt(&mut self, shown: roam_grid::Fitted, other: roam_grid::Fitted)
        requires some { 0 < shown.rows }
        requires same { other ≡ shown }
        ensures sized { self.new.live ≡ sized_to shown.rows shown.cols self.old.live }
        ensures marks { self.new.marks ≡ all_on }
    {
        let off = self.grid.leaving(shown.rows());
        self.grid.adopt(shown, off);
        self.other.adopt(other, 0);
        self.printed = None;
    }
}

impl Term {
    /// All the memory that this terminal takes in another size; the terminal stays as it is. Refuses a size outside 2 to 200 rows and
    /// 4 to 500 columns, and want of memory.
    pub fn fit(&self, alloc: Global, rows: u16, cols: u16) -> Result<Fitted, Fault>
        ensures fitted { IfOk result (λ f. f ≡ record { rows = rows; cols = cols; lines = self.now.history.lines }) }
        ensures bad_size { IsErrOf result Fault.BadSize ↔ (¬ IsSize rows cols) }
        ensures faults { IfErr result (λ e. (e ≡ Fault.BadSize) ⊎ (e ≡ Fault.OutOfMemory)) }
    {
        if !is_size(rows, cols) {
            return Err(Fault::BadSize);
        }
        self.history.facts();
        let history = self.history.fit(alloc, usize::from(cols))?;
        let shown = Grid::fit(alloc, usize::from(rows), usize::from(cols))?;
        let other = Grid::fit(alloc, usize::from(rows), usize::from(cols))?;
        Ok(Fitted {
            shown,
            other,
            history,
        })
    }

    /// Brings the terminal to the size that memory was made for, with as many lines of history: rows that leave the main screen go to the
    /// history, and its rows get the new columns. It takes no memory.
    pub fn adopt(&mut self, fitted: Fitted)
        requires lines { fitted.lines ≡ self.old.history.lines }
        ensures sized { Sized self.old self.new fitted.rows fitted.cols }
        ensures screen { HasSize self.new fitted.rows fitted.cols }
        ensures marks { self.new.marks ≡ all_on }
        ensures waiting { self.new.waiting ≡ self.old.waiting }
    {
        let rows = fitted.rows();
        let cols = fitted.cols();
        self.reader.size(rows as u16, cols as u16);
        let Fitted {
            shown,
            other,
            history,
        } = fitted;
        let alternate = self.canvas.is_alternate();
        leave_by_size(self.canvas.grid(), rows, alternate, &mut self.history);
        self.canvas.adopt(shown, other);
        self.history.adopt(history);
    }

    /// Brings the terminal to another size, as `fit` and `adopt` do. Refuses a size outside 2 to 200 rows and 4 to 500 columns, and want
    /// of memory, and changes nothing then.
    pub fn resize(&mut self, alloc: Global, rows: u16, cols: u16) -> Result<(), Fault>
        ensures sized { OnOk result (Sized self.old self.new rows cols) }
        ensures marks { OnOk result (self.new.marks ≡ all_on) }
        ensures waiting { self.new.waiting ≡ self.old.waiting }
        ensures err { OnErr result (self.new ≡ self.old) }
        ensures bad_size { IsErrOf result Fault.BadSize ↔ (¬ IsSize rows cols) }
        ensures faults { IfErr result (λ e. (e ≡ Fault.BadSize) ⊎ (e ≡ Fault.OutOfMemory)) }
    {
        let fitted = self.fit(alloc, rows, cols)?;
        self.adopt(fitted);
        Ok(())
    }
}
