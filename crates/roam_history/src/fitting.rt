//! A history brought to other columns: all memory first, then the rows.
ghost use Rattle.std.specs.Prelude.{◌≡◌, ◌↔◌, ◌⊎◌, IfOk, IfErr, IsErrOf, OnOk, OnErr};
ghost use Rattle.roam_history.specs.Fitting.{after_refit};
ghost use Rattle.roam_history.specs.Limits.{IsHistorySize};

use crate::histories::History;
use roam_cells::Fault;
use std::alloc::Global;
use std::marker::Model;

/// All the memory that a history of a number of lines and columns takes, with no row in it.
#[derive(Drop)]
pub struct Fitted {
    history: History,
}

impl Model for Fitted {
    ghost use Rattle.std.specs.Prelude.{◌≡◌};
    ghost use Rattle.roam_history.specs.Fitting.{HistorySize};
    ghost use Rattle.roam_history.specs.Histories.{empty};

    ghost Value = { HistorySize };

    ghost view = { λ a. record { lines = a.history.lines; cols = a.history.cols } };

    ghost invariant = { λ a. a.history ≡ empty a.history.lines a.history.cols };
}

impl Fitted {
    /// The most rows that the history will keep.
    pub fn lines(&self) -> usize
        ensures lines { result ≡ self.now.lines }
    {
        self.history.lines()
    }

    /// The columns of each row.
    pub fn cols(&self) -> usize
        ensures cols { result ≡ self.now.cols }
    {
        self.history.cols()
    }
}

impl History {
    /// Memory for this history at other columns, with nothing of it in there yet; `BadSize` outside 4 to 500 columns.
    pub fn fit(&self, alloc: Global, cols: usize) -> Result<Fitted, Fault>
        ensures fitted { IfOk result (λ fitted. fitted ≡ record { lines = self.now.lines; cols = cols }) }
        ensures size { IfOk result (λ _. IsHistorySize self.now.lines cols) }
        ensures bad_size { IsErrOf result Fault.BadSize ↔ (¬ IsHistorySize self.now.lines cols) }
        ensures faults { IfErr result (λ fault. (fault ≡ Fault.BadSize) ⊎ (fault ≡ Fault.OutOfMemory)) }
    {
        Ok(Fitted {
            history: History::new(alloc, self.lines(), cols)?,
        })
    }

    /// Moves the rows into memory that was made for as many lines: each row is cut or padded with blanks, and a wide cell that is cut in
    /// two becomes a space in its style and guard. Takes no memory.
    pub fn adopt(&mut self, fitted: Fitted)
        requires lines { fitted.lines ≡ self.old.lines }
        ensures history { self.new ≡ after_refit fitted.cols self.old }
    {
        let Fitted { history } = fitted;
        let mut history = history;
        self.facts();
        for i in 0..self.len() {
            history.take(self.front_of_row(i));
        }
        *self = history;
    }

    /// Brings the history to other columns, as `fit` and `adopt` do; `BadSize` outside 4 to 500 columns. A refusal leaves it as it was.
    pub fn refit(&mut self, alloc: Global, cols: usize) -> Result<(), Fault>
        ensures history { OnOk result (self.new ≡ after_refit cols self.old) }
        ensures refused { OnErr result (self.new ≡ self.old) }
        ensures bad_size { IsErrOf result Fault.BadSize ↔ (¬ IsHistorySize self.old.lines cols) }
        ensures faults { IfErr result (λ fault. (fault ≡ Fault.BadSize) ⊎ (fault ≡ Fault.OutOfMemory)) }
    {
        let fitted = self.fit(alloc, cols)?;
        self.adopt(fitted);
        Ok(())
    }
}
