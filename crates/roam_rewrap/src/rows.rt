//! A row of text.
ghost use Rattle.std.specs.Prelude.{◌≡◌, IfOk};

use roam_cells::Cell;
use roam_screens::Line;
use std::alloc::{AllocError, Global};
use std::marker::Model;

/// The cells of a row, as far as they are text, and whether autowrap went on from it.
#[derive(Drop)]
pub struct Row {
    goes_on: bool,
    line: Line,
}

impl Model for Row {
    ghost use Rattle.roam_rewrap.specs.Lines.{TextRow};

    ghost Value = { TextRow };

    ghost view = { λ a. record { goes_on = a.goes_on; cells = a.line } };
}

impl Row {
    /// A row of these cells, in memory of its own.
    pub fn new(alloc: Global, goes_on: bool, cells: &[Cell]) -> Result<Row, AllocError>
        ensures row { IfOk result (λ row. row ≡ record { goes_on = goes_on; cells = cells.now }) }
    {
        let line = Line::new(alloc, cells)?;
        Ok(Row { goes_on, line })
    }

    /// Returns true if autowrap went on from it.
    pub fn goes_on(&self) -> bool
        ensures on { result ≡ self.now.goes_on }
    {
        self.goes_on
    }

    /// Its cells.
    pub fn cells(&self) -> &[Cell]
        ensures cells { result.now ≡ self.now.cells }
    {
        self.line.cells()
    }
}
