//! A screen as a value.
ghost use Rattle.std.specs.Prelude.{◌≡◌, ◌*◌, ◌<◌, ◌↔◌, length, IfOk, IfErr, IsErrOf, IsOkUnless, IsTrue, SomeIff, ◌⊎◌, ◌-◌};
ghost use Rattle.std.specs.List.{flat_map};
ghost use Rattle.roam_cells.specs.Glyph.{Glyph};
ghost use Rattle.roam_cells.specs.Limits.{IsSize};
ghost use Rattle.roam_cells.specs.Place.{cell_at, AreWhole, AreUnguarded};
ghost use Rattle.roam_screens.specs.Screenshot.{IsPlace, IsScreenshot, blank_screenshot, row_text};

use crate::seen::Seen;
use roam_cells::limits::is_size;
use roam_cells::shapes::{are_same_cells, facts_of};
use roam_cells::{Cell, Fault};
use std::alloc::Global;
use std::marker::Model;

/// A screen as it is shown: 2 to 200 rows of 4 to 500 columns, their cells in reading order, and a cursor on the screen, visible or not.
#[derive(Drop)]
pub struct Shot {
    rows: u16,
    cols: u16,
    cells: Vec<Cell>,
    cursor: (u16, u16),
    visible: bool,
}

impl Model for Shot {
    ghost use Rattle.roam_screens.specs.Screenshot.{Screenshot, IsScreenshot};

    ghost Value = { Screenshot };

    ghost view = { λ s. record {
      rows = s.rows;
      cols = s.cols;
      cells = s.cells.items;
      cursor_row = s.cursor.0;
      cursor_col = s.cursor.1;
      visible = s.visible;
    } };

    // A screen is well-formed from the start, so that no layer above tests it again.
    ghost invariant = { λ s. IsScreenshot (record {
      rows = s.rows;
      cols = s.cols;
      cells = s.cells.items;
      cursor_row = s.cursor.0;
      cursor_col = s.cursor.1;
      visible = s.visible;
    }) };
}

impl Shot {
    /// Returns a screen of spaces in the default style with a visible cursor in its first row and column. `BadSize` outside 2 to 200 rows
    /// or 4 to 500 columns.
    pub fn blank(alloc: Global, rows: u16, cols: u16) -> Result<Shot, Fault>
        ensures blank { IfOk result (λ shot. shot ≡ blank_screenshot rows cols) }
        ensures size { IfOk result (λ _. IsSize rows cols) }
        ensures bad_size { IsErrOf result Fault.BadSize ↔ (¬ IsSize rows cols) }
        ensures faults { IfErr result (λ fault. (fault ≡ Fault.BadSize) ⊎ (fault ≡ Fault.OutOfMemory)) }
    {
        if !is_size(rows, cols) {
            return Err(Fault::BadSize);
        }
        let cells = vec![in alloc; Cell::blank(); rows as usize * cols as usize]?;
        Ok(Shot {
            rows,
            cols,
            cells,
            cursor: (1, 1),
            visible: true,
        })
    }

    /// The screen of these cells in reading order, with its cursor at a row and a column from 1; it takes no memory.
    pub fn new(rows: u16, cols: u16, cells: Vec<Cell>, cursor: (u16, u16), visible: bool) -> Shot
        requires size { IsSize rows cols }
        requires count { length cells.items ≡ rows * cols }
        requires cursor { IsPlace rows cols cursor.0 cursor.1 }
        requires whole { AreWhole rows cols cells.items }
        requires unguarded { AreUnguarded cells.items }
        ensures shot { result ≡ record {
          rows = rows;
          cols = cols;
          cells = cells.items;
          cursor_row = cursor.0;
          cursor_col = cursor.1;
          visible = visible;
        } }
    {
        facts_of(&cells);
        Shot {
            rows,
            cols,
            cells,
            cursor,
            visible,
        }
    }

    /// Returns the cell at a row and a column, both from 1, or `None` if the screen has no such place.
    pub fn at(&self, row: u16, col: u16) -> Option<Cell>
        ensures cell { SomeIff result (IsPlace self.now.rows self.now.cols row col)
            (cell_at self.now.cols self.now.cells (row - 1) (col - 1)) }
    {
        if row < 1 || self.rows < row || col < 1 || self.cols < col {
            return None;
        }
        let before = (row as usize - 1) * self.cols as usize;
        Some(self.cells[before + (col as usize - 1)])
    }

    /// The same screen in memory of its own.
    pub fn copy(&self, alloc: Global) -> Result<Shot, Fault>
        ensures same { IfOk result (λ shot. shot ≡ self.now) }
        ensures fault { IsOkUnless result Fault.OutOfMemory }
    {
        let cells = Vec::from_slice(alloc, &self.cells)?;
        Ok(Shot {
            rows: self.rows,
            cols: self.cols,
            cells,
            cursor: self.cursor,
            visible: self.visible,
        })
    }

    /// The code points of row `i`, from 0, cell by cell; the right half of a wide character gives none.
    pub fn row_text(&self, alloc: Global, i: u16) -> Result<Vec<char>, Fault>
        requires row { i < self.now.rows }
        ensures text { IfOk result (λ text. text.items ≡ row_text self.now.cols self.now.cells i) }
        ensures fault { IsOkUnless result Fault.OutOfMemory }
    {
        let cols = self.cols as usize;
        let start = i as usize * cols;
        text_of(alloc, &self.cells[start..start + cols])
    }

    /// Its rows, 2 to 200.
    pub fn rows(&self) -> u16
        ensures rows { result ≡ self.now.rows }
    {
        self.rows
    }

    /// Its columns, 4 to 500.
    pub fn cols(&self) -> u16
        ensures cols { result ≡ self.now.cols }
    {
        self.cols
    }

    /// The cursor's row and column, both from 1.
    pub fn cursor(&self) -> (u16, u16)
        ensures row { result.0 ≡ self.now.cursor_row }
        ensures col { result.1 ≡ self.now.cursor_col }
    {
        self.cursor
    }

    /// Returns true if the cursor is visible.
    pub fn visible(&self) -> bool
        ensures visible { result ≡ self.now.visible }
    {
        self.visible
    }

    /// Its cells in reading order.
    pub fn cells(&self) -> &[Cell]
        ensures cells { result.now ≡ self.now.cells }
    {
        &self.cells
    }

    /// Returns true if the two screens are equal in size, in every cell, in the cursor and in its visibility.
    pub fn is_same(&self, other: &Shot) -> bool
        ensures same { IsTrue result ↔ (self.now ≡ other.now) }
    {
        if self.rows != other.rows || self.cols != other.cols {
            return false;
        }
        if self.cursor.0 != other.cursor.0 || self.cursor.1 != other.cursor.1 {
            return false;
        }
        if self.visible != other.visible {
            return false;
        }
        are_same_cells(&self.cells, &other.cells)
    }

    /// Facts about every screen that is shown.
    pub fn facts(&self)
        ensures screenshot { IsScreenshot self.now }
    {
        let _ = &self.rows;
    }
}

impl Seen for Shot {
    ghost screen = { λ s. s };

    fn rows(&self) -> u16 {
        self.rows
    }

    fn cols(&self) -> u16 {
        self.cols
    }

    fn at(&self, row: u16, col: u16) -> Option<Cell> {
        Shot::at(self, row, col)
    }

    fn row(&self, i: u16) -> &[Cell] {
        let cols = self.cols as usize;
        let start = i as usize * cols;
        &self.cells[start..start + cols]
    }

    fn cursor(&self) -> (u16, u16) {
        self.cursor
    }

    fn visible(&self) -> bool {
        self.visible
    }

    fn facts(&self) {
        let _ = &self.rows;
    }
}

/// The code points of a row, cell by cell.
pub(crate) fn text_of(alloc: Global, row: &[Cell]) -> Result<Vec<char>, Fault>
    ensures text { IfOk result (λ text. text.items ≡ flat_map (λ (cell : Glyph). cell.points) row.now) }
    ensures fault { IsOkUnless result Fault.OutOfMemory }
{
    let mut text = Vec::with_capacity(alloc, row.len())?;
    for cell in row {
        let points = cell.chars();
        text.extend_from_slice(points.as_slice())?;
    }
    Ok(text)
}
