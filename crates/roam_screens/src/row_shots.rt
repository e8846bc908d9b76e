//! A screen that shares its rows.
ghost use Rattle.std.specs.Prelude.{◌≡◌, ℕ, ◌<◌, ◌↔◌, length, IfOk, IfErr, OnOk, OnErr, IsErrOf, IsOkUnless, ◌⊎◌};
ghost use Rattle.roam_cells.specs.Limits.{IsSize};
ghost use Rattle.roam_cells.specs.Place.{IsWholeRow, AreUnguarded, row_of};
ghost use Rattle.roam_screens.specs.Screenshot.{IsPlace, IsScreenshot, blank_screenshot, row_text};
ghost use Rattle.roam_screens.specs.Lines.{cells_in_order, AreLines, screen_of, with_row, with_cursor};

use crate::lines::{Line, repeated, shared};
use crate::seen::Seen;
use crate::shots::text_of;
use roam_cells::limits::is_size;
use roam_cells::shapes::facts_of;
use roam_cells::{Cell, Fault};
use std::alloc::{AllocError, Global};
use std::marker::Model;

/// A screen as it is shown, kept row by row: a copy shares its rows, and a row that changes is made anew.
#[derive(Drop)]
pub struct RowShot {
    rows: u16,
    cols: u16,
    lines: Vec<Line>,
    cursor: (u16, u16),
    visible: bool,
}

impl Model for RowShot {
    ghost use Rattle.roam_screens.specs.Screenshot.{Screenshot};

    ghost Value = { Screenshot };

    ghost use Rattle.roam_screens.specs.RowShots.{shown_by, IsRowed};

    ghost view = { shown_by };

    ghost invariant = { IsRowed };
}

impl RowShot {
    /// Returns a screen of spaces in the default style with a visible cursor in its first row and column. `BadSize` outside 2 to 200 rows
    /// or 4 to 500 columns.
    pub fn blank(alloc: Global, rows: u16, cols: u16) -> Result<RowShot, Fault>
        ensures blank { IfOk result (λ shot. shot ≡ blank_screenshot rows cols) }
        ensures size { IfOk result (λ _. IsSize rows cols) }
        ensures bad_size { IsErrOf result Fault.BadSize ↔ (¬ IsSize rows cols) }
        ensures faults { IfErr result (λ fault. (fault ≡ Fault.BadSize) ⊎ (fault ≡ Fault.OutOfMemory)) }
    {
        if !is_size(rows, cols) {
            return Err(Fault::BadSize);
        }
        let line = Line::blank(alloc, cols as usize)?;
        let lines = repeated(alloc, &line, rows)?;
        Ok(RowShot {
            rows,
            cols,
            lines,
            cursor: (1, 1),
            visible: true,
        })
    }

    /// The same screen; it shares its rows with this one.
    pub fn copy(&self, alloc: Global) -> Result<RowShot, Fault>
        ensures same { IfOk result (λ shot. shot ≡ self.now) }
        ensures fault { IsOkUnless result Fault.OutOfMemory }
    {
        let lines = shared(alloc, &self.lines)?;
        Ok(RowShot {
            rows: self.rows,
            cols: self.cols,
            lines,
            cursor: self.cursor,
            visible: self.visible,
        })
    }

    /// The screen of any other, in rows of its own.
    pub fn of<S: Seen>(alloc: Global, shot: &S) -> Result<RowShot, Fault>
        ensures same { IfOk result (λ copy. copy ≡ S.screen shot.now) }
        ensures fault { IsOkUnless result Fault.OutOfMemory }
    {
        shot.facts();
        let lines = lines_of(alloc, shot)?;
        Ok(RowShot {
            rows: shot.rows(),
            cols: shot.cols(),
            lines,
            cursor: shot.cursor(),
            visible: shot.visible(),
        })
    }

    /// The screen of these rows, with its cursor at a row and a column from 1; it takes no memory.
    pub fn of_lines(
        rows: u16,
        cols: u16,
        lines: Vec<Line>,
        cursor: (u16, u16),
        visible: bool,
    ) -> RowShot
        requires lines { AreLines rows cols lines.items }
        requires screen { IsScreenshot (screen_of rows cols lines.items cursor.0 cursor.1 visible) }
        ensures screen { result ≡ screen_of rows cols lines.items cursor.0 cursor.1 visible }
    {
        RowShot {
            rows,
            cols,
            lines,
            cursor,
            visible,
        }
    }

    /// Row `i`, from 0, which another screen may share.
    pub fn line(&self, i: u16) -> &Line
        requires row { i < self.now.rows }
        ensures line { result.now ≡ row_of self.now.cols self.now.cells i }
    {
        &self.lines[i as usize]
    }

    /// Puts cells in the place of row `i`, from 0, in memory of their own; screens that share the row keep it.
    pub fn set_row(&mut self, alloc: Global, i: u16, cells: &[Cell]) -> Result<(), Fault>
        requires row { i < self.old.rows }
        requires count { length cells.now ≡ self.old.cols }
        requires whole { IsWholeRow cells.now }
        requires unguarded { AreUnguarded cells.now }
        ensures ok { OnOk result (self.new ≡ with_row i cells.now self.old) }
        ensures here { OnOk result (row_of self.new.cols self.new.cells i ≡ cells.now) }
        ensures others { OnOk result ((r : ℕ) → r < self.new.rows → (¬ (r ≡ i))
            → row_of self.new.cols self.new.cells r ≡ row_of self.new.cols self.old.cells r) }
        ensures err { OnErr result (self.new ≡ self.old) }
        ensures fault { IsOkUnless result Fault.OutOfMemory }
    {
        facts_of(cells);
        let line = Line::new(alloc, cells)?;
        self.lines[i as usize] = line;
        Ok(())
    }

    /// Puts the cursor at a row and a column, both from 1, visible or not; it takes no memory.
    pub fn set_cursor(&mut self, cursor: (u16, u16), visible: bool)
        requires place { IsPlace self.old.rows self.old.cols cursor.0 cursor.1 }
        ensures screen { self.new ≡ with_cursor cursor.0 cursor.1 visible self.old }
    {
        self.cursor = cursor;
        self.visible = visible;
    }

    /// The code points of row `i`, from 0, cell by cell; the right half of a wide character gives none.
    pub fn row_text(&self, alloc: Global, i: u16) -> Result<Vec<char>, Fault>
        requires row { i < self.now.rows }
        ensures text { IfOk result (λ text. text.items ≡ row_text self.now.cols self.now.cells i) }
        ensures fault { IsOkUnless result Fault.OutOfMemory }
    {
        text_of(alloc, self.row(i))
    }
}

impl Seen for RowShot {
    ghost screen = { λ s. s };

    fn rows(&self) -> u16 {
        self.rows
    }

    fn cols(&self) -> u16 {
        self.cols
    }

    fn at(&self, row: u16, col: u16) -> Option<Cell> {
        if row < 1 || self.rows < row || col < 1 || self.cols < col {
            return None;
        }
        Some(self.row(row - 1)[col as usize - 1])
    }

    fn row(&self, i: u16) -> &[Cell] {
        self.lines[i as usize].cells()
    }

    fn cursor(&self) -> (u16, u16) {
        self.cursor
    }

    fn visible(&self) -> bool {
        self.visible
    }

    fn facts(&self) {
        let _ = &self.rows;
    }
}

fn lines_of<S: Seen>(alloc: Global, shot: &S) -> Result<Vec<Line>, AllocError>
    ensures lines { IfOk result (λ lines. AreLines (S.screen shot.now).rows (S.screen shot.now).cols lines.items) }
    ensures cells { IfOk result (λ lines. cells_in_order lines.items ≡ (S.screen shot.now).cells) }
{
    shot.facts();
    let mut lines = Vec::with_capacity(alloc, shot.rows() as usize)?;
    for row in 0..shot.rows() {
        lines.push(Line::new(alloc, shot.row(row))?)?;
    }
    Ok(lines)
}
