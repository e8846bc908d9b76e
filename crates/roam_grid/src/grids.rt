//! The grid: its fields, and the calls that read it.
ghost use Rattle.std.specs.Prelude.{◌≡◌, ◌↔◌, ◌+◌, ◌-◌, ◌*◌, ◌<◌, ◌≤◌, ◌⊎◌, ◌++◌, true, false, length, replicate, IsTrue, IfOk, IfErr, IsErrOf};
ghost use Rattle.roam_cells.specs.Glyph.{blank};
ghost use Rattle.roam_cells.specs.Limits.{IsSize};
ghost use Rattle.roam_cells.specs.Place.{row_of};
ghost use Rattle.roam_rows.specs.Rows.{AreRows, buffer_of};
ghost use Rattle.roam_grid.specs.Marks.{all_on};
ghost use Rattle.roam_grid.specs.Screen.{IsScreen, rows_of, start};

use crate::tabs::stops_at_start;
use roam_cells::limits::{LEAST_COLUMNS, LEAST_ROWS, MOST_COLUMNS, MOST_ROWS};
use roam_cells::{Cell, Fault};
use roam_rows::Ring;
use std::alloc::Global;
use std::marker::Model;

/// One screen of cells, with a cursor, margins and tab stops.
#[derive(Drop)]
pub struct Grid {
    pub(crate) ring: Ring,
    pub(crate) row: usize,
    pub(crate) col: usize,
    pub(crate) pending: bool,
    pub(crate) top: usize,
    pub(crate) bottom: usize,
    pub(crate) stops: [bool; MOST_COLUMNS as usize],
    // of rows of the screen, not of the buffer
    pub(crate) marks: [bool; MOST_ROWS as usize],
}

impl Model for Grid {
    ghost use Rattle.roam_grid.specs.Screen.{GridView};

    ghost Value = { GridView };

    ghost use Rattle.roam_grid.specs.Kept.{view_of, IsKept};

    ghost view = { view_of };

    ghost invariant = { IsKept };
}

impl Grid {
    /// Returns a blank screen of 2 to 200 rows and 4 to 500 columns, with the cursor at its start, full margins, the tab stops of the start
    /// and all marks on. `BadSize` for other sizes, `OutOfMemory`.
    #[tactic(auto, unfolding(crate::specs::Marks::all_on))]
    pub fn new(alloc: Global, rows: usize, cols: usize) -> Result<Self, Fault>
        ensures screen { IfOk result (λ g. g.screen ≡ start rows cols) }
        ensures first { IfOk result (λ g. g.first ≡ 0) }
        ensures marks { IfOk result (λ g. g.marks ≡ all_on) }
        ensures bad_size { IsErrOf result Fault.BadSize ↔ (¬ IsSize rows cols) }
        ensures err { IfErr result (λ e. (e ≡ Fault.BadSize) ⊎ (e ≡ Fault.OutOfMemory)) }
    {
        if !is_size(rows, cols) {
            return Err(Fault::BadSize);
        }
        Ok(Grid {
            ring: Ring::new(alloc, rows, cols)?,
            row: 0,
            col: 0,
            pending: false,
            top: 0,
            bottom: rows - 1,
            stops: stops_at_start(),
            marks: [true; MOST_ROWS as usize],
        })
    }

    /// Facts about every grid.
    #[inline]
    pub fn facts(&self)
        ensures screen { IsScreen self.now.screen }
        ensures rows { AreRows (rows_of self.now) }
    {
        self.ring.facts();
    }

    /// The number of rows.
    #[inline]
    pub fn rows(&self) -> usize
        ensures rows { result ≡ self.now.screen.rows }
    {
        self.ring.rows()
    }

    /// The number of columns.
    #[inline]
    pub fn cols(&self) -> usize
        ensures cols { result ≡ self.now.screen.cols }
    {
        self.ring.cols()
    }

    /// The cells of row i, from 0.
    pub fn row(&self, i: usize) -> &[Cell]
        requires row_in { i < self.now.screen.rows }
        ensures row { result.now ≡ row_of self.now.screen.cols self.now.screen.cells i }
        ensures len { length result.now ≡ self.now.screen.cols }
    {
        self.ring.row(i)
    }

    /// The cells of row i, from 0, but for blank ones at its end.
    pub fn front_of_row(&self, i: usize) -> &[Cell]
        requires row_in { i < self.now.screen.rows }
        ensures row { row_of self.now.screen.cols self.now.screen.cells i
            ≡ result.now ++ replicate (self.now.screen.cols - length result.now) blank }
        ensures few { length result.now ≤ self.now.screen.cols }
    {
        self.ring.front_of_row(i)
    }

    /// Returns all cells, from the buffer's first row on: row i of the screen is the buffer's row `first` + i, modulo the number of rows.
    pub fn buffer(&self) -> &[Cell]
        ensures buffer { result.now ≡ buffer_of (rows_of self.now) }
    {
        self.ring.buffer()
    }

    /// The row of the buffer that the screen begins with, from 0.
    pub fn first(&self) -> usize
        ensures first { result ≡ self.now.first }
    {
        self.ring.first()
    }

    /// The row and the column of the cursor, from 1.
    pub fn cursor(&self) -> (usize, usize)
        ensures row { result.0 ≡ self.now.screen.row + 1 }
        ensures col { result.1 ≡ self.now.screen.col + 1 }
    {
        self.ring.facts();
        (self.row + 1, self.col + 1)
    }

    /// Returns true if a wrap is pending: the last column was written, and the next character goes to the next row.
    pub fn pending(&self) -> bool
        ensures pending { result ≡ self.now.screen.pending }
    {
        self.pending
    }

    /// The rows of the top and the bottom margin, from 0.
    pub fn margins(&self) -> (usize, usize)
        ensures top { result.0 ≡ self.now.screen.top }
        ensures bottom { result.1 ≡ self.now.screen.bottom }
    {
        (self.top, self.bottom)
    }

    /// For each column that a screen may have, from 0: true if it has a tab stop.
    pub fn stops(&self) -> &[bool]
        ensures stops { result.now ≡ self.now.screen.stops }
    {
        &self.stops
    }

    /// How many columns there are from the cursor's on.
    pub fn room(&self) -> usize
        ensures room { result + self.now.screen.col ≡ self.now.screen.cols }
        ensures some { 0 < result }
    {
        self.ring.cols() - self.col
    }
}

/// Returns true if a screen may have this size, in rows and columns.
pub fn is_size(rows: usize, cols: usize) -> bool
    ensures size { IsTrue result ↔ IsSize rows cols }
{
    if rows < LEAST_ROWS as usize || rows > MOST_ROWS as usize {
        return false;
    }
    LEAST_COLUMNS as usize <= cols && cols <= MOST_COLUMNS as usize
}
