//! Reads a screen, however it keeps its cells.
ghost use Rattle.std.specs.Prelude.{◌≡◌, ◌<◌, ◌-◌, length, SomeIff, IfOk, IsOkUnless};
ghost use Rattle.roam_cells.specs.Place.{cell_at, row_of};
ghost use Rattle.roam_screens.specs.Screenshot.{Screenshot, IsPlace, IsScreenshot, row_text as text_in_row};

use crate::shots::text_of;
use roam_cells::{Cell, Fault};
use std::alloc::Global;

/// A screen that can be read, however it keeps its cells.
pub trait Seen: Drop {
    /// The screen that it is.
    ghost screen: { Self → Screenshot };

    /// Its rows.
    fn rows(&self) -> u16
        ensures rows { result ≡ (screen self.now).rows };

    /// Its columns.
    fn cols(&self) -> u16
        ensures cols { result ≡ (screen self.now).cols };

    /// Returns the cell at a row and a column, both from 1, or `None` if the screen has no such place.
    fn at(&self, row: u16, col: u16) -> Option<Cell>
        ensures cell { SomeIff result (IsPlace (screen self.now).rows (screen self.now).cols row col)
            (cell_at (screen self.now).cols (screen self.now).cells (row - 1) (col - 1)) };

    /// The cells of row `i`, from 0.
    fn row(&self, i: u16) -> &[Cell]
        requires row { i < (screen self.now).rows }
        ensures row { result.now ≡ row_of (screen self.now).cols (screen self.now).cells i }
        ensures len { length result.now ≡ (screen self.now).cols };

    /// The cursor's row and column, both from 1.
    fn cursor(&self) -> (u16, u16)
        ensures row { result.0 ≡ (screen self.now).cursor_row }
        ensures col { result.1 ≡ (screen self.now).cursor_col };

    /// Returns true if the cursor is visible.
    fn visible(&self) -> bool
        ensures visible { result ≡ (screen self.now).visible };

    /// Facts about every screen that is shown.
    fn facts(&self)
        ensures screenshot { IsScreenshot (screen self.now) };
}

/// The code points of row `i` of a screen, from 0, cell by cell; the right half of a wide character gives none. Refuses want of memory.
pub fn row_text<S: Seen>(alloc: Global, shot: &S, i: u16) -> Result<Vec<char>, Fault>
    requires row { i < (S.screen shot.now).rows }
    ensures text { IfOk result (λ text. text.items ≡ text_in_row (S.screen shot.now).cols (S.screen shot.now).cells i) }
    ensures fault { IsOkUnless result Fault.OutOfMemory }
{
    text_of(alloc, shot.row(i))
}
