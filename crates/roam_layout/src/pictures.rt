//! The pictures of a layout's panes, of which a row can be read without the whole.
ghost use Rattle.std.specs.Prelude.{◌≡◌, ◌<◌, ◌++◌, ℕ, List, length, IfOk};
ghost use Rattle.std.specs.List.{All};
ghost use Rattle.roam_cells.specs.Place.{row_of};
ghost use Rattle.roam_screens.specs.Screenshot.{Screenshot, IsScreenshot};
ghost use Rattle.roam_layout.specs.Faces.{picture_at, picture_in};

use roam_cells::Cell;
use roam_screens::{Seen, Shot};
use std::alloc::AllocError;

/// The pictures of a layout's panes, in tree order, each with its pane's number.
pub trait Pictures {
    /// The pictures.
    ghost shots: { Self → List (ℕ × Screenshot) };

    /// Facts about every picture.
    fn facts(&self)
        ensures screenshots { All (λ (x : ℕ × Screenshot). IsScreenshot x.1) (shots self.now) };

    /// Adds a row, from 0, of the picture at an index of the list, from 0, to a list of cells. Refuses want of memory.
    fn push_row(&self, index: usize, row: u16, cells: &mut Vec<Cell>) -> Result<(), AllocError>
        requires index { index < length (shots self.now) }
        requires row { row < (picture_at (shots self.now) index).rows }
        ensures row { IfOk result (λ _. cells.new.items ≡ cells.old.items
            ++ row_of (picture_at (shots self.now) index).cols (picture_at (shots self.now) index).cells row) };

    /// Returns the cursor of a pane's picture, row and column from 1, and true if it is visible. If the list has no such pane, the cursor
    /// is visible in the first row and column.
    fn cursor(&self, pane: u8) -> ((u16, u16), bool)
        ensures row { result.0.0 ≡ (picture_in (shots self.now) pane).cursor_row }
        ensures col { result.0.1 ≡ (picture_in (shots self.now) pane).cursor_col }
        ensures visible { result.1 ≡ (picture_in (shots self.now) pane).visible };
}

impl Pictures for &[(u8, Shot)] {
    ghost shots = { λ s. s.now };

    fn facts(&self) {
        facts_of(self);
    }

    fn push_row(&self, index: usize, row: u16, cells: &mut Vec<Cell>) -> Result<(), AllocError> {
        push_row(&self[index].1, row, cells)
    }

    fn cursor(&self, pane: u8) -> ((u16, u16), bool) {
        cursor_of(pane, self)
    }
}

// Facts about pictures in a list.
fn facts_of(shots: &[(u8, Shot)])
    ensures screenshots { All (λ (x : ℕ × Screenshot). IsScreenshot x.1) shots.now }
{
    for k in 0..shots.len() {
        shots[k].1.facts();
    }
}

// Adds a row of a screen, from 0.
fn push_row(shot: &Shot, row: u16, cells: &mut Vec<Cell>) -> Result<(), AllocError>
    requires row { row < shot.now.rows }
    ensures row { IfOk result (λ _. cells.new.items ≡ cells.old.items ++ row_of shot.now.cols shot.now.cells row) }
{
    cells.extend_from_slice(Seen::row(shot, row))
}

// The cursor of a pane's picture, and whether it is visible.
fn cursor_of(pane: u8, shots: &[(u8, Shot)]) -> ((u16, u16), bool)
    ensures row { result.0.0 ≡ (picture_in shots.now pane).cursor_row }
    ensures col { result.0.1 ≡ (picture_in shots.now pane).cursor_col }
    ensures visible { result.1 ≡ (picture_in shots.now pane).visible }
{
    if shots.is_empty() {
        ((1, 1), true)
    } else if shots[0].0 == pane {
        (shots[0].1.cursor(), shots[0].1.visible())
    } else {
        cursor_of(pane, &shots[1..])
    }
}
