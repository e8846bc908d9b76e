//! The face of a session made of one that was kept: marked rows are built, the others are shared.
ghost use Rattle.std.specs.Prelude.{◌≡◌, ℕ, ◌+◌, ◌<◌, ◌≤◌, length, IfOk, OnOk, IsOkUnless};
ghost use Rattle.roam_cells.specs.Place.{row_of};
ghost use Rattle.roam_screens.specs.Screenshot.{Screenshot};
ghost use Rattle.roam_layout.specs.Layouts.{panes};
ghost use Rattle.roam_layout.specs.Faces.{face, face_row, ArePictures, Show, KeepsRows};

use crate::faces::{cursor, push_row};
use crate::layouts::Layout;
use crate::pictures::Pictures;
use roam_cells::{Cell, Fault};
use roam_screens::{RowShot, Seen};
use std::alloc::Global;

// Puts a row of the face, from 0, into a screen; `line` is room for it.
fn put_row<P: Pictures>(
    alloc: Global,
    layout: &Layout,
    pictures: &P,
    row: u16,
    line: &mut Vec<Cell>,
    shot: &mut RowShot,
) -> Result<(), Fault>
    requires pictures { ArePictures (panes layout.now) (P.shots pictures.now) }
    requires row { row < layout.now.rows }
    requires size { (shot.old.rows ≡ layout.now.rows) × (shot.old.cols ≡ layout.now.cols) }
    ensures same { OnOk result (shot.new ≡ record shot.old { cells = shot.new.cells }) }
    ensures here { OnOk result ((picture : ℕ → Screenshot) → Show picture (P.shots pictures.now)
        → row_of layout.now.cols shot.new.cells row ≡ face_row layout.now picture (row + 1)) }
    ensures others { OnOk result ((r : ℕ) → r < layout.now.rows → (¬ (r ≡ row))
        → row_of layout.now.cols shot.new.cells r ≡ row_of layout.now.cols shot.old.cells r) }
    ensures fault { IsOkUnless result Fault.OutOfMemory }
{
    layout.facts();
    line.clear();
    push_row(alloc, layout, pictures, row + 1, line)?;
    shot.set_row(alloc, row, line)?;
    Ok(())
}

// Puts each row of the face that is marked into a screen.
fn put_marked<P: Pictures>(
    alloc: Global,
    layout: &Layout,
    pictures: &P,
    marks: &[bool],
    shot: &mut RowShot,
) -> Result<(), Fault>
    requires pictures { ArePictures (panes layout.now) (P.shots pictures.now) }
    requires size { (shot.old.rows ≡ layout.now.rows) × (shot.old.cols ≡ layout.now.cols) }
    requires marks { layout.now.rows ≤ length marks.now }
    requires kept { (picture : ℕ → Screenshot) → Show picture (P.shots pictures.now) → KeepsRows marks.now shot.old layout.now picture }
    ensures same { OnOk result (shot.new ≡ record shot.old { cells = shot.new.cells }) }
    ensures rows { OnOk result ((picture : ℕ → Screenshot) → Show picture (P.shots pictures.now) → (r : ℕ) → r < layout.now.rows
        → row_of layout.now.cols shot.new.cells r ≡ face_row layout.now picture (r + 1)) }
    ensures fault { IsOkUnless result Fault.OutOfMemory }
{
    let mut line = Vec::with_capacity(alloc, usize::from(layout.cols()))?;
    for row in 0..layout.rows() {
        if marks[usize::from(row)] {
            put_row(alloc, layout, pictures, row, &mut line, shot)?;
        }
    }
    Ok(())
}

/// Returns the face of a layout whose panes show these pictures. It is made of a screen of its size that has each of the face's unmarked
/// rows. Only marked rows are built, and nothing else is read of the pictures but the cursor of the pane in focus; the other rows are
/// shared. `OutOfMemory`.
pub fn face_over<P: Pictures>(
    alloc: Global,
    layout: &Layout,
    pictures: &P,
    kept: &RowShot,
    marks: &[bool],
) -> Result<RowShot, Fault>
    requires pictures { ArePictures (panes layout.now) (P.shots pictures.now) }
    requires size { (kept.now.rows ≡ layout.now.rows) × (kept.now.cols ≡ layout.now.cols) }
    requires marks { layout.now.rows ≤ length marks.now }
    requires kept { (picture : ℕ → Screenshot) → Show picture (P.shots pictures.now) → KeepsRows marks.now kept.now layout.now picture }
    ensures face { IfOk result (λ shot. (picture : ℕ → Screenshot) → Show picture (P.shots pictures.now) → shot ≡ face layout.now picture) }
    ensures fault { IsOkUnless result Fault.OutOfMemory }
{
    let mut shot = kept.copy(alloc)?;
    put_marked(alloc, layout, pictures, marks, &mut shot)?;
    shot.facts();
    let (place, visible) = cursor(layout, pictures);
    shot.set_cursor(place, visible);
    Ok(shot)
}
