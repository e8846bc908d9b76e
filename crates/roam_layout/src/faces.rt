//! The face of a session: its panes' pictures in their rectangles, the borders between them, and the status text.
ghost use Rattle.std.specs.Prelude.{◌≡◌, ℕ, true, [], ◌∷◌, ◌++◌, ◌*◌, ◌<◌, ◌≤◌, length, map, IfOk, OnOk, IsOkUnless};
ghost use Rattle.std.specs.List.{All};
ghost use Rattle.roam_cells.specs.Place.{AreUnguarded, IsWholeRow, AreWhole};
ghost use Rattle.roam_screens.specs.Screenshot.{Screenshot, IsPlace};
ghost use Rattle.roam_cells.specs.Glyph.{default_style, is_cell_text};
ghost use Rattle.roam_layout.specs.Layouts.{panes};
ghost use Rattle.roam_layout.specs.Status.{IsPrintable};
ghost use Rattle.roam_layout.specs.Faces.{character, sign, reverse_style, face, face_row, picture_at, ArePictures, Show, pane_segment, border_segment, segments};

use crate::layouts::Layout;
use crate::pictures::Pictures;
use crate::rects::{Rect, Way};
use roam_cells::{Cell, Fault, Style};
use roam_screens::Shot;
use std::alloc::{AllocError, Global};

/// The face of a layout whose panes show these pictures; refuses want of memory.
pub fn face(alloc: Global, layout: &Layout, shots: &[(u8, Shot)]) -> Result<Shot, Fault>
    requires pictures { ArePictures (panes layout.now) shots.now }
    ensures face { IfOk result (λ shot. (picture : ℕ → Screenshot) → Show picture shots.now → shot ≡ face layout.now picture) }
    ensures size { IfOk result (λ shot. (shot.rows ≡ layout.now.rows) × (shot.cols ≡ layout.now.cols)) }
    ensures fault { IsOkUnless result Fault.OutOfMemory }
{
    layout.facts();
    let cells = cells_of(alloc, layout, shots)?;
    let (cursor, visible) = cursor(layout, &shots);
    Ok(Shot::new(layout.rows(), layout.cols(), cells, cursor, visible))
}

fn cells_of(alloc: Global, layout: &Layout, shots: &[(u8, Shot)]) -> Result<Vec<Cell>, Fault>
    requires pictures { ArePictures (panes layout.now) shots.now }
    ensures cells { IfOk result (λ cells. (picture : ℕ → Screenshot) → Show picture shots.now
        → cells.items ≡ (face layout.now picture).cells) }
    ensures count { IfOk result (λ cells. length cells.items ≡ layout.now.rows * layout.now.cols) }
    ensures whole { IfOk result (λ cells. AreWhole layout.now.rows layout.now.cols cells.items) }
    ensures unguarded { IfOk result (λ cells. AreUnguarded cells.items) }
    ensures fault { IsOkUnless result Fault.OutOfMemory }
{
    layout.facts();
    let mut cells = Vec::with_capacity(
        alloc,
        usize::from(layout.rows()) * usize::from(layout.cols()),
    )?;
    for above in 0..layout.rows() {
        push_row(alloc, layout, &shots, above + 1, &mut cells)?;
    }
    Ok(cells)
}

/// Returns the cursor of the face, that of the pane in focus moved to its rectangle, and true if it is visible.
pub(crate) fn cursor<P: Pictures>(layout: &Layout, pictures: &P) -> ((u16, u16), bool)
    requires pictures { ArePictures (panes layout.now) (P.shots pictures.now) }
    ensures place { IsPlace layout.now.rows layout.now.cols result.0.0 result.0.1 }
    ensures row { (picture : ℕ → Screenshot) → Show picture (P.shots pictures.now)
        → result.0.0 ≡ (face layout.now picture).cursor_row }
    ensures col { (picture : ℕ → Screenshot) → Show picture (P.shots pictures.now)
        → result.0.1 ≡ (face layout.now picture).cursor_col }
    ensures visible { (picture : ℕ → Screenshot) → Show picture (P.shots pictures.now)
        → result.1 ≡ (face layout.now picture).visible }
{
    layout.facts();
    pictures.facts();
    let rect = layout.focus_rect();
    let ((row, col), visible) = pictures.cursor(layout.focus());
    ((rect.row + row - 1, rect.col + col - 1), visible)
}

/// Appends a row of the face, from 1, to a list of cells; it reads only that row of each picture that has a part of it. `OutOfMemory`.
pub fn push_row<P: Pictures>(
    alloc: Global,
    layout: &Layout,
    pictures: &P,
    row: u16,
    cells: &mut Vec<Cell>,
) -> Result<(), Fault>
    requires row { (1 ≤ row) × (row ≤ layout.now.rows) }
    requires pictures { ArePictures (panes layout.now) (P.shots pictures.now) }
    ensures row { IfOk result (λ _. (picture : ℕ → Screenshot) → Show picture (P.shots pictures.now)
        → cells.new.items ≡ cells.old.items ++ face_row layout.now picture row) }
    ensures whole { OnOk result ((picture : ℕ → Screenshot) → Show picture (P.shots pictures.now)
        → IsWholeRow (face_row layout.now picture row)) }
    ensures unguarded { OnOk result ((picture : ℕ → Screenshot) → Show picture (P.shots pictures.now)
        → AreUnguarded (face_row layout.now picture row)) }
    ensures fault { IsOkUnless result Fault.OutOfMemory }
{
    layout.facts();
    pictures.facts();
    if row == layout.rows() {
        let text = layout.status(alloc)?;
        push_text(cells, &text)?;
    } else {
        push_segments(cells, row, layout.rects(), layout.borders(), pictures)?;
    }
    Ok(())
}

fn push_segments<P: Pictures>(
    cells: &mut Vec<Cell>,
    row: u16,
    rects: &[(u8, Rect)],
    borders: &[(Way, Rect)],
    pictures: &P,
) -> Result<(), AllocError>
    requires pictures { ArePictures rects.now (P.shots pictures.now) }
    ensures segments { IfOk result (λ _. cells.new.items
        ≡ cells.old.items ++ segments row rects.now borders.now (P.shots pictures.now)) }
{
    for k in 0..rects.len() {
        push_pane(cells, row, rects[k].1, pictures, k)?;
        if k < borders.len() {
            push_border(cells, row, borders[k])?;
        }
    }
    Ok(())
}

fn push_pane<P: Pictures>(
    cells: &mut Vec<Cell>,
    row: u16,
    rect: Rect,
    pictures: &P,
    index: usize,
) -> Result<(), AllocError>
    requires index { index < length (P.shots pictures.now) }
    requires size { ((picture_at (P.shots pictures.now) index).rows ≡ rect.rows)
        × ((picture_at (P.shots pictures.now) index).cols ≡ rect.cols) }
    ensures segment { IfOk result (λ _. cells.new.items
        ≡ cells.old.items ++ pane_segment row rect (picture_at (P.shots pictures.now) index)) }
{
    if !rect.has_row(row) {
        return Ok(());
    }
    pictures.push_row(index, row - rect.row, cells)
}

fn push_border(cells: &mut Vec<Cell>, row: u16, border: (Way, Rect)) -> Result<(), AllocError>
    ensures segment { IfOk result (λ _. cells.new.items ≡ cells.old.items ++ border_segment row border) }
{
    let (way, rect) = border;
    if !rect.has_row(row) {
        return Ok(());
    }
    let len = cells.len() + usize::from(rect.cols);
    cells.resize(len, sign(way))
}

// The sign that a border is drawn with.
#[tactic(auto, using(crate::proofs::Beside::right_text, crate::proofs::Beside::down_text))]
fn sign(way: Way) -> Cell
    ensures cell { result ≡ sign way }
{
    match way {
        Way::Right => character('\u{2502}'),
        Way::Down => character('\u{2500}'),
    }
}

// A character in the default style.
fn character(point: char) -> Cell
    requires text { is_cell_text (point ∷ []) ≡ true }
    ensures cell { result ≡ character point default_style }
{
    match Cell::of(&[point], Style::default(), false) {
        Some(cell) => cell,
        None => unreachable!(),
    }
}

// Adds a text in reverse.
fn push_text(cells: &mut Vec<Cell>, text: &[u8]) -> Result<(), AllocError>
    requires printable { All IsPrintable text.now }
    ensures text { IfOk result (λ _. cells.new.items ≡ cells.old.items ++ map (λ b. character b reverse_style) text.now) }
{
    let style = Style {
        reverse: true,
        ..Style::default()
    };
    for byte in text {
        cells.push(Cell::ascii(*byte, style, false))?;
    }
    Ok(())
}
