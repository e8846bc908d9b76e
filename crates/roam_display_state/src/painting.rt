//! The texts that lead a terminal from its screen to another part of a screen.
ghost use Rattle.std.specs.Prelude.{◌≡◌, ◌↔◌, [], ◌∷◌, IfOk, IfSome, IsOkUnless, IsTrue, Some, None};
ghost use Rattle.roam_scroll_paint.specs.Leads.{Leads};
ghost use Rattle.roam_display_state.specs.DisplayState.{IsStill, LeadsFrom};
ghost use Rattle.roam_paint.specs.Painting.{text_between};
ghost use Rattle.roam_turns.specs.Painting.{ShowsSized};

use roam_cells::{Fault, are_same_cells};
use roam_paint::paint;
use roam_screens::{RowShot, Seen, Shown};
use roam_scroll_paint::laws::paint_leads;
use roam_scroll_paint::paint_moved;
use roam_turns::Outer;
use roam_viewport::Part;
use std::alloc::Global;

// A text that opens a terminal, whatever it shows, and shows a screen there.
fn opening(alloc: Global, view: &RowShot) -> Result<Vec<u8>, Fault>
    ensures opens { IfOk result (λ text. ShowsSized None text.items view.now) }
    ensures fault { IsOkUnless result Fault.OutOfMemory }
{
    let mut outer = Outer::new();
    let Some(text) = outer.paint(alloc, 0, &Shown::New(view)) else {
        return Err(Fault::OutOfMemory);
    };
    Ok(text)
}

// A text that leads from one screen to another, in which rows may be moved.
fn moving(alloc: Global, before: &RowShot, view: &RowShot) -> Result<Vec<u8>, Fault>
    ensures leads { IfOk result (λ text. Leads before.now view.now text.items) }
    ensures fault { IsOkUnless result Fault.OutOfMemory }
{
    let mut text = Vec::new(alloc);
    paint_moved(before, view, &mut text)?;
    Ok(text)
}

// A text that leads from one screen to another and writes each place that differs, and no other.
fn standing(alloc: Global, before: &RowShot, view: &RowShot) -> Result<Vec<u8>, Fault>
    ensures leads { IfOk result (λ text. Leads before.now view.now text.items) }
    ensures still { IfOk result (λ text. text.items ≡ text_between before.now view.now) }
    ensures fault { IsOkUnless result Fault.OutOfMemory }
{
    paint_leads();
    view.facts();
    let mut text = Vec::new(alloc);
    paint(before, view, &mut text)?;
    Ok(text)
}

/// Returns a text that leads a terminal from its screen, if it is known, to another. If cells are masked it moves no row: it writes each
/// place that differs, and no other. `OutOfMemory`.
pub(crate) fn text_to(
    alloc: Global,
    before: &Option<RowShot>,
    masks: &[Part],
    view: &RowShot,
) -> Result<Vec<u8>, Fault>
    ensures leads { IfOk result (λ text. LeadsFrom before.now text.items view.now) }
    ensures still { IfOk result (λ text. IsStill masks.now before.now text.items view.now) }
    ensures fault { IsOkUnless result Fault.OutOfMemory }
{
    match before {
        None => opening(alloc, view),
        Some(before) if masks.is_empty() => moving(alloc, before, view),
        Some(before) => standing(alloc, before, view),
    }
}

// Returns true if two screens of the same size have the same cells.
fn has_same_rows(before: &RowShot, view: &RowShot) -> bool
    requires rows { before.now.rows ≡ view.now.rows }
    requires cols { before.now.cols ≡ view.now.cols }
    ensures same { IsTrue result ↔ (before.now.cells ≡ view.now.cells) }
{
    before.facts();
    view.facts();
    for row in 0..view.rows() {
        if !are_same_cells(before.row(row), view.row(row)) {
            return false;
        }
    }
    true
}

// Returns true if two screens have the same size, cells, cursor and visibility of the cursor.
fn is_same(before: &RowShot, view: &RowShot) -> bool
    ensures same { IsTrue result ↔ (before.now ≡ view.now) }
{
    if before.rows() != view.rows() || before.cols() != view.cols() {
        return false;
    }
    let (row, col) = before.cursor();
    let (view_row, view_col) = view.cursor();
    if row != view_row || col != view_col || before.visible() != view.visible() {
        return false;
    }
    has_same_rows(before, view)
}

/// Returns true if the terminal is known to show this screen.
pub(crate) fn is_shown(before: &Option<RowShot>, view: &RowShot) -> bool
    ensures shown { IsTrue result ↔ (before.now ≡ Some view.now) }
{
    match before {
        Some(before) => is_same(before, view),
        None => false,
    }
}
