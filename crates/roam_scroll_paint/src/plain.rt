//! Rows are drawn place by place: the places that differ, and no others. The text of a painter which writes nothing else is a limit.
ghost use Rattle.std.specs.Prelude.{◌≡◌, ℕ, ◌+◌, ◌<◌, IfOk, IfSome, length, None};
ghost use Rattle.roam_cells.specs.Glyph.{blank};
ghost use Rattle.roam_cells.specs.Place.{glyph_at};
ghost use Rattle.roam_screens.specs.Screenshot.{Screenshot};
ghost use Rattle.roam_term.specs.Ground.{shown_at};
ghost use Rattle.roam_paint.specs.Painting.{Places, same_size, painted_over};
ghost use Rattle.roam_scroll_paint.specs.Bands.{taken, drawn_over};
ghost use Rattle.roam_scroll_paint.specs.Rows.{AddsRow, AddsRows};
ghost use Rattle.roam_scroll_paint.specs.Short.{AddsShortRow, AddsShortRows};

use crate::bands::source_of;
use crate::differences::{is_same_size, row_over};
use crate::marks::mark_differences;
use crate::rows::push_row;
use roam_cells::{Cell, Style, are_same_cells};
use roam_screens::Seen;
use std::alloc::AllocError;

// A row, over cells that are shown; returns the style that is set then.
fn write_row<N: Seen>(
    text: &mut Vec<u8>,
    over: &[Cell],
    new: &N,
    row: u16,
    style: Style,
    marks: &mut [bool],
) -> Result<Style, AllocError>
    requires row { row < (N.screen new.now).rows }
    requires len { (length over.now ≡ (N.screen new.now).cols) × (length marks.old ≡ (N.screen new.now).cols) }
    ensures row { IfOk result (λ h. (places : Places) → ((c : ℕ) → places row c ≡ glyph_at over.now c)
        → AddsRow places (shown_at (N.screen new.now)) (N.screen new.now).cols row style h text.old.items text.new.items) }
    ensures few { IfOk result (λ h. (old : Screenshot) → ((c : ℕ) → painted_over old (N.screen new.now) row c ≡ glyph_at over.now c)
        → AddsShortRow old (N.screen new.now) row style h text.old.items text.new.items) }
{
    new.facts();
    let cells = new.row(row);
    mark_differences(marks, over, cells);
    let left = push_row(text, new, usize::from(row), marks, cells.len(), style)?;
    Ok(left)
}

// Writes a row that may already have the right cells.
fn write_changed_row<N: Seen>(
    text: &mut Vec<u8>,
    over: &[Cell],
    new: &N,
    row: u16,
    style: Style,
    marks: &mut [bool],
) -> Result<Style, AllocError>
    requires row { row < (N.screen new.now).rows }
    requires len { (length over.now ≡ (N.screen new.now).cols) × (length marks.old ≡ (N.screen new.now).cols) }
    ensures row { IfOk result (λ h. (places : Places) → ((c : ℕ) → places row c ≡ glyph_at over.now c)
        → AddsRow places (shown_at (N.screen new.now)) (N.screen new.now).cols row style h text.old.items text.new.items) }
    ensures few { IfOk result (λ h. (old : Screenshot) → ((c : ℕ) → painted_over old (N.screen new.now) row c ≡ glyph_at over.now c)
        → AddsShortRow old (N.screen new.now) row style h text.old.items text.new.items) }
{
    new.facts();
    if are_same_cells(over, new.row(row)) {
        return Ok(style);
    }
    write_row(text, over, new, row, style, marks)
}

/// All rows of the new screen, over the old screen or over blanks; returns the style that is set then.
pub fn write_rows<O: Seen, N: Seen>(
    text: &mut Vec<u8>,
    old: &O,
    new: &N,
    blanks: &[Cell],
    marks: &mut [bool],
) -> Result<Style, AllocError>
    requires blanks { (length blanks.now ≡ (N.screen new.now).cols) × ((c : ℕ) → glyph_at blanks.now c ≡ blank) }
    requires marks { length marks.old ≡ (N.screen new.now).cols }
    ensures rows { IfOk result (λ h. AddsRows (drawn_over (O.screen old.now) (N.screen new.now) None) (shown_at (N.screen new.now))
        (N.screen new.now).cols (N.screen new.now).rows h text.old.items text.new.items) }
    ensures few { IfOk result (λ h. AddsShortRows (O.screen old.now) (N.screen new.now) (N.screen new.now).rows h
        text.old.items text.new.items) }
{
    new.facts();
    let same = is_same_size(old, new);
    let mut style = Style::default();
    for row in 0..new.rows() {
        let over = row_over(old, blanks, source_of(same, None, row));
        style = write_changed_row(text, over, new, row, style, marks)?;
    }
    Ok(style)
}
