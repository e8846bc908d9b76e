//! Draws rows one after another over the old cells.
ghost use Rattle.std.specs.Prelude.{◌≡◌, ℕ, ◌+◌, ◌<◌, OnOk, IfOk, IfSome, length, slice_index_or, true};
ghost use Rattle.roam_cells.specs.Glyph.{blank};
ghost use Rattle.roam_cells.specs.Place.{glyph_at};
ghost use Rattle.roam_term.specs.Ground.{shown_at};
ghost use Rattle.roam_paint.specs.Painting.{Places, same_size};
ghost use Rattle.roam_scroll_paint.specs.Bands.{FitsBand, taken, drawn_over};
ghost use Rattle.roam_scroll_paint.specs.Rows.{IsSameRow, AddsRow, AddsRows};

use crate::bands::{Band, source_of};
use crate::choice::is_known;
use crate::differences::{is_same_size, row_over};
use crate::marks::{end_of, mark_differences, mark_gaps};
use crate::rows::push_row;
use roam_cells::{Cell, Style, are_same_cells};
use roam_screens::Seen;
use std::alloc::AllocError;

// A row, over cells that are shown; answers the style that is set then.
fn draw_row<N: Seen>(
    text: &mut Vec<u8>,
    over: &[Cell],
    new: &N,
    row: u16,
    style: Style,
    marks: &mut [bool],
) -> Result<Style, AllocError>
    requires row { row < (N.screen new.now).rows }
    requires len { (length over.now ≡ (N.screen new.now).cols) × (length marks.old ≡ (N.screen new.now).cols) }
    ensures row { IfOk result (λ h. (places : Places) → ((c : ℕ) → places row c ≡ glyph_at over.now c)
        → AddsRow places (shown_at (N.screen new.now)) (N.screen new.now).cols row style h text.old.items text.new.items) }
{
    new.facts();
    let cells = new.row(row);
    mark_differences(marks, over, cells);
    mark_gaps(marks, cells, usize::from(row));
    let end = end_of(marks, cells, usize::from(row));
    let left = push_row(text, new, usize::from(row), marks, end, style)?;
    Ok(left)
}

// Draws a row that may already have the right cells, which may be known.
fn draw_changed_row<N: Seen>(
    text: &mut Vec<u8>,
    over: &[Cell],
    new: &N,
    row: u16,
    style: Style,
    known: bool,
    marks: &mut [bool],
) -> Result<Style, AllocError>
    requires row { row < (N.screen new.now).rows }
    requires len { (length over.now ≡ (N.screen new.now).cols) × (length marks.old ≡ (N.screen new.now).cols) }
    requires known { known ≡ true → (c : ℕ) → glyph_at over.now c ≡ shown_at (N.screen new.now) row c }
    ensures row { IfOk result (λ h. (places : Places) → ((c : ℕ) → places row c ≡ glyph_at over.now c)
        → AddsRow places (shown_at (N.screen new.now)) (N.screen new.now).cols row style h text.old.items text.new.items) }
{
    new.facts();
    if known {
        return Ok(style);
    }
    if are_same_cells(over, new.row(row)) {
        return Ok(style);
    }
    draw_row(text, over, new, row, style, marks)
}

/// All rows of the new screen, over the old screen after its band moved or over blanks; answers the style that is set then.
pub fn draw_rows<O: Seen, N: Seen>(
    text: &mut Vec<u8>,
    old: &O,
    new: &N,
    band: Option<Band>,
    costs: &[u32],
    blanks: &[Cell],
    marks: &mut [bool],
) -> Result<Style, AllocError>
    requires band { FitsBand (N.screen new.now).rows band }
    requires costs { (r : ℕ) → slice_index_or costs.now r 1 ≡ 0 → IsSameRow (O.screen old.now) (N.screen new.now) r }
    requires blanks { (length blanks.now ≡ (N.screen new.now).cols) × ((c : ℕ) → glyph_at blanks.now c ≡ blank) }
    requires marks { length marks.old ≡ (N.screen new.now).cols }
    ensures rows { IfOk result (λ h. AddsRows (drawn_over (O.screen old.now) (N.screen new.now) band) (shown_at (N.screen new.now))
        (N.screen new.now).cols (N.screen new.now).rows h text.old.items text.new.items) }
{
    new.facts();
    let same = is_same_size(old, new);
    let mut style = Style::default();
    for row in 0..new.rows() {
        let over = row_over(old, blanks, source_of(same, band, row));
        let known = is_known(band, costs, row);
        style = draw_changed_row(text, over, new, row, style, known, marks)?;
    }
    Ok(style)
}
