//! One row is written, and its end erased.
ghost use Rattle.std.specs.Prelude.{◌≡◌, ℕ, ◌+◌, ◌-◌, ◌<◌, ◌≤◌, ◌&&◌, ◌||◌, not, nat_lt, ◌++◌, OnOk, IfOk, [], ◌∷◌, map, length, slice_index_or, false, if◌then◌else◌};
ghost use Rattle.std.specs.List.{flat_map};
ghost use Rattle.roam_cells.specs.Glyph.{is_right_half, is_wide, default_style};
ghost use Rattle.roam_text.specs.declared.functions.Function.TheVariants.{Print};
ghost use Rattle.roam_term.specs.Ground.{shown_at};
ghost use Rattle.roam_paint.specs.Painting.{is_drawn, goes_on, style_after, style_in};
ghost use Rattle.roam_scroll_paint.specs.Sequences.{text_of};
ghost use Rattle.roam_scroll_paint.specs.Styles.{styled_from};
ghost use Rattle.roam_scroll_paint.specs.Rows.{is_marked, placing_at, placed_in, written_cell, written_row, doubt_after, doubt_in, ends_at, erasing_from, style_left, erase_line, row_functions, row_style_left};

use crate::doubts::is_doubtful;
use crate::renditions::push_styled_from;
use crate::sequences::{push_erase_line, push_placing_at};
use roam_cells::{Cell, Style};
use roam_paint::{cell_of, push_points};
use roam_screens::Seen;
use std::alloc::AllocError;

// What some columns leave: the style that is set, and whether terminals disagree on the width of the last cell.
#[derive(Clone, Copy)]
struct Left {
    style: Style,
    doubtful: bool,
}

/// Returns true if a column is marked; those behind the last aren't.
pub fn mark_at(marks: &[bool], col: usize) -> bool
    ensures mark { result ≡ slice_index_or marks.now col false }
{
    if col < marks.len() { marks[col] } else { false }
}

/// Returns true if a cell begins at a column, and it or its right half is marked.
pub fn is_drawn(cell: &Cell, here: bool, after: bool) -> bool
    ensures drawn { result ≡ (not (is_right_half cell.now) && (here || (is_wide cell.now && after))) }
{
    !cell.is_right_half() && (here || (cell.is_wide() && after))
}

// The column is in the run of the column before it.
fn goes_on(marks: &[bool], row: usize, col: usize) -> bool
    ensures on { result ≡ goes_on (is_marked marks.now) row col }
{
    0 < col && mark_at(marks, col - 1) && mark_at(marks, col)
}

fn place(text: &mut Vec<u8>, stays: bool, row: usize, col: usize) -> Result<(), AllocError>
    requires few { (row < 1000) × (col < 1000) }
    ensures text { OnOk result (text.new.items ≡ text.old.items ++ flat_map text_of (if stays then [] else placing_at row col ∷ [])) }
{
    if !stays {
        push_placing_at(text, row, col)?;
    }
    Ok(())
}

#[tactic(auto, using(crate::proofs::Turns::cell_text))]
fn write_cell(
    text: &mut Vec<u8>,
    stays: bool,
    style: Style,
    row: usize,
    col: usize,
    cell: &Cell,
) -> Result<(), AllocError>
    requires few { (row < 1000) × (col < 1000) }
    ensures text { OnOk result (text.new.items ≡ text.old.items ++ flat_map text_of ((if stays then [] else placing_at row col ∷ [])
        ++ (styled_from style cell.now.style ++ map Print cell.now.points))) }
{
    place(text, stays, row, col)?;
    push_styled_from(text, style, cell.style())?;
    push_points(text, cell)?;
    Ok(())
}

// One column, with what those before it leave; returns what it leaves.
#[tactic(auto, unfolding(crate::specs::Rows::written_cell, crate::specs::Rows::doubt_after, roam_paint::specs::Painting::style_after))]
fn write_place<N: Seen>(
    text: &mut Vec<u8>,
    new: &N,
    row: usize,
    col: usize,
    marks: &[bool],
    left: Left,
) -> Result<Left, AllocError>
    requires inside { (row < (N.screen new.now).rows) × (col < (N.screen new.now).cols) }
    ensures text { OnOk result (text.new.items ≡ text.old.items ++ flat_map text_of
        (written_cell (is_marked marks.now) (shown_at (N.screen new.now)) row col left.style left.doubtful)) }
    ensures style { IfOk result (λ l. l.style ≡ style_after (is_marked marks.now) (shown_at (N.screen new.now)) row col left.style) }
    ensures doubt { IfOk result (λ l. l.doubtful ≡ doubt_after (is_marked marks.now) (shown_at (N.screen new.now)) row col left.doubtful) }
{
    new.facts();
    let cell = cell_of(new, row, col);
    if !is_drawn(cell, mark_at(marks, col), mark_at(marks, col + 1)) {
        return Ok(left);
    }
    // The outer terminal's cursor may be elsewhere behind a doubtful cell.
    let stays = goes_on(marks, row, col) && !left.doubtful;
    write_cell(text, stays, left.style, row, col, cell)?;
    Ok(Left {
        style: cell.style(),
        doubtful: is_doubtful(cell),
    })
}

// The marked columns of a row before one; returns what they leave.
fn write_row<N: Seen>(
    text: &mut Vec<u8>,
    new: &N,
    row: usize,
    marks: &[bool],
    end: usize,
    style: Style,
) -> Result<Left, AllocError>
    requires row { row < (N.screen new.now).rows }
    requires end { end ≤ (N.screen new.now).cols }
    ensures text { OnOk result (text.new.items ≡ text.old.items ++ flat_map text_of
        (written_row (is_marked marks.now) (shown_at (N.screen new.now)) row style end)) }
    ensures style { IfOk result (λ l. l.style ≡ style_in (is_marked marks.now) (shown_at (N.screen new.now)) row style end) }
    ensures doubt { IfOk result (λ l. l.doubtful ≡ doubt_in (is_marked marks.now) (shown_at (N.screen new.now)) row end) }
{
    let mut left = Left {
        style,
        doubtful: false,
    };
    for col in 0..end {
        left = write_place(text, new, row, col, marks, left)?;
    }
    Ok(left)
}

// Returns true if the cursor is at a column since the text before ends there.
fn ends_at(marks: &[bool], row: usize, col: usize) -> bool
    ensures ends { result ≡ ends_at (is_marked marks.now) row col }
{
    0 < col && mark_at(marks, col - 1)
}

#[tactic(auto, using(crate::proofs::Turns::end_text))]
fn push_end(
    text: &mut Vec<u8>,
    stands: bool,
    row: usize,
    end: usize,
    style: Style,
) -> Result<(), AllocError>
    requires few { (row < 1000) × (end < 1000) }
    ensures text { OnOk result (text.new.items ≡ text.old.items ++ flat_map text_of ((if stands then [] else placing_at row end ∷ [])
        ++ (styled_from style default_style ++ erase_line ∷ []))) }
{
    place(text, stands, row, end)?;
    push_styled_from(text, style, Style::default())?;
    push_erase_line(text)?;
    Ok(())
}

// Erases the row from a column on, if that is one of its columns; returns the style that is set then.
#[tactic(auto, unfolding(crate::specs::Rows::erasing_from, crate::specs::Rows::style_left))]
fn erase_from(
    text: &mut Vec<u8>,
    row: usize,
    end: usize,
    cols: usize,
    marks: &[bool],
    left: Left,
) -> Result<Style, AllocError>
    requires few { (row < 1000) × (cols < 1000) }
    ensures text { OnOk result (text.new.items ≡ text.old.items ++ flat_map text_of
        (erasing_from (is_marked marks.now) row end cols left.style left.doubtful)) }
    ensures style { IfOk result (λ s. s ≡ style_left end cols left.style) }
{
    if cols <= end {
        return Ok(left.style);
    }
    let stands = ends_at(marks, row, end) && !left.doubtful;
    push_end(text, stands, row, end, left.style)?;
    Ok(Style::default())
}

/// Appends a row: the marked cells before a column, and the erasure from there on; returns the style that is set then.
pub fn push_row<N: Seen>(
    text: &mut Vec<u8>,
    new: &N,
    row: usize,
    marks: &[bool],
    end: usize,
    style: Style,
) -> Result<Style, AllocError>
    requires row { row < (N.screen new.now).rows }
    requires end { end ≤ (N.screen new.now).cols }
    ensures text { OnOk result (text.new.items ≡ text.old.items ++ flat_map text_of
        (row_functions marks.now (shown_at (N.screen new.now)) (N.screen new.now).cols row end style)) }
    ensures style { IfOk result (λ s. s ≡ row_style_left marks.now (shown_at (N.screen new.now)) (N.screen new.now).cols row end style) }
{
    new.facts();
    let left = write_row(text, new, row, marks, end, style)?;
    let set = erase_from(text, row, end, usize::from(new.cols()), marks, left)?;
    Ok(set)
}
