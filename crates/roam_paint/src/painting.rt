//! The text that leads a ground terminal from one screen to another.
ghost use Rattle.std.specs.Prelude.{◌≡◌, ℕ, ◌+◌, ◌<◌, ◌≤◌, ◌&&◌, ◌||◌, not, ◌++◌, List, OnOk, OnErr, IfOk, IsOkUnless, [], if◌then◌else◌};
ghost use Rattle.std.specs.List.{flat_map};
ghost use Rattle.roam_cells.specs.Glyph.{is_right_half, is_wide};
ghost use Rattle.roam_text.specs.Log.{Item};
ghost use Rattle.roam_term.specs.Terminal.{term};
ghost use Rattle.roam_paint.specs.Ground.{Displays, LeadsOver, IsOpened};
ghost use Rattle.roam_cells.specs.Same.{same_style};
ghost use Rattle.roam_paint.specs.Sequences.{spelling_of};
ghost use Rattle.roam_term.specs.ControlFunctions.{place_cursor, restyle};
ghost use Rattle.roam_term.specs.Ground.{shown_at};
ghost use Rattle.roam_paint.specs.Painting.{differs, is_drawn, goes_on, style_after, text_between, blanking_text};
ghost use Rattle.roam_paint.specs.Texts.{place_text, cell_text, row_text, row_style, rows_text, opening_text, closing_text};

use crate::differences::{cell_of, differs, is_same_row, is_same_size};
use crate::laws::{opened_begins_blank, painted_leads_over};
use crate::sequences::{
    push_erase_all, push_hide_cursor, push_place_cursor, push_points, push_restyle, push_set_style,
    push_show_cursor,
};
use roam_cells::{Cell, Fault, Style};
use roam_screens::Seen;
use std::alloc::{AllocError, Global};

// True if a place of a row, and those beside it, have to change.
#[derive(Clone, Copy)]
struct Differences {
    before: bool,
    here: bool,
    after: bool,
}

// A cell begins at a place, and it or its right half differs.
fn is_drawn(cell: &Cell, at: Differences) -> bool
    ensures drawn { result ≡ (not (is_right_half cell.now) && (at.here || (is_wide cell.now && at.after))) }
{
    !cell.is_right_half() && (at.here || (cell.is_wide() && at.after))
}

fn place(text: &mut Vec<u8>, stays: bool, row: usize, col: usize) -> Result<(), AllocError>
    requires few { (row < 1000) × (col < 1000) }
    ensures text { OnOk result (text.new.items ≡ text.old.items ++ (if stays then [] else spelling_of (place_cursor (row + 1) (col + 1)))) }
{
    if !stays {
        push_place_cursor(text, row as u16 + 1, col as u16 + 1)?;
    }
    Ok(())
}

fn restyle(text: &mut Vec<u8>, same: bool, style: Style) -> Result<(), AllocError>
    ensures text { OnOk result (text.new.items ≡ text.old.items ++ (if same then [] else flat_map spelling_of (restyle style))) }
{
    if !same {
        push_restyle(text, style)?;
    }
    Ok(())
}

/// Returns true if two styles are equal.
pub fn is_same_style(one: Style, other: Style) -> bool
    ensures same { result ≡ same_style one other }
{
    one.is_same(other)
}

fn paint_cell(
    text: &mut Vec<u8>,
    stays: bool,
    style: Style,
    row: usize,
    col: usize,
    cell: &Cell,
) -> Result<(), AllocError>
    requires few { (row < 1000) × (col < 1000) }
    ensures text { OnOk result (text.new.items ≡ text.old.items ++ cell_text stays (same_style cell.now.style style) row col cell.now) }
{
    place(text, stays, row, col)?;
    restyle(text, is_same_style(cell.style(), style), cell.style())?;
    push_points(text, cell)?;
    Ok(())
}

// One place, with the style that is set before it; answers the style that is set after it.
#[tactic(auto, unfolding(crate::specs::Texts::place_text, crate::specs::Painting::style_after))]
fn paint_place<O: Seen, N: Seen>(
    text: &mut Vec<u8>,
    old: &O,
    new: &N,
    row: usize,
    col: usize,
    at: Differences,
    style: Style,
) -> Result<Style, AllocError>
    requires inside { (row < (N.screen new.now).rows) × (col < (N.screen new.now).cols) }
    requires here { at.here ≡ differs (O.screen old.now) (N.screen new.now) row col }
    requires after { at.after ≡ differs (O.screen old.now) (N.screen new.now) row (col + 1) }
    requires stays { (at.before && at.here) ≡ goes_on (differs (O.screen old.now) (N.screen new.now)) row col }
    ensures text { OnOk result (text.new.items ≡ text.old.items ++ place_text (O.screen old.now) (N.screen new.now) row col style) }
    ensures style { IfOk result (λ s. s ≡ style_after (differs (O.screen old.now) (N.screen new.now)) (shown_at (N.screen new.now))
        row col style) }
{
    new.facts();
    let cell = cell_of(new, row, col);
    if !is_drawn(cell, at) {
        return Ok(style);
    }
    paint_cell(text, at.before && at.here, style, row, col, cell)?;
    Ok(cell.style())
}

// Paints one row, with the style that is set before it; returns the style that is set after it. Each place is compared once, or twice if
// the row begins with places that don't differ.
fn paint_row<O: Seen, N: Seen>(
    text: &mut Vec<u8>,
    old: &O,
    new: &N,
    row: usize,
    style: Style,
) -> Result<Style, AllocError>
    requires row { row < (N.screen new.now).rows }
    ensures text { OnOk result (text.new.items ≡ text.old.items ++ row_text (O.screen old.now) (N.screen new.now)
        row style (N.screen new.now).cols) }
    ensures style { IfOk result (λ s. s ≡ row_style (O.screen old.now) (N.screen new.now) row style (N.screen new.now).cols) }
{
    let mut set = style;
    let mut at = Differences {
        before: false,
        here: differs(old, new, row, 0),
        after: false,
    };
    for col in 0..usize::from(new.cols()) {
        at.after = differs(old, new, row, col + 1);
        set = paint_place(text, old, new, row, col, at, set)?;
        at.before = at.here;
        at.here = at.after;
    }
    Ok(set)
}

fn paint_changed_row<O: Seen, N: Seen>(
    text: &mut Vec<u8>,
    old: &O,
    new: &N,
    row: usize,
    style: Style,
) -> Result<Style, AllocError>
    requires row { row < (N.screen new.now).rows }
    ensures text { OnOk result (text.new.items ≡ text.old.items ++ row_text (O.screen old.now) (N.screen new.now)
        row style (N.screen new.now).cols) }
    ensures style { IfOk result (λ s. s ≡ row_style (O.screen old.now) (N.screen new.now) row style (N.screen new.now).cols) }
{
    if is_same_row(old, new, row) {
        return Ok(style);
    }
    paint_row(text, old, new, row, style)
}

fn paint_rows<O: Seen, N: Seen>(text: &mut Vec<u8>, old: &O, new: &N) -> Result<(), AllocError>
    ensures text { OnOk result (text.new.items ≡ text.old.items ++ rows_text (O.screen old.now) (N.screen new.now)
        (N.screen new.now).rows) }
{
    let mut style = Style::default();
    for row in 0..usize::from(new.rows()) {
        style = paint_changed_row(text, old, new, row, style)?;
    }
    Ok(())
}

fn open_painting(text: &mut Vec<u8>, same: bool) -> Result<(), AllocError>
    ensures text { OnOk result (text.new.items ≡ text.old.items ++ opening_text same) }
{
    push_hide_cursor(text)?;
    push_erase_all(text, same)?;
    Ok(())
}

fn close_painting(text: &mut Vec<u8>, cursor: (u16, u16), visible: bool) -> Result<(), AllocError>
    ensures text { OnOk result (text.new.items ≡ text.old.items ++ closing_text cursor.0 cursor.1 visible) }
{
    push_set_style(text, Style::default())?;
    push_place_cursor(text, cursor.0, cursor.1)?;
    push_show_cursor(text, visible)?;
    Ok(())
}

// The text is built separately, so that want of memory leaves the old one. If sizes differ all is erased first.
fn painting<O: Seen, N: Seen>(alloc: Global, old: &O, new: &N) -> Result<Vec<u8>, AllocError>
    ensures text { IfOk result (λ text. text.items ≡ text_between (O.screen old.now) (N.screen new.now)) }
{
    let mut text = Vec::new(alloc);
    open_painting(&mut text, is_same_size(old, new))?;
    paint_rows(&mut text, old, new)?;
    close_painting(&mut text, new.cursor(), new.visible())?;
    Ok(text)
}

/// Appends the text that leads a ground terminal from one screen to another. `OutOfMemory` leaves `out` as it was.
///
/// The cursor is hidden. If sizes differ all is erased (ED 2, ECMA-48 8.3.39) and the old screen counts as blank. For each row each maximal
/// run of places that differ, widened to whole wide cells of the new screen, is written from its beginning (CUP, 8.3.21), with SGR
/// (8.3.117) before each cell in another style. Then come the default style, the cursor's place, and the cursor if it is visible.
pub fn paint<O: Seen, N: Seen>(old: &O, new: &N, out: &mut Vec<u8>) -> Result<(), Fault>
    ensures leads { OnOk result ((rows cols lines : ℕ) (log : List Item) → Displays rows cols lines log (O.screen old.now)
        → (N.screen new.now).rows ≤ (term rows cols lines log).live.screen.rows
        → (N.screen new.now).cols ≤ (term rows cols lines log).live.screen.cols
        → LeadsOver rows cols lines log (O.screen old.now) (N.screen new.now)) }
    ensures text { OnOk result (out.new.items ≡ out.old.items ++ text_between (O.screen old.now) (N.screen new.now)) }
    ensures err { OnErr result (out.new.items ≡ out.old.items) }
    ensures fault { IsOkUnless result Fault.OutOfMemory }
{
    new.facts();
    painted_leads_over();
    let text = painting(*out.allocator(), old, new)?;
    out.extend_from_slice(&text)?;
    Ok(())
}

/// Appends the text that makes of any terminal state a ground terminal with a blank screen (RIS, ECMA-48 8.3.105). `OutOfMemory` leaves
/// `out` as it was.
pub fn open(out: &mut Vec<u8>) -> Result<(), Fault>
    ensures begins { OnOk result ((rows cols lines : ℕ) (log : List Item) → 1 ≤ (term rows cols lines log).live.screen.rows
        → 1 ≤ (term rows cols lines log).live.screen.cols → IsOpened rows cols lines log) }
    ensures text { OnOk result (out.new.items ≡ out.old.items ++ blanking_text) }
    ensures err { OnErr result (out.new.items ≡ out.old.items) }
    ensures fault { IsOkUnless result Fault.OutOfMemory }
{
    opened_begins_blank();
    out.extend_from_slice(b"\x1Bc")?;
    Ok(())
}
