//! How many bytes a painter writes that leaves nothing out, counted and not written: never too many.
ghost use Rattle.std.specs.Prelude.{◌≡◌, ℕ, ◌+◌, ◌-◌, ◌<◌, ◌≤◌, ◌&&◌, ◌||◌, not, true, false, length, decimal, [], slice_index_or, if◌then◌else◌};
ghost use Rattle.std.specs.List.{flat_map};
ghost use Rattle.roam_cells.specs.Glyph.{is_right_half, is_wide};
ghost use Rattle.roam_cells.specs.Same.{same, same_style};
ghost use Rattle.roam_term.specs.ControlFunctions.{place_cursor, set_style, set_mixture, restyle};
ghost use Rattle.roam_term.specs.Ground.{shown_at};
ghost use Rattle.roam_paint.specs.Painting.{same_size, differs, goes_on, style_after, text_between};
ghost use Rattle.roam_paint.specs.Sequences.{spelling_of};
ghost use Rattle.roam_paint.specs.Texts.{code_text, colour_text, cell_text, place_text, row_text, row_style, rows_text, rows_style, closing_text};
ghost use Rattle.roam_scroll_paint.specs.Rows.{IsSameRow};
ghost use Rattle.roam_scroll_paint.specs.Counting.{flag_size, flags_size, colour_size, mixture_size, style_size};

use crate::choice::is_known;
use crate::differences::is_same_size;
use crate::marks::{bytes_of, digits, move_cost};
use crate::rows::is_drawn;
use roam_cells::{Cell, Colour, Style};
use roam_paint::{cell_of, is_other, is_same_style};
use roam_screens::Seen;

// The count so far, and the style that is set then.
#[derive(Clone, Copy)]
struct Counted {
    bytes: usize,
    style: Style,
}

// True if a place and those beside it differ.
#[derive(Clone, Copy)]
struct Differences {
    before: bool,
    here: bool,
    after: bool,
}

fn flag_bytes(on: bool) -> usize
    ensures size { result ≡ flag_size on }
    ensures few { result ≤ 2 }
{
    if on { 2 } else { 0 }
}

#[tactic(auto, unfolding(crate::specs::Counting::flags_size))]
fn flags_bytes(style: Style) -> usize
    ensures size { result ≡ flags_size style }
    ensures few { result ≤ 16 }
{
    flag_bytes(style.bold)
        + flag_bytes(style.faint)
        + flag_bytes(style.italic)
        + flag_bytes(style.underline)
        + flag_bytes(style.blink)
        + flag_bytes(style.reverse)
        + flag_bytes(style.conceal)
        + flag_bytes(style.strike)
}

fn colour_bytes(colour: Colour) -> usize
    ensures size { result ≡ colour_size colour }
    ensures few { result ≤ 9 }
{
    match colour {
        Colour::Default => 0,
        Colour::Index(n) => 6 + digits(usize::from(n)),
        Colour::Rgb(_, _, _) => 0,
    }
}

fn mixture_bytes(colour: Colour) -> usize
    ensures size { result ≡ mixture_size colour }
    ensures few { result ≤ 19 }
{
    match colour {
        Colour::Default => 0,
        Colour::Index(_) => 0,
        Colour::Rgb(red, green, blue) => {
            10 + digits(usize::from(red)) + digits(usize::from(green)) + digits(usize::from(blue))
        }
    }
}

#[tactic(auto, unfolding(crate::specs::Counting::style_size))]
fn style_bytes(style: Style) -> usize
    ensures size { result ≡ style_size style }
{
    4 + flags_bytes(style)
        + colour_bytes(style.foreground)
        + colour_bytes(style.background)
        + mixture_bytes(style.foreground)
        + mixture_bytes(style.background)
}

#[tactic(auto, using(crate::proofs::Counts::move_least))]
fn place_bytes(stays: bool, row: usize, col: usize) -> usize
    requires few { (row < 1000) × (col < 1000) }
    ensures least { result ≤ length (if stays then [] else spelling_of (place_cursor (row + 1) (col + 1))) }
{
    if stays {
        return 0;
    }
    move_cost(row, col)
}

#[tactic(auto, using(crate::proofs::Counts::style_least))]
fn restyle_bytes(same: bool, cell: &Cell) -> usize
    ensures least { result ≤ length (if same then [] else flat_map spelling_of (restyle cell.now.style)) }
{
    cell.facts();
    if same {
        return 0;
    }
    style_bytes(cell.style())
}

// A cell that is drawn, in the run of the place before it or not, in the style that is set or not.
#[tactic(auto, using(crate::proofs::Counts::cell_least))]
fn cell_bytes(stays: bool, same: bool, row: usize, col: usize, cell: &Cell) -> usize
    requires few { (row < 1000) × (col < 1000) }
    ensures least { result ≤ length (cell_text stays same row col cell.now) }
{
    let place = place_bytes(stays, row, col);
    let style = restyle_bytes(same, cell);
    bytes_of(cell).saturating_add(place).saturating_add(style)
}

// One place, with the style that is set before it.
#[tactic(auto, unfolding(roam_paint::specs::Texts::place_text, roam_paint::specs::Painting::style_after))]
fn drawn_bytes<O: Seen, N: Seen>(
    old: &O,
    new: &N,
    row: usize,
    col: usize,
    at: Differences,
    style: Style,
) -> Counted
    requires inside { (row < (N.screen new.now).rows) × (col < (N.screen new.now).cols) }
    requires here { at.here ≡ differs (O.screen old.now) (N.screen new.now) row col }
    requires after { at.after ≡ differs (O.screen old.now) (N.screen new.now) row (col + 1) }
    requires stays { (at.before && at.here) ≡ goes_on (differs (O.screen old.now) (N.screen new.now)) row col }
    ensures bytes { result.bytes ≤ length (place_text (O.screen old.now) (N.screen new.now) row col style) }
    ensures style { result.style ≡ style_after (differs (O.screen old.now) (N.screen new.now)) (shown_at (N.screen new.now)) row col style }
{
    new.facts();
    let _rows = old.rows();
    let cell = cell_of(new, row, col);
    if !is_drawn(cell, at.here, at.after) {
        return Counted { bytes: 0, style };
    }
    let same = is_same_style(cell.style(), style);
    let bytes = cell_bytes(at.before && at.here, same, row, col, cell);
    Counted {
        bytes,
        style: cell.style(),
    }
}

// Returns true if a place of screens of one size, from 0, or the one behind the last column differs.
fn differs<O: Seen, N: Seen>(old: &O, new: &N, row: usize, col: usize) -> bool
    requires size { same_size (O.screen old.now) (N.screen new.now) ≡ true }
    requires rows { (O.screen old.now).rows ≡ (N.screen new.now).rows }
    requires cols { (O.screen old.now).cols ≡ (N.screen new.now).cols }
    requires row { row < (N.screen new.now).rows }
    ensures differs { result ≡ differs (O.screen old.now) (N.screen new.now) row col }
{
    if usize::from(new.cols()) <= col {
        return false;
    }
    is_other(cell_of(old, row, col), cell_of(new, row, col))
}

// A row, with the style that is set before it.
fn row_bytes<O: Seen, N: Seen>(old: &O, new: &N, row: usize, style: Style) -> Counted
    requires size { same_size (O.screen old.now) (N.screen new.now) ≡ true }
    requires rows { (O.screen old.now).rows ≡ (N.screen new.now).rows }
    requires cols { (O.screen old.now).cols ≡ (N.screen new.now).cols }
    requires row { row < (N.screen new.now).rows }
    ensures bytes { result.bytes ≤ length (row_text (O.screen old.now) (N.screen new.now) row style (N.screen new.now).cols) }
    ensures style { result.style ≡ row_style (O.screen old.now) (N.screen new.now) row style (N.screen new.now).cols }
{
    let mut bytes = 0usize;
    let mut set = style;
    let mut at = Differences {
        before: false,
        here: differs(old, new, row, 0),
        after: false,
    };
    for col in 0..usize::from(new.cols()) {
        at.after = differs(old, new, row, col + 1);
        let counted = drawn_bytes(old, new, row, col, at, set);
        bytes = bytes.saturating_add(counted.bytes);
        set = counted.style;
        at.before = at.here;
        at.here = at.after;
    }
    Counted { bytes, style: set }
}

// Counts a row that may be known to have the right cells.
fn changed_row_bytes<O: Seen, N: Seen>(
    old: &O,
    new: &N,
    row: usize,
    style: Style,
    known: bool,
) -> Counted
    requires size { same_size (O.screen old.now) (N.screen new.now) ≡ true }
    requires rows { (O.screen old.now).rows ≡ (N.screen new.now).rows }
    requires cols { (O.screen old.now).cols ≡ (N.screen new.now).cols }
    requires row { row < (N.screen new.now).rows }
    requires known { known ≡ true → IsSameRow (O.screen old.now) (N.screen new.now) row }
    ensures bytes { result.bytes ≤ length (row_text (O.screen old.now) (N.screen new.now) row style (N.screen new.now).cols) }
    ensures style { result.style ≡ row_style (O.screen old.now) (N.screen new.now) row style (N.screen new.now).cols }
{
    if known {
        return Counted { bytes: 0, style };
    }
    row_bytes(old, new, row, style)
}

// The first rows, until there are so many bytes.
fn rows_bytes<O: Seen, N: Seen>(old: &O, new: &N, costs: &[u32], limit: usize) -> usize
    requires size { same_size (O.screen old.now) (N.screen new.now) ≡ true }
    requires rows { (O.screen old.now).rows ≡ (N.screen new.now).rows }
    requires cols { (O.screen old.now).cols ≡ (N.screen new.now).cols }
    requires costs { (r : ℕ) → slice_index_or costs.now r 1 ≡ 0 → IsSameRow (O.screen old.now) (N.screen new.now) r }
    ensures least { result ≤ length (rows_text (O.screen old.now) (N.screen new.now) (N.screen new.now).rows) }
{
    let mut bytes = 0usize;
    let mut style = Style::default();
    for row in 0..new.rows() {
        if limit <= bytes {
            return bytes;
        }
        let known = is_known(None, costs, row);
        let counted = changed_row_bytes(old, new, usize::from(row), style, known);
        bytes = bytes.saturating_add(counted.bytes);
        style = counted.style;
    }
    bytes
}

// Returns the bytes behind the rows: the default style, the cursor's place, and the cursor if it is visible.
#[tactic(auto, using(crate::proofs::Lengths::closing_least))]
fn closing_bytes<N: Seen>(new: &N) -> usize
    ensures least { result ≤ length (closing_text (N.screen new.now).cursor_row (N.screen new.now).cursor_col (N.screen new.now).visible) }
{
    new.facts();
    let cursor = new.cursor();
    let place = move_cost(usize::from(cursor.0 - 1), usize::from(cursor.1 - 1));
    let shown = if new.visible() { 6 } else { 0 };
    place.saturating_add(4).saturating_add(shown)
}

/// So many bytes `paint` writes at least between two screens; no more are counted than a number of them, by what rows cost.
pub fn plain_bytes<O: Seen, N: Seen>(old: &O, new: &N, costs: &[u32], limit: usize) -> usize
    requires costs { (r : ℕ) → slice_index_or costs.now r 1 ≡ 0 → IsSameRow (O.screen old.now) (N.screen new.now) r }
    ensures least { result ≤ length (text_between (O.screen old.now) (N.screen new.now)) }
{
    if !is_same_size(old, new) {
        return 0;
    }
    // Most often a key's text is no longer than the text before the rows and behind them, and no row is counted.
    let around = closing_bytes(new).saturating_add(6);
    rows_bytes(old, new, costs, limit.saturating_sub(around)).saturating_add(around)
}
