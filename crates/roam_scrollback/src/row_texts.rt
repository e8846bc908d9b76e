//! A row as the text that paints it.
ghost use Rattle.std.specs.Prelude.{◌≡◌, ◌≤◌, ◌∷◌, ◌++◌, [], ℕ, replicate, true, length, take, OnOk, IfOk, if◌then◌else◌};
ghost use Rattle.std.specs.Char.{encode_utf8};
ghost use Rattle.std.specs.List.{flat_map};
ghost use Rattle.roam_cells.specs.Glyph.{blank, default_style};
ghost use Rattle.roam_cells.specs.Inks.{style_numbered};
ghost use Rattle.roam_cells.specs.Same.{same, same_style};
ghost use Rattle.roam_paint.specs.Painting.{styling};
ghost use Rattle.roam_paint.specs.Sequences.{spelling_of};
ghost use Rattle.roam_term.specs.ControlFunctions.{restyle};
ghost use Rattle.roam_scrollback.specs.RowText.{used, cell_words, style_behind, row_words, row_text, line_text, text_cells, without_blank};
ghost use Rattle.roam_scrollback.specs.Wraps.{is_on};

use crate::wraps::Wrap;
use roam_cells::{Cell, Style};
use roam_paint::{push_points, push_restyle};
use std::alloc::AllocError;

fn is_blank(cell: &Cell) -> bool
    ensures blank { result ≡ same cell.now blank }
{
    cell.is_same(&Cell::blank())
}

fn is_same_style(one: Style, other: Style) -> bool
    ensures same { result ≡ same_style one other }
{
    one.is_same(other)
}

/// How many columns of a row are in use: up to its last cell that isn't blank.
pub fn used(row: &[Cell]) -> usize
    ensures used { result ≡ used row.now }
    ensures few { result ≤ length row.now }
{
    let mut count = row.len();
    while 0 < count && is_blank(&row[count - 1]) {
        count -= 1;
    }
    count
}

// Cells without a blank at their end.
#[tactic(auto, unfolding(crate::specs::RowText::without_blank))]
fn without_blank(cells: &[Cell]) -> &[Cell]
    ensures cells { result.now ≡ without_blank cells.now }
{
    match cells {
        [front @ .., last] if is_blank(last) => front,
        _ => cells,
    }
}

/// Returns the cells of a row that are text. A row that ends may be lent without some of the blanks at its end.
pub fn text_cells(wrap: Wrap, row: &[Cell]) -> &[Cell]
    ensures cells { result.now ≡ text_cells wrap row.now }
{
    match wrap {
        Wrap::Ends => &row[..used(row)],
        Wrap::Full => row,
        Wrap::Early => without_blank(row),
    }
}

fn restyle(text: &mut Vec<u8>, same: bool, style: Style) -> Result<(), AllocError>
    ensures text { OnOk result (text.new.items ≡ text.old.items ++ flat_map spelling_of (if same then [] else restyle style)) }
{
    if !same {
        push_restyle(text, style)?;
    }
    Ok(())
}

// Appends a style if another one is set.
fn push_style(text: &mut Vec<u8>, set: Style, style: Style) -> Result<(), AllocError>
    ensures text { OnOk result (text.new.items ≡ text.old.items ++ flat_map spelling_of (styling style set)) }
{
    restyle(text, is_same_style(style, set), style)
}

/// The style that is set, and a number that says it, by which two styles are compared at once.
#[derive(Clone, Copy)]
struct Worn {
    style: Style,
    number: u64,
}

// The code points of a cell; one of ASCII is a byte.
fn push_text(text: &mut Vec<u8>, cell: &Cell) -> Result<(), AllocError>
    ensures text { OnOk result (text.new.items ≡ text.old.items ++ flat_map encode_utf8 cell.now.points) }
{
    if let [c] = cell.chars().as_slice() {
        let point = *c as u32;
        if point < 0x80 {
            text.push(point as u8)?;
            return Ok(());
        }
    }
    push_points(text, cell)
}

// Appends the style of a cell if another one may be set.
fn wear(text: &mut Vec<u8>, worn: Worn, cell: &Cell) -> Result<Worn, AllocError>
    requires worn { style_numbered worn.number ≡ worn.style }
    ensures text { OnOk result (text.new.items ≡ text.old.items ++ flat_map spelling_of (styling cell.now.style worn.style)) }
    ensures style { IfOk result (λ worn. worn.style ≡ cell.now.style) }
    ensures worn { IfOk result (λ worn. style_numbered worn.number ≡ worn.style) }
{
    let number = cell.style_number();
    if number == worn.number {
        return Ok(worn);
    }
    let style = cell.style();
    push_style(text, worn.style, style)?;
    Ok(Worn { style, number })
}

// Appends a cell after a style, and returns the style after it.
fn push_cell(text: &mut Vec<u8>, worn: Worn, cell: &Cell) -> Result<Worn, AllocError>
    requires worn { style_numbered worn.number ≡ worn.style }
    ensures text { OnOk result (text.new.items ≡ text.old.items ++ flat_map spelling_of (cell_words worn.style cell.now)) }
    ensures style { IfOk result (λ after. after.style ≡ style_behind worn.style cell.now) }
    ensures worn { IfOk result (λ worn. style_numbered worn.number ≡ worn.style) }
{
    if cell.is_right_half() {
        return Ok(worn);
    }
    let worn = wear(text, worn, cell)?;
    push_text(text, cell)?;
    Ok(worn)
}

// Writes cells one after another, and sets the default style after them.
fn push_cells(text: &mut Vec<u8>, row: &[Cell]) -> Result<(), AllocError>
    ensures text { OnOk result (text.new.items ≡ text.old.items ++ flat_map spelling_of (row_words default_style row.now)) }
{
    let blank = Cell::blank();
    let mut worn = Worn {
        style: blank.style(),
        number: blank.style_number(),
    };
    for cell in row {
        worn = push_cell(text, worn, cell)?;
    }
    push_style(text, worn.style, Style::default())
}

/// Appends the line of a row: `+` if autowrap went on from it, else a space, the text that paints its cells, and LF. Blanks at its end have
/// no text if it ends, and it may be lent without them then. The blank left by a wide character has none either.
#[tactic(auto, unfolding(crate::specs::RowText::row_text))]
pub fn push_line(text: &mut Vec<u8>, wrap: Wrap, row: &[Cell]) -> Result<(), AllocError>
    ensures text { OnOk result (text.new.items ≡ text.old.items ++ line_text wrap row.now) }
{
    text.push(if wrap.is_on() { b'+' } else { b' ' })?;
    push_cells(text, text_cells(wrap, row))?;
    text.push(b'\n')?;
    Ok(())
}
