//! Screens brought to the limits of version 1.
ghost use Rattle.std.specs.Prelude.{◌≡◌, ◌+◌, ◌<◌, ◌≤◌, ◌*◌, ◌++◌, map, IfOk, OnOk, IsOkUnless, ◌==◌, ◌&&◌, ◌||◌, not, min, length, IsTrue};
ghost use Rattle.std.specs.List.{range_with_len};
ghost use Rattle.roam_screens.specs.Lines.{cells_in_order, AreLines};
ghost use Rattle.roam_cells.specs.Place.{cell_at, table};
ghost use Rattle.roam_screens.specs.Narrow.{is_plain_colour, is_plain_style, step, narrow_colour, narrow_style, narrow_glyph, narrow_rows, narrow_cols, row_shown, narrow_at, narrow_row, is_row_out, is_col_out, narrow};

use crate::lines::Line;
use crate::row_shots::RowShot;
use crate::seen::Seen;
use roam_cells::{Cell, Colour, Fault, Style};
use std::alloc::{AllocError, Global};

/// The most rows of a screen of version 1.
pub const OLD_ROWS: u16 = 100;
/// The most columns of a screen of version 1.
pub const OLD_COLUMNS: u16 = 250;

fn step(n: u8) -> u8
    ensures step { result ≡ step n }
    ensures few { result ≤ 5 }
{
    (6 * n as u16 / 256) as u8
}

fn narrow_colour(colour: Colour) -> Colour
    ensures narrow { result ≡ narrow_colour colour }
{
    match colour {
        Colour::Default => Colour::Default,
        Colour::Index(n) => Colour::Index(n),
        Colour::Rgb(red, green, blue) => {
            Colour::Index(16 + 36 * step(red) + 6 * step(green) + step(blue))
        }
    }
}

fn narrow_style(style: Style) -> Style
    ensures narrow { result ≡ narrow_style style }
{
    let mut narrow = style;
    narrow.foreground = narrow_colour(style.foreground);
    narrow.background = narrow_colour(style.background);
    narrow
}

// The same code points and guard in another style.
fn restyled(cell: &Cell, style: Style) -> Cell
    ensures cell { result ≡ record cell.now { style = style } }
{
    cell.facts();
    match Cell::of(cell.chars().as_slice(), style, cell.guard()) {
        Some(restyled) => restyled,
        None => Cell::right_half(style, cell.guard()),
    }
}

// A cell in the last column that is shown, or before it.
fn narrow_cell(cell: &Cell, last: bool) -> Cell
    ensures cell { result ≡ narrow_glyph last cell.now }
{
    if last && cell.is_wide() {
        let space = cell.space_in();
        return restyled(&space, narrow_style(cell.style()));
    }
    restyled(cell, narrow_style(cell.style()))
}

#[tactic(auto, using(crate::proofs::Lined::row_at))]
fn cell_of<S: Seen>(shot: &S, row: u16, col: u16) -> &Cell
    requires there { (row < (S.screen shot.now).rows) × (col < (S.screen shot.now).cols) }
    ensures cell { result.now ≡ cell_at (S.screen shot.now).cols (S.screen shot.now).cells row col }
{
    &shot.row(row)[col as usize]
}

// Returns the cell of a place that the row shows differently.
fn narrow_at<S: Seen>(shot: &S, cols: u16, from: u16, row: u16, col: u16) -> Cell
    requires cols { cols ≡ narrow_cols (S.screen shot.now).cols }
    requires from { from ≡ row_shown (S.screen shot.now).rows row }
    requires there { (from < (S.screen shot.now).rows) × (col < cols) }
    ensures cell { result ≡ narrow_at (S.screen shot.now) row col }
{
    narrow_cell(cell_of(shot, from, col), col + 1 == cols)
}

// The row that a row shows.
fn row_shown(all: u16, rows: u16, row: u16) -> u16
    requires rows { rows ≡ narrow_rows all }
    requires row { row < rows }
    ensures shown { result ≡ row_shown all row }
    ensures there { result < all }
{
    if row + 1 == rows { all - 1 } else { row }
}

#[tactic(auto, using(crate::proofs::Narrowed::row_more, crate::proofs::Narrowed::row_none))]
fn add_row<S: Seen>(
    cells: &mut Vec<Cell>,
    shot: &S,
    cols: u16,
    from: u16,
    row: u16,
) -> Result<(), AllocError>
    requires cols { cols ≡ narrow_cols (S.screen shot.now).cols }
    requires from { from ≡ row_shown (S.screen shot.now).rows row }
    requires there { from < (S.screen shot.now).rows }
    ensures row { OnOk result (cells.new.items ≡ cells.old.items ++ map (narrow_at (S.screen shot.now) row) (range_with_len 0 cols)) }
{
    for col in 0..cols {
        cells.push(narrow_at(shot, cols, from, row, col))?;
    }
    Ok(())
}

fn narrow_line<S: Seen>(
    alloc: Global,
    shot: &S,
    cells: &mut Vec<Cell>,
    rows: u16,
    cols: u16,
    row: u16,
) -> Result<Line, AllocError>
    requires rows { rows ≡ narrow_rows (S.screen shot.now).rows }
    requires cols { cols ≡ narrow_cols (S.screen shot.now).cols }
    requires row { row < rows }
    ensures line { IfOk result (λ line. line ≡ map (narrow_at (S.screen shot.now) row) (range_with_len 0 cols)) }
{
    cells.clear();
    let from = row_shown(shot.rows(), rows, row);
    add_row(cells, shot, cols, from, row)?;
    Line::new(alloc, cells)
}

fn narrow_lines<S: Seen>(
    alloc: Global,
    shot: &S,
    rows: u16,
    cols: u16,
) -> Result<Vec<Line>, AllocError>
    requires rows { rows ≡ narrow_rows (S.screen shot.now).rows }
    requires cols { cols ≡ narrow_cols (S.screen shot.now).cols }
    ensures lines { IfOk result (λ lines. AreLines rows cols lines.items) }
    ensures cells { IfOk result (λ lines. cells_in_order lines.items ≡ table rows cols (narrow_at (S.screen shot.now))) }
{
    let mut lines = Vec::with_capacity(alloc, rows as usize)?;
    let mut cells = Vec::with_capacity(alloc, cols as usize)?;
    for row in 0..rows {
        let line = narrow_line(alloc, shot, &mut cells, rows, cols, row)?;
        lines.push(line)?;
    }
    Ok(lines)
}

// Where the cursor goes, and whether it is shown there.
fn narrow_cursor(rows: u16, cursor: (u16, u16), visible: bool) -> ((u16, u16), bool)
    ensures row { result.0.0 ≡ narrow_row rows cursor.0 }
    ensures col { result.0.1 ≡ min cursor.1 250 }
    ensures visible { result.1 ≡ (visible && not (is_row_out rows cursor.0 || is_col_out cursor.1)) }
{
    let (row, col) = cursor;
    let out = (99 < row && row != rows) || OLD_COLUMNS < col;
    let shown = if row == rows {
        rows.min(OLD_ROWS)
    } else {
        row.min(99)
    };
    ((shown, col.min(OLD_COLUMNS)), visible && !out)
}

/// Returns the part of a screen that version 1 shows, line by line.
pub fn narrowed<S: Seen>(alloc: Global, shot: &S) -> Result<RowShot, Fault>
    ensures narrow { IfOk result (λ narrowed. narrowed ≡ narrow (S.screen shot.now)) }
    ensures fault { IsOkUnless result Fault.OutOfMemory }
{
    shot.facts();
    let rows = shot.rows().min(OLD_ROWS);
    let cols = shot.cols().min(OLD_COLUMNS);
    let lines = narrow_lines(alloc, shot, rows, cols)?;
    let (cursor, visible) = narrow_cursor(shot.rows(), shot.cursor(), shot.visible());
    Ok(RowShot::of_lines(rows, cols, lines, cursor, visible))
}
