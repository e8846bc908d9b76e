//! A terminal's screen as it is shown.
ghost use Rattle.std.specs.Prelude.{◌≡◌, ◌≤◌, ◌<◌, ◌++◌, [], slice_index_or, map, length, IfOk, IsOkUnless};
ghost use Rattle.roam_cells.specs.Place.{row_of};
ghost use Rattle.roam_term.specs.Picture.{shown_glyph, shown_style, rows_in_view, picture_with, picture_of};

use crate::canvases::Canvas;
use roam_cells::{Cell, Fault, Style};
use roam_history::History;
use roam_screens::Shot;
use std::alloc::{AllocError, Global};

// Returns a style with its reverse flag turned if the whole screen is reversed.
fn shown_style(style: Style, reversed: bool) -> Style
    ensures style { result ≡ shown_style reversed style }
{
    if reversed {
        Style {
            reverse: !style.reverse,
            ..style
        }
    } else {
        style
    }
}

// Returns a cell as it is shown: unguarded, and in reverse if the whole screen is.
fn shown_cell(cell: &Cell, reversed: bool) -> Cell
    ensures cell { result ≡ shown_glyph reversed cell.now }
{
    if !reversed {
        return cell.unguarded();
    }
    let style = shown_style(cell.style(), reversed);
    if cell.is_right_half() {
        return Cell::right_half(style, false);
    }
    cell.facts();
    match Cell::of(cell.chars().as_slice(), style, false) {
        Some(cell) => cell,
        None => cell.unguarded(),
    }
}

fn show_row(cells: &mut Vec<Cell>, row: &[Cell], reversed: bool) -> Result<(), AllocError>
    ensures cells { IfOk result (λ _. cells.new.items ≡ cells.old.items ++ map (shown_glyph reversed) row.now) }
{
    for cell in row {
        cells.push(shown_cell(cell, reversed))?;
    }
    Ok(())
}

// How many rows of the history a view shows.
fn rows_in_view(canvas: &Canvas, history: &History, view: u16) -> usize
    ensures rows { result ≡ rows_in_view canvas.now.live history.now view }
{
    if canvas.is_alternate() {
        0
    } else {
        usize::from(view).min(history.len())
    }
}

fn kept_row(history: &History, i: usize) -> &[Cell]
    requires within { i < length history.now.rows }
    ensures row { result.now ≡ slice_index_or history.now.rows i [] }
{
    history.row(i).unwrap()
}

// Adds a row of the screen as it is shown, from 0, below the last v rows of the history.
fn push_shown(
    cells: &mut Vec<Cell>,
    canvas: &Canvas,
    history: &History,
    v: usize,
    row: usize,
) -> Result<(), AllocError>
    requires cols { history.now.cols ≡ canvas.now.live.screen.cols }
    requires within { v ≤ length history.now.rows }
    requires row { row < canvas.now.live.screen.rows }
    ensures row { IfOk result (λ _. cells.new.items ≡ cells.old.items
        ++ row_of canvas.now.live.screen.cols (picture_with v canvas.now.live history.now).cells row) }
{
    canvas.facts();
    history.facts();
    let reversed = canvas.modes().reverse_screen;
    if row < v {
        let first = history.len() - v;
        return show_row(cells, kept_row(history, first + row), reversed);
    }
    show_row(cells, canvas.grid().row(row - v), reversed)
}

// The last v rows of the history, and below them the screen, as far as they fit, as they are shown.
fn shown_cells(
    alloc: Global,
    canvas: &Canvas,
    history: &History,
    v: usize,
) -> Result<Vec<Cell>, AllocError>
    requires cols { history.now.cols ≡ canvas.now.live.screen.cols }
    requires within { v ≤ length history.now.rows }
    ensures cells { IfOk result (λ cells. cells.items ≡ (picture_with v canvas.now.live history.now).cells) }
{
    canvas.facts();
    history.facts();
    let grid = canvas.grid();
    let mut cells = Vec::with_capacity(alloc, grid.rows() * grid.cols())?;
    for row in 0..grid.rows() {
        push_shown(&mut cells, canvas, history, v, row)?;
    }
    Ok(cells)
}

/// Adds a row of the screen as it is shown, from 0, scrolled back by a view; refuses want of memory.
pub fn push_row(
    cells: &mut Vec<Cell>,
    canvas: &Canvas,
    history: &History,
    view: u16,
    row: u16,
) -> Result<(), AllocError>
    requires cols { history.now.cols ≡ canvas.now.live.screen.cols }
    requires row { row < canvas.now.live.screen.rows }
    ensures row { IfOk result (λ _. cells.new.items ≡ cells.old.items
        ++ row_of canvas.now.live.screen.cols (picture_of canvas.now.live history.now view).cells row) }
{
    let v = rows_in_view(canvas, history, view);
    push_shown(cells, canvas, history, v, usize::from(row))
}

/// The cursor of the screen as it is shown, scrolled back by a view, and whether it is visible.
pub fn cursor_at(canvas: &Canvas, history: &History, view: u16) -> ((u16, u16), bool)
    ensures row { result.0.0 ≡ (picture_of canvas.now.live history.now view).cursor_row }
    ensures col { result.0.1 ≡ (picture_of canvas.now.live history.now view).cursor_col }
    ensures visible { result.1 ≡ (picture_of canvas.now.live history.now view).visible }
{
    canvas.facts();
    history.facts();
    let v = rows_in_view(canvas, history, view);
    let grid = canvas.grid();
    let (row, col) = grid.cursor();
    let visible = canvas.modes().cursor_visible && row + v <= grid.rows();
    (((row + v).min(grid.rows()) as u16, col as u16), visible)
}

/// The screen as it is shown, scrolled back by a view; refuses want of memory.
pub fn draw(alloc: Global, canvas: &Canvas, history: &History, view: u16) -> Result<Shot, Fault>
    requires cols { history.now.cols ≡ canvas.now.live.screen.cols }
    ensures shown { IfOk result (λ shot. shot ≡ picture_of canvas.now.live history.now view) }
    ensures fault { IsOkUnless result Fault.OutOfMemory }
{
    canvas.facts();
    history.facts();
    let v = rows_in_view(canvas, history, view);
    let cells = shown_cells(alloc, canvas, history, v)?;
    let (cursor, visible) = cursor_at(canvas, history, view);
    let grid = canvas.grid();
    Ok(Shot::new(
        grid.rows() as u16,
        grid.cols() as u16,
        cells,
        cursor,
        visible,
    ))
}
