//! The main screen at another size, without cutting text.
ghost use Rattle.std.specs.Prelude.{◌≡◌, ◌<◌, ◌≤◌, ◌+◌, ◌-◌, ◌∷◌, ◌++◌, IfNone, IfOk, IfSome, OnOk, IsTrue, drop, false, length, map, take, true};
ghost use Rattle.roam_cells.specs.Limits.{IsSize, most_rows};
ghost use Rattle.roam_cells.specs.Glyph.{IsStyle};
ghost use Rattle.roam_repaint.specs.Repainted.{MayPend};
ghost use Rattle.roam_repaint.specs.Repainting.{repaint_text};
ghost use Rattle.roam_rewrap.specs.Windows.{reflowed, shown_rows};
ghost use Rattle.roam_scrollback.specs.Lines.{Writes, left_of};
ghost use Rattle.roam_scrollback.specs.Rewraps.{FillsFrom, HasNoReflow, HasNoText, IsHeight, IsPrepared, IsRewrapText, IsUnprepared, closing, columns_before, ends_at_cursor, opening, rows_of, screen_cells, screen_text};
ghost use Rattle.roam_scrollback.specs.Wraps.{wraps_of};

use crate::kept::RecentRows;
use crate::lines::LeftLines;
use crate::row_texts::{text_cells, used};
use crate::surfaces::Surface;
use crate::wraps::Wraps;
use roam_cells::{Cell, Fault, Style};
use roam_controls::Modes;
use roam_grid::Grid;
use roam_repaint::{Ending, may_pend, push_repaint};
use roam_rewrap::{Reflow, Row, ScreenPosition};
use roam_term::Canvas;
use std::alloc::{AllocError, Global};

/// The result of a rewrap: the number of rows that came back, and the text that brings another terminal to the same screen, if it has read
/// the same bytes and has the new size.
#[derive(Drop)]
pub struct Rewrap {
    pub back: usize,
    pub text: Vec<u8>,
}

/// Why a terminal keeps its size. Nothing changed.
#[derive(Clone, Copy, Debug, PartialEq, Eq)]
pub enum NotRewrapped {
    /// It is within a sequence or a character, or its next character is not ASCII.
    Later,
    /// The other screen is shown.
    OtherScreen,
    /// The size is none, the guard is on, rows count from a margin, or the text makes no screen, for example with a guarded cell.
    Refused,
    /// Memory ran out.
    NoMemory,
}

// How many columns come before the cursor.
fn columns_before(grid: &Grid) -> usize
    ensures columns { result ≡ columns_before grid.now.screen }
{
    if grid.pending() {
        return grid.cols();
    }
    let (_, col) = grid.cursor();
    col - 1
}

// Returns true if the cursor is in a row, and a line ends there.
fn ends_at_cursor(grid: &Grid, wraps: &Wraps, row: usize) -> bool
    requires row_in { row < most_rows }
    ensures ends { result ≡ ends_at_cursor grid.now.screen wraps.now row }
{
    let (cursor_row, _) = grid.cursor();
    row + 1 == cursor_row && !wraps.at(row).is_on()
}

// The cells of a row as far as they are text.
#[tactic(auto, unfolding(crate::specs::Rewraps::screen_cells))]
fn screen_cells<'a>(grid: &'a Grid, wraps: &Wraps, row: usize) -> &'a [Cell]
    requires row_in { row < grid.now.screen.rows }
    ensures cells { result.now ≡ screen_cells grid.now.screen wraps.now row }
{
    grid.facts();
    let cells = grid.row(row);
    if ends_at_cursor(grid, wraps, row) {
        let count = used(cells).max(columns_before(grid));
        return &cells[..count];
    }
    text_cells(wraps.at(row), cells)
}

// Adds the first rows of a screen.
fn push_rows(
    all: &mut Vec<Row>,
    alloc: Global,
    grid: &Grid,
    wraps: &Wraps,
    height: usize,
) -> Result<(), AllocError>
    requires within { height ≤ grid.now.screen.rows }
    ensures rows { OnOk result (all.new.items ≡ all.old.items ++ screen_text height grid.now.screen wraps.now) }
{
    grid.facts();
    for row in 0..height {
        let goes_on = wraps.at(row).is_on();
        all.push(Row::new(alloc, goes_on, screen_cells(grid, wraps, row))?)?;
    }
    Ok(())
}

// How many rows of a screen are text.
fn height_of(grid: &Grid) -> usize
    ensures height { IsHeight grid.now.screen result }
{
    grid.facts();
    let (row, _) = grid.cursor();
    let mut height = grid.rows();
    while row < height && used(grid.row(height - 1)) == 0 {
        height -= 1;
    }
    height
}

// How many rows so many cells take at least.
fn rows_of(cells: usize, cols: usize) -> usize
    requires cols { 0 < cols }
    ensures rows { result ≡ rows_of cells cols }
{
    (cells.saturating_add(cols - 1) / cols).max(1)
}

// The first of the kept rows that comes back: the lines from there on fill a screen, or it is the oldest.
fn first_back(all: &[Row], kept: usize, rows: usize, cols: usize) -> usize
    requires cols { 0 < cols }
    requires some { kept < length all.now }
    ensures within { result ≤ kept }
    ensures full { FillsFrom all.now kept rows cols result }
{
    let mut from = all.len();
    let mut filled = 0usize;
    let mut cells = 0usize;
    while 0 < from {
        let row = &all[from - 1];
        if !row.goes_on() && from < all.len() {
            filled = filled.saturating_add(rows_of(cells, cols));
            cells = 0;
            if from <= kept && rows <= filled {
                return from;
            }
        }
        cells = cells.saturating_add(row.cells().len());
        from -= 1;
    }
    0
}

// The first of the kept rows that comes back: none does if rows at the bottom of the screen are blank.
fn first_row(all: &[Row], kept: usize, is_full: bool, rows: usize, cols: usize) -> usize
    requires cols { 0 < cols }
    requires some { kept < length all.now }
    ensures within { result ≤ kept }
    ensures blank { is_full ≡ false → result ≡ kept }
    ensures full { is_full ≡ true → FillsFrom all.now kept rows cols result }
{
    if !is_full {
        return kept;
    }
    first_back(all, kept, rows, cols)
}

// The style that is set, if the guard is off.
fn plain_style(canvas: &Canvas) -> Option<Style>
    ensures plain { IfSome result (λ style. (style ≡ canvas.now.live.pen.style) × (canvas.now.live.pen.guarded ≡ false) × IsStyle style) }
    ensures none { IfNone result (canvas.now.live.pen.guarded ≡ true) }
{
    let ink = canvas.inked('a')?;
    if ink.guard() {
        return None;
    }
    ink.facts();
    Some(ink.style())
}

// Modes are set again.
fn push_closing(text: &mut Vec<u8>, modes: Modes) -> Result<(), AllocError>
    ensures text { OnOk result (text.new.items ≡ text.old.items ++ closing modes) }
{
    if modes.insert {
        text.extend_from_slice(b"\x1B[4h")?;
    }
    if modes.reverse_screen {
        text.extend_from_slice(b"\x1B[?5h")?;
    }
    Ok(())
}

// Returns the state of a terminal behind the text of a screen.
fn ending_of(reflow: &Reflow, style: Style, wraps: bool) -> Ending
    ensures style { result.style ≡ style }
    ensures wraps { result.wraps ≡ wraps }
    ensures asked { IsTrue result.pending → reflow.now.pending ≡ true }
    ensures pends { IsTrue result.pending
        → MayPend (record { shot = reflow.now.shot; pending = result.pending; style = result.style; wraps = result.wraps }) }
    ensures due { reflow.now.pending ≡ true
        → MayPend (record { shot = reflow.now.shot; pending = result.pending; style = result.style; wraps = result.wraps })
        → IsTrue result.pending }
{
    let ending = Ending {
        pending: reflow.is_pending(),
        style,
        wraps,
    };
    if may_pend(reflow.shot(), ending) {
        return ending;
    }
    Ending {
        pending: false,
        style,
        wraps,
    }
}

// Returns the text that leads a terminal to a screen, and leaves its modes; `None` if the guard is on, or rows count from a margin.
fn text_of(alloc: Global, canvas: &Canvas, reflow: &Reflow) -> Result<Option<Vec<u8>>, Fault>
    ensures text { IfOk result (λ made. IfSome made (λ text. IsRewrapText canvas.now.live reflow.now text.items)) }
    ensures none { IfOk result (λ made. IfNone made (HasNoText canvas.now.live)) }
{
    let modes = canvas.modes();
    let Some(style) = plain_style(canvas) else {
        return Ok(None);
    };
    if modes.origin {
        return Ok(None);
    }
    reflow.shot().facts();
    let ending = ending_of(reflow, style, modes.autowrap);
    let mut text = Vec::new(alloc);
    text.extend_from_slice(b"\x1B[4l\x1B[?5l")?;
    push_repaint(alloc, &mut text, reflow.shot(), ending)?;
    push_closing(&mut text, modes)?;
    Ok(Some(text))
}

/// The screen of a terminal at another size, the number of kept rows that stay away and that come back, and the text that leads another
/// terminal there.
#[derive(Drop)]
pub struct Prepared {
    pub reflow: Reflow,
    pub first: usize,
    pub back: usize,
    pub text: Vec<u8>,
}

// All that is text: the kept rows, and the first rows of the screen.
fn all_text(
    alloc: Global,
    surface: &Surface,
    kept: &RecentRows,
    height: usize,
) -> Result<Vec<Row>, AllocError>
    requires within { height ≤ surface.now.live.screen.rows }
    ensures rows { IfOk result (λ all. all.items ≡ kept.now ++ screen_text height surface.now.live.screen surface.now.wraps) }
{
    let mut all = Vec::new(alloc);
    kept.push_to(&mut all)?;
    push_rows(
        &mut all,
        alloc,
        surface.canvas().grid(),
        surface.wraps(),
        height,
    )?;
    Ok(all)
}

// Returns text from a row on, at a size; `None` if it makes no screen there.
fn reflow_from(
    alloc: Global,
    all: &[Row],
    first: usize,
    cursor: ScreenPosition,
    rows: u16,
    cols: u16,
    visible: bool,
) -> Result<Option<Reflow>, AllocError>
    requires size { IsSize rows cols }
    requires within { first ≤ length all.now }
    ensures reflowed { IfOk result (λ made. IfSome made (λ reflow. reflow ≡ reflowed (drop first all.now) cursor rows cols visible)) }
    ensures none { IfOk result (λ made. IfNone made (HasNoReflow (drop first all.now) cursor rows cols visible)) }
{
    Reflow::of(alloc, &all[first..], cursor, rows, cols, visible)
}

/// Returns the main screen of a terminal at another size. `None` only if the guard is on, if rows count from a margin, or if its text makes
/// no screen at that size, for example with a guarded cell.
pub fn prepare(
    alloc: Global,
    surface: &Surface,
    kept: &RecentRows,
    rows: u16,
    cols: u16,
) -> Result<Option<Prepared>, Fault>
    requires size { IsSize rows cols }
    ensures prepared { IfOk result (λ made. IfSome made (λ prepared. IsPrepared surface.now.live surface.now.wraps kept.now rows cols
        prepared.first prepared.back prepared.reflow prepared.text.items)) }
    ensures none { IfOk result (λ made. IfNone made (IsUnprepared surface.now.live surface.now.wraps kept.now rows cols)) }
{
    let canvas = surface.canvas();
    let grid = canvas.grid();
    grid.facts();
    let height = height_of(grid);
    let all = all_text(alloc, surface, kept, height)?;
    let count = kept.len();
    let first = first_row(
        &all,
        count,
        height == grid.rows(),
        usize::from(rows),
        usize::from(cols),
    );
    let back = count - first;
    let (row, _) = grid.cursor();
    let cursor = ScreenPosition {
        row: back + (row - 1),
        col: columns_before(grid),
    };
    let visible = canvas.modes().cursor_visible;
    let Some(reflow) = reflow_from(alloc, &all, first, cursor, rows, cols, visible)? else {
        return Ok(None);
    };
    let Some(text) = text_of(alloc, canvas, &reflow)? else {
        return Ok(None);
    };
    Ok(Some(Prepared {
        reflow,
        first,
        back,
        text,
    }))
}

// The rows that a screen shows.
fn shown(reflow: &Reflow, rows: usize) -> &[Row]
    ensures rows { result.now ≡ shown_rows rows reflow.now.off reflow.now.rows }
    ensures few { length result.now ≤ rows }
{
    let all = reflow.rows();
    let off = reflow.off().min(all.len());
    let count = rows.min(all.len() - off);
    &all[off..off + count]
}

// The rows that leave it.
fn leaving(reflow: &Reflow) -> &[Row]
    ensures rows { result.now ≡ take reflow.now.off reflow.now.rows }
{
    let all = reflow.rows();
    &all[..reflow.off().min(all.len())]
}

/// How the rows of its screen end.
pub fn wraps_of(reflow: &Reflow, rows: u16, cols: u16) -> Wraps
    requires size { IsSize rows cols }
    ensures wraps { result ≡ wraps_of cols (shown_rows rows reflow.now.off reflow.now.rows) }
{
    Wraps::of(shown(reflow, usize::from(rows)), usize::from(cols))
}

/// The kept rows but for the first ones came back and are no longer kept, and the rows that leave are written.
pub fn push_left(lines: &mut LeftLines, first: usize, reflow: &Reflow)
    ensures written { Writes (record lines.old { kept = take first lines.old.kept }) lines.new
        (map left_of (take reflow.now.off reflow.now.rows)) }
{
    lines.keep_first(first);
    lines.push_texts(leaving(reflow));
}
