//! The part of rows of text that a screen shows, and the place of its cursor.
ghost use Rattle.std.specs.Prelude.{◌≡◌, ◌⊎◌, ◌+◌, ◌-◌, ◌*◌, ◌^◌, ◌<◌, ◌≤◌, ◌++◌, IfNone, IfOk, IfSome, OnOk, length, nat_le, replicate};
ghost use Rattle.roam_cells.specs.Glyph.{blank};
ghost use Rattle.roam_cells.specs.Limits.{IsSize};
ghost use Rattle.roam_screens.specs.Screenshot.{IsScreenshot};
ghost use Rattle.roam_rewrap.specs.Windows.{LeavesRangeAt, column_at, leaving_rows, padded, reflow_at, reflowed, shown_cells, shown_rows};

use crate::places::{ScreenPosition, placed};
use crate::rows::Row;
use crate::wrapping::rewrap;
use roam_cells::Cell;
use roam_cells::shapes::{are_unguarded, is_well_formed};
use roam_screens::Shot;
use std::alloc::{AllocError, Global};
use std::marker::Model;

/// Text at the size of a screen: all its rows, the number of rows that leave at the top, the screen of the rows behind those, and true if a
/// wrap is pending.
#[derive(Drop)]
pub struct Reflow {
    rows: Vec<Row>,
    off: usize,
    shot: Shot,
    pending: bool,
}

impl Model for Reflow {
    ghost use Rattle.roam_rewrap.specs.Windows.{ReflowView};

    ghost Value = { ReflowView };

    ghost view = { λ a. record { rows = a.rows.items; off = a.off; shot = a.shot; pending = a.pending } };
}

// Adds the cells of a row, and blanks to its end.
fn push_padded(cells: &mut Vec<Cell>, row: &Row, cols: usize) -> Result<(), AllocError>
    ensures padded { OnOk result (cells.new.items ≡ cells.old.items ++ padded cols row.now) }
{
    cells.extend_from_slice(row.cells())?;
    push_blanks(cells, cols.saturating_sub(row.cells().len()))
}

// Adds so many blanks.
fn push_blanks(cells: &mut Vec<Cell>, count: usize) -> Result<(), AllocError>
    ensures blanks { OnOk result (cells.new.items ≡ cells.old.items ++ replicate count blank) }
{
    for _k in 0..count {
        cells.push(Cell::blank())?;
    }
    Ok(())
}

// The cells of a screen that shows these rows, and blank ones below them.
fn shown_cells(alloc: Global, shown: &[Row], rows: u16, cols: u16) -> Result<Vec<Cell>, AllocError>
    ensures cells { IfOk result (λ cells. cells.items ≡ shown_cells rows cols shown.now) }
{
    let mut cells = Vec::new(alloc);
    for row in shown {
        push_padded(&mut cells, row, usize::from(cols))?;
    }
    let count = usize::from(rows) * usize::from(cols);
    let left = count.saturating_sub(cells.len());
    push_blanks(&mut cells, left)?;
    Ok(cells)
}

// Returns the column of the cursor; `None` if the row isn't one of the screen's.
fn column_at(cols: usize, cells: &[Cell], at: ScreenPosition) -> Option<usize>
    requires cols { 2 ≤ cols }
    ensures column { IfSome result (λ col. col ≡ column_at cols cells.now at.row at.col) }
    ensures within { IfSome result (λ col. col < cols) }
    ensures none { IfNone result (length cells.now ≤ at.row * cols + (cols - 1) ⊎ 2 ^ 64 ≤ at.row * cols + (cols - 1)) }
{
    if at.col < cols {
        return Some(at.col);
    }
    let last = cells.get(at.row.checked_mul(cols)?.checked_add(cols - 1)?)?;
    if last.is_right_half() {
        return Some(cols - 2);
    }
    Some(cols - 1)
}

// Returns the screen of these cells, with its cursor at a row and a column from 0; `None` if they make none.
fn shot_of(
    rows: u16,
    cols: u16,
    cells: Vec<Cell>,
    at: ScreenPosition,
    visible: bool,
) -> Option<Shot>
    requires size { IsSize rows cols }
    ensures shot { IfSome result (λ shot. shot ≡ record {
      rows = rows;
      cols = cols;
      cells = cells.items;
      cursor_row = at.row + 1;
      cursor_col = column_at cols cells.items at.row at.col + 1;
      visible = visible;
    }) }
    ensures none { IfNone result (IsScreenshot (record {
      rows = rows;
      cols = cols;
      cells = cells.items;
      cursor_row = at.row + 1;
      cursor_col = column_at cols cells.items at.row at.col + 1;
      visible = visible;
    }) → ⊥) }
{
    let height = usize::from(rows);
    let width = usize::from(cols);
    if cells.len() != height * width || height <= at.row {
        return None;
    }
    if !is_well_formed(&cells, width) || !are_unguarded(&cells) {
        return None;
    }
    let col = column_at(width, &cells, at)?;
    let cursor = (at.row as u16 + 1, col as u16 + 1);
    Some(Shot::new(rows, cols, cells, cursor, visible))
}

impl Reflow {
    /// All rows of the text.
    pub fn rows(&self) -> &[Row]
        ensures rows { result.now ≡ self.now.rows }
    {
        &self.rows
    }

    /// How many of them leave at the top.
    pub fn off(&self) -> usize
        ensures off { result ≡ self.now.off }
    {
        self.off
    }

    /// The screen that shows those behind them.
    pub fn shot(&self) -> &Shot
        ensures shot { result.now ≡ self.now.shot }
    {
        &self.shot
    }

    /// Returns true if a wrap is pending in the last column.
    pub fn is_pending(&self) -> bool
        ensures pending { result ≡ self.now.pending }
    {
        self.pending
    }

    /// Returns text at a size, with a cursor at a row and a column of it. `None` if it makes no screen, for example with a guarded cell, or if
    /// 64 bits do not hold the cursor's line or its cells.
    pub fn of(
        alloc: Global,
        text: &[Row],
        cursor: ScreenPosition,
        rows: u16,
        cols: u16,
        visible: bool,
    ) -> Result<Option<Reflow>, AllocError>
        requires size { IsSize rows cols }
        ensures reflowed { IfOk result (λ made. IfSome made (λ reflow. reflow ≡ reflowed text.now cursor rows cols visible)) }
        ensures none { IfOk result (λ made. IfNone made (LeavesRangeAt text.now cursor
            ⊎ (IsScreenshot (reflowed text.now cursor rows cols visible).shot → ⊥))) }
    {
        let all = rewrap(alloc, text, usize::from(cols))?;
        let Some(place) = placed(&all, text, cursor) else {
            return Ok(None);
        };
        Reflow::at(alloc, all, place, rows, cols, visible)
    }

    // Rows at the width of a screen, with the cursor at a place of them.
    fn at(
        alloc: Global,
        all: Vec<Row>,
        place: ScreenPosition,
        rows: u16,
        cols: u16,
        visible: bool,
    ) -> Result<Option<Reflow>, AllocError>
        requires size { IsSize rows cols }
        ensures reflowed { IfOk result (λ made. IfSome made (λ reflow. reflow ≡ reflow_at all.items place rows cols visible)) }
        ensures none { IfOk result (λ made. IfNone made (IsScreenshot (reflow_at all.items place rows cols visible).shot → ⊥)) }
    {
        let off = leaving(&all, rows, place.row);
        let cells = cells_from(alloc, &all, off, rows, cols)?;
        let pending = is_behind(cols, place.col);
        let at = ScreenPosition {
            row: place.row - off,
            col: place.col,
        };
        let Some(shot) = shot_of(rows, cols, cells, at, visible) else {
            return Ok(None);
        };
        Ok(Some(Reflow {
            rows: all,
            off,
            shot,
            pending,
        }))
    }
}

// Returns true if a column is behind all columns.
fn is_behind(cols: u16, col: usize) -> bool
    ensures behind { result ≡ nat_le cols col }
{
    usize::from(cols) <= col
}

// How many rows leave at the top.
fn leaving(all: &[Row], rows: u16, row: usize) -> usize
    ensures leaving { result ≡ leaving_rows rows row all.now }
    ensures few { result ≤ row }
    ensures within { result ≤ length all.now }
{
    row.min(all.len().saturating_sub(usize::from(rows)))
}

// The cells of a screen that shows the rows behind the first ones.
fn cells_from(
    alloc: Global,
    all: &[Row],
    off: usize,
    rows: u16,
    cols: u16,
) -> Result<Vec<Cell>, AllocError>
    requires within { off ≤ length all.now }
    ensures cells { IfOk result (λ cells. cells.items ≡ shown_cells rows cols (shown_rows rows off all.now)) }
{
    let count = usize::from(rows).min(all.len() - off);
    shown_cells(alloc, &all[off..off + count], rows, cols)
}
