//! The part of a screen that is shown, and its cells.
ghost use Rattle.std.specs.Prelude.{◌≡◌, ◌<◌, ◌+◌, ◌++◌, ◌&&◌, ◌||◌, map, true, [], length, max, min, OnOk, IfOk, IfErr, IsErrOf, IsOkUnless, ◌⊎◌, ◌↔◌};
ghost use Rattle.std.specs.List.{range_with_len};
ghost use Rattle.roam_cells.specs.Glyph.{blank};
ghost use Rattle.roam_cells.specs.Limits.{IsSize};
ghost use Rattle.roam_cells.specs.Place.{cell_at, table};
ghost use Rattle.roam_viewport.specs.Parts.{cursor_in, cut_glyph, followed, following, glyph_or_blank, has_place, is_among, is_inside, is_left_out, is_masked, is_right_out, part_at, part_of};
ghost use Rattle.roam_screens.specs.Lines.{AreLines, cells_in_order};

use roam_cells::limits::is_size;
use roam_cells::{Cell, Fault};
use roam_screens::{Line, RowShot, Seen};
use std::alloc::{AllocError, Global};

/// So many rows and columns of a screen, or of a terminal, from a row and a column on, both from 0.
#[derive(Clone, Copy, Debug, Default, PartialEq, Eq)]
pub struct Part {
    /// Its first row, from 0.
    pub row: u16,
    /// Its first column, from 0.
    pub col: u16,
    /// How many rows it has.
    pub rows: u16,
    /// How many columns it has.
    pub cols: u16,
}

// Returns the beginning of a part of so many that has the cursor. The cursor's row or column counts from 1; the part began at `from`, and
// the screen has `all`.
fn following(from: u16, count: u16, all: u16, at: u16) -> u16
    ensures following { result ≡ following from count all at }
{
    let within = from.min(all.saturating_sub(count));
    at.saturating_sub(count)
        .max(at.saturating_sub(1).min(within))
}

// Returns true if a row or a column, from 0, is one of so many from one on.
fn is_among(from: u16, count: u16, at: u32) -> bool
    ensures among { result ≡ is_among from count at }
{
    from as u32 <= at && at < from as u32 + count as u32
}

impl Part {
    /// Returns true if it has a place, by its row and column from 0.
    pub fn has_place(&self, row: u32, col: u32) -> bool
        ensures has { result ≡ has_place self.now row col }
    {
        is_among(self.row, self.rows, row) && is_among(self.col, self.cols, col)
    }

    /// Returns the part of this size that has the cursor of a screen: this part, or one as near to it as possible. It is within the screen
    /// if that is large enough.
    pub fn followed<S: Seen>(&self, shot: &S) -> Part
        ensures followed { result ≡ followed self.now (S.screen shot.now) }
    {
        let (row, col) = shot.cursor();
        Part {
            row: following(self.row, self.rows, shot.rows(), row),
            col: following(self.col, self.cols, shot.cols(), col),
            rows: self.rows,
            cols: self.cols,
        }
    }
}

// Where the cursor's row or column goes, from 1, in a part of so many from one on.
fn cursor_in(from: u16, count: u16, at: u16) -> u16
    ensures cursor { result ≡ cursor_in from count at }
{
    at.saturating_sub(from).min(count).max(1)
}

// Returns true if it is inside.
fn is_inside(from: u16, count: u16, at: u16) -> bool
    ensures inside { result ≡ is_inside from count at }
{
    from < at && at as u32 <= from as u32 + count as u32
}

impl Part {
    // Where a cursor goes in this part, and whether it is shown there.
    fn cursor(&self, cursor: (u16, u16), visible: bool) -> ((u16, u16), bool)
        ensures row { result.0.0 ≡ cursor_in self.now.row self.now.rows cursor.0 }
        ensures col { result.0.1 ≡ cursor_in self.now.col self.now.cols cursor.1 }
        ensures visible { result.1 ≡ (visible && (is_inside self.now.row self.now.rows cursor.0
            && is_inside self.now.col self.now.cols cursor.1)) }
    {
        let (row, col) = cursor;
        let inside = is_inside(self.row, self.rows, row) && is_inside(self.col, self.cols, col);
        let place = (
            cursor_in(self.row, self.rows, row),
            cursor_in(self.col, self.cols, col),
        );
        (place, visible && inside)
    }
}

// Returns true if one of these parts has a place.
fn is_masked(masks: &[Part], row: u32, col: u32) -> bool
    ensures masked { result ≡ is_masked masks.now row col }
{
    let Some((first, others)) = masks.split_first() else {
        return false;
    };
    first.has_place(row, col) || is_masked(others, row, col)
}

// Returns the cell at a row and a column of a screen, from 0; outside of it a blank.
#[tactic(auto, using(roam_screens::proofs::Lined::row_at))]
fn cell_or_blank(shot: &RowShot, row: u32, col: u32) -> Cell
    ensures cell { result ≡ glyph_or_blank shot.now row col }
{
    if row < shot.rows() as u32 && col < shot.cols() as u32 {
        shot.row(row as u16)[col as usize]
    } else {
        Cell::blank()
    }
}

// A cell, whose left neighbour is left out or not, and its right one.
fn cut_cell(left: bool, right: bool, cell: Cell) -> Cell
    ensures cell { result ≡ cut_glyph left right cell }
{
    if (left && cell.is_right_half()) || (right && cell.is_wide()) {
        cell.space_in()
    } else {
        cell
    }
}

/// A screen, which part of it is shown, and which places of that part are left as they are.
#[derive(Clone, Copy)]
struct View<'a> {
    shot: &'a RowShot,
    part: Part,
    masks: &'a [Part],
}

impl<'a> View<'a> {
    // Returns the cell at a row and a column of the part, from 0.
    fn cell(&self, row: u16, col: u16) -> Cell
        ensures cell { result ≡ part_at self.now.part self.now.masks.now self.now.shot.now row col }
    {
        let (r, c) = (row as u32, col as u32);
        if is_masked(self.masks, r, c) {
            return Cell::blank();
        }
        let left = c == 0 || is_masked(self.masks, r, c - 1);
        let right = c + 1 == self.part.cols as u32 || is_masked(self.masks, r, c + 1);
        let cell = cell_or_blank(
            self.shot,
            self.part.row as u32 + r,
            self.part.col as u32 + c,
        );
        cut_cell(left, right, cell)
    }

    // Returns true if a row of the part is a row of the screen.
    fn is_shared(&self, row: u16) -> bool
        ensures shared { result ≡ true → (self.now.masks.now ≡ []) × (self.now.part.col ≡ 0) × (self.now.part.cols ≡ self.now.shot.now.cols)
            × (self.now.part.row + row < self.now.shot.now.rows) }
    {
        self.masks.is_empty()
            && self.part.col == 0
            && self.part.cols == self.shot.cols()
            && self.part.row as u32 + (row as u32) < self.shot.rows() as u32
    }

    // The cells of a row of the part.
    fn cells(&self, alloc: Global, row: u16) -> Result<Vec<Cell>, AllocError>
        ensures cells { IfOk result (λ cells. cells.items
            ≡ map (part_at self.now.part self.now.masks.now self.now.shot.now row) (range_with_len 0 self.now.part.cols)) }
    {
        let mut cells = Vec::with_capacity(alloc, self.part.cols as usize)?;
        for col in 0..self.part.cols {
            let cell = self.cell(row, col);
            cells.push(cell)?;
        }
        Ok(cells)
    }

    // Returns a row of the part, shared with the screen if it is a row of that.
    fn line(&self, alloc: Global, row: u16) -> Result<Line, AllocError>
        ensures line { IfOk result (λ line. line
            ≡ map (part_at self.now.part self.now.masks.now self.now.shot.now row) (range_with_len 0 self.now.part.cols)) }
    {
        if self.is_shared(row) {
            self.shot.facts();
            return self.shot.line(self.part.row + row).share();
        }
        Line::from_cells(self.cells(alloc, row)?)
    }

    // The rows of the part.
    fn lines(&self, alloc: Global) -> Result<Vec<Line>, AllocError>
        ensures lines { IfOk result (λ lines. AreLines self.now.part.rows self.now.part.cols lines.items) }
        ensures cells { IfOk result (λ lines. cells_in_order lines.items
            ≡ table self.now.part.rows self.now.part.cols (part_at self.now.part self.now.masks.now self.now.shot.now)) }
    {
        let mut lines = Vec::with_capacity(alloc, self.part.rows as usize)?;
        for row in 0..self.part.rows {
            let line = self.line(alloc, row)?;
            lines.push(line)?;
        }
        Ok(lines)
    }
}

/// Returns a part of a screen as a screen of its own. Places outside of the screen and masked places are blank. A wide character that is
/// cut in two becomes a space in its style. The cursor is hidden if it is outside. Rows of the screen are shared with it.
///
/// `BadSize` for a part outside 2 to 200 rows or 4 to 500 columns, `OutOfMemory`.
pub fn part_of(alloc: Global, shot: &RowShot, part: Part, masks: &[Part]) -> Result<RowShot, Fault>
    ensures part { IfOk result (λ shown. shown ≡ part_of part masks.now shot.now) }
    ensures size { IfOk result (λ _. IsSize part.rows part.cols) }
    ensures bad_size { IsErrOf result Fault.BadSize ↔ (¬ IsSize part.rows part.cols) }
    ensures faults { IfErr result (λ fault. (fault ≡ Fault.BadSize) ⊎ (fault ≡ Fault.OutOfMemory)) }
{
    if !is_size(part.rows, part.cols) {
        return Err(Fault::BadSize);
    }
    shot.facts();
    let lines = View { shot, part, masks }.lines(alloc)?;
    let (cursor, visible) = part.cursor(shot.cursor(), shot.visible());
    Ok(RowShot::of_lines(part.rows, part.cols, lines, cursor, visible))
}
