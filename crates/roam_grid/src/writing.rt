//! Writing characters at the cursor.
ghost use Rattle.std.specs.Prelude.{◌≡◌, ◌+◌, ◌<◌, ◌≤◌, false, IsTrue};
ghost use Rattle.roam_cells.specs.Glyph.{is_right_half};
ghost use Rattle.roam_grid.specs.Writing.{columns};
ghost use Rattle.roam_cells.specs.Limits.{most_columns};

use crate::grids::Grid;
use crate::marks::{mark_row, mark_where};
use roam_cells::Cell;

/// The modes that writing depends on.
#[derive(Clone, Copy)]
pub struct Writing {
    /// DECAWM: past the last column the next row goes on.
    pub wraps: bool,

    /// IRM: the cells at the cursor and right of it make way.
    pub inserts: bool,
}

// The columns that a cell takes.
#[inline]
fn columns_of(cell: Cell) -> usize
    ensures columns { result ≡ columns cell }
    ensures few { result ≤ 2 }
{
    if cell.is_wide() { 2 } else { 1 }
}

impl Grid {
    ghost use Rattle.roam_grid.specs.Marks.{joins, marks_indexed, marks_joined, marks_joined_in, marks_put, marks_settled, marks_with_room, row_marked};
    ghost use Rattle.roam_grid.specs.Screen.{IsSameSize};
    ghost use Rattle.roam_grid.specs.Writing.{after_wrap, wrap_done, first_settled, with_room, first_with_room, made_way, after_ink, after_advance, put_on, leaves_row, first_put, joined_in, joined_on};
    ghost use Rattle.roam_grid.specs.Cursor.{first_indexed};

    /// Returns true if a `put` of a cell of so many columns first scrolls a row out at the top margin.
    #[tactic(auto, unfolding(crate::specs::Writing::leaves_row))]
    pub fn leaves(&self, width: usize, writing: Writing) -> bool
        ensures leaves { result ≡ leaves_row width writing self.now.screen }
    {
        self.ring.facts();
        self.row == self.bottom
            && (self.pending || width == 2 && self.col + 1 == self.ring.cols() && writing.wraps)
    }

    /// Writes a cell of one or two columns at the cursor (DECAWM, VT220 Programmer Reference).
    #[inline]
    #[tactic(auto, unfolding(crate::specs::Writing::put_on, crate::specs::Marks::marks_put))]
    pub fn put(&mut self, cell: Cell, writing: Writing)
        requires no_half { is_right_half cell ≡ false }
        ensures screen { self.new.screen ≡ put_on cell writing self.old.screen }
        ensures first { self.new.first ≡ first_put cell writing self.old.screen self.old.first }
        ensures marks { self.new.marks ≡ marks_put cell writing self.old.screen self.old.marks }
        ensures size { IsSameSize self.old.screen self.new.screen }
    {
        self.facts();
        self.settle();
        self.make_room(cell, writing);
        let columns = if cell.is_wide() { 2 } else { 1 };
        self.make_way(columns, writing);
        self.ink(cell);
        self.advance(columns, writing);
    }

    /// Returns true if a cell fits at the cursor with a column left after it: then writing it neither wraps nor scrolls.
    #[inline]
    pub fn fits_inside(&self, cell: Cell) -> bool
        ensures settled { IsTrue result → self.now.screen.pending ≡ false }
        ensures room { IsTrue result → self.now.screen.col + columns cell < self.now.screen.cols }
        ensures only { self.now.screen.pending ≡ false → self.now.screen.col + columns cell < self.now.screen.cols → IsTrue result }
    {
        self.ring.facts();
        !self.pending && self.col + columns_of(cell) < self.ring.cols()
    }

    /// Writes a cell that fits at the cursor with a column left after it, as `put` does.
    #[inline]
    pub fn put_inside(&mut self, cell: Cell, writing: Writing)
        requires no_half { is_right_half cell ≡ false }
        requires settled { self.old.screen.pending ≡ false }
        requires room { self.old.screen.col + columns cell < self.old.screen.cols }
        requires over { writing.inserts ≡ false }
        ensures screen { self.new.screen ≡ put_on cell writing self.old.screen }
        ensures first { self.new.first ≡ first_put cell writing self.old.screen self.old.first }
        ensures marks { self.new.marks ≡ marks_put cell writing self.old.screen self.old.marks }
        ensures size { IsSameSize self.old.screen self.new.screen }
    {
        self.facts();
        self.ink(cell);
        self.advance(columns_of(cell), writing);
    }

    /// Joins a character of width 0 to the cell before the cursor, or with a wrap pending to the cursor's. A fourth code point, and one
    /// that has no cell before it, is dropped (this project's profile).
    #[tactic(auto, unfolding(crate::specs::Writing::joined_on, crate::specs::Marks::marks_joined))]
    pub fn join(&mut self, c: char)
        ensures screen { self.new.screen ≡ joined_on c self.old.screen }
        ensures first { self.new.first ≡ self.old.first }
        ensures marks { self.new.marks ≡ marks_joined c self.old.screen self.old.marks }
        ensures size { IsSameSize self.old.screen self.new.screen }
    {
        if self.pending {
            self.join_at(self.col, c);
        } else if self.col != 0 {
            self.join_at(self.col - 1, c);
        }
    }

    // Joins it to the character that a column of the cursor's row is part of.
    fn join_at(&mut self, col: usize, c: char)
        requires col_in { col < self.old.screen.cols }
        ensures screen { self.new.screen ≡ joined_in col c self.old.screen }
        ensures first { self.new.first ≡ self.old.first }
        ensures marks { self.new.marks ≡ marks_joined_in col c self.old.screen self.old.marks }
        ensures size { IsSameSize self.old.screen self.new.screen }
    {
        let joins = self.joins(col, c);
        mark_where(&mut self.marks, self.row, joins);
        self.ring.join(self.row, col, c);
    }

    // Returns true if it joins that character: a fourth code point doesn't, nor one that has columns of its own.
    fn joins(&self, col: usize, c: char) -> bool
        requires col_in { col < self.now.screen.cols }
        ensures joins { result ≡ joins col c self.now.screen }
    {
        let row = self.ring.row(self.row);
        let base = if row[col].is_right_half() {
            col.saturating_sub(1)
        } else {
            col
        };
        row[base].takes(c)
    }

    #[inline]
    #[tactic(auto, unfolding(crate::specs::Writing::after_wrap))]
    fn wrap(&mut self)
        ensures screen { self.new.screen ≡ after_wrap self.old.screen }
        ensures first { self.new.first ≡ first_indexed self.old.screen self.old.first }
        ensures marks { self.new.marks ≡ marks_indexed self.old.screen self.old.marks }
        ensures size { IsSameSize self.old.screen self.new.screen }
        ensures place { (self.new.screen.col ≡ 0) × (self.new.screen.pending ≡ false)
            × (self.new.screen.cols ≡ self.old.screen.cols) }
    {
        self.carriage_return();
        self.index();
    }

    #[inline]
    #[tactic(auto, unfolding(crate::specs::Writing::wrap_done, crate::specs::Writing::first_settled, crate::specs::Marks::marks_settled))]
    pub(crate) fn settle(&mut self)
        ensures screen { self.new.screen ≡ wrap_done self.old.screen }
        ensures first { self.new.first ≡ first_settled self.old.screen self.old.first }
        ensures marks { self.new.marks ≡ marks_settled self.old.screen self.old.marks }
        ensures size { IsSameSize self.old.screen self.new.screen }
        ensures settled { self.new.screen.pending ≡ false }
    {
        if self.pending {
            self.wrap();
        }
    }

    #[inline]
    #[tactic(auto, unfolding(crate::specs::Writing::with_room, crate::specs::Writing::first_with_room))]
    fn make_room(&mut self, cell: Cell, writing: Writing)
        requires settled { self.old.screen.pending ≡ false }
        ensures screen { self.new.screen ≡ with_room (columns cell) writing self.old.screen }
        ensures first { self.new.first ≡ first_with_room (columns cell) writing self.old.screen self.old.first }
        ensures marks { self.new.marks ≡ marks_with_room (columns cell) writing self.old.screen self.old.marks }
        ensures size { IsSameSize self.old.screen self.new.screen }
        ensures room { columns cell + self.new.screen.col ≤ self.new.screen.cols }
    {
        self.ring.facts();
        let last = self.col + 1 == self.ring.cols();
        if last && cell.is_wide() {
            if writing.wraps {
                self.wrap();
            } else {
                self.col = self.ring.cols() - 2;
            }
        }
    }

    #[inline]
    #[tactic(auto, unfolding(crate::specs::Writing::made_way))]
    fn make_way(&mut self, columns: usize, writing: Writing)
        ensures screen { self.new.screen ≡ made_way columns writing self.old.screen }
        ensures first { self.new.first ≡ self.old.first }
        ensures marks { self.new.marks ≡ self.old.marks }
        ensures size { IsSameSize self.old.screen self.new.screen }
        ensures place { (self.new.screen.col ≡ self.old.screen.col) × (self.new.screen.cols ≡ self.old.screen.cols) }
    {
        if writing.inserts {
            self.ring.insert(self.row, self.col, columns);
        }
    }

    #[inline(always)]
    #[tactic(auto, unfolding(crate::specs::Writing::after_ink))]
    fn ink(&mut self, cell: Cell)
        requires no_half { is_right_half cell ≡ false }
        requires room { columns cell + self.old.screen.col ≤ self.old.screen.cols }
        ensures screen { self.new.screen ≡ after_ink cell self.old.screen }
        ensures first { self.new.first ≡ self.old.first }
        ensures marks { self.new.marks ≡ row_marked self.old.screen.row self.old.marks }
        ensures size { IsSameSize self.old.screen self.new.screen }
    {
        self.ring.put(self.row, self.col, cell);
        mark_row(&mut self.marks, self.row);
    }

    #[inline]
    #[tactic(auto, unfolding(crate::specs::Writing::after_advance))]
    pub(crate) fn advance(&mut self, columns: usize, writing: Writing)
        requires few { columns ≤ most_columns }
        ensures screen { self.new.screen ≡ after_advance columns writing self.old.screen }
        ensures first { self.new.first ≡ self.old.first }
        ensures marks { self.new.marks ≡ self.old.marks }
        ensures size { IsSameSize self.old.screen self.new.screen }
    {
        self.ring.facts();
        if self.col + columns < self.ring.cols() {
            self.col += columns;
        } else {
            self.col = self.ring.cols() - 1;
            self.pending = writing.wraps;
        }
    }
}
