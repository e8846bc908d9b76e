//! Runs of printable ASCII that are written at once.
ghost use Rattle.std.specs.Prelude.{◌≡◌, ◌+◌, ◌<◌, ◌≤◌, false, length};
ghost use Rattle.roam_cells.specs.Glyph.{inked_bytes};
ghost use Rattle.roam_rows.specs.Places.{in_row};
ghost use Rattle.roam_rows.specs.Writing.{ArePrintable, written_run};

use crate::grids::Grid;
use crate::marks::mark_row;
use crate::writing::Writing;
use roam_cells::Cell;

impl Grid {
    ghost use Rattle.roam_grid.specs.Marks.{marks_put_all, row_marked};
    ghost use Rattle.roam_grid.specs.Screen.{IsSameSize, mapped_screen};
    ghost use Rattle.roam_grid.specs.Writing.{wrap_done, put_all, first_put_all};

    /// Writes printable ASCII bytes, 20 to 7E, at the cursor in the style and guard of a pen, as `put` does with the cell of each in turn.
    pub fn put_run(&mut self, pen: Cell, bytes: &[u8], writing: Writing)
        requires printable { ArePrintable bytes.now }
        ensures screen { self.new.screen ≡ put_all (inked_bytes pen bytes.now) writing self.old.screen }
        ensures first { self.new.first ≡ first_put_all (inked_bytes pen bytes.now) writing self.old.screen self.old.first }
        ensures marks { self.new.marks ≡ marks_put_all (inked_bytes pen bytes.now) writing self.old.screen self.old.marks }
        ensures size { IsSameSize self.old.screen self.new.screen }
    {
        if writing.inserts {
            self.put_each(pen, bytes, writing);
        } else {
            self.put_segments(pen, bytes, writing);
        }
    }

    /// The same of bytes that fit into one row after a pending wrap.
    #[inline]
    pub fn put_row_run(&mut self, pen: Cell, bytes: &[u8], writing: Writing)
        requires printable { ArePrintable bytes.now }
        requires some { 0 < length bytes.now }
        requires fits { (wrap_done self.old.screen).col + length bytes.now ≤ (wrap_done self.old.screen).cols }
        ensures screen { self.new.screen ≡ put_all (inked_bytes pen bytes.now) writing self.old.screen }
        ensures first { self.new.first ≡ first_put_all (inked_bytes pen bytes.now) writing self.old.screen self.old.first }
        ensures marks { self.new.marks ≡ marks_put_all (inked_bytes pen bytes.now) writing self.old.screen self.old.marks }
        ensures size { IsSameSize self.old.screen self.new.screen }
    {
        if writing.inserts {
            self.put_each(pen, bytes, writing);
        } else {
            self.put_settled(pen, bytes, writing);
        }
    }

    #[inline]
    fn put_settled(&mut self, pen: Cell, bytes: &[u8], writing: Writing)
        requires printable { ArePrintable bytes.now }
        requires some { 0 < length bytes.now }
        requires fits { (wrap_done self.old.screen).col + length bytes.now ≤ (wrap_done self.old.screen).cols }
        requires over { writing.inserts ≡ false }
        ensures screen { self.new.screen ≡ put_all (inked_bytes pen bytes.now) writing self.old.screen }
        ensures first { self.new.first ≡ first_put_all (inked_bytes pen bytes.now) writing self.old.screen self.old.first }
        ensures marks { self.new.marks ≡ marks_put_all (inked_bytes pen bytes.now) writing self.old.screen self.old.marks }
        ensures size { IsSameSize self.old.screen self.new.screen }
    {
        self.facts();
        self.settle();
        self.put_segment(pen, bytes, writing);
    }

    // Under IRM each character makes its own way.
    fn put_each(&mut self, pen: Cell, bytes: &[u8], writing: Writing)
        requires printable { ArePrintable bytes.now }
        ensures screen { self.new.screen ≡ put_all (inked_bytes pen bytes.now) writing self.old.screen }
        ensures first { self.new.first ≡ first_put_all (inked_bytes pen bytes.now) writing self.old.screen self.old.first }
        ensures marks { self.new.marks ≡ marks_put_all (inked_bytes pen bytes.now) writing self.old.screen self.old.marks }
        ensures size { IsSameSize self.old.screen self.new.screen }
    {
        for i in 0..bytes.len() {
            let mut cell = pen;
            cell.set_ascii(bytes[i]);
            self.put(cell, writing);
        }
    }

    // As many at once as fit a row.
    fn put_segments(&mut self, pen: Cell, bytes: &[u8], writing: Writing)
        requires printable { ArePrintable bytes.now }
        requires over { writing.inserts ≡ false }
        ensures screen { self.new.screen ≡ put_all (inked_bytes pen bytes.now) writing self.old.screen }
        ensures first { self.new.first ≡ first_put_all (inked_bytes pen bytes.now) writing self.old.screen self.old.first }
        ensures marks { self.new.marks ≡ marks_put_all (inked_bytes pen bytes.now) writing self.old.screen self.old.marks }
        ensures size { IsSameSize self.old.screen self.new.screen }
    {
        let mut at = 0;
        while at < bytes.len() {
            self.facts();
            self.settle();
            let count = (bytes.len() - at).min(self.room());
            self.put_segment(pen, &bytes[at..at + count], writing);
            at += count;
        }
    }

    #[inline]
    fn put_segment(&mut self, pen: Cell, bytes: &[u8], writing: Writing)
        requires settled { self.old.screen.pending ≡ false }
        requires fits { self.old.screen.col + length bytes.now ≤ self.old.screen.cols }
        requires some { 0 < length bytes.now }
        requires printable { ArePrintable bytes.now }
        requires over { writing.inserts ≡ false }
        ensures screen { self.new.screen ≡ put_all (inked_bytes pen bytes.now) writing self.old.screen }
        ensures first { self.new.first ≡ first_put_all (inked_bytes pen bytes.now) writing self.old.screen self.old.first }
        ensures marks { self.new.marks ≡ marks_put_all (inked_bytes pen bytes.now) writing self.old.screen self.old.marks }
        ensures size { IsSameSize self.old.screen self.new.screen }
    {
        self.facts();
        self.ink_run(pen, bytes);
        self.advance(bytes.len(), writing);
    }

    #[inline]
    fn ink_run(&mut self, pen: Cell, bytes: &[u8])
        requires fits { self.old.screen.col + length bytes.now ≤ self.old.screen.cols }
        requires some { 0 < length bytes.now }
        requires printable { ArePrintable bytes.now }
        ensures screen { self.new.screen
            ≡ mapped_screen
            (in_row self.old.screen.row (written_run (inked_bytes pen bytes.now) self.old.screen.col))
            self.old.screen }
        ensures first { self.new.first ≡ self.old.first }
        ensures marks { self.new.marks ≡ row_marked self.old.screen.row self.old.marks }
        ensures size { IsSameSize self.old.screen self.new.screen }
    {
        self.ring.put_run(self.row, self.col, pen, bytes);
        mark_row(&mut self.marks, self.row);
    }
}
