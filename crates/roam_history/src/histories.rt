//! The history itself.
ghost use Rattle.std.specs.Prelude.{◌≡◌, ◌≤◌, ◌<◌, ◌↔◌, ◌⊎◌, length, replicate, IfOk, IfErr, IsErrOf, option_copied, slice_get, slice_index_or, []};
ghost use Rattle.circular_buffer.specs.Buffer.{buffer};
ghost use Rattle.roam_cells.specs.Glyph.{blank};
ghost use Rattle.roam_cells.specs.Place.{IsWholeRow};
ghost use Rattle.roam_history.specs.Histories.{IsScrollback, empty, after_push};
ghost use Rattle.roam_history.specs.Limits.{IsHistorySize};
ghost use Rattle.roam_history.specs.Lines.{refitted_row, with_blanks};

use crate::limits::is_history_size;
use crate::lines::Line;
use circular_buffer::HeapCircularBuffer;
use roam_cells::{Cell, Fault};
use std::alloc::{AllocError, Global};
use std::marker::Model;

/// The last rows that were pushed, at most 500 of 4 to 500 columns each. Only `new`, `fit` and `refit` take memory.
#[derive(Drop)]
pub struct History {
    // As many lines as may be kept, allocated at the start: the last `len` are the rows, oldest first, and those before them wait for more.
    // A pushed row is written over the first line, which then goes to the end.
    ring: HeapCircularBuffer<Line>,
    cols: usize,
    len: usize,
}

impl Model for History {
    ghost use Rattle.std.specs.Prelude.{length};
    ghost use Rattle.roam_history.specs.Histories.{Scrollback, IsKept, last};

    ghost Value = { Scrollback };

    ghost view = { λ a. record { lines = length a.ring.items; cols = a.cols; rows = last a.len a.ring.items } };

    ghost invariant = { λ a. IsKept a.ring a.cols a.len };
}

/// So many blank lines of so many columns.
fn blank_lines(
    alloc: Global,
    lines: usize,
    cols: usize,
) -> Result<HeapCircularBuffer<Line>, AllocError>
    ensures ring { IfOk result (λ ring. ring ≡ buffer (replicate lines (replicate cols blank)) lines) }
{
    let mut ring = HeapCircularBuffer::with_capacity(alloc, lines)?;
    for _ in 0..lines {
        let _ = ring.push_back(Line::blank(alloc, cols)?);
    }
    Ok(ring)
}

impl History {
    /// Returns a history without rows, for so many lines (0 keeps nothing) of so many columns. `BadSize` above 500 lines or outside 4 to
    /// 500 columns.
    pub fn new(alloc: Global, lines: usize, cols: usize) -> Result<History, Fault>
        ensures history { IfOk result (λ history. history ≡ empty lines cols) }
        ensures size { IfOk result (λ _. IsHistorySize lines cols) }
        ensures bad_size { IsErrOf result Fault.BadSize ↔ (¬ IsHistorySize lines cols) }
        ensures faults { IfErr result (λ fault. (fault ≡ Fault.BadSize) ⊎ (fault ≡ Fault.OutOfMemory)) }
    {
        if !is_history_size(lines, cols) {
            return Err(Fault::BadSize);
        }
        let ring = blank_lines(alloc, lines, cols)?;
        Ok(History { ring, cols, len: 0 })
    }

    /// Facts about every history: its limits, that it keeps at most its lines, and that each row is whole and of its columns.
    pub fn facts(&self)
        ensures scrollback { IsScrollback self.now }
    {
        let _ = &self.ring;
    }

    /// The most rows that it keeps, 0 to 500.
    pub fn lines(&self) -> usize
        ensures lines { result ≡ self.now.lines }
    {
        self.ring.len()
    }

    /// The columns of each row, 4 to 500.
    pub fn cols(&self) -> usize
        ensures cols { result ≡ self.now.cols }
    {
        self.cols
    }

    /// How many rows it keeps now.
    pub fn len(&self) -> usize
        ensures len { result ≡ length self.now.rows }
    {
        self.len
    }

    fn line(&self, i: usize) -> &Line
        requires row_in { i < length self.now.rows }
        ensures line { result.now ≡ slice_index_or self.now.rows i [] }
    {
        self.ring.get(self.ring.len() - self.len + i).unwrap()
    }

    /// The cells of row i, from 0, the oldest; `None` from its length on.
    pub fn row(&self, i: usize) -> Option<&[Cell]>
        ensures row { option_copied result ≡ slice_get self.now.rows i }
    {
        if i < self.len {
            Some(self.line(i).cells())
        } else {
            None
        }
    }

    /// Returns the cells of row i, from 0, the oldest, without blank ones at its end: a copy of a row costs its columns in use.
    pub fn front_of_row(&self, i: usize) -> &[Cell]
        requires row_in { i < length self.now.rows }
        ensures row { slice_index_or self.now.rows i [] ≡ with_blanks self.now.cols result.now }
        ensures few { length result.now ≤ self.now.cols }
    {
        self.facts();
        self.line(i).front()
    }

    /// Takes a row, cut or padded to its columns.
    pub(crate) fn take(&mut self, row: &[Cell])
        requires whole { IsWholeRow (refitted_row self.old.cols row.now) }
        ensures pushed { self.new ≡ after_push (refitted_row self.old.cols row.now) self.old }
    {
        if let Some(mut line) = self.ring.pop_front() {
            line.take(row);
            let _ = self.ring.push_back(line);
            self.len = (self.len + 1).min(self.ring.len());
        }
    }

    /// Keeps a row of whole characters, of as many cells as it has columns, as the newest; a full history loses the oldest. Takes no
    /// memory.
    pub fn push_row(&mut self, row: &[Cell])
        requires count { length row.now ≡ self.old.cols }
        requires whole { IsWholeRow row.now }
        ensures pushed { self.new ≡ after_push row.now self.old }
    {
        self.push_front(row);
    }

    /// The same for a row without some of the blanks at its end: the call costs the cells that it is handed. Takes no memory.
    pub fn push_front(&mut self, front: &[Cell])
        requires few { length front.now ≤ self.old.cols }
        requires whole { IsWholeRow (with_blanks self.old.cols front.now) }
        ensures pushed { self.new ≡ after_push (with_blanks self.old.cols front.now) self.old }
    {
        self.take(front);
    }
}
