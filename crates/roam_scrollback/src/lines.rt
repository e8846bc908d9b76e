//! Rows that left, as lines that wait to be written somewhere.
ghost use Rattle.std.specs.Prelude.{◌≡◌, ◌≤◌, ◌+◌, ◌∷◌, ◌++◌, ℕ, [], true, length, map, min, replicate, take, OnOk, OnErr};
ghost use Rattle.roam_cells.specs.Glyph.{blank};
ghost use Rattle.roam_scrollback.specs.Lines.{Writes, is_full, left_of, most_kept, most_lost, newest, no_lines, text_row};
ghost use Rattle.roam_scrollback.specs.RowText.{line_text};
ghost use Rattle.roam_scrollback.specs.Wraps.{is_on};

use crate::kept::RecentRows;
use crate::row_texts::push_line;
use crate::wraps::Wrap;
use roam_cells::Cell;
use roam_rewrap::Row;
use std::alloc::{AllocError, Global};
use std::marker::Model;
use std::mem::swap;

/// The number of queued bytes from which no more rows are written until they are taken.
pub const MANY: usize = 65536;

/// The lines of rows that left: their bytes, how many they are, and how many more rows there was no memory for. With them the last rows
/// that left of one terminal, as text.
#[derive(Drop)]
pub struct LeftLines {
    text: Vec<u8>,
    count: usize,
    lost: usize,
    // Where a line is made before it is added, so that none is added in part.
    line: Vec<u8>,
    kept: RecentRows,
}

impl Model for LeftLines {
    ghost use Rattle.roam_scrollback.specs.Lines.{LinesView, most_lost};
    ghost use Rattle.std.specs.Prelude.{◌≤◌, length};

    ghost Value = { LinesView };

    ghost view = { λ a. record { text = a.text.items; count = a.count; lost = a.lost; kept = a.kept } };

    ghost invariant = { λ a. (a.count ≤ length a.text.items) × (a.lost ≤ most_lost) };
}

impl LeftLines {
    /// No lines yet.
    pub fn new(alloc: Global) -> Self
        ensures none { result ≡ no_lines }
    {
        LeftLines {
            text: Vec::new(alloc),
            count: 0,
            lost: 0,
            line: Vec::new(alloc),
            kept: RecentRows::new(alloc),
        }
    }

    /// Proves the facts about all lines: how many lost rows are counted, and how many rows are kept.
    pub fn facts(&self)
        ensures lost { self.now.lost ≤ most_lost }
        ensures few { length self.now.kept ≤ most_kept }
    {
        self.kept.facts();
        let _ = &self.lost;
    }

    /// The bytes of the lines.
    pub fn text(&self) -> &[u8]
        ensures text { result.now ≡ self.now.text }
    {
        &self.text
    }

    /// How many lines they are.
    pub fn count(&self) -> usize
        ensures count { result ≡ self.now.count }
    {
        self.count
    }

    /// How many more rows left that there was no memory for; all of them came after those of the lines.
    pub fn lost(&self) -> usize
        ensures lost { result ≡ self.now.lost }
    {
        self.lost
    }

    /// Returns true if the lines are to be taken before more are written: 65,536 bytes are queued, or a row was lost.
    pub fn is_full(&self) -> bool
        ensures full { result ≡ is_full self.now }
    {
        MANY <= self.text.len() || 0 < self.lost
    }

    /// The lines were taken.
    pub fn clear(&mut self)
        ensures none { self.new ≡ no_lines }
    {
        self.text.clear();
        self.count = 0;
        self.lost = 0;
        self.kept.clear();
    }

    /// The last rows that left, as text.
    pub fn kept(&self) -> &RecentRows
        ensures kept { result.now ≡ self.now.kept }
    {
        &self.kept
    }

    /// Exchanges the last rows that left for others, of another terminal, say.
    pub fn swap_kept(&mut self, kept: &mut RecentRows)
        ensures lines { self.new ≡ record self.old { kept = kept.old } }
        ensures kept { kept.new ≡ self.old.kept }
    {
        swap(&mut self.kept, kept);
    }

    /// Keeps only the first of the rows that are kept: the others are back on the screen.
    pub fn keep_first(&mut self, count: usize)
        ensures first { self.new ≡ record self.old { kept = take count self.old.kept } }
    {
        self.kept.keep_first(count);
    }

    // Adds the line of a row.
    fn add(&mut self, wrap: Wrap, row: &[Cell]) -> Result<(), AllocError>
        ensures added { OnOk result (self.new ≡ record self.old {
          text = self.old.text ++ line_text wrap row.now;
          count = self.old.count + 1;
        }) }
        ensures err { OnErr result (self.new ≡ self.old) }
    {
        self.line.clear();
        push_line(&mut self.line, wrap, row)?;
        self.text.extend_from_slice(&self.line)?;
        self.count += 1;
        Ok(())
    }

    // Keeps a row as text. After `AllocError` other rows may be kept.
    fn keep(&mut self, wrap: Wrap, front: &[Cell]) -> Result<(), AllocError>
        ensures lines { self.new ≡ record self.old { kept = self.new.kept } }
        ensures kept { OnOk result ((n : ℕ) → (is_on wrap ≡ true → n ≡ 0)
            → self.new.kept
            ≡ newest most_kept (self.old.kept ++ text_row (record { wrap = wrap; cells = front.now ++ replicate n blank }) ∷ [])) }
    {
        self.kept.push(wrap, front)
    }

    // Keeps a row as text, and adds its line. After `AllocError` other rows may be kept.
    fn keep_and_add(&mut self, wrap: Wrap, front: &[Cell]) -> Result<(), AllocError>
        ensures added { OnOk result (self.new ≡ record self.old {
          text = self.old.text ++ line_text wrap front.now;
          count = self.old.count + 1;
          kept = self.new.kept;
        }) }
        ensures kept { OnOk result ((n : ℕ) → (is_on wrap ≡ true → n ≡ 0)
            → self.new.kept
            ≡ newest most_kept (self.old.kept ++ text_row (record { wrap = wrap; cells = front.now ++ replicate n blank }) ∷ [])) }
        ensures err { OnErr result (self.new ≡ record self.old { kept = self.new.kept }) }
    {
        self.keep(wrap, front)?;
        self.add(wrap, front)
    }

    // A row is lost, and no row is kept.
    fn lose(&mut self)
        ensures lost { self.new ≡ record self.old { lost = min most_lost (self.old.lost + 1); kept = [] } }
    {
        self.kept.clear();
        self.lost = self.lost.saturating_add(1);
    }

    /// A row left, which may be lent without some of the blanks at its end if it ends. If there is no memory for it as text or for its line,
    /// it is lost, and so is each that comes after it, until the lines are taken.
    pub fn push(&mut self, wrap: Wrap, front: &[Cell])
        ensures written { (n : ℕ) → (is_on wrap ≡ true → n ≡ 0)
            → Writes self.old self.new (record { wrap = wrap; cells = front.now ++ replicate n blank } ∷ []) }
    {
        if self.lost == 0 {
            if let Ok(()) = self.keep_and_add(wrap, front) {
                return;
            }
        }
        self.lose();
    }

    // A row of text left.
    fn push_text(&mut self, row: &Row)
        ensures written { Writes self.old self.new (left_of row.now ∷ []) }
    {
        let wrap = if row.goes_on() {
            Wrap::Full
        } else {
            Wrap::Ends
        };
        self.push(wrap, row.cells());
    }

    /// Rows of text left, the first one first.
    pub fn push_texts(&mut self, rows: &[Row])
        ensures written { Writes self.old self.new (map left_of rows.now) }
    {
        self.facts();
        for row in rows {
            self.push_text(row);
        }
    }
}
