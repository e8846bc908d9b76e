//! The last rows that left, as text.
ghost use Rattle.std.specs.Prelude.{◌≡◌, ◌≤◌, ◌∷◌, ◌++◌, ℕ, [], true, length, replicate, take, OnOk};
ghost use Rattle.roam_cells.specs.Glyph.{blank};
ghost use Rattle.roam_scrollback.specs.Lines.{most_kept, newest, text_row};
ghost use Rattle.roam_scrollback.specs.Wraps.{is_on};

use crate::row_texts::text_cells;
use crate::wraps::Wrap;
use roam_cells::Cell;
use roam_rewrap::Row;
use std::alloc::{AllocError, Global};
use std::collections::VecDeque;
use std::marker::Model;

/// So many rows are kept at most.
pub const MOST_KEPT: usize = 200;

/// The last rows that left, as text, the oldest first: at most 200.
#[derive(Drop)]
pub struct RecentRows {
    alloc: Global,
    rows: VecDeque<Row>,
}

impl Model for RecentRows {
    ghost use Rattle.std.specs.Prelude.{◌≤◌, List, length};
    ghost use Rattle.roam_rewrap.specs.Lines.{TextRow};
    ghost use Rattle.roam_scrollback.specs.Lines.{most_kept};

    ghost Value = { List TextRow };

    ghost view = { λ a. a.rows.items };

    ghost invariant = { λ a. length a.rows.items ≤ most_kept };
}

// Adds the same rows once more.
fn push_copies(all: &mut Vec<Row>, alloc: Global, rows: &[Row]) -> Result<(), AllocError>
    ensures rows { OnOk result (all.new.items ≡ all.old.items ++ rows.now) }
{
    for row in rows {
        all.push(Row::new(alloc, row.goes_on(), row.cells())?)?;
    }
    Ok(())
}

impl RecentRows {
    /// No rows yet.
    pub fn new(alloc: Global) -> Self
        ensures none { result ≡ [] }
    {
        RecentRows {
            alloc,
            rows: VecDeque::new(alloc),
        }
    }

    /// Proves the fact about all kept rows: how many there are at most.
    pub fn facts(&self)
        ensures few { length self.now ≤ most_kept }
    {
        let _ = &self.rows;
    }

    /// How many they are.
    pub fn len(&self) -> usize
        ensures len { result ≡ length self.now }
    {
        self.rows.len()
    }

    /// Removes all rows.
    pub fn clear(&mut self)
        ensures none { self.new ≡ [] }
    {
        self.rows.clear();
    }

    /// Removes all rows but the first ones.
    pub fn keep_first(&mut self, count: usize)
        ensures first { self.new ≡ take count self.old }
    {
        self.rows.truncate(count);
    }

    /// Adds all rows to others.
    pub fn push_to(&self, all: &mut Vec<Row>) -> Result<(), AllocError>
        ensures rows { OnOk result (all.new.items ≡ all.old.items ++ self.now) }
    {
        let (front, back) = self.rows.as_slices();
        push_copies(all, self.alloc, front)?;
        push_copies(all, self.alloc, back)
    }

    // Removes the oldest row if there are as many as may be.
    fn make_room(&mut self)
        ensures newest { self.new ≡ newest 199 self.old }
    {
        if MOST_KEPT <= self.rows.len() {
            let _ = self.rows.pop_front();
        }
    }

    /// Adds a row that left, in place of the oldest one if 200 are kept. It may be lent without some of the blanks at its end if it ends.
    /// After `AllocError` it is not kept, and the oldest one may be gone.
    pub fn push(&mut self, wrap: Wrap, front: &[Cell]) -> Result<(), AllocError>
        ensures kept { OnOk result ((n : ℕ) → (is_on wrap ≡ true → n ≡ 0)
            → self.new ≡ newest most_kept (self.old ++ text_row (record { wrap = wrap; cells = front.now ++ replicate n blank }) ∷ [])) }
    {
        let row = Row::new(self.alloc, wrap.is_on(), text_cells(wrap, front))?;
        self.make_room();
        self.rows.push_back(row)?;
        Ok(())
    }
}
