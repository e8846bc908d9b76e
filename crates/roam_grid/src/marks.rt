//! Marks of rows: which of them may show something else than when the marks were last cleared.
ghost use Rattle.std.specs.Prelude.{◌≡◌, ◌<◌, ◌≤◌, ◌&&◌, ◌==◌, take, length};
ghost use Rattle.roam_grid.specs.Marks.{all_on, all_off, also_marked, row_marked, rows_marked, moved_marked, is_some_unguarded, unguarded_marked};
ghost use Rattle.roam_grid.specs.Screen.{IsSameSize};
ghost use Rattle.roam_cells.specs.Limits.{most_rows};

use crate::grids::Grid;
use roam_cells::Cell;
use roam_cells::limits::MOST_ROWS;
use roam_rows::Ring;

impl Grid {
    /// For each row, from 0, whether it may show something else than when the marks were last cleared. At first all marks are on.
    pub fn marks(&self) -> &[bool]
        ensures marks { result.now ≡ take self.now.screen.rows self.now.marks }
        ensures len { length result.now ≡ self.now.screen.rows }
    {
        self.ring.facts();
        &self.marks[..self.ring.rows()]
    }

    /// Puts all marks off.
    #[tactic(auto, unfolding(crate::specs::Marks::all_off))]
    pub fn clear_marks(&mut self)
        ensures screen { self.new.screen ≡ self.old.screen }
        ensures first { self.new.first ≡ self.old.first }
        ensures marks { self.new.marks ≡ all_off }
        ensures size { IsSameSize self.old.screen self.new.screen }
    {
        self.marks = [false; MOST_ROWS as usize];
    }

    /// Puts all marks on: for a change of how every row is shown.
    #[tactic(auto, unfolding(crate::specs::Marks::all_on))]
    pub fn mark_all(&mut self)
        ensures screen { self.new.screen ≡ self.old.screen }
        ensures first { self.new.first ≡ self.old.first }
        ensures marks { self.new.marks ≡ all_on }
        ensures size { IsSameSize self.old.screen self.new.screen }
    {
        self.marks = [true; MOST_ROWS as usize];
    }
}

/// Marks a row.
#[inline]
pub fn mark_row(marks: &mut [bool; MOST_ROWS as usize], row: usize)
    requires row_in { row < most_rows }
    ensures marks { marks.new ≡ row_marked row marks.old }
{
    marks[row] = true;
}

/// Marks the rows from one on and before another.
#[inline]
pub fn mark_rows(marks: &mut [bool; MOST_ROWS as usize], from: usize, to: usize)
    requires range { (from ≤ to) × (to ≤ most_rows) }
    ensures marks { marks.new ≡ rows_marked from to marks.old }
{
    marks[from..to].fill(true);
}

/// Marks them if they move by n: not at all for 0.
#[inline]
pub fn mark_moved(marks: &mut [bool; MOST_ROWS as usize], n: usize, from: usize, to: usize)
    requires range { (from ≤ to) × (to ≤ most_rows) }
    ensures marks { marks.new ≡ moved_marked n from to marks.old }
{
    if n != 0 {
        mark_rows(marks, from, to);
    }
}

/// Marks a row under a condition.
#[inline]
pub fn mark_where(marks: &mut [bool; MOST_ROWS as usize], row: usize, on: bool)
    requires row_in { row < most_rows }
    ensures marks { marks.new ≡ also_marked (λ r. (r == row) && on) marks.old }
{
    if on {
        mark_row(marks, row);
    }
}

/// Marks those of the rows from one on and before another that have an unguarded cell in the columns from one on and before another.
pub fn mark_unguarded(
    marks: &mut [bool; MOST_ROWS as usize],
    ring: &Ring,
    rows: (usize, usize),
    columns: (usize, usize),
)
    requires rows { (rows.0 ≤ rows.1) × (rows.1 ≤ ring.now.rows) }
    requires columns { (columns.0 ≤ columns.1) × (columns.1 ≤ ring.now.cols) }
    ensures marks { marks.new ≡ unguarded_marked ring.now.cols ring.now.cells rows.0 rows.1 columns.0 columns.1 marks.old }
{
    ring.facts();
    for r in rows.0..rows.1 {
        let on = has_unguarded(&ring.row(r)[columns.0..columns.1]);
        mark_where(marks, r, on);
    }
}

fn has_unguarded(cells: &[Cell]) -> bool
    ensures some { result ≡ is_some_unguarded cells.now }
{
    cells.iter().any(|cell| !cell.guard())
}
