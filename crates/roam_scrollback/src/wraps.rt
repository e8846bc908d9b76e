//! From which rows of the main screen autowrap went on in the next row.
ghost use Rattle.std.specs.Prelude.{◌≡◌, ◌+◌, ◌-◌, ◌≤◌, ◌<◌, ◌++◌, length, map, replicate, set, ◌==◌, if◌then◌else◌};
ghost use Rattle.roam_cells.specs.Limits.{most_rows};
ghost use Rattle.roam_grid.specs.Editing.{is_between_margins};
ghost use Rattle.roam_grid.specs.Frames.{leaving};
ghost use Rattle.roam_scrollback.specs.Wraps.{is_on, wrap_at, no_wraps, part_up, part_down, moved_up, moved_down, first_kept, first_ended, row_cleared, wraps_next, wraps_reverse_indexed, is_wrapped, wraps_put, wraps_by_motion, wraps_by_edit, wraps_by_page, wraps_by_line, wraps_by_erasure, wraps_on_main, wrap_of, wraps_of};

use roam_cells::limits::MOST_ROWS;
use roam_cells::{Cell, Extent};
use roam_controls::{Edit, Erasure, Motion};
use roam_grid::{Grid, Writing};
use roam_rewrap::Row;
use std::marker::Model;

/// How a row ends.
#[derive(Clone, Copy, Debug, PartialEq, Eq)]
pub enum Wrap {
    /// A line ends in it.
    Ends,
    /// Autowrap went on from its last column.
    Full,
    /// A wide character that the last column would have cut went on to the next row: that column is no text.
    Early,
}

impl Wrap {
    /// Returns true if autowrap went on from the row.
    pub fn is_on(self) -> bool
        ensures on { result ≡ is_on self }
    {
        match self {
            Wrap::Ends => false,
            Wrap::Full | Wrap::Early => true,
        }
    }
}

/// How each of 200 rows ends, from 0.
#[derive(Drop)]
pub struct Wraps {
    rows: [Wrap; MOST_ROWS as usize],
}

impl Model for Wraps {
    ghost use Rattle.std.specs.Prelude.{List};
    ghost use Rattle.roam_scrollback.specs.declared.wraps.Wrap.{Wrap};

    ghost Value = { List Wrap };

    ghost view = { λ a. a.rows };
}

// So many rows go out at the front of a part, and as many come in at its end.
fn part_up(part: &mut [Wrap], n: usize)
    ensures part { part.new ≡ part_up n part.old }
{
    let n = n.min(part.len());
    let kept = part.len() - n;
    part.copy_within(n..kept + n, 0);
    part[kept..].fill(Wrap::Ends);
}

// So many rows come in at the front of a part, and as many go out at its end.
fn part_down(part: &mut [Wrap], n: usize)
    ensures part { part.new ≡ part_down n part.old }
{
    let n = n.min(part.len());
    let kept = part.len() - n;
    part.copy_within(0..kept, n);
    part[..n].fill(Wrap::Ends);
}

impl Wraps {
    /// From no row.
    #[tactic(auto, unfolding(crate::specs::Wraps::no_wraps))]
    pub fn new() -> Self
        ensures none { result ≡ no_wraps }
    {
        Wraps {
            rows: [Wrap::Ends; MOST_ROWS as usize],
        }
    }

    // A row ends so.
    fn set(&mut self, row: usize, wrap: Wrap)
        requires row_in { row < most_rows }
        ensures set { self.new ≡ set self.old row wrap }
    {
        self.rows[row] = wrap;
    }

    /// Rows of text from the top of a screen of so many columns.
    pub fn of(rows: &[Row], cols: usize) -> Self
        requires few { length rows.now ≤ most_rows }
        ensures wraps { result ≡ wraps_of cols rows.now }
    {
        let mut wraps = Wraps::new();
        for (i, row) in rows.iter().enumerate() {
            wraps.set(i, wrap_of(row, cols));
        }
        wraps
    }

    /// How a row ends, from 0.
    pub fn at(&self, row: usize) -> Wrap
        requires row_in { row < most_rows }
        ensures wrap { result ≡ wrap_at self.now row }
    {
        self.rows[row]
    }

    #[tactic(auto, unfolding(crate::specs::Wraps::moved_up))]
    fn move_up(&mut self, from: usize, to: usize, n: usize)
        requires range { (from ≤ to) × (to < most_rows) }
        ensures moved { self.new ≡ moved_up from to n self.old }
    {
        part_up(&mut self.rows[from..to + 1], n);
    }

    #[tactic(auto, unfolding(crate::specs::Wraps::moved_down))]
    fn move_down(&mut self, from: usize, to: usize, n: usize)
        requires range { (from ≤ to) × (to < most_rows) }
        ensures moved { self.new ≡ moved_down from to n self.old }
    {
        part_down(&mut self.rows[from..to + 1], n);
    }

    #[tactic(auto, unfolding(crate::specs::Wraps::first_kept))]
    fn keep_first(&mut self, n: usize)
        requires few { n ≤ most_rows }
        ensures kept { self.new ≡ first_kept n self.old }
    {
        self.rows[n..].fill(Wrap::Ends);
    }

    #[tactic(auto, unfolding(crate::specs::Wraps::first_ended))]
    fn end_first(&mut self, n: usize)
        requires few { n ≤ most_rows }
        ensures ended { self.new ≡ first_ended n self.old }
    {
        self.rows[..n].fill(Wrap::Ends);
    }

    // The cursor goes to the next row, and its own ends so.
    #[tactic(auto, unfolding(crate::specs::Wraps::wraps_next))]
    fn next(&mut self, wrap: Wrap, grid: &Grid)
        ensures next { self.new ≡ wraps_next wrap grid.now.screen self.old }
    {
        grid.facts();
        let (row, _) = grid.cursor();
        let (top, bottom) = grid.margins();
        self.rows[row - 1] = wrap;
        if row == bottom + 1 {
            self.move_up(top, bottom, 1);
        }
    }

    fn end_row(&mut self, grid: &Grid)
        ensures ended { self.new ≡ set self.old grid.now.screen.row Wrap.Ends }
    {
        grid.facts();
        let (row, _) = grid.cursor();
        self.rows[row - 1] = Wrap::Ends;
    }

    // The cursor's row is erased whole: the one above no longer goes on in it.
    fn clear_row(&mut self, grid: &Grid)
        ensures cleared { self.new ≡ row_cleared grid.now.screen.row self.old }
    {
        grid.facts();
        let (row, _) = grid.cursor();
        self.rows[row - 1] = Wrap::Ends;
        self.rows[(row - 1).saturating_sub(1)] = Wrap::Ends;
    }

    /// A cell will be written.
    #[tactic(auto, unfolding(crate::specs::Wraps::wraps_put))]
    pub fn put(&mut self, cell: &Cell, writing: Writing, grid: &Grid)
        ensures put { self.new ≡ wraps_put cell.now writing grid.now.screen self.old }
    {
        let columns = if cell.is_wide() { 2 } else { 1 };
        let wrap = if grid.pending() {
            Wrap::Full
        } else {
            Wrap::Early
        };
        if is_wrapped(columns, writing, grid) {
            self.next(wrap, grid);
        }
    }

    /// A move will be done.
    pub fn move_by(&mut self, motion: Motion, grid: &Grid)
        ensures moved { self.new ≡ wraps_by_motion motion grid.now.screen self.old }
    {
        match motion {
            Motion::LineFeed | Motion::Index | Motion::NextLine => self.next(Wrap::Ends, grid),
            Motion::ReverseIndex => self.reverse(grid),
            _ => {}
        }
    }

    fn reverse(&mut self, grid: &Grid)
        ensures reversed { self.new ≡ wraps_reverse_indexed grid.now.screen self.old }
    {
        grid.facts();
        let (row, _) = grid.cursor();
        let (top, bottom) = grid.margins();
        if row == top + 1 {
            self.move_down(top, bottom, 1);
        }
    }

    // Lines come in or go out at the cursor's.
    fn move_lines(&mut self, down: bool, n: usize, grid: &Grid)
        ensures moved { self.new ≡ (if is_between_margins grid.now.screen
            then (if down then moved_down grid.now.screen.row grid.now.screen.bottom n self.old
            else moved_up grid.now.screen.row grid.now.screen.bottom n self.old) else self.old) }
    {
        grid.facts();
        let (row, _) = grid.cursor();
        let (top, bottom) = grid.margins();
        if row < top + 1 || bottom + 1 < row {
            return;
        }
        if down {
            self.move_down(row - 1, bottom, n);
        } else {
            self.move_up(row - 1, bottom, n);
        }
    }

    /// An edit will be done.
    pub fn edit_by(&mut self, edit: Edit, grid: &Grid)
        ensures edited { self.new ≡ wraps_by_edit edit grid.now.screen self.old }
    {
        grid.facts();
        let (top, bottom) = grid.margins();
        match edit {
            Edit::InsertLines(n) => self.move_lines(true, usize::from(n), grid),
            Edit::DeleteLines(n) => self.move_lines(false, usize::from(n), grid),
            Edit::ScrollUp(n) => self.move_up(top, bottom, usize::from(n)),
            Edit::ScrollDown(n) => self.move_down(top, bottom, usize::from(n)),
            Edit::Align => *self = Wraps::new(),
            Edit::InsertCells(_) | Edit::DeleteCells(_) => {}
        }
    }

    fn erase_page(&mut self, extent: Extent, grid: &Grid)
        ensures erased { self.new ≡ wraps_by_page extent grid.now.screen self.old }
    {
        grid.facts();
        let (row, col) = grid.cursor();
        match extent {
            Extent::ToEnd if col == 1 => self.keep_first((row - 1).saturating_sub(1)),
            Extent::ToEnd => self.keep_first(row - 1),
            Extent::ToStart => self.end_first(row - 1),
            Extent::All => *self = Wraps::new(),
        }
    }

    fn erase_line(&mut self, extent: Extent, grid: &Grid)
        ensures erased { self.new ≡ wraps_by_line extent grid.now.screen self.old }
    {
        let (_, col) = grid.cursor();
        match extent {
            Extent::ToStart => {}
            Extent::ToEnd if col != 1 => self.end_row(grid),
            Extent::ToEnd | Extent::All => self.clear_row(grid),
        }
    }

    /// An erasure will be done.
    pub fn erase_by(&mut self, erasure: Erasure, grid: &Grid)
        ensures erased { self.new ≡ wraps_by_erasure erasure grid.now.screen self.old }
    {
        match erasure {
            Erasure::InPage(extent) => self.erase_page(extent, grid),
            Erasure::InLine(extent) => self.erase_line(extent, grid),
            _ => {}
        }
    }

    // All rows go up by n.
    fn leave(&mut self, n: usize)
        ensures left { self.new ≡ part_up n self.old }
    {
        part_up(&mut self.rows, n);
    }

    /// The terminal will get another size, with the main screen shown or the other one.
    pub fn size(&mut self, rows: usize, cols: usize, alternate: bool, grid: &Grid)
        requires size { (0 < rows) × (rows ≤ most_rows) }
        ensures sized { self.new ≡ (if (cols == grid.now.screen.cols)
            then first_kept rows (wraps_on_main alternate (part_up (leaving rows grid.now.screen) self.old) self.old) else no_wraps) }
    {
        if cols != grid.cols() {
            *self = Wraps::new();
            return;
        }
        if !alternate {
            self.leave(grid.leaving(rows));
        }
        self.keep_first(rows);
    }
}

// How a row of text ends at a width.
fn wrap_of(row: &Row, cols: usize) -> Wrap
    ensures wrap { result ≡ wrap_of cols row.now }
{
    if !row.goes_on() {
        return Wrap::Ends;
    }
    if row.cells().len() < cols {
        Wrap::Early
    } else {
        Wrap::Full
    }
}

// Returns true if a cell of so many columns goes to the next row before it is written.
fn is_wrapped(columns: usize, writing: Writing, grid: &Grid) -> bool
    ensures wrapped { result ≡ is_wrapped columns writing grid.now.screen }
{
    grid.facts();
    let (_, col) = grid.cursor();
    grid.pending() || (columns == 2 && col == grid.cols() && writing.wraps)
}
