//! The screens of a terminal, and what leaves the main one.
ghost use Rattle.std.specs.Prelude.{◌≡◌, ◌∷◌, ◌<◌, ◌+◌, None, IsSomeAnd, length, ◌≢◌, ◌==◌, ◌≤◌, ℕ, [], IfOk, IfErr, IsErrOf, OnOk, OnErr, ◌⊎◌, ◌↔◌, false, Some, replicate, if◌then◌else◌};
ghost use Rattle.roam_cells.specs.Limits.{IsSize, most_rows};
ghost use Rattle.roam_cells.specs.Width.{width_of};
ghost use Rattle.roam_charset.specs.Charsets.{mapped_by};
ghost use Rattle.roam_charset.specs.Sets.{in_use, set_in};
ghost use Rattle.roam_charset.specs.declared.charsets.Charset.{Charset};
ghost use Rattle.roam_controls.specs.declared.settings.Setting.{Setting};
ghost use Rattle.roam_text.specs.Functions.{ArePlain};
ghost use Rattle.roam_controls.specs.declared.commands.Command.{Command};
ghost use Rattle.roam_grid.specs.Frames.{leaving};
ghost use Rattle.roam_grid.specs.Writing.{put_all};
ghost use Rattle.roam_scrollback.specs.Lines.{rows_with, Writes};
ghost use Rattle.roam_scrollback.specs.Sources.{rows_shown, rows_by_puts, rows_again, rows_commanded, wraps_again, wraps_commanded, wraps_puts};
ghost use Rattle.roam_cells.specs.Place.{row_of};
ghost use Rattle.roam_scrollback.specs.Wraps.{wrap_at, wraps_put, wraps_by, wraps_by_character, wraps_by_motion, wraps_by_edit, wraps_by_erasure, wraps_on_main, wraps_sized, no_wraps};
ghost use Rattle.roam_term.specs.Leaving.{top_rows, left_by_put, left_by_motion, left_by_edit};
ghost use Rattle.roam_term.specs.Terminal.{commanded_by, glyph_in, left_by, left_by_character, on_main, printed_all, repeated_on, sized_to, started_live, writing_under};

use crate::lines::LeftLines;
use crate::wraps::Wraps;
use roam_cells::{Cell, Fault};
use roam_controls::{Command, Edit, Erasure, Motion, Setting};
use roam_grid::{Grid, Writing};
use roam_history::History;
use roam_term::Canvas;
use std::alloc::Global;
use std::marker::Model;

// The first rows of the main screen leave.
fn push_top(grid: &Grid, wraps: &Wraps, n: usize, lines: &mut LeftLines)
    requires few { n ≤ grid.now.screen.rows }
    ensures written { Writes lines.old lines.new (rows_with (top_rows n grid.now.screen) wraps.now) }
{
    grid.facts();
    lines.facts();
    for row in 0..n {
        push_row(grid, wraps, row, lines);
    }
}

// A row of the main screen leaves.
fn push_row(grid: &Grid, wraps: &Wraps, row: usize, lines: &mut LeftLines)
    requires row_in { row < grid.now.screen.rows }
    ensures written { Writes lines.old lines.new (record {
      wrap = wrap_at wraps.now row;
      cells = row_of grid.now.screen.cols grid.now.screen.cells row;
    } ∷ []) }
{
    grid.facts();
    let wrap = wraps.at(row);
    if wrap.is_on() {
        lines.push(wrap, grid.row(row));
    } else {
        lines.push(wrap, grid.front_of_row(row));
    }
}

// The first row leaves, or none.
fn push_first(grid: &Grid, wraps: &Wraps, leaves: bool, lines: &mut LeftLines)
    ensures written { Writes lines.old lines.new (rows_with (if leaves then top_rows 1 grid.now.screen else []) wraps.now) }
{
    grid.facts();
    push_top(grid, wraps, usize::from(leaves), lines);
}

// A cell will be written on the main screen.
fn put(grid: &Grid, cell: &Cell, writing: Writing, wraps: &mut Wraps, lines: &mut LeftLines)
    ensures wraps { wraps.new ≡ wraps_put cell.now writing grid.now.screen wraps.old }
    ensures written { Writes lines.old lines.new (rows_with (left_by_put cell.now writing grid.now.screen) wraps.old) }
{
    let (top, _) = grid.margins();
    let columns = if cell.is_wide() { 2 } else { 1 };
    push_first(
        grid,
        wraps,
        top == 0 && grid.leaves(columns, writing),
        lines,
    );
    wraps.put(cell, writing, grid);
}

// A move will be done on the main screen.
fn move_by(grid: &Grid, motion: Motion, wraps: &mut Wraps, lines: &mut LeftLines)
    ensures wraps { wraps.new ≡ wraps_by_motion motion grid.now.screen wraps.old }
    ensures written { Writes lines.old lines.new (rows_with (left_by_motion motion grid.now.screen) wraps.old) }
{
    grid.facts();
    let (row, _) = grid.cursor();
    let (top, bottom) = grid.margins();
    let indexes = match motion {
        Motion::LineFeed | Motion::Index | Motion::NextLine => true,
        _ => false,
    };
    push_first(grid, wraps, indexes && top == 0 && row == bottom + 1, lines);
    wraps.move_by(motion, grid);
}

// An edit will be done on the main screen.
fn edit_by(grid: &Grid, edit: Edit, wraps: &mut Wraps, lines: &mut LeftLines)
    ensures wraps { wraps.new ≡ wraps_by_edit edit grid.now.screen wraps.old }
    ensures written { Writes lines.old lines.new (rows_with (left_by_edit edit grid.now.screen) wraps.old) }
{
    grid.facts();
    let (top, bottom) = grid.margins();
    let count = match edit {
        Edit::ScrollUp(n) if top == 0 => usize::from(n).min(bottom + 1),
        _ => 0,
    };
    push_top(grid, wraps, count, lines);
    wraps.edit_by(edit, grid);
}

/// The screens of a terminal, and from which rows of the main one autowrap went on.
#[derive(Drop)]
pub struct Surface {
    canvas: Canvas,
    wraps: Wraps,
    // The history for the canvas: it keeps no row.
    none: History,
}

impl Model for Surface {
    ghost use Rattle.roam_scrollback.specs.Sources.{SurfaceView};

    ghost Value = { SurfaceView };

    ghost view = { λ a. record { live = a.canvas.live; wraps = a.wraps } };

    ghost use Rattle.std.specs.Prelude.{◌≡◌};

    ghost invariant = { λ a. a.none.cols ≡ a.canvas.live.screen.cols };
}

impl Surface {
    /// Two blank screens, as a terminal starts; refuses want of memory.
    pub fn new(alloc: Global, rows: u16, cols: u16) -> Result<Self, Fault>
        requires size { IsSize rows cols }
        ensures live { IfOk result (λ surface. surface.live ≡ started_live rows cols) }
        ensures wraps { IfOk result (λ surface. surface.wraps ≡ no_wraps) }
        ensures fault { IfErr result (λ fault. fault ≡ Fault.OutOfMemory) }
    {
        let canvas = Canvas::new(alloc, rows, cols)?;
        let none = History::new(alloc, 0, usize::from(cols))?;
        Ok(Surface {
            canvas,
            wraps: Wraps::new(),
            none,
        })
    }

    /// The screens.
    pub fn canvas(&self) -> &Canvas
        ensures live { result.now.live ≡ self.now.live }
    {
        &self.canvas
    }

    /// How the rows of the main screen end.
    pub fn wraps(&self) -> &Wraps
        ensures wraps { result.now ≡ self.now.wraps }
    {
        &self.wraps
    }

    /// The rows of the main screen end so.
    pub fn wrap_as(&mut self, wraps: Wraps)
        ensures wraps { self.new ≡ record self.old { wraps = wraps } }
    {
        self.wraps = wraps;
    }

    fn leave_by_character(&mut self, c: char, lines: &mut LeftLines)
        ensures live { self.new.live ≡ self.old.live }
        ensures wraps { self.new.wraps ≡ wraps_by (Command.Prints c) self.old.live self.old.wraps }
        ensures written { Writes lines.old lines.new
            (rows_with (on_main self.old.live.alternate (left_by (Command.Prints c) self.old.live)) self.old.wraps) }
    {
        lines.facts();
        if self.canvas.is_alternate() {
            return;
        }
        let c = self.canvas.mapped(c);
        if let Some(cell) = self.canvas.inked(c) {
            put(
                self.canvas.grid(),
                &cell,
                self.canvas.writing(),
                &mut self.wraps,
                lines,
            );
        }
    }

    fn leave_by_motion(&mut self, motion: Motion, lines: &mut LeftLines)
        ensures live { self.new.live ≡ self.old.live }
        ensures wraps { self.new.wraps ≡ wraps_by (Command.Moves motion) self.old.live self.old.wraps }
        ensures written { Writes lines.old lines.new
            (rows_with (on_main self.old.live.alternate (left_by (Command.Moves motion) self.old.live)) self.old.wraps) }
    {
        lines.facts();
        if !self.canvas.is_alternate() {
            move_by(self.canvas.grid(), motion, &mut self.wraps, lines);
        }
    }

    fn leave_by_edit(&mut self, edit: Edit, lines: &mut LeftLines)
        ensures live { self.new.live ≡ self.old.live }
        ensures wraps { self.new.wraps ≡ wraps_by (Command.Edits edit) self.old.live self.old.wraps }
        ensures written { Writes lines.old lines.new
            (rows_with (on_main self.old.live.alternate (left_by (Command.Edits edit) self.old.live)) self.old.wraps) }
    {
        lines.facts();
        if !self.canvas.is_alternate() {
            edit_by(self.canvas.grid(), edit, &mut self.wraps, lines);
        }
    }

    fn follow_erasure(&mut self, erasure: Erasure)
        ensures live { self.new.live ≡ self.old.live }
        ensures wraps { self.new.wraps ≡ wraps_by (Command.Erases erasure) self.old.live self.old.wraps }
    {
        if !self.canvas.is_alternate() {
            self.wraps.erase_by(erasure, self.canvas.grid());
        }
    }

    fn follow_setting(&mut self, setting: Setting)
        ensures live { self.new.live ≡ self.old.live }
        ensures wraps { self.new.wraps ≡ wraps_by (Command.Sets setting) self.old.live self.old.wraps }
    {
        if let Setting::Reset = setting {
            self.wraps = Wraps::new();
        }
    }

    // Writes the rows that leave by a command, except for REP.
    fn leave(&mut self, command: Command, lines: &mut LeftLines)
        requires once { (n : ℕ) → command ≢ Command.Repeats n }
        ensures live { self.new.live ≡ self.old.live }
        ensures wraps { self.new.wraps ≡ wraps_commanded command self.old.live self.old.wraps }
        ensures written { Writes lines.old lines.new (rows_commanded command self.old.live self.old.wraps) }
    {
        lines.facts();
        match command {
            Command::Prints(c) => self.leave_by_character(c, lines),
            Command::Moves(motion) => self.leave_by_motion(motion, lines),
            Command::Edits(edit) => self.leave_by_edit(edit, lines),
            Command::Erases(erasure) => self.follow_erasure(erasure),
            Command::Sets(setting) => self.follow_setting(setting),
            Command::Nothing | Command::Shifts(_) | Command::Reports(_) | Command::Repeats(_) => {}
        }
    }

    // REP of a cell on the main screen.
    fn repeat_cell(&mut self, n: u16, cell: &Cell, lines: &mut LeftLines)
        requires main { self.old.live.alternate ≡ false }
        requires printed { IsSomeAnd self.old.live.printed
            (λ c. ((width_of c == 0) ≡ false) × (cell.now ≡ glyph_in c self.old.live.pen)) }
        ensures live { self.new.live ≡ record self.old.live {
          screen = put_all (replicate n cell.now) (writing_under self.old.live.modes) self.old.live.screen;
        } }
        ensures wraps { self.new.wraps
            ≡ wraps_puts (replicate n cell.now) (writing_under self.old.live.modes) self.old.live.screen self.old.wraps }
        ensures written { Writes lines.old lines.new
            (rows_by_puts (replicate n cell.now) (writing_under self.old.live.modes) self.old.live.screen self.old.wraps) }
    {
        lines.facts();
        for _ in 0..n {
            put(
                self.canvas.grid(),
                cell,
                self.canvas.writing(),
                &mut self.wraps,
                lines,
            );
            self.canvas
                .perform(Command::Repeats(1), &[], &mut self.none);
        }
    }

    // REP.
    fn repeat(&mut self, n: u16, lines: &mut LeftLines)
        ensures live { self.new.live ≡ commanded_by (Command.Repeats n) [] self.old.live }
        ensures wraps { self.new.wraps ≡ wraps_commanded (Command.Repeats n) self.old.live self.old.wraps }
        ensures written { Writes lines.old lines.new (rows_commanded (Command.Repeats n) self.old.live self.old.wraps) }
    {
        lines.facts();
        if !self.canvas.is_alternate() {
            if let Some(c) = self.canvas.printed() {
                if let Some(cell) = self.canvas.inked(c) {
                    self.repeat_cell(n, &cell, lines);
                    return;
                }
            }
        }
        self.canvas
            .perform(Command::Repeats(n), &[], &mut self.none);
    }

    /// Does a command with its lent parameters, and writes the rows that leave.
    pub fn perform(&mut self, command: Command, params: &[u16], lines: &mut LeftLines)
        ensures live { self.new.live ≡ commanded_by command params.now self.old.live }
        ensures wraps { self.new.wraps ≡ wraps_commanded command self.old.live self.old.wraps }
        ensures written { Writes lines.old lines.new (rows_commanded command self.old.live self.old.wraps) }
    {
        if let Command::Repeats(n) = command {
            self.repeat(n, lines);
            return;
        }
        self.leave(command, lines);
        self.canvas.perform(command, params, &mut self.none);
    }

    /// How many characters of printable ASCII go into the cursor's row by one way, as they are.
    pub fn plain_room(&self) -> usize
        ensures ascii { 0 < result → set_in self.now.live.sets.locked self.now.live.sets ≡ Charset.Ascii }
        ensures single { 0 < result → self.now.live.sets.single ≡ None }
        ensures settled { 0 < result → self.now.live.screen.pending ≡ false }
        ensures room { self.now.live.screen.col + result ≤ self.now.live.screen.cols }
    {
        let grid = self.canvas.grid();
        grid.facts();
        if grid.pending() || !self.canvas.prints_ascii() {
            return 0;
        }
        grid.room()
    }

    /// Prints a run of printable ASCII that fits the rest of the cursor's row: no row leaves.
    pub fn print_run(&mut self, bytes: &[u8])
        requires some { 0 < length bytes.now }
        requires plain { ArePlain bytes.now }
        requires ascii { set_in self.old.live.sets.locked self.old.live.sets ≡ Charset.Ascii }
        requires single { self.old.live.sets.single ≡ None }
        ensures printed { self.new.live ≡ printed_all self.old.live bytes.now }
        ensures wraps { self.new.wraps ≡ self.old.wraps }
    {
        self.canvas.print_run(bytes, &mut self.none);
    }

    /// Does what SGR with these parameters asks for, as `perform` does.
    pub fn restyle(&mut self, params: &[u16])
        ensures performed { self.new.live ≡ commanded_by (Command.Sets Setting.Rendition) params.now self.old.live }
        ensures wraps { self.new.wraps ≡ self.old.wraps }
    {
        self.canvas.restyle(params);
    }

    /// Writes all rows of the screen that is shown.
    pub fn push_screen(&self, lines: &mut LeftLines)
        ensures written { Writes lines.old lines.new (rows_shown self.now.live self.now.wraps) }
    {
        let grid = self.canvas.grid();
        if self.canvas.is_alternate() {
            push_top(grid, &Wraps::new(), grid.rows(), lines);
        } else {
            push_top(grid, &self.wraps, grid.rows(), lines);
        }
    }

    /// Brings both screens to another size; the rows that leave the main one are written. Refuses a size outside 2 to 200 rows and 4 to
    /// 500 columns, and want of memory, and changes nothing then.
    pub fn size(
        &mut self,
        alloc: Global,
        rows: u16,
        cols: u16,
        lines: &mut LeftLines,
    ) -> Result<(), Fault>
        ensures live { OnOk result (self.new.live ≡ sized_to rows cols self.old.live) }
        ensures wraps { OnOk result (self.new.wraps ≡ wraps_sized rows cols self.old.live self.old.wraps) }
        ensures written { OnOk result (Writes lines.old lines.new (rows_with (on_main self.old.live.alternate
            (top_rows (leaving rows self.old.live.screen) self.old.live.screen)) self.old.wraps)) }
        ensures err { OnErr result ((self.new ≡ self.old) × (lines.new ≡ lines.old)) }
        ensures bad_size { IsErrOf result Fault.BadSize ↔ (¬ IsSize rows cols) }
        ensures faults { IfErr result (λ fault. (fault ≡ Fault.BadSize) ⊎ (fault ≡ Fault.OutOfMemory)) }
    {
        lines.facts();
        let rows = usize::from(rows);
        let cols = usize::from(cols);
        let shown = Grid::fit(alloc, rows, cols)?;
        let other = Grid::fit(alloc, rows, cols)?;
        let none = History::new(alloc, 0, cols)?;
        self.leave_by_size(rows, cols, lines);
        self.canvas.adopt(shown, other);
        self.none = none;
        Ok(())
    }

    // Writes the rows that leave by another size.
    fn leave_by_size(&mut self, rows: usize, cols: usize, lines: &mut LeftLines)
        requires size { (0 < rows) × (rows ≤ most_rows) }
        ensures live { self.new.live ≡ self.old.live }
        ensures wraps { self.new.wraps ≡ wraps_sized rows cols self.old.live self.old.wraps }
        ensures written { Writes lines.old lines.new (rows_with (on_main self.old.live.alternate
            (top_rows (leaving rows self.old.live.screen) self.old.live.screen)) self.old.wraps) }
    {
        lines.facts();
        let grid = self.canvas.grid();
        grid.facts();
        let alternate = self.canvas.is_alternate();
        if !alternate {
            push_top(grid, &self.wraps, grid.leaving(rows), lines);
        }
        self.wraps.size(rows, cols, alternate, grid);
    }
}
