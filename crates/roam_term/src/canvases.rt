//! The live state of a terminal: its screens, its pen, its modes, its sets.
ghost use Rattle.std.specs.Prelude.{◌≡◌, ◌≤◌, ◌<◌, ◌+◌, ◌++◌, ◌↔◌, IfOk, IfErr, None, Some, IsTrue, length, fold, map, take, ◌==◌, if◌then◌else◌};
ghost use Rattle.roam_cells.specs.Limits.{IsSize};
ghost use Rattle.roam_cells.specs.Width.{width_of};
ghost use Rattle.roam_charset.specs.Charsets.{mapped_by};
ghost use Rattle.roam_charset.specs.Sets.{set_in, in_use};
ghost use Rattle.roam_grid.specs.Marks.{all_off, all_on};
ghost use Rattle.roam_grid.specs.Screen.{IsSameSize, IsScreen};
ghost use Rattle.roam_text.specs.Functions.{ArePlain};
ghost use Rattle.roam_text.specs.declared.functions.Function.{Function};
ghost use Rattle.roam_term.specs.Terminal.{glyph_in, printed_on, printed_all, mode_set, private_mode_set, kept_of, saved_on, restored_to, soft_reset, reset, repeated_on, set_by, performed_by, commanded_by, answered_by, started_live, writing_under, on_main, with_rows, left_by, left_by_character, left_by_repeat, kept_by};
ghost use Rattle.roam_term.specs.Marks.{marked_through, marks_printed, marks_private_mode, marks_private_modes, marks_repeated, marks_set_by, marks_performed};
ghost use Rattle.roam_term.specs.Limits.{most_output};

use crate::alternates::is_alternate_mode;
use crate::edits::edit_by;
use crate::erasures::erase_by;
use crate::leaving::{leave_by_edit, leave_by_motion, stays, take_top_rows};
use crate::motions::move_by;
use crate::outputs::Output;
use crate::pens::{Saved, plain_pen};
use crate::printing::{put, put_run, put_times};
use crate::reports::answer_to;
use crate::settings::{follow_private_mode, set_margins};
use crate::shifts::shift_by;
use roam_cells::{Cell, Fault, Ink};
use roam_charset::{Charset, Sets};
use roam_controls::{Command, Modes, Setting, restyled};
use roam_grid::{Grid, Writing};
use roam_history::History;
use std::alloc::Global;
use std::marker::Model;

/// The screens of a terminal with all that its functions depend on.
#[derive(Drop)]
pub struct Canvas {
    pub(crate) grid: Grid,
    pub(crate) other: Grid,
    pub(crate) alternate: bool,
    pub(crate) pen: Ink,
    pub(crate) modes: Modes,
    pub(crate) sets: Sets,
    pub(crate) saved: Option<Saved>,
    pub(crate) saved_alternate: Option<Saved>,
    pub(crate) printed: Option<char>,
}

impl Model for Canvas {
    ghost use Rattle.roam_term.specs.Marks.{CanvasView};

    ghost Value = { CanvasView };

    ghost view = { λ c. record {
      live = record {
        screen = c.grid.screen;
        other = c.other.screen.cells;
        alternate = c.alternate;
        pen = c.pen;
        modes = c.modes;
        sets = c.sets;
        saved = c.saved;
        saved_alternate = c.saved_alternate;
        printed = c.printed;
      };
      marks = c.grid.marks;
    } };

    ghost use Rattle.roam_grid.specs.Screen.{IsSameSize};

    ghost invariant = { λ c. IsSameSize c.grid.screen c.other.screen };
}

// Returns the modes that writing depends on.
#[inline]
fn writing_under(modes: Modes) -> Writing
    ensures writing { result ≡ writing_under modes }
{
    Writing {
        wraps: modes.autowrap,
        inserts: modes.insert,
    }
}

impl Canvas {
    /// Two blank screens, as a terminal starts; refuses want of memory.
    pub fn new(alloc: Global, rows: u16, cols: u16) -> Result<Self, Fault>
        requires size { IsSize rows cols }
        ensures started { IfOk result (λ c. c.live ≡ started_live rows cols) }
        ensures marks { IfOk result (λ c. c.marks ≡ all_on) }
        ensures err { IfErr result (λ e. e ≡ Fault.OutOfMemory) }
    {
        let grid = Grid::new(alloc, usize::from(rows), usize::from(cols))?;
        let other = Grid::new(alloc, usize::from(rows), usize::from(cols))?;
        Ok(Canvas {
            grid,
            other,
            alternate: false,
            pen: plain_pen(),
            modes: Modes::new(),
            sets: Sets::new(),
            saved: None,
            saved_alternate: None,
            printed: None,
        })
    }

    /// Facts about every screen.
    pub fn facts(&self)
        ensures screen { IsScreen self.now.live.screen }
    {
        self.grid.facts();
    }

    /// The screen that is shown.
    pub fn grid(&self) -> &Grid
        ensures screen { result.now.screen ≡ self.now.live.screen }
    {
        &self.grid
    }

    /// The screen that is not shown.
    pub fn other(&self) -> &Grid
        ensures cells { result.now.screen.cells ≡ self.now.live.other }
        ensures size { IsSameSize self.now.live.screen result.now.screen }
    {
        &self.other
    }

    /// The style and the guard of printed characters.
    pub fn pen(&self) -> Ink
        ensures pen { result ≡ self.now.live.pen }
    {
        self.pen
    }

    /// The sets and the shifts.
    pub fn sets(&self) -> Sets
        ensures sets { result ≡ self.now.live.sets }
    {
        self.sets
    }

    /// The state that DECSC saved on the alternate or on the main screen, if there is one.
    pub fn saved_on(&self, alternate: bool) -> Option<Saved>
        ensures saved { result ≡ (if alternate then self.now.live.saved_alternate else self.now.live.saved) }
    {
        if alternate {
            self.saved_alternate
        } else {
            self.saved
        }
    }

    /// The marks of the screen that is shown.
    pub fn marks(&self) -> &[bool]
        ensures marks { result.now ≡ take self.now.live.screen.rows self.now.marks }
        ensures len { length result.now ≡ self.now.live.screen.rows }
    {
        self.grid.marks()
    }

    /// Puts all marks off.
    pub fn clear_marks(&mut self)
        ensures cleared { self.new ≡ record self.old { marks = all_off } }
    {
        self.grid.clear_marks();
    }

    /// Returns true if the alternate screen is shown.
    pub fn is_alternate(&self) -> bool
        ensures alternate { result ≡ self.now.live.alternate }
    {
        self.alternate
    }

    /// The modes.
    pub fn modes(&self) -> Modes
        ensures modes { result ≡ self.now.live.modes }
    {
        self.modes
    }

    /// Returns the modes that writing depends on.
    pub fn writing(&self) -> Writing
        ensures writing { result ≡ writing_under self.now.live.modes }
    {
        writing_under(self.modes)
    }

    /// A character as the set has it that is in use for the next one.
    pub fn mapped(&self, c: char) -> char
        ensures mapped { result ≡ mapped_by (in_use self.now.live.sets) c }
    {
        let mut sets = self.sets;
        sets.map(c)
    }

    /// The character that REP repeats, if there is one.
    pub fn printed(&self) -> Option<char>
        ensures printed { result ≡ self.now.live.printed }
    {
        self.printed
    }

    /// The cell that a character is written as, as its set has it; `None` for one of width 0, which joins the cell before it.
    pub fn inked(&self, c: char) -> Option<Cell>
        ensures inked { result ≡ (if width_of c == 0 then None else Some (glyph_in c self.now.live.pen)) }
    {
        Cell::of_char(c, self.pen)
    }

    /// Returns true if printable ASCII prints itself.
    #[inline]
    pub fn prints_ascii(&self) -> bool
        ensures ascii { IsTrue result ↔ ((set_in self.now.live.sets.locked self.now.live.sets ≡ Charset.Ascii)
            × (self.now.live.sets.single ≡ None)) }
    {
        self.sets.is_ascii()
    }

    /// Prints a character: one of width 0 joins the cell before it. The row that leaves comes into the history.
    #[inline(always)]
    #[tactic(auto, unfolding(crate::specs::Terminal::printed_on))]
    pub fn print(&mut self, c: char, history: &mut History)
        requires cols { history.old.cols ≡ self.old.live.screen.cols }
        ensures printed { self.new.live ≡ printed_on c self.old.live }
        ensures marks { self.new.marks ≡ marks_printed c self.old.live self.old.marks }
        ensures history { history.new ≡ with_rows (on_main self.old.live.alternate
            (left_by_character (mapped_by (in_use self.old.live.sets) c) self.old.live)) history.old }
        ensures size { IsSameSize self.old.live.screen self.new.live.screen }
    {
        let c = self.sets.map(c);
        match Cell::of_char(c, self.pen) {
            Some(cell) => {
                let writing = writing_under(self.modes);
                put(&mut self.grid, cell, writing, self.alternate, history);
                self.printed = Some(c);
            }
            None => {
                stays(history);
                self.grid.join(c);
            }
        }
    }

    /// Prints a run of printable ASCII that shows itself. The rows that leave come into the history.
    #[inline]
    pub fn print_run(&mut self, bytes: &[u8], history: &mut History)
        requires some { 0 < length bytes.now }
        requires plain { ArePlain bytes.now }
        requires set { set_in self.old.live.sets.locked self.old.live.sets ≡ Charset.Ascii }
        requires single { self.old.live.sets.single ≡ None }
        requires cols { history.old.cols ≡ self.old.live.screen.cols }
        ensures printed { self.new.live ≡ printed_all self.old.live bytes.now }
        ensures marks { self.new.marks ≡ marked_through self.old.live (map Function.Print bytes.now) self.old.marks }
        ensures history { history.new ≡ kept_by self.old.live (map Function.Print bytes.now) history.old }
        ensures cols { history.new.cols ≡ history.old.cols }
        ensures size { IsSameSize self.old.live.screen self.new.live.screen }
    {
        history.facts();
        let pen = Cell::space(self.pen);
        put_run(
            &mut self.grid,
            pen,
            bytes,
            writing_under(self.modes),
            self.alternate,
            history,
        );
        self.printed = Some(bytes[bytes.len() - 1] as char);
    }

    /// Does what SGR with these parameters asks for, as `perform` does.
    #[inline]
    pub fn restyle(&mut self, params: &[u16])
        ensures performed { self.new.live ≡ commanded_by (Command.Sets Setting.Rendition) params.now self.old.live }
        ensures marks { self.new.marks ≡ marks_performed (Command.Sets Setting.Rendition) params.now self.old.live self.old.marks }
        ensures size { IsSameSize self.old.live.screen self.new.live.screen }
    {
        self.pen = restyled(self.pen, params);
        self.printed = None;
    }

    fn set_mode(&mut self, on: bool, number: u16)
        ensures set { self.new.live ≡ mode_set on self.old.live number }
        ensures marks { self.new.marks ≡ self.old.marks }
        ensures size { IsSameSize self.old.live.screen self.new.live.screen }
    {
        self.modes.set(on, number);
    }

    fn set_modes(&mut self, on: bool, numbers: &[u16])
        ensures set { self.new.live ≡ fold (mode_set on) self.old.live numbers.now }
        ensures marks { self.new.marks ≡ self.old.marks }
        ensures size { IsSameSize self.old.live.screen self.new.live.screen }
    {
        for number in numbers {
            self.set_mode(on, *number);
        }
    }

    fn set_private_mode(&mut self, on: bool, number: u16)
        ensures set { self.new.live ≡ private_mode_set on self.old.live number }
        ensures marks { self.new.marks ≡ marks_private_mode on self.old.live number self.old.marks }
        ensures size { IsSameSize self.old.live.screen self.new.live.screen }
    {
        if is_alternate_mode(number) {
            self.choose_screen(on, number);
            return;
        }
        self.modes.set_private(on, number);
        follow_private_mode(&mut self.grid, on, number);
    }

    fn set_private_modes(&mut self, on: bool, numbers: &[u16])
        ensures set { self.new.live ≡ fold (private_mode_set on) self.old.live numbers.now }
        ensures marks { self.new.marks ≡ marks_private_modes on self.old.live numbers.now self.old.marks }
        ensures size { IsSameSize self.old.live.screen self.new.live.screen }
    {
        for number in numbers {
            self.set_private_mode(on, *number);
        }
    }

    // Returns the state that DECRC restores on the screen that is shown.
    fn kept(&self) -> Saved
        ensures kept { result ≡ kept_of self.now.live }
    {
        let slot = if self.alternate {
            self.saved_alternate
        } else {
            self.saved
        };
        match slot {
            Some(kept) => kept,
            None => Saved::new(),
        }
    }

    // DECSC
    pub(crate) fn save(&mut self)
        ensures saved { self.new.live ≡ saved_on self.old.live }
        ensures marks { self.new.marks ≡ self.old.marks }
        ensures size { IsSameSize self.old.live.screen self.new.live.screen }
    {
        let (row, col) = self.grid.cursor();
        let kept = Saved {
            row: row - 1,
            col: col - 1,
            pending: self.grid.pending(),
            pen: self.pen,
            sets: self.sets,
            origin: self.modes.origin,
        };
        if self.alternate {
            self.saved_alternate = Some(kept);
        } else {
            self.saved = Some(kept);
        }
    }

    // DECRC
    pub(crate) fn restore(&mut self)
        ensures restored { self.new.live ≡ restored_to (kept_of self.old.live) self.old.live }
        ensures marks { self.new.marks ≡ self.old.marks }
        ensures size { IsSameSize self.old.live.screen self.new.live.screen }
    {
        let kept = self.kept();
        self.grid
            .restore(kept.row, kept.col, kept.pending && self.modes.autowrap);
        self.pen = kept.pen;
        self.sets = kept.sets;
        self.modes.origin = kept.origin;
    }

    // DECSTR
    fn soft_reset(&mut self)
        ensures reset { self.new.live ≡ soft_reset self.old.live }
        ensures marks { self.new.marks ≡ self.old.marks }
        ensures size { IsSameSize self.old.live.screen self.new.live.screen }
    {
        self.grid.facts();
        let bottom = self.grid.rows() - 1;
        self.grid.set_margins(0, bottom);
        self.pen = plain_pen();
        self.modes.soft_reset();
        self.sets = Sets::new();
        self.saved = None;
        self.saved_alternate = None;
    }

    // RIS
    fn reset(&mut self)
        ensures reset { self.new.live ≡ reset self.old.live }
        ensures marks { self.new.marks ≡ all_on }
        ensures size { IsSameSize self.old.live.screen self.new.live.screen }
    {
        self.grid.restart();
        self.other.facts();
        self.other.blank_all();
        self.alternate = false;
        self.pen = plain_pen();
        self.modes = Modes::new();
        self.sets = Sets::new();
        self.saved = None;
        self.saved_alternate = None;
        self.printed = None;
    }

    // REP
    fn repeat(&mut self, n: u16, history: &mut History)
        requires cols { history.old.cols ≡ self.old.live.screen.cols }
        ensures repeated { self.new.live ≡ repeated_on n self.old.live.printed self.old.live }
        ensures marks { self.new.marks ≡ marks_repeated n self.old.live.printed self.old.live self.old.marks }
        ensures history { history.new ≡ with_rows (on_main self.old.live.alternate (left_by_repeat n self.old.live.printed self.old.live))
            history.old }
        ensures size { IsSameSize self.old.live.screen self.new.live.screen }
    {
        stays(history);
        if let Some(c) = self.printed {
            if let Some(cell) = Cell::of_ink(&[c], self.pen) {
                let writing = writing_under(self.modes);
                put_times(&mut self.grid, cell, n, writing, self.alternate, history);
            }
        }
    }

    fn set(&mut self, setting: Setting, params: &[u16])
        ensures set { self.new.live ≡ set_by setting params.now self.old.live }
        ensures marks { self.new.marks ≡ marks_set_by setting params.now self.old.live self.old.marks }
        ensures size { IsSameSize self.old.live.screen self.new.live.screen }
    {
        match setting {
            Setting::Mode(on) => self.set_modes(on, params),
            Setting::PrivateMode(on) => self.set_private_modes(on, params),
            Setting::Rendition => {
                self.pen = restyled(self.pen, params);
            }
            Setting::Margins(top, bottom) => {
                set_margins(&mut self.grid, top, bottom, self.modes.origin)
            }
            Setting::Guard(on) => self.pen = Ink::new(self.pen.style(), on),
            Setting::Keypad(application) => self.modes.application_keypad = application,
            Setting::Save => self.save(),
            Setting::Restore => self.restore(),
            Setting::SoftReset => self.soft_reset(),
            Setting::Reset => self.reset(),
            Setting::SetStop => self.grid.set_stop(),
            Setting::ClearStop => self.grid.clear_stop(),
            Setting::ClearStops => self.grid.clear_stops(),
        }
    }

    // Carries out a command, without the character that REP remembers.
    fn act(&mut self, command: Command, params: &[u16], history: &mut History)
        requires cols { history.old.cols ≡ self.old.live.screen.cols }
        ensures performed { self.new.live ≡ performed_by command params.now self.old.live }
        ensures marks { self.new.marks ≡ marks_performed command params.now self.old.live self.old.marks }
        ensures history { history.new ≡ with_rows (on_main self.old.live.alternate (left_by command self.old.live)) history.old }
        ensures size { IsSameSize self.old.live.screen self.new.live.screen }
    {
        stays(history);
        match command {
            Command::Nothing => {}
            Command::Prints(c) => self.print(c, history),
            Command::Moves(motion) => {
                leave_by_motion(&self.grid, motion, self.alternate, history);
                move_by(&mut self.grid, motion, self.modes);
            }
            Command::Erases(erasure) => erase_by(&mut self.grid, erasure),
            Command::Edits(edit) => {
                leave_by_edit(&self.grid, edit, self.alternate, history);
                edit_by(&mut self.grid, edit);
            }
            Command::Shifts(shift) => shift_by(&mut self.sets, shift),
            Command::Sets(setting) => self.set(setting, params),
            Command::Reports(_) => {}
            Command::Repeats(n) => self.repeat(n, history),
        }
    }

    /// Carries out a command, whose parameters are lent. Rows that scroll off go into the history. It takes no memory.
    pub fn perform(&mut self, command: Command, params: &[u16], history: &mut History)
        requires cols { history.old.cols ≡ self.old.live.screen.cols }
        ensures performed { self.new.live ≡ commanded_by command params.now self.old.live }
        ensures marks { self.new.marks ≡ marks_performed command params.now self.old.live self.old.marks }
        ensures history { history.new ≡ with_rows (on_main self.old.live.alternate (left_by command self.old.live)) history.old }
        ensures size { IsSameSize self.old.live.screen self.new.live.screen }
    {
        self.act(command, params, history);
        if command.forgets() {
            self.printed = None;
        }
    }

    // Answers a command, on the state before it.
    pub(crate) fn answer(&self, command: Command, output: &mut Output)
        requires room { length output.old + 12 ≤ most_output }
        ensures answered { output.new ≡ output.old ++ answered_by command self.now.live }
        ensures short { length output.new ≤ length output.old + 12 }
    {
        if let Command::Reports(report) = command {
            answer_to(report, &self.grid, self.modes, output);
        }
    }
}
