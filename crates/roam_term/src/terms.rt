//! A pane's terminal.
ghost use Rattle.std.specs.Prelude.{◌≡◌, ◌⊎◌, ◌+◌, ◌*◌, ◌≤◌, ◌<◌, ◌↔◌, ◌++◌, ℕ, List, [], ◌∷◌, length, min, take, drop, IfOk, IfErr, OnOk, OnErr, IsOk, IsTrue, IsErrOf, IsOkUnless};
ghost use Rattle.roam_text.specs.Log.{Item};
ghost use Rattle.roam_text.specs.Resting.{AtRest};
ghost use Rattle.roam_text.specs.Stands.{IsAtRest};
ghost use Rattle.roam_text.specs.Dispatched.{function_of, functions_by};
ghost use Rattle.roam_controls.specs.Commands.{command_of, parameters_of};
ghost use Rattle.roam_cells.specs.Place.{row_of};
ghost use Rattle.roam_grid.specs.Marks.{all_off, all_on};
ghost use Rattle.roam_term.specs.Marks.{marked_by, marked_through};
ghost use Rattle.roam_term.specs.Picture.{picture, picture_of};
ghost use Rattle.roam_term.specs.Terminal.{changed_by, history_after, answer, live_after, kept_by, answers_after};
ghost use Rattle.roam_term.specs.Stands.{Stands, Fed, HasSize, IsTermSize, IsAccepted};
ghost use Rattle.roam_term.specs.Limits.{most_output, longest_piece};

use crate::canvases::Canvas;
use crate::leaving::stays;
use crate::limits::{MOST_ANSWER, MOST_LINES, MOST_OUTPUT, MOST_PIECE};
use crate::outputs::Output;
use crate::pictures::{cursor_at, draw, push_row};
use roam_cells::limits::is_size;
use roam_cells::{Cell, Fault};
use roam_controls::{Command, command_of};
use roam_history::History;
use roam_screens::Shot;
use roam_text::{Dispatch, Dispatched, REPLACEMENT, Reader};
use std::alloc::{AllocError, Global};
use std::marker::Model;

// Returns the command of a dispatched function, with the parts that the reader lends.
#[inline]
fn requested(reader: &Reader, dispatch: Dispatch) -> Command
    ensures command { result ≡ command_of (function_of dispatch reader.now.parameters reader.now.intermediates) }
{
    command_of(dispatch, reader.parameters(), reader.intermediates())
}

// The parameters of a dispatched function, which the reader lends.
#[inline]
fn parameters_of(reader: &Reader, dispatch: Dispatch) -> &[u16]
    ensures parameters { result.now ≡ parameters_of (function_of dispatch reader.now.parameters reader.now.intermediates) }
{
    match dispatch {
        Dispatch::Csi { .. } => reader.parameters(),
        _ => &[],
    }
}

/// The terminal of a pane: the bytes that it is fed make a screen, and its answers wait in a queue of 65,536 bytes.
#[derive(Drop)]
pub struct Term {
    pub(crate) reader: Reader,
    pub(crate) canvas: Canvas,
    pub(crate) history: History,
    pub(crate) output: Output,
}

impl Model for Term {
    ghost use Rattle.roam_term.specs.Stands.{TermView};

    ghost Value = { TermView };

    ghost view = { λ t. record {
      reader = t.reader;
      live = t.canvas.live;
      marks = t.canvas.marks;
      history = t.history;
      waiting = t.output;
    } };

    ghost use Rattle.std.specs.Prelude.{◌≡◌};

    ghost invariant = { λ t. t.history.cols ≡ t.canvas.live.screen.cols };
}

impl Term {
    /// A terminal that has read nothing, of 2 to 200 rows and 4 to 500 columns, with up to 500 lines of history.
    /// Refuses another size or number of lines, and want of memory.
    pub fn new(alloc: Global, rows: u16, cols: u16, lines: u16) -> Result<Self, Fault>
        ensures stands { IfOk result (λ t. Stands t rows cols lines []) }
        ensures waiting { IfOk result (λ t. t.waiting ≡ []) }
        ensures marks { IfOk result (λ t. t.marks ≡ all_on) }
        ensures screen { IfOk result (λ t. HasSize t rows cols) }
        ensures size { OnOk result (IsTermSize rows cols lines) }
        ensures bad_size { IsErrOf result Fault.BadSize ↔ (¬ IsTermSize rows cols lines) }
        ensures faults { IfErr result (λ e. (e ≡ Fault.BadSize) ⊎ (e ≡ Fault.OutOfMemory)) }
    {
        if !is_size(rows, cols) || MOST_LINES < lines {
            return Err(Fault::BadSize);
        }
        let canvas = Canvas::new(alloc, rows, cols)?;
        let history = History::new(alloc, usize::from(lines), usize::from(cols))?;
        let output = Output::new(alloc)?;
        Ok(Term {
            reader: Reader::new(),
            canvas,
            history,
            output,
        })
    }

    /// The screens and all that functions depend on.
    pub fn canvas(&self) -> &Canvas
        ensures live { result.now.live ≡ self.now.live }
    {
        &self.canvas
    }

    /// Returns true if the terminal is between characters and sequences.
    pub fn is_at_rest(&self) -> bool
        ensures rest { IsAtRest self.now.reader → IsTrue result }
        ensures rests { IsTrue result → (rows cols lines : ℕ) (log : List Item) → Stands self.now rows cols lines log → AtRest log }
    {
        self.reader.is_at_rest()
    }

    // Answers what one function asks for and does it; its parameters and intermediate bytes the reader lends.
    #[inline]
    fn perform(&mut self, dispatch: Dispatch)
        requires room { length self.old.waiting + MOST_ANSWER ≤ MOST_OUTPUT }
        ensures live { self.new.live
            ≡ changed_by (function_of dispatch self.old.reader.parameters self.old.reader.intermediates) self.old.live }
        ensures marks { self.new.marks
            ≡ marked_by (function_of dispatch self.old.reader.parameters self.old.reader.intermediates) self.old.live self.old.marks }
        ensures history { self.new.history
            ≡ history_after (function_of dispatch self.old.reader.parameters self.old.reader.intermediates) self.old.live self.old.history }
        ensures waiting { self.new.waiting ≡ self.old.waiting
            ++ answer (function_of dispatch self.old.reader.parameters self.old.reader.intermediates) self.old.live }
        ensures short { length self.new.waiting ≤ length self.old.waiting + MOST_ANSWER }
        ensures reader { self.new.reader ≡ self.old.reader }
        ensures screen { HasSize self.new self.old.live.screen.rows self.old.live.screen.cols }
    {
        let command = requested(&self.reader, dispatch);
        self.canvas.answer(command, &mut self.output);
        let params = parameters_of(&self.reader, dispatch);
        self.canvas.perform(command, params, &mut self.history);
    }

    #[inline]
    fn take_in(&mut self, step: Dispatched)
        requires room { length self.old.waiting + MOST_ANSWER ≤ MOST_OUTPUT }
        ensures live { self.new.live
            ≡ live_after self.old.live (functions_by step self.old.reader.parameters self.old.reader.intermediates) }
        ensures marks { self.new.marks
            ≡ marked_through self.old.live (functions_by step self.old.reader.parameters self.old.reader.intermediates) self.old.marks }
        ensures history { self.new.history
            ≡ kept_by self.old.live (functions_by step self.old.reader.parameters self.old.reader.intermediates) self.old.history }
        ensures waiting { self.new.waiting ≡ self.old.waiting
            ++ answers_after self.old.live (functions_by step self.old.reader.parameters self.old.reader.intermediates) }
        ensures short { length self.new.waiting ≤ length self.old.waiting + MOST_ANSWER }
        ensures reader { self.new.reader ≡ self.old.reader }
        ensures screen { HasSize self.new self.old.live.screen.rows self.old.live.screen.cols }
    {
        match step {
            Dispatched::Nothing => {}
            Dispatched::One(dispatch) => self.perform(dispatch),
            Dispatched::AfterReplacement(dispatch) => {
                self.canvas.print(REPLACEMENT, &mut self.history);
                self.perform(dispatch);
            }
        }
    }

    #[inline]
    fn feed_byte(&mut self, byte: u8)
        requires room { length self.old.waiting + MOST_ANSWER ≤ MOST_OUTPUT }
        ensures fed { Fed self.old self.new (byte ∷ []) }
        ensures short { length self.new.waiting ≤ length self.old.waiting + MOST_ANSWER }
        ensures screen { HasSize self.new self.old.live.screen.rows self.old.live.screen.cols }
    {
        let step = self.reader.dispatch(byte);
        self.take_in(step);
    }

    // Prints the printable ASCII at the front of a piece at once, if it shows itself, and returns the number of its bytes.
    #[inline]
    fn feed_plain(&mut self, piece: &[u8]) -> usize
        requires some { 0 < length piece.now }
        ensures within { result ≤ length piece.now }
        ensures fed { Fed self.old self.new (take result piece.now) }
        ensures waiting { self.new.waiting ≡ self.old.waiting }
        ensures screen { HasSize self.new self.old.live.screen.rows self.old.live.screen.cols }
    {
        if piece[0] < 0x20 || !self.canvas.prints_ascii() {
            return 0;
        }
        let count = self.reader.plain_run(piece);
        if count == 0 {
            return 0;
        }
        self.canvas.print_run(&piece[..count], &mut self.history);
        count
    }

    // Prints the graphic character from U+00A0 up at the front of a piece at once, and returns the number of its bytes.
    #[inline]
    fn feed_character(&mut self, piece: &[u8]) -> usize
        ensures within { result ≤ length piece.now }
        ensures fed { Fed self.old self.new (take result piece.now) }
        ensures waiting { self.new.waiting ≡ self.old.waiting }
        ensures screen { HasSize self.new self.old.live.screen.rows self.old.live.screen.cols }
    {
        match self.reader.whole_character(piece) {
            Some((c, size)) => {
                self.canvas.print(c, &mut self.history);
                size
            }
            None => 0,
        }
    }

    // Prints the graphic characters from U+00A0 up at the front of a piece, and returns the number of their bytes.
    #[inline]
    fn feed_characters(&mut self, piece: &[u8]) -> usize
        ensures within { result ≤ length piece.now }
        ensures fed { Fed self.old self.new (take result piece.now) }
        ensures waiting { self.new.waiting ≡ self.old.waiting }
        ensures screen { HasSize self.new self.old.live.screen.rows self.old.live.screen.cols }
    {
        let mut at = 0;
        while at < piece.len() && 0x80 <= piece[at] {
            let size = self.feed_character(&piece[at..]);
            if size == 0 {
                return at;
            }
            at += size;
        }
        at
    }

    // Ends SGR, the control sequence that comes most, by a short cut, and any other sequence as `feed_byte` does.
    #[inline]
    fn feed_rendition(&mut self)
        requires room { length self.old.waiting + MOST_ANSWER ≤ MOST_OUTPUT }
        ensures fed { Fed self.old self.new (0x6D ∷ []) }
        ensures short { length self.new.waiting ≤ length self.old.waiting + MOST_ANSWER }
        ensures screen { HasSize self.new self.old.live.screen.rows self.old.live.screen.cols }
    {
        stays(&self.history);
        if self.reader.end_rendition() {
            self.canvas.restyle(self.reader.parameters());
        } else {
            self.feed_byte(b'm');
        }
    }

    // Reads a byte that may end a sequence.
    #[inline]
    fn feed_last(&mut self, byte: u8)
        requires room { length self.old.waiting + MOST_ANSWER ≤ MOST_OUTPUT }
        ensures fed { Fed self.old self.new (byte ∷ []) }
        ensures short { length self.new.waiting ≤ length self.old.waiting + MOST_ANSWER }
        ensures screen { HasSize self.new self.old.live.screen.rows self.old.live.screen.cols }
    {
        if byte == b'm' {
            self.feed_rendition();
        } else {
            self.feed_byte(byte);
        }
    }

    // Reads the parameters of a control sequence at the front of a piece at once, and then one byte more; returns the number of these
    // bytes.
    #[inline]
    fn feed_sequence(&mut self, piece: &[u8]) -> usize
        requires some { 0 < length piece.now }
        requires room { length self.old.waiting + MOST_ANSWER ≤ MOST_OUTPUT }
        ensures some { 0 < result }
        ensures within { result ≤ length piece.now }
        ensures fed { Fed self.old self.new (take result piece.now) }
        ensures screen { HasSize self.new self.old.live.screen.rows self.old.live.screen.cols }
        ensures short { length self.new.waiting ≤ length self.old.waiting + MOST_ANSWER * result }
    {
        let count = self.reader.parameter_run(piece);
        if count == piece.len() {
            return count;
        }
        self.feed_last(piece[count]);
        count + 1
    }

    // Reads as much of the front of a piece that doesn't begin with ASCII as goes by one way, and returns the number of its bytes.
    #[inline]
    fn feed_wide(&mut self, piece: &[u8]) -> usize
        requires some { 0 < length piece.now }
        requires room { length self.old.waiting + MOST_ANSWER ≤ MOST_OUTPUT }
        ensures some { 0 < result }
        ensures within { result ≤ length piece.now }
        ensures fed { Fed self.old self.new (take result piece.now) }
        ensures short { length self.new.waiting ≤ length self.old.waiting + MOST_ANSWER * result }
        ensures screen { HasSize self.new self.old.live.screen.rows self.old.live.screen.cols }
    {
        let whole = self.feed_characters(piece);
        if 0 < whole {
            return whole;
        }
        self.feed_byte(piece[0]);
        1
    }

    // The same of one that begins with ASCII.
    #[inline]
    fn feed_ascii(&mut self, piece: &[u8]) -> usize
        requires some { 0 < length piece.now }
        requires room { length self.old.waiting + MOST_ANSWER ≤ MOST_OUTPUT }
        ensures some { 0 < result }
        ensures within { result ≤ length piece.now }
        ensures fed { Fed self.old self.new (take result piece.now) }
        ensures short { length self.new.waiting ≤ length self.old.waiting + MOST_ANSWER * result }
        ensures screen { HasSize self.new self.old.live.screen.rows self.old.live.screen.cols }
    {
        let plain = self.feed_plain(piece);
        if 0 < plain {
            return plain;
        }
        self.feed_sequence(piece)
    }

    // Reads as much of the front of a piece as goes by one way, and returns the number of its bytes.
    #[inline]
    fn feed_front(&mut self, piece: &[u8]) -> usize
        requires some { 0 < length piece.now }
        requires room { length self.old.waiting + MOST_ANSWER ≤ MOST_OUTPUT }
        ensures some { 0 < result }
        ensures within { result ≤ length piece.now }
        ensures fed { Fed self.old self.new (take result piece.now) }
        ensures short { length self.new.waiting ≤ length self.old.waiting + MOST_ANSWER * result }
        ensures screen { HasSize self.new self.old.live.screen.rows self.old.live.screen.cols }
    {
        if 0x80 <= piece[0] {
            return self.feed_wide(piece);
        }
        self.feed_ascii(piece)
    }

    fn feed_each(&mut self, piece: &[u8])
        requires room { length self.old.waiting + MOST_ANSWER * length piece.now ≤ MOST_OUTPUT }
        ensures fed { Fed self.old self.new piece.now }
        ensures short { length self.new.waiting ≤ length self.old.waiting + MOST_ANSWER * length piece.now }
        ensures screen { HasSize self.new self.old.live.screen.rows self.old.live.screen.cols }
    {
        let mut at = 0;
        while at < piece.len() {
            let count = self.feed_front(&piece[at..]);
            at += count;
        }
    }

    /// Reads a piece of at most 1,024 bytes, of any content and cut anywhere. `TooLong` for a longer piece, then `Busy` if the output queue
    /// has fewer than 12 free bytes for each byte; a refused piece changes nothing. It takes no memory.
    pub fn feed(&mut self, piece: &[u8]) -> Result<(), Fault>
        ensures ok { IsOk result ↔ IsAccepted self.old.waiting piece.now }
        ensures fed { OnOk result (Fed self.old self.new piece.now) }
        ensures screen { HasSize self.new self.old.live.screen.rows self.old.live.screen.cols }
        ensures err { OnErr result (self.new ≡ self.old) }
        ensures too_long { IsErrOf result Fault.TooLong ↔ (longest_piece < length piece.now) }
        ensures faults { IfErr result (λ e. (e ≡ Fault.TooLong) ⊎ (e ≡ Fault.Busy)) }
    {
        if MOST_PIECE < piece.len() {
            return Err(Fault::TooLong);
        }
        if MOST_OUTPUT - self.output.len() < MOST_ANSWER * piece.len() {
            return Err(Fault::Busy);
        }
        self.feed_each(piece);
        Ok(())
    }

    /// How many answered bytes wait.
    pub fn output_len(&self) -> usize
        ensures len { result ≡ length self.now.waiting }
        ensures most { result ≤ most_output }
    {
        self.output.len()
    }

    /// Copies the first queued answers, as many bytes as fit, and returns their number.
    pub fn copy_output(&self, out: &mut [u8]) -> usize
        ensures count { result ≡ min (length self.now.waiting) (length out.old) }
        ensures bytes { out.new ≡ take result self.now.waiting ++ drop result out.old }
    {
        self.output.copy_to(out)
    }

    /// Takes the first n answered bytes off the queue, at most all that wait.
    pub fn take_output(&mut self, n: usize)
        requires waiting { n ≤ length self.old.waiting }
        ensures waiting { self.new.waiting ≡ drop n self.old.waiting }
        ensures stands { (rows cols lines : ℕ) (log : List Item) → Stands self.old rows cols lines log
            → Stands self.new rows cols lines log }
        ensures live { self.new.live ≡ self.old.live }
        ensures marks { self.new.marks ≡ self.old.marks }
        ensures history { self.new.history ≡ self.old.history }
    {
        self.output.drop_front(n);
    }

    /// Returns a flag for each row of the screen that is shown, from 0: true if it may show something else at view 0 than when the marks
    /// were last cleared. At first all marks are on.
    pub fn marks(&self) -> &[bool]
        ensures marks { result.now ≡ take self.now.live.screen.rows self.now.marks }
        ensures len { length result.now ≡ self.now.live.screen.rows }
    {
        self.canvas.marks()
    }

    /// Puts all marks off.
    pub fn clear_marks(&mut self)
        ensures cleared { self.new ≡ record self.old { marks = all_off } }
    {
        self.canvas.clear_marks();
    }

    /// The screen as it is shown, scrolled back by up to `view` rows of the history; the alternate screen isn't scrolled back. Refuses
    /// want of memory.
    pub fn shot(&self, alloc: Global, view: u16) -> Result<Shot, Fault>
        ensures picture { IfOk result (λ shot. (rows cols lines : ℕ) (log : List Item) → Stands self.now rows cols lines log
            → shot ≡ picture rows cols lines log view) }
        ensures now { IfOk result (λ shot. shot ≡ picture_of self.now.live self.now.history view) }
        ensures size { IfOk result (λ shot. HasSize self.now shot.rows shot.cols) }
        ensures fault { IsOkUnless result Fault.OutOfMemory }
    {
        let shot = draw(alloc, &self.canvas, &self.history, view)?;
        Ok(shot)
    }

    /// Adds a row of the screen that `shot` makes, from 0, to a list of cells: no other row is looked at. Refuses want of memory.
    pub fn push_row(&self, view: u16, row: u16, cells: &mut Vec<Cell>) -> Result<(), AllocError>
        requires row { row < self.now.live.screen.rows }
        ensures picture { IfOk result (λ _. (rows cols lines : ℕ) (log : List Item) → Stands self.now rows cols lines log
            → cells.new.items ≡ cells.old.items
            ++ row_of (picture rows cols lines log view).cols (picture rows cols lines log view).cells row) }
        ensures now { IfOk result (λ _. cells.new.items ≡ cells.old.items
            ++ row_of self.now.live.screen.cols (picture_of self.now.live self.now.history view).cells row) }
    {
        push_row(cells, &self.canvas, &self.history, view, row)
    }

    /// The cursor of the screen that `shot` makes, and whether it is visible. It takes no memory.
    pub fn cursor_at(&self, view: u16) -> ((u16, u16), bool)
        ensures picture { (rows cols lines : ℕ) (log : List Item) → Stands self.now rows cols lines log
            → (result.0.0 ≡ (picture rows cols lines log view).cursor_row)
            × (result.0.1 ≡ (picture rows cols lines log view).cursor_col)
            × (result.1 ≡ (picture rows cols lines log view).visible) }
        ensures row { result.0.0 ≡ (picture_of self.now.live self.now.history view).cursor_row }
        ensures col { result.0.1 ≡ (picture_of self.now.live self.now.history view).cursor_col }
        ensures visible { result.1 ≡ (picture_of self.now.live self.now.history view).visible }
    {
        cursor_at(&self.canvas, &self.history, view)
    }
}
