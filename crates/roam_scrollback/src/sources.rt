//! A terminal as the source of the rows that leave it.
ghost use Rattle.std.specs.Prelude.{◌≡◌, ◌⊎◌, ◌↔◌, ◌<◌, ◌≤◌, ◌∷◌, [], List, length, map, take, IfOk, IfErr, IsErrOf, OnOk, OnErr, false, true};
ghost use Rattle.roam_cells.specs.Limits.{IsSize};
ghost use Rattle.roam_controls.specs.Commands.{command_of, parameters_of};
ghost use Rattle.roam_controls.specs.Parameters.{first};
ghost use Rattle.roam_text.specs.Log.{Byte, Item, Resized};
ghost use Rattle.roam_text.specs.Stands.{Stands as Reads};
ghost use Rattle.roam_text.specs.Dispatched.{function_of, functions_by};
ghost use Rattle.roam_term.specs.Terminal.{changed_by, live_after};
ghost use Rattle.roam_scrollback.specs.Lines.{Writes, is_full};
ghost use Rattle.roam_scrollback.specs.Rewraps.{Follows, IsLater, IsRefused, IsRewrapped};
ghost use Rattle.roam_scrollback.specs.Sources.{IsCleared, IsSource, Sheds, clears, rows_leaving, rows_shown, rows_through, wraps_after, wraps_through};

use crate::lines::LeftLines;
use crate::rewraps::{NotRewrapped, Prepared, Rewrap, prepare, push_left, wraps_of};
use crate::surfaces::Surface;
use roam_cells::Fault;
use roam_cells::limits::is_size;
use roam_controls::{Command, command_of};
use roam_text::{Dispatch, Dispatched, REPLACEMENT, Reader};
use std::alloc::Global;
use std::marker::Model;

// Returns the command of a dispatched function, with the parameters that the reader lends.
#[inline]
fn requested(reader: &Reader, dispatch: Dispatch) -> Command
    ensures command { result ≡ command_of (function_of dispatch reader.now.parameters reader.now.intermediates) }
{
    command_of(dispatch, reader.parameters(), reader.intermediates())
}

// The parameters of a dispatched function, which the reader lends.
#[inline]
fn parameters_of(reader: &Reader, dispatch: Dispatch) -> &[u16]
    ensures parameters { result.now ≡ parameters_of (function_of dispatch reader.now.parameters reader.now.intermediates) }
{
    match dispatch {
        Dispatch::Csi { .. } => reader.parameters(),
        _ => &[],
    }
}

// Returns true if a dispatched function erases the rows that left.
fn clears(reader: &Reader, dispatch: Dispatch) -> bool
    ensures clears { result ≡ clears (function_of dispatch reader.now.parameters reader.now.intermediates) }
{
    match dispatch {
        Dispatch::Csi {
            mark: None,
            last: b'J',
        } => reader.intermediates().is_empty() && first(reader.parameters()) == 3,
        _ => false,
    }
}

// The first parameter, or 0.
fn first(params: &[u16]) -> u16
    ensures first { result ≡ first params.now }
{
    match params {
        [first, ..] => *first,
        [] => 0,
    }
}

/// How many bytes of a piece were read, and whether the last of them made a function that erases what left (ED with 3).
#[derive(Clone, Copy)]
pub struct Fed {
    pub count: usize,
    pub cleared: bool,
}

/// A terminal that keeps no history: each row that leaves its main screen is written as a line, once and in order.
#[derive(Drop)]
pub struct RowSource {
    reader: Reader,
    surface: Surface,
}

impl Model for RowSource {
    ghost use Rattle.roam_scrollback.specs.Sources.{SourceView};

    ghost Value = { SourceView };

    ghost view = { λ a. record { reader = a.reader; live = a.surface.live; wraps = a.surface.wraps } };
}

impl RowSource {
    /// A terminal that has read nothing, of 2 to 200 rows and 4 to 500 columns. Refuses another size as `BadSize`, and want of memory.
    pub fn new(alloc: Global, rows: u16, cols: u16) -> Result<Self, Fault>
        ensures stands { IfOk result (λ source. IsSource source rows cols []) }
        ensures bad_size { IsErrOf result Fault.BadSize ↔ (¬ IsSize rows cols) }
        ensures faults { IfErr result (λ fault. (fault ≡ Fault.BadSize) ⊎ (fault ≡ Fault.OutOfMemory)) }
    {
        if !is_size(rows, cols) {
            return Err(Fault::BadSize);
        }
        let surface = Surface::new(alloc, rows, cols)?;
        Ok(RowSource {
            reader: Reader::new(),
            surface,
        })
    }

    // Does what one function asks for, whose parameters and intermediate bytes the reader lends; answers whether it erases what left.
    fn perform(&mut self, dispatch: Dispatch, lines: &mut LeftLines) -> bool
        ensures clears { result ≡ clears (function_of dispatch self.old.reader.parameters self.old.reader.intermediates) }
        ensures live { self.new.live
            ≡ changed_by (function_of dispatch self.old.reader.parameters self.old.reader.intermediates) self.old.live }
        ensures wraps { self.new.wraps
            ≡ wraps_after (function_of dispatch self.old.reader.parameters self.old.reader.intermediates) self.old.live self.old.wraps }
        ensures written { Writes lines.old lines.new
            (rows_leaving (function_of dispatch self.old.reader.parameters self.old.reader.intermediates) self.old.live self.old.wraps) }
        ensures reader { self.new.reader ≡ self.old.reader }
    {
        let command = requested(&self.reader, dispatch);
        let params = parameters_of(&self.reader, dispatch);
        self.surface.perform(command, params, lines);
        clears(&self.reader, dispatch)
    }

    // Does the functions of a byte, and returns true if the last one erases the rows that left.
    fn take_in(&mut self, step: Dispatched, lines: &mut LeftLines) -> bool
        ensures cleared { IsCleared result (functions_by step self.old.reader.parameters self.old.reader.intermediates) }
        ensures live { self.new.live
            ≡ live_after self.old.live (functions_by step self.old.reader.parameters self.old.reader.intermediates) }
        ensures wraps { self.new.wraps ≡ wraps_through self.old.live
            (functions_by step self.old.reader.parameters self.old.reader.intermediates) self.old.wraps }
        ensures written { Writes lines.old lines.new (rows_through self.old.live
            (functions_by step self.old.reader.parameters self.old.reader.intermediates) self.old.wraps) }
        ensures reader { self.new.reader ≡ self.old.reader }
    {
        lines.facts();
        match step {
            Dispatched::Nothing => false,
            Dispatched::One(dispatch) => self.perform(dispatch, lines),
            Dispatched::AfterReplacement(dispatch) => {
                self.surface
                    .perform(Command::Prints(REPLACEMENT), &[], lines);
                self.perform(dispatch, lines)
            }
        }
    }

    fn feed_byte(&mut self, byte: u8, lines: &mut LeftLines) -> bool
        ensures sheds { Sheds self.old self.new lines.old lines.new result (Byte byte ∷ []) }
    {
        let step = self.reader.dispatch(byte);
        self.take_in(step, lines)
    }

    // Prints the printable ASCII at the front of a piece that fits the cursor's row, and returns its length in bytes.
    #[inline]
    fn feed_plain(&mut self, piece: &[u8], lines: &LeftLines) -> usize
        ensures within { result ≤ length piece.now }
        ensures sheds { Sheds self.old self.new lines.now lines.now false (map Byte (take result piece.now)) }
    {
        lines.facts();
        let room = self.surface.plain_room().min(piece.len());
        let count = self.reader.plain_run(&piece[..room]);
        if count == 0 {
            return 0;
        }
        self.surface.print_run(&piece[..count]);
        count
    }

    // Prints the graphic character from U+00A0 up at the front of a piece, and returns its length in bytes.
    #[inline]
    fn feed_character(&mut self, piece: &[u8], lines: &mut LeftLines) -> usize
        ensures within { result ≤ length piece.now }
        ensures sheds { Sheds self.old self.new lines.old lines.new false (map Byte (take result piece.now)) }
    {
        lines.facts();
        match self.reader.whole_character(piece) {
            Some((c, size)) => {
                self.surface.perform(Command::Prints(c), &[], lines);
                size
            }
            None => 0,
        }
    }

    // Ends SGR, the control sequence that comes most, by a short cut, and any other sequence as `feed_byte` does.
    #[inline]
    fn feed_last(&mut self, byte: u8, lines: &mut LeftLines) -> bool
        ensures sheds { Sheds self.old self.new lines.old lines.new result (Byte byte ∷ []) }
    {
        lines.facts();
        if byte == b'm' && self.reader.end_rendition() {
            self.surface.restyle(self.reader.parameters());
            return false;
        }
        self.feed_byte(byte, lines)
    }

    // Reads the parameters of a control sequence at the front of a piece at once, and then one byte more.
    #[inline]
    fn feed_sequence(&mut self, piece: &[u8], lines: &mut LeftLines) -> Fed
        requires some { 0 < length piece.now }
        ensures some { 0 < result.count }
        ensures within { result.count ≤ length piece.now }
        ensures sheds { Sheds self.old self.new lines.old lines.new result.cleared (map Byte (take result.count piece.now)) }
    {
        lines.facts();
        let count = self.reader.parameter_run(piece);
        if count == piece.len() {
            return Fed {
                count,
                cleared: false,
            };
        }
        let cleared = self.feed_last(piece[count], lines);
        Fed {
            count: count + 1,
            cleared,
        }
    }

    // Reads as much as goes by one way of the front of a piece that begins with no ASCII.
    #[inline]
    fn feed_wide(&mut self, piece: &[u8], lines: &mut LeftLines) -> Fed
        requires some { 0 < length piece.now }
        ensures some { 0 < result.count }
        ensures within { result.count ≤ length piece.now }
        ensures sheds { Sheds self.old self.new lines.old lines.new result.cleared (map Byte (take result.count piece.now)) }
    {
        let count = self.feed_character(piece, lines);
        if 0 < count {
            return Fed {
                count,
                cleared: false,
            };
        }
        self.feed_sequence(piece, lines)
    }

    // The same of one that begins with ASCII.
    #[inline]
    fn feed_ascii(&mut self, piece: &[u8], lines: &mut LeftLines) -> Fed
        requires some { 0 < length piece.now }
        ensures some { 0 < result.count }
        ensures within { result.count ≤ length piece.now }
        ensures sheds { Sheds self.old self.new lines.old lines.new result.cleared (map Byte (take result.count piece.now)) }
    {
        let count = self.feed_plain(piece, lines);
        if 0 < count {
            return Fed {
                count,
                cleared: false,
            };
        }
        self.feed_sequence(piece, lines)
    }

    // Reads as much of the front of a piece as goes by one way.
    #[inline]
    fn feed_front(&mut self, piece: &[u8], lines: &mut LeftLines) -> Fed
        requires some { 0 < length piece.now }
        ensures some { 0 < result.count }
        ensures within { result.count ≤ length piece.now }
        ensures sheds { Sheds self.old self.new lines.old lines.new result.cleared (map Byte (take result.count piece.now)) }
    {
        if 0x80 <= piece[0] {
            return self.feed_wide(piece, lines);
        }
        self.feed_ascii(piece, lines)
    }

    /// Reads the front of a piece of any bytes, cut anywhere, and writes the lines of the rows that leave. It stops early if a function
    /// erases the rows that left, or the lines are full.
    pub fn feed(&mut self, piece: &[u8], lines: &mut LeftLines) -> Fed
        ensures within { result.count ≤ length piece.now }
        ensures sheds { Sheds self.old self.new lines.old lines.new result.cleared (map Byte (take result.count piece.now)) }
        ensures stops { result.count < length piece.now → (result.cleared ≡ true) ⊎ (is_full lines.new ≡ true) }
        ensures some { is_full lines.old ≡ false → 0 < length piece.now → 0 < result.count }
    {
        lines.facts();
        let mut at = 0;
        while at < piece.len() && !lines.is_full() {
            let fed = self.feed_front(&piece[at..], lines);
            at += fed.count;
            if fed.cleared {
                return Fed {
                    count: at,
                    cleared: true,
                };
            }
        }
        Fed {
            count: at,
            cleared: false,
        }
    }

    /// Brings the terminal to another size, and writes the lines of the rows that leave by it, in the columns that they had. Refuses a size
    /// outside 2 to 200 rows and 4 to 500 columns, and want of memory, and changes nothing then.
    pub fn size(
        &mut self,
        alloc: Global,
        rows: u16,
        cols: u16,
        lines: &mut LeftLines,
    ) -> Result<(), Fault>
        ensures sheds { OnOk result (Sheds self.old self.new lines.old lines.new false (Resized rows cols ∷ [])) }
        ensures err { OnErr result ((self.new ≡ self.old) × (lines.new ≡ lines.old)) }
        ensures bad_size { IsErrOf result Fault.BadSize ↔ (¬ IsSize rows cols) }
        ensures faults { IfErr result (λ fault. (fault ≡ Fault.BadSize) ⊎ (fault ≡ Fault.OutOfMemory)) }
    {
        self.surface.size(alloc, rows, cols, lines)?;
        self.reader.size(rows, cols);
        Ok(())
    }

    // Reads a whole text; the lines of rows that leave by it are dropped.
    fn read_all(&mut self, text: &[u8], dropped: &mut LeftLines)
        ensures follows { (log : List Item) → Reads self.old.reader log → Follows self.old self.new (map Byte text.now) log }
    {
        let mut at = 0;
        while at < text.len() {
            dropped.clear();
            at += self.feed(&text[at..], dropped).count;
        }
    }

    /// Gives the terminal another size without cutting text. The newest rows that left come back as far as they fit, the text wraps at the
    /// new width, and the rows that leave are written. `lines` has to keep the rows that left this terminal. If the terminal keeps its size,
    /// nothing changes.
    pub fn rewrap(
        &mut self,
        alloc: Global,
        rows: u16,
        cols: u16,
        lines: &mut LeftLines,
    ) -> Result<Rewrap, NotRewrapped>
        ensures rewrapped { IfOk result (λ done. IsRewrapped self.old self.new lines.old lines.new rows cols done.back done.text.items) }
        ensures err { OnErr result ((self.new ≡ self.old) × (lines.new ≡ lines.old)) }
        ensures other { IsErrOf result NotRewrapped.OtherScreen → self.old.live.alternate ≡ true }
        ensures later { IsErrOf result NotRewrapped.Later → IsLater self.old }
        ensures refused { IsErrOf result NotRewrapped.Refused → IsRefused self.old lines.old.kept rows cols }
    {
        if !is_size(rows, cols) {
            return Err(NotRewrapped::Refused);
        }
        if !self.reader.is_at_rest() {
            return Err(NotRewrapped::Later);
        }
        if self.surface.canvas().is_alternate() {
            return Err(NotRewrapped::OtherScreen);
        }
        if !self.surface.canvas().prints_ascii() {
            return Err(NotRewrapped::Later);
        }
        let Ok(prepared) = prepare(alloc, &self.surface, lines.kept(), rows, cols) else {
            return Err(NotRewrapped::NoMemory);
        };
        let Some(prepared) = prepared else {
            return Err(NotRewrapped::Refused);
        };
        let Prepared {
            reflow,
            first,
            back,
            text,
        } = prepared;
        let mut dropped = LeftLines::new(alloc);
        let Ok(()) = self.size(alloc, rows, cols, &mut dropped) else {
            return Err(NotRewrapped::NoMemory);
        };
        self.read_all(&text, &mut dropped);
        self.surface.wrap_as(wraps_of(&reflow, rows, cols));
        push_left(lines, first, &reflow);
        Ok(Rewrap { back, text })
    }

    /// Writes the lines of all rows of the screen that is shown, from the top.
    pub fn push_screen(&self, lines: &mut LeftLines)
        ensures written { Writes lines.old lines.new (rows_shown self.now.live self.now.wraps) }
    {
        self.surface.push_screen(lines);
    }
}
