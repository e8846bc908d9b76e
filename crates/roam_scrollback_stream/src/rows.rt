//! `roam rows`: reads records, and writes every row that leaves each of many terminals.
ghost use Rattle.std.specs.Prelude.{◌≡◌, ◌≢◌, ◌≤◌, ◌<◌, ◌^◌, ◌-◌, ◌++◌, Bool, IfErr, IsFalse, ◌∷◌, [], ℕ, List, Option, None, Some, Ok, Err, IfOk, IfSome, OnOk, IsTrue, drop, length, min, suc, take, slice_set};
ghost use Rattle.std.specs.Io.KnownBytes.{Appends, Consumes, IsAtEnd};
ghost use Rattle.roam_scrollback.specs.Lines.{no_lines};
ghost use Rattle.roam_scrollback_stream.specs.Panes.{PaneView};
ghost use Rattle.roam_scrollback_stream.specs.Readings.{DoesOrNot, Reaches, reading_of};
ghost use Rattle.roam_scrollback_stream.specs.Requests.{IsRequest, most_terminals, request_text};
ghost use Rattle.roam_scrollback_stream.specs.Runs.{IsFed, IsLineStart, Ran, RanTo, bytes_after, longest_line, no_terminals, terminal_at, terminal_of};
ghost use Rattle.roam_scrollback_stream.specs.declared.faults.RowsFault.TheVariants.{Read as ReadFailed, Record as BadRecord, Write as WriteFailed};
ghost use Rattle.roam_scrollback_stream.specs.declared.requests.Request.{Request as RequestOf};
ghost use Rattle.roam_scrollback_stream.specs.declared.requests.Request.TheVariants.{Pane as Opens, Rewrap as Rewraps, Size as Resizes, Screen as Shows};

use crate::faults::RowsFault;
use crate::panes::{Pane, Tellings};
use crate::requests::{MOST_TERMINALS, Request, request_of};
use arrayvec::ArrayVec;
use roam_cells::Fault;
use roam_cells::limits::is_size;
use std::alloc::{AllocError, Global};
use std::io::{Read, Write};
use std::marker::Model;

/// How many bytes are read at once at most.
const PIECE: usize = 65536;

/// How long a line of a record may be, without its LF.
const MOST_LINE: usize = 64;

// Puts a new terminal at a place. Returns false if its size is no size of a screen.
fn open(
    place: &mut Option<Pane>,
    alloc: Global,
    normalize: bool,
    number: u16,
    rows: u16,
    cols: u16,
) -> Result<bool, Fault>
    ensures opens { IfOk result (λ done. (out : List ℕ) → DoesOrNot done normalize (Opens number rows cols) place.old place.new out out) }
{
    if !is_size(rows, cols) {
        return Ok(false);
    }
    *place = Some(Pane::new(alloc, number, rows, cols, normalize)?);
    Ok(true)
}

// Gives the terminal at a place another size. Returns false if none is there, or the size is no size of a screen.
fn resize(
    place: &mut Option<Pane>,
    alloc: Global,
    rows: u16,
    cols: u16,
    tellings: &mut Tellings,
) -> Result<bool, Fault>
    requires none { tellings.old.lines ≡ no_lines }
    ensures sizes { IfOk result (λ done. (normalize : Bool) (n : ℕ)
        → DoesOrNot done normalize (Resizes n rows cols) place.old place.new tellings.old.out tellings.new.out) }
    ensures none { OnOk result (tellings.new.lines ≡ no_lines) }
{
    let Some(pane) = place else {
        return Ok(false);
    };
    if !is_size(rows, cols) {
        return Ok(false);
    }
    pane.size(alloc, rows, cols, tellings)?;
    Ok(true)
}

// Gives the terminal at a place another size without cutting text, or says why not. Returns false if none is there, or the size is no size
// of a screen.
fn rewrap(
    place: &mut Option<Pane>,
    alloc: Global,
    rows: u16,
    cols: u16,
    tellings: &mut Tellings,
) -> Result<bool, Fault>
    requires none { tellings.old.lines ≡ no_lines }
    ensures rewraps { IfOk result (λ done. (normalize : Bool) (n : ℕ)
        → DoesOrNot done normalize (Rewraps n rows cols) place.old place.new tellings.old.out tellings.new.out) }
    ensures none { OnOk result (tellings.new.lines ≡ no_lines) }
{
    let Some(pane) = place else {
        return Ok(false);
    };
    if !is_size(rows, cols) {
        return Ok(false);
    }
    pane.rewrap(alloc, rows, cols, tellings)?;
    Ok(true)
}

// Writes the rows of the screen of the terminal at a place. Returns false if none is there.
fn show(place: &Option<Pane>, tellings: &mut Tellings) -> Result<bool, Fault>
    requires none { tellings.old.lines ≡ no_lines }
    ensures shows { IfOk result (λ done. (normalize : Bool) (n : ℕ)
        → DoesOrNot done normalize (Shows n) place.now place.now tellings.old.out tellings.new.out) }
    ensures none { OnOk result (tellings.new.lines ≡ no_lines) }
{
    let Some(pane) = place else {
        return Ok(false);
    };
    pane.show(tellings)?;
    Ok(true)
}

// Carries a request out at the place of its terminal. Returns false if the request is out of place.
fn answer(
    place: &mut Option<Pane>,
    alloc: Global,
    normalize: bool,
    request: Request,
    tellings: &mut Tellings,
) -> Result<bool, Fault>
    requires none { tellings.old.lines ≡ no_lines }
    ensures answers { IfOk result (λ done. DoesOrNot done normalize request place.old place.new tellings.old.out tellings.new.out) }
    ensures none { OnOk result (tellings.new.lines ≡ no_lines) }
{
    match request {
        Request::Pane(number, rows, cols) => open(place, alloc, normalize, number, rows, cols),
        Request::Size(_, rows, cols) => resize(place, alloc, rows, cols, tellings),
        Request::Rewrap(_, rows, cols) => rewrap(place, alloc, rows, cols, tellings),
        Request::Bytes(..) => Ok(place.is_some()),
        Request::Screen(_) => show(place, tellings),
        Request::Gone(_) => Ok(place.take().is_some()),
    }
}

// Feeds the terminal at a place, if one is there.
fn feed(place: &mut Option<Pane>, piece: &[u8], tellings: &mut Tellings) -> Result<(), Fault>
    requires none { tellings.old.lines ≡ no_lines }
    ensures fed { OnOk result ((old : PaneView) → place.old ≡ Some old
        → (new : PaneView) × (place.new ≡ Some new) × IsFed piece.now old new tellings.old.out tellings.new.out) }
    ensures none { OnOk result (tellings.new.lines ≡ no_lines) }
{
    match place {
        Some(pane) => pane.feed(piece, tellings),
        None => Ok(()),
    }
}

/// The terminals, each at its number.
#[derive(Drop)]
struct Terminals {
    alloc: Global,
    normalize: bool,
    panes: Vec<Option<Pane>>,
}

impl Model for Terminals {
    ghost use Rattle.std.specs.Prelude.{◌≡◌, length};
    ghost use Rattle.roam_scrollback_stream.specs.Readings.{TerminalsView};
    ghost use Rattle.roam_scrollback_stream.specs.Requests.{most_terminals};

    ghost Value = { TerminalsView };

    ghost view = { λ a. record { normalize = a.normalize; all_of = a.panes.items } };

    ghost invariant = { λ a. length a.panes.items ≡ most_terminals };
}

// No terminal at each number.
fn no_panes(alloc: Global) -> Result<Vec<Option<Pane>>, AllocError>
    ensures none { IfOk result (λ panes. panes.items ≡ no_terminals) }
{
    let mut panes = Vec::new(alloc);
    for _ in 0..MOST_TERMINALS {
        panes.push(None)?;
    }
    Ok(panes)
}

impl Terminals {
    fn new(alloc: Global, normalize: bool) -> Result<Self, AllocError>
        ensures none { IfOk result (λ new. new ≡ record { normalize = normalize; all_of = no_terminals }) }
    {
        let panes = no_panes(alloc)?;
        Ok(Terminals {
            alloc,
            normalize,
            panes,
        })
    }

    // Carries out a request, but for bytes that follow it. Returns false if it is out of place.
    fn answer(&mut self, request: Request, tellings: &mut Tellings) -> Result<bool, Fault>
        requires none { tellings.old.lines ≡ no_lines }
        requires is { IsRequest request }
        ensures answers { IfOk result (λ done. (place : Option PaneView)
            × (self.new.all_of ≡ slice_set self.old.all_of (terminal_of request) place)
            × DoesOrNot done self.old.normalize request (terminal_at self.old.all_of (terminal_of request)) place
            tellings.old.out tellings.new.out) }
        ensures normalize { self.new.normalize ≡ self.old.normalize }
        ensures none { OnOk result (tellings.new.lines ≡ no_lines) }
    {
        let at = usize::from(request.terminal());
        answer(
            &mut self.panes[at],
            self.alloc,
            self.normalize,
            request,
            tellings,
        )
    }

    // Feeds the terminal at a number below 1,024.
    fn feed(&mut self, number: u16, piece: &[u8], tellings: &mut Tellings) -> Result<(), Fault>
        requires none { tellings.old.lines ≡ no_lines }
        requires is { number < most_terminals }
        ensures fed { OnOk result ((old : PaneView) → terminal_at self.old.all_of number ≡ Some old
            → (new : PaneView) × (self.new.all_of ≡ slice_set self.old.all_of number (Some new))
            × IsFed piece.now old new tellings.old.out tellings.new.out) }
        ensures normalize { self.new.normalize ≡ self.old.normalize }
        ensures none { OnOk result (tellings.new.lines ≡ no_lines) }
    {
        feed(&mut self.panes[usize::from(number)], piece, tellings)
    }
}

/// How far the input came: a line that hasn't ended, or the bytes of a record that are still to come.
#[derive(Drop)]
struct Input {
    line: ArrayVec<u8, MOST_LINE>,
    // So many lines came.
    lines: u64,
    // So many bytes are to come, and which terminal they are of.
    coming: u64,
    number: u16,
}

impl Model for Input {
    ghost use Rattle.std.specs.Prelude.{◌<◌};
    ghost use Rattle.roam_scrollback_stream.specs.Readings.{InputView};
    ghost use Rattle.roam_scrollback_stream.specs.Requests.{most_terminals};

    ghost Value = { InputView };

    ghost view = { λ a. record { line = a.line.items; lines = a.lines; coming = a.coming; number = a.number } };

    ghost invariant = { λ a. a.number < most_terminals };
}

impl Input {
    fn new() -> Self
        ensures none { result ≡ record { line = []; lines = 0; coming = 0; number = 0 } }
    {
        Input {
            line: ArrayVec::new(),
            lines: 0,
            coming: 0,
            number: 0,
        }
    }

    // How many lines came.
    fn lines(&self) -> u64
        ensures lines { result ≡ self.now.lines }
    {
        self.lines
    }

    // The terminal whose bytes are to come.
    fn number(&self) -> u16
        ensures number { result ≡ self.now.number }
        ensures terminal { result < most_terminals }
    {
        self.number
    }

    // Returns true if bytes of a record are to come.
    fn is_coming(&self) -> bool
        ensures coming { IsTrue result → 0 < self.now.coming }
        ensures none { IsFalse result → self.now.coming ≡ 0 }
    {
        0 < self.coming
    }

    // The request of the line that ended.
    fn take_request(&mut self) -> Option<Request>
        ensures found { IfSome result (λ request. IsRequest request × (self.old.line ≡ request_text request)) }
        ensures only { (request : RequestOf) → IsRequest request → self.old.line ≡ request_text request → result ≡ Some request }
        ensures ended { self.new ≡ record self.old { line = []; lines = min (suc self.old.lines) (2 ^ 64 - 1) } }
    {
        let request = request_of(self.line.as_slice());
        self.line.clear();
        self.lines = self.lines.saturating_add(1);
        request
    }

    // Keeps a byte of a line. Returns false if the line would be too long.
    fn keep(&mut self, byte: u8) -> bool
        ensures kept { IsTrue result → self.new ≡ record self.old { line = self.old.line ++ byte ∷ [] } }
        ensures room { IsTrue result → length self.old.line < longest_line }
        ensures full { IsFalse result → length self.old.line ≡ longest_line }
        ensures stays { IsFalse result → self.new ≡ self.old }
    {
        self.line.try_push(byte).is_ok()
    }

    // The bytes that follow a request are to come.
    fn expect(&mut self, request: Request)
        requires is { IsRequest request }
        ensures expects { self.new ≡ record self.old { number = terminal_of request; coming = bytes_after request } }
    {
        self.number = request.terminal();
        self.coming = request.bytes_after();
    }

    // How many bytes of a piece are of the record whose bytes are to come.
    fn part_of(&self, piece: &[u8]) -> usize
        ensures part { result ≡ min (length piece.now) self.now.coming }
    {
        (piece.len() as u64).min(self.coming) as usize
    }

    // So many of the bytes that are to come were read.
    fn read(&mut self, count: usize)
        requires within { count ≤ self.old.coming }
        ensures left { self.new ≡ record self.old { coming = self.old.coming - count } }
    {
        self.coming -= count as u64;
    }
}

/// A run: its terminals, and how far the input came.
#[derive(Drop)]
struct Run {
    terminals: Terminals,
    input: Input,
}

impl Run {
    fn new(alloc: Global, normalize: bool) -> Result<Self, Fault>
        ensures none { IfOk result (λ run. Reaches (reading_of run.terminals run.input) [] []) }
        ensures normalize { IfOk result (λ run. run.terminals.normalize ≡ normalize) }
    {
        let terminals = Terminals::new(alloc, normalize)?;
        Ok(Run {
            terminals,
            input: Input::new(),
        })
    }

    // Reads the LF that ends a line, and answers the line.
    fn end_line(&mut self, tellings: &mut Tellings) -> Result<(), RowsFault>
        requires none { tellings.old.lines ≡ no_lines }
        requires between { self.old.input.coming ≡ 0 }
        ensures reaches { OnOk result ((read output : List ℕ)
            → Reaches (reading_of self.old.terminals self.old.input) read (output ++ tellings.old.out)
            → Reaches (reading_of self.new.terminals self.new.input) (read ++ 0x0A ∷ []) (output ++ tellings.new.out)) }
        ensures bad { (n : ℕ) → result ≡ Err (BadRecord n) → (read output : List ℕ)
            → Reaches (reading_of self.old.terminals self.old.input) read (output ++ tellings.old.out)
            → RanTo n self.old.terminals.normalize (read ++ 0x0A ∷ []) (output ++ tellings.new.out) }
        ensures normalize { OnOk result (self.new.terminals.normalize ≡ self.old.terminals.normalize) }
        ensures none { OnOk result (tellings.new.lines ≡ no_lines) }
        ensures not_read { result ≢ Err ReadFailed }
    {
        let Some(request) = self.input.take_request() else {
            return Err(RowsFault::Record(self.input.lines()));
        };
        if !self.terminals.answer(request, tellings)? {
            return Err(RowsFault::Record(self.input.lines()));
        }
        self.input.expect(request);
        Ok(())
    }

    // Reads a byte of a line.
    fn take_byte(&mut self, byte: u8, tellings: &mut Tellings) -> Result<(), RowsFault>
        requires none { tellings.old.lines ≡ no_lines }
        requires between { self.old.input.coming ≡ 0 }
        ensures reaches { OnOk result ((read output : List ℕ) → Reaches (reading_of self.old.terminals self.old.input) read (output ++ tellings.old.out)
            → Reaches (reading_of self.new.terminals self.new.input) (read ++ byte ∷ []) (output ++ tellings.new.out)) }
        ensures bad { (n : ℕ) → result ≡ Err (BadRecord n) → (read output : List ℕ) → Reaches (reading_of self.old.terminals self.old.input) read (output ++ tellings.old.out)
            → RanTo n self.old.terminals.normalize (read ++ byte ∷ []) (output ++ tellings.new.out) }
        ensures normalize { OnOk result (self.new.terminals.normalize ≡ self.old.terminals.normalize) }
        ensures none { OnOk result (tellings.new.lines ≡ no_lines) }
        ensures not_read { result ≢ Err ReadFailed }
    {
        if byte == b'\n' {
            return self.end_line(tellings);
        }
        if self.input.keep(byte) {
            return Ok(());
        }
        Err(RowsFault::Record(self.input.lines().saturating_add(1)))
    }

    // Feeds a terminal with the next bytes of a record, and returns how many it took.
    fn take_bytes(&mut self, piece: &[u8], tellings: &mut Tellings) -> Result<usize, RowsFault>
        requires none { tellings.old.lines ≡ no_lines }
        requires some { 0 < length piece.now }
        requires coming { 0 < self.old.input.coming }
        ensures within { IfOk result (λ n. (0 < n) × (n ≤ length piece.now)) }
        ensures reaches { IfOk result (λ n. (read output : List ℕ) → Reaches (reading_of self.old.terminals self.old.input) read (output ++ tellings.old.out)
            → Reaches (reading_of self.new.terminals self.new.input) (read ++ take n piece.now) (output ++ tellings.new.out)) }
        ensures not_bad { (n : ℕ) → result ≢ Err (BadRecord n) }
        ensures not_read { result ≢ Err ReadFailed }
        ensures normalize { OnOk result (self.new.terminals.normalize ≡ self.old.terminals.normalize) }
        ensures none { OnOk result (tellings.new.lines ≡ no_lines) }
    {
        let count = self.input.part_of(piece);
        self.terminals
            .feed(self.input.number(), &piece[..count], tellings)?;
        self.input.read(count);
        Ok(count)
    }

    // Reads a piece of the input.
    fn take(&mut self, piece: &[u8], tellings: &mut Tellings) -> Result<(), RowsFault>
        requires none { tellings.old.lines ≡ no_lines }
        ensures reaches { OnOk result ((read output : List ℕ) → Reaches (reading_of self.old.terminals self.old.input) read (output ++ tellings.old.out)
            → Reaches (reading_of self.new.terminals self.new.input) (read ++ piece.now) (output ++ tellings.new.out)) }
        ensures bad { (n : ℕ) → result ≡ Err (BadRecord n) → (read output : List ℕ) → Reaches (reading_of self.old.terminals self.old.input) read (output ++ tellings.old.out)
            → RanTo n self.old.terminals.normalize (read ++ piece.now) (output ++ tellings.new.out) }
        ensures not_read { result ≢ Err ReadFailed }
        ensures normalize { OnOk result (self.new.terminals.normalize ≡ self.old.terminals.normalize) }
        ensures none { OnOk result (tellings.new.lines ≡ no_lines) }
    {
        let mut at = 0;
        while at < piece.len() {
            if self.input.is_coming() {
                at += self.take_bytes(&piece[at..], tellings)?;
            } else {
                self.take_byte(piece[at], tellings)?;
                at += 1;
            }
        }
        Ok(())
    }
}

// Writes the output.
fn write_out<W: Write>(writer: &mut W, tellings: &mut Tellings) -> Result<(), RowsFault>
    ensures lines { tellings.new.lines ≡ tellings.old.lines }
    ensures wrote { OnOk result (Appends (W.contents writer.old) (W.contents writer.new) tellings.old.out) }
    ensures none { OnOk result (tellings.new.out ≡ []) }
    ensures fault { IfErr result (λ fault. fault ≡ WriteFailed) }
{
    if tellings.out().is_empty() {
        return Ok(());
    }
    if writer.write_all(tellings.out()).is_err() || writer.flush().is_err() {
        return Err(RowsFault::Write);
    }
    tellings.clear();
    Ok(())
}

// Reads to the end; the output before an error is written.
fn read_all<R: Read, W: Write>(
    run: &mut Run,
    tellings: &mut Tellings,
    reader: &mut R,
    writer: &mut W,
    piece: &mut [u8],
) -> Result<(), RowsFault>
    requires none { tellings.old.lines ≡ no_lines }
    requires empty { tellings.old.out ≡ [] }
    requires room { 0 < length piece.old }
    requires starts { Reaches (reading_of run.old.terminals run.old.input) [] [] }
    ensures ran { OnOk result ((input output : List ℕ) × Consumes (R.remaining reader.old) (R.remaining reader.new) input
        × IsAtEnd (R.remaining reader.new) × Appends (W.contents writer.old) (W.contents writer.new) output
        × Ran run.old.terminals.normalize input output) }
    ensures read { result ≡ Err ReadFailed → (input output : List ℕ) × Consumes (R.remaining reader.old) (R.remaining reader.new) input
        × Appends (W.contents writer.old) (W.contents writer.new) output × Ran run.old.terminals.normalize input output }
    ensures record { (n : ℕ) → result ≡ Err (BadRecord n)
        → (input output : List ℕ) × Consumes (R.remaining reader.old) (R.remaining reader.new) input
        × Appends (W.contents writer.old) (W.contents writer.new) output × RanTo n run.old.terminals.normalize input output }
{
    for _ in 0..u64::MAX {
        let Ok(count) = reader.read(piece) else {
            return Err(RowsFault::Read);
        };
        if count == 0 {
            return Ok(());
        }
        let taken = run.take(&piece[..count], tellings);
        write_out(writer, tellings)?;
        taken?;
    }
    Err(RowsFault::Read)
}

/// Reads records from a reader to its end, and writes the rows that leave each terminal.
///
/// | Record | Effect |
/// |---|---|
/// | `pane N ROWS COLS` | puts a new terminal at N, 0 to 1,023, of 2 to 200 rows and 4 to 500 columns |
/// | `size N ROWS COLS` | gives the terminal another size |
/// | `rewrap N ROWS COLS` | gives the terminal another size without cutting text, or says why not |
/// | `bytes N LENGTH`, and that many bytes | feeds the bytes to the terminal |
/// | `screen N` | writes the rows of the terminal's screen |
/// | `gone N` | removes the terminal |
///
/// If `normalize` is true, bytes first go through the filter of `roam_normalize`, as in the server. What came by one read is answered
/// before the next read.
///
/// # Errors
///
/// `Record` if a line is no record, or its terminal isn't there, or the size is outside the limits; the number is that of the line, from 1.
/// `Read` and `Write` if the reader or the writer fails. `Core` if memory runs out. In each case what came before is written.
pub fn run_rows<R: Read, W: Write>(
    alloc: Global,
    normalize: bool,
    reader: &mut R,
    writer: &mut W,
) -> Result<(), RowsFault>
    // All records were read and answered, in order.
    ensures ran { OnOk result ((input output : List ℕ) × Consumes (R.remaining reader.old) (R.remaining reader.new) input
        × IsAtEnd (R.remaining reader.new) × Appends (W.contents writer.old) (W.contents writer.new) output
        × Ran normalize input output) }
    // So were those before a read that failed.
    ensures read { result ≡ Err ReadFailed → (input output : List ℕ) × Consumes (R.remaining reader.old) (R.remaining reader.new) input
        × Appends (W.contents writer.old) (W.contents writer.new) output × Ran normalize input output }
    // And those before the line that is no record.
    ensures record { (n : ℕ) → result ≡ Err (BadRecord n)
        → (input output : List ℕ) × Consumes (R.remaining reader.old) (R.remaining reader.new) input
        × Appends (W.contents writer.old) (W.contents writer.new) output × RanTo n normalize input output }
{
    let mut piece = piece(alloc)?;
    let mut tellings = Tellings::new(alloc);
    let mut run = Run::new(alloc, normalize)?;
    read_all(&mut run, &mut tellings, reader, writer, &mut piece)
}

// Where the input is read.
fn piece(alloc: Global) -> Result<Vec<u8>, Fault>
    ensures room { IfOk result (λ piece. 0 < length piece.items) }
{
    let piece = vec![in alloc; 0u8; PIECE]?;
    Ok(piece)
}
