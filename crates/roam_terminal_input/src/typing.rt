//! The acts to type: those of a file, or those that come over a stream while the instance runs, one a line.
ghost use Rattle.std.specs.Prelude.{◌≡◌, ◌≢◌, ◌↔◌, ◌⊎◌, ◌+◌, ◌<◌, ◌≤◌, ◌∷◌, ◌++◌, [], ℕ, List, Some, None, IsTrue, OnOk, IfOk, IsOkUnless, drop, length, true, false};
ghost use Rattle.std.specs.List.{All};
ghost use Rattle.std.specs.Option.{option_copied};
ghost use Rattle.std.specs.Io.KnownBytes.{Consumes};
ghost use Rattle.roam_acts.specs.declared.acts.Act.{Act as ActOf};
ghost use Rattle.roam_acts.specs.Acts.{IsInRange};
ghost use Rattle.roam_faults.specs.Streams.{IsStreamEnd};
ghost use Rattle.roam_terminal_input.specs.Typing.{EndsLine, GoesOn, Reads, ReadsOn, Stands, bytes_given, last_of, longest_piece, refused_at};

use roam_acts::{Act, read_act};
use roam_cells::Fault;
use roam_faults::is_stream_end;
use std::alloc::Global;
use std::collections::VecDeque;
use std::io;
use std::io::{Empty, Read};

/// How many bytes are read at once at most.
const PIECE: usize = 1024;

/// How many bytes of a line are gathered at most; a line of an act has 14 at most, as `size 9999 9999`.
const MOST_GATHERED: usize = 64;

/// How far a stream of lines came.
#[derive(Clone, Copy, Debug, PartialEq, Eq)]
pub enum Stream {
    /// There is none.
    Absent,

    /// More may come.
    Open,

    /// It is at its end, and each of its lines is an act.
    Ended,

    /// The line of this number, from 1, is no act, whatever follows; later bytes are dropped.
    Spoiled(u64),

    /// The last line, of this number, from 1, has no end and is no act.
    SpoiledLast(u64),
}

/// The acts of a stream's lines that wait, the line that is begun, and how many lines were acts.
#[derive(Drop)]
pub struct ActLines {
    waiting: VecDeque<Act>,
    begun: Vec<u8>,
    count: u64,
    stream: Stream,
}

// Adds a byte to a line that is begun.
fn push(begun: &mut Vec<u8>, byte: u8) -> Result<(), Fault>
    ensures pushed { OnOk result (begun.new.items ≡ begun.old.items ++ byte ∷ []) }
    ensures fault { IsOkUnless result Fault.OutOfMemory }
{
    begun.push(byte)?;
    Ok(())
}

// Adds an act behind those that wait.
fn push_act(waiting: &mut VecDeque<Act>, act: Act) -> Result<(), Fault>
    ensures pushed { OnOk result (waiting.new.items ≡ waiting.old.items ++ act ∷ []) }
    ensures fault { IsOkUnless result Fault.OutOfMemory }
{
    waiting.push_back(act)?;
    Ok(())
}

impl ActLines {
    // Nothing was read yet.
    fn new(alloc: Global, stream: Stream) -> ActLines
        ensures waiting { result.waiting.items ≡ [] }
        ensures begun { result.begun.items ≡ [] }
        ensures count { result.count ≡ 0 }
        ensures stream { result.stream ≡ stream }
    {
        ActLines {
            waiting: VecDeque::new(alloc),
            begun: Vec::new(alloc),
            count: 0,
            stream,
        }
    }

    // Returns true if more bytes may arrive.
    fn is_open(&self) -> bool
        ensures open { IsTrue result ↔ (self.now.stream ≡ Stream.Open) }
    {
        matches!(self.stream, Stream::Open)
    }

    // The line that is begun is at its end.
    fn end_line(&mut self) -> Result<(), Fault>
        ensures ends { OnOk result (EndsLine self.old self.new) }
        ensures few { OnOk result (length self.new.waiting.items ≤ length self.old.waiting.items + 1) }
        ensures in_range { OnOk result (All IsInRange self.old.waiting.items → All IsInRange self.new.waiting.items) }
        ensures fault { IsOkUnless result Fault.OutOfMemory }
    {
        let number = self.count.saturating_add(1);
        let Ok(act) = read_act(self.begun.as_slice()) else {
            self.stream = Stream::Spoiled(number);
            return Ok(());
        };
        push_act(&mut self.waiting, act)?;
        self.begun.clear();
        self.count = number;
        Ok(())
    }

    // Adds one byte. A line too long for any act isn't kept to its end, and the bytes behind a line that is no act are dropped.
    fn take_byte(&mut self, byte: u8) -> Result<(), Fault>
        requires goes { GoesOn self.old.stream }
        ensures reads { OnOk result (ReadsOn self.old (byte ∷ []) self.new) }
        ensures in_range { OnOk result (All IsInRange self.old.waiting.items → All IsInRange self.new.waiting.items) }
        ensures fault { IsOkUnless result Fault.OutOfMemory }
    {
        if !self.is_open() {
            return Ok(());
        }
        if byte == b'\n' {
            return self.end_line();
        }
        if self.begun.len() >= MOST_GATHERED {
            self.stream = Stream::Spoiled(self.count.saturating_add(1));
            return Ok(());
        }
        push(&mut self.begun, byte)
    }

    // A piece came.
    fn take_piece(&mut self, piece: &[u8]) -> Result<(), Fault>
        requires goes { GoesOn self.old.stream }
        ensures reads { OnOk result (ReadsOn self.old piece.now self.new) }
        ensures in_range { OnOk result (All IsInRange self.old.waiting.items → All IsInRange self.new.waiting.items) }
        ensures fault { IsOkUnless result Fault.OutOfMemory }
    {
        for byte in piece {
            self.take_byte(*byte)?;
        }
        Ok(())
    }

    // The stream is at its end: a line that is begun is its last.
    fn end(&mut self) -> Result<(), Fault>
        requires open { self.old.stream ≡ Stream.Open }
        ensures reads { OnOk result (Reads self.old [] self.new) }
        ensures ends { OnOk result (GoesOn self.new.stream → ⊥) }
        ensures few { OnOk result (length self.new.waiting.items ≤ length self.old.waiting.items + 1) }
        ensures in_range { OnOk result (All IsInRange self.old.waiting.items → All IsInRange self.new.waiting.items) }
        ensures fault { IsOkUnless result Fault.OutOfMemory }
    {
        if self.begun.is_empty() {
            self.stream = Stream::Ended;
            return Ok(());
        }
        self.end_line()?;
        self.stream = last_of(self.stream);
        Ok(())
    }

    // A read of the stream answered so: with a piece, with nothing at this moment, or with its end.
    fn hear(&mut self, answer: &io::Result<usize>, buf: &[u8]) -> Result<(), Fault>
        requires open { self.old.stream ≡ Stream.Open }
        requires within { IfOk answer.now (λ n. n ≤ length buf.now) }
        requires room { 0 < length buf.now }
        ensures reads { OnOk result (Reads self.old (bytes_given answer.now buf.now) self.new) }
        ensures ends { OnOk result (IsStreamEnd answer.now → GoesOn self.new.stream → ⊥) }
        ensures goes { OnOk result ((IsStreamEnd answer.now → ⊥) → GoesOn self.new.stream) }
        ensures few { OnOk result (length self.new.waiting.items ≤ length self.old.waiting.items + length buf.now) }
        ensures in_range { OnOk result (All IsInRange self.old.waiting.items → All IsInRange self.new.waiting.items) }
        ensures fault { IsOkUnless result Fault.OutOfMemory }
    {
        if is_stream_end(answer) {
            return self.end();
        }
        match answer {
            Ok(count) => self.take_piece(&buf[..*count]),
            Err(_) => Ok(()),
        }
    }
}

// Returns the state of a stream at its end.
fn last_of(stream: Stream) -> Stream
    ensures last { result ≡ last_of stream }
{
    match stream {
        Stream::Open => Stream::Ended,
        Stream::Spoiled(number) => Stream::SpoiledLast(number),
        stream => stream,
    }
}

/// The acts to type, one after the other, and the reader from which more of them come, one a line. However the reader cuts its bytes, the
/// acts are those of its lines, in order and each once.
#[derive(Drop)]
pub struct Typist<R> {
    reader: R,
    lines: ActLines,
}

impl Typist<Empty> {
    /// These acts, and no more of them come.
    pub fn holding(alloc: Global, acts: Vec<Act>) -> Typist<Empty>
        ensures acts { result.lines.waiting.items ≡ acts.items }
        ensures stands { Stands result.lines acts.items [] [] }
    {
        let mut lines = ActLines::new(alloc, Stream::Absent);
        lines.waiting = VecDeque::from_vec(acts);
        Typist {
            reader: io::empty(),
            lines,
        }
    }
}

impl<R: Read> Typist<R> {
    /// The acts of the lines that a reader gives; nothing was read yet.
    pub fn of(alloc: Global, reader: R) -> Typist<R>
        ensures reader { result.reader ≡ reader }
        ensures stands { Stands result.lines [] [] [] }
        ensures none { result.lines.waiting.items ≡ [] }
    {
        Typist {
            reader,
            lines: ActLines::new(alloc, Stream::Open),
        }
    }

    /// Reads one piece of the stream, at most 1,024 bytes, if no act waits. It reads nothing at the stream's end, or after a line that is
    /// no act. A reader that fails is at its end, except after `WouldBlock` or `Interrupted`. `OutOfMemory`; the state of the stream is
    /// unspecified then.
    pub fn read_more(&mut self) -> Result<(), Fault>
        ensures reads { OnOk result ((bytes : List ℕ) × (length bytes ≤ longest_piece)
            × Consumes (R.remaining self.old.reader) (R.remaining self.new.reader) bytes × Reads self.old.lines bytes self.new.lines) }
        ensures few { OnOk result (length self.new.lines.waiting.items ≤ length self.old.lines.waiting.items + longest_piece) }
        ensures waits { self.old.lines.waiting.items ≢ [] → self.new ≡ self.old }
        ensures in_range { OnOk result (All IsInRange self.old.lines.waiting.items → All IsInRange self.new.lines.waiting.items) }
        ensures fault { IsOkUnless result Fault.OutOfMemory }
    {
        if !self.lines.is_open() || !self.lines.waiting.is_empty() {
            return Ok(());
        }
        let mut piece = [0u8; PIECE];
        let answer = self.reader.read(&mut piece);
        self.lines.hear(&answer, &piece)
    }

    /// Returns the next act, if one waits.
    pub fn next(&self) -> Option<&Act>
        ensures next { (act : ActOf) → option_copied result ≡ Some act → (rest : List ActOf) × (self.now.lines.waiting.items ≡ act ∷ rest) }
        ensures none { option_copied result ≡ None → self.now.lines.waiting.items ≡ [] }
    {
        self.lines.waiting.front()
    }

    /// The next act was taken.
    pub fn took(&mut self)
        ensures reader { self.new.reader ≡ self.old.reader }
        ensures lines { self.new.lines ≡ record self.old.lines { waiting = self.new.lines.waiting } }
        ensures first { self.new.lines.waiting.items ≡ drop 1 self.old.lines.waiting.items }
    {
        let _taken = self.lines.waiting.pop_front();
    }

    /// Returns true if the stream has ended and each of its lines was an act; some of them may wait.
    pub fn has_ended(&self) -> bool
        ensures ended { IsTrue result ↔ (self.now.lines.stream ≡ Stream.Ended) }
    {
        matches!(self.lines.stream, Stream::Ended)
    }

    /// The number, from 1, of the line that is no act, once all acts before it were taken.
    pub fn refused(&self) -> Option<u64>
        ensures refused { result ≡ refused_at self.now.lines.stream self.now.lines.waiting.items }
    {
        match self.lines.stream {
            Stream::Spoiled(number) | Stream::SpoiledLast(number)
                if self.lines.waiting.is_empty() => { Some(number) }
            _ => None,
        }
    }
}
