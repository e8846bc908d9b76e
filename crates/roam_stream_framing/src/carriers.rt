//! One end of a stream that carries datagrams.
ghost use Rattle.std.specs.Prelude.{◌≡◌, ◌⊎◌, ◌↔◌, ◌++◌, ◌<◌, ◌≤◌, ℕ, List, [], IsTrue, true, false, length, drop, None, Some, IfSome, IsOk, IsErr, IfOk, IfErr};
ghost use Rattle.std.specs.Io.KnownBytes.{Consumes};
ghost use Rattle.roam_faults.specs.Streams.{IsStreamEnd};
ghost use Rattle.roam_stream_framing.specs.Carriers.{Came, HasReadAll, IsGiven, IsOverByReads, Receives, Writes};
ghost use Rattle.roam_stream_framing.specs.Frames.{front_of};
ghost use Rattle.roam_stream_framing.specs.Streams.{Asks, HasAnswered, HasStopped, MayEndReading, bytes_of};
ghost use Rattle.roam_stream_framing.specs.Queues.{IsLost, IsQueued, nothing_queued};

use crate::frames::{Frames, Front};
use crate::queues::Queue;
use crate::streams::Stream;
use roam_faults::is_stream_end;
use std::alloc::Global;
use std::io;

/// How many bytes are read at once at most.
const PIECE: usize = 2048;

/// The most reads that a datagram takes, if each brings one byte of it or of its length.
const MOST_READS: usize = 1244;

/// How many writes are tried at once.
const MOST_WRITES: usize = 64;

/// One end of a stream that carries datagrams, each behind its length. It is over if the stream ends, fails, or has an impossible length.
/// Nothing more is read or written then.
#[derive(Drop)]
pub struct Carrier<S> {
    stream: S,
    frames: Frames,
    queue: Queue,
    over: bool,
}

impl<S: Stream> Carrier<S> {
    /// The end of a stream of which nothing was read and to which nothing was written.
    pub fn new(alloc: Global, stream: S) -> Carrier<S>
        ensures stream { result.stream ≡ stream }
        ensures fresh { (result.frames ≡ []) × (result.queue ≡ nothing_queued) }
        ensures open { result.over ≡ false }
    {
        Carrier {
            stream,
            frames: Frames::new(alloc),
            queue: Queue::new(alloc),
            over: false,
        }
    }

    /// Returns true if the stream is over.
    pub fn is_over(&self) -> bool
        ensures over { result ≡ self.now.over }
    {
        self.over
    }

    // Notes the result of a read into a piece, and keeps its bytes. Returns true if bytes arrived and are kept. The stream is over if
    // memory is refused for them, or the result is its end.
    fn hear(&mut self, answer: &io::Result<usize>, piece: &[u8]) -> bool
        requires within { IfOk answer.now (λ n. n ≤ length piece.now) }
        ensures came { result ≡ true → self.new.frames ≡ self.old.frames ++ bytes_of answer.now piece.now }
        ensures none { result ≡ false → self.new.frames ≡ self.old.frames }
        ensures over { IsTrue self.new.over ↔ ((self.old.over ≡ true) ⊎ (IsStreamEnd answer.now ⊎ (IsOk answer.now × (result ≡ false)))) }
        ensures some { result ≡ true → IfOk answer.now (λ n. 0 < n) }
        ensures failed { IfErr answer.now (λ _. result ≡ false) }
        ensures others { self.new ≡ record self.old { frames = self.new.frames; over = self.new.over } }
    {
        if is_stream_end(answer) {
            self.over = true;
            return false;
        }
        let Ok(count) = answer else {
            return false;
        };
        let is_kept = self.frames.came(&piece[..*count]).is_ok();
        self.over = self.over || !is_kept;
        is_kept
    }

    // Reads a piece, and returns true if bytes arrived.
    fn read_piece(&mut self) -> bool
        ensures came { self.new.over ≡ false → Came (S.remaining self.old.stream) (S.remaining self.new.stream)
            self.old.frames self.new.frames }
        ensures asks { Asks MayEndReading (S.answers self.old.stream) (S.answers self.new.stream) self.old.over self.new.over }
        ensures none { result ≡ false → self.new.frames ≡ self.old.frames }
        ensures more { result ≡ true → length self.old.frames < length self.new.frames }
        ensures stops { result ≡ false → (self.new.over ≡ true) ⊎ HasAnswered IsErr (S.answers self.old.stream)
            (S.answers self.new.stream) }
        ensures queue { self.new.queue ≡ self.old.queue }
    {
        let mut piece = [0u8; PIECE];
        let answer = self.stream.read_once(&mut piece);
        self.hear(&answer, &piece)
    }

    // Reads a piece if the kept bytes are the beginning of a datagram, and returns true if bytes arrived.
    fn read_more(&mut self) -> bool
        ensures came { self.new.over ≡ false → Came (S.remaining self.old.stream) (S.remaining self.new.stream)
            self.old.frames self.new.frames }
        ensures asks { Asks MayEndReading (S.answers self.old.stream) (S.answers self.new.stream) self.old.over self.new.over }
        ensures more { result ≡ true → length self.old.frames < length self.new.frames }
        ensures stops { result ≡ false → HasReadAll self.new.over self.new.frames
            (S.answers self.old.stream) (S.answers self.new.stream) }
        ensures queue { self.new.queue ≡ self.old.queue }
    {
        match self.frames.front() {
            Front::Part => !self.over && self.read_piece(),
            Front::Whole(_) | Front::Spoiled => false,
        }
    }

    // Reads until a datagram is whole, or no more bytes are available.
    fn read_on(&mut self)
        ensures came { self.new.over ≡ false → Came (S.remaining self.old.stream) (S.remaining self.new.stream)
            self.old.frames self.new.frames }
        ensures asks { Asks MayEndReading (S.answers self.old.stream) (S.answers self.new.stream) self.old.over self.new.over }
        ensures stops { HasReadAll self.new.over self.new.frames (S.answers self.old.stream) (S.answers self.new.stream) }
        ensures queue { self.new.queue ≡ self.old.queue }
    {
        for _ in 0..MOST_READS {
            if !self.read_more() {
                return;
            }
        }
    }

    // Gives the first datagram, if it is whole and the stream isn't over. An impossible length ends the stream.
    fn give(&mut self, buf: &mut [u8]) -> Option<usize>
        ensures given { self.new.over ≡ false → IsGiven self.old.frames self.new.frames result buf.new }
        ensures within { IfSome result (λ n. n ≤ length buf.new) }
        ensures over { self.new.over ≡ true → (self.old.over ≡ true) ⊎ (front_of self.new.frames ≡ Front.Spoiled) }
        ensures stays { self.old.over ≡ true → self.new.over ≡ true }
        ensures others { self.new ≡ record self.old { frames = self.new.frames; over = self.new.over } }
    {
        if self.over {
            return None;
        }
        match self.frames.front() {
            Front::Whole(_) => self.frames.next(buf),
            Front::Part => None,
            Front::Spoiled => {
                self.over = true;
                None
            }
        }
    }

    /// Gives the next datagram, if a whole one has arrived. It fills `buf` from the front with as much of it as fits, and returns that
    /// length.
    pub fn receive(&mut self, buf: &mut [u8]) -> Option<usize>
        ensures receives { self.new.over ≡ false → Receives (S.remaining self.old.stream) (S.remaining self.new.stream)
            self.old.frames self.new.frames result buf.new }
        // Nothing is given only if the stream is over or a read of it failed, so a caller that waits misses no datagram.
        ensures none { result ≡ None → (self.new.over ≡ true) ⊎ HasAnswered IsErr (S.answers self.old.stream)
            (S.answers self.new.stream) }
        ensures within { IfSome result (λ n. n ≤ length buf.new) }
        ensures over { self.new.over ≡ true → IsOverByReads self.old.over self.new.frames
            (S.answers self.old.stream) (S.answers self.new.stream) }
        ensures stays { self.old.over ≡ true → self.new.over ≡ true }
        ensures queue { self.new.queue ≡ self.old.queue }
    {
        self.read_on();
        self.give(buf)
    }

    /// Queues a datagram, and returns true if it was queued; none is once the stream is over.
    pub fn send(&mut self, datagram: &[u8]) -> bool
        ensures queued { result ≡ true → IsQueued self.old.queue datagram.now self.new.queue }
        ensures open { result ≡ true → self.old.over ≡ false }
        ensures lost { result ≡ false → IsLost self.old.queue self.new.queue ⊎ ((self.old.over ≡ true) × (self.new ≡ self.old)) }
        ensures others { self.new ≡ record self.old { queue = self.new.queue } }
    {
        !self.over && self.queue.push(datagram)
    }

    // Notes the result of a write of the first queued bytes, and removes those that were taken. Returns true if some were; the stream is
    // over if the result is its end.
    fn note(&mut self, answer: &io::Result<usize>) -> bool
        requires within { IfOk answer.now (λ n. n ≤ length self.old.queue.waiting) }
        ensures over { IsTrue self.new.over ↔ ((self.old.over ≡ true) ⊎ IsStreamEnd answer.now) }
        ensures took { IfOk answer.now (λ n. self.new.queue ≡ record self.old.queue { waiting = drop n self.old.queue.waiting }) }
        ensures goes { IfOk answer.now (λ n. IsTrue result ↔ 0 < n) }
        ensures failed { IfErr answer.now (λ _. (self.new.queue ≡ self.old.queue) × (result ≡ false)) }
        ensures went { result ≡ true → IsOk answer.now }
        ensures stops { result ≡ false → (self.new.over ≡ true) ⊎ IsErr answer.now }
        ensures others { self.new ≡ record self.old { queue = self.new.queue; over = self.new.over } }
    {
        self.over = self.over || is_stream_end(answer);
        let Ok(count) = answer else {
            return false;
        };
        self.queue.took(*count);
        *count > 0
    }

    // Writes a piece of the queued bytes, and returns true if more may go at once.
    fn write_piece(&mut self) -> bool
        ensures writes { Writes (S.contents self.old.stream) (S.contents self.new.stream) self.old.queue.waiting self.new.queue.waiting }
        ensures asks { Asks IsStreamEnd (S.answers self.old.stream) (S.answers self.new.stream) self.old.over self.new.over }
        ensures stops { result ≡ false → HasStopped self.new.over self.new.queue.waiting
            (S.answers self.old.stream) (S.answers self.new.stream) }
        ensures went { result ≡ true → HasAnswered IsOk (S.answers self.old.stream) (S.answers self.new.stream) }
        ensures frames { self.new.frames ≡ self.old.frames }
    {
        let piece = self.queue.front();
        if self.over || piece.is_empty() {
            return false;
        }
        let answer = self.stream.write_once(piece);
        self.note(&answer)
    }

    /// Writes queued bytes, as many as the stream takes now, and returns true if that was all that goes at this moment.
    pub fn flush(&mut self) -> bool
        ensures writes { Writes (S.contents self.old.stream) (S.contents self.new.stream) self.old.queue.waiting self.new.queue.waiting }
        ensures over { self.new.over ≡ true → (self.old.over ≡ true)
            ⊎ HasAnswered IsStreamEnd (S.answers self.old.stream) (S.answers self.new.stream) }
        ensures stays { self.old.over ≡ true → self.new.over ≡ true }
        ensures all { result ≡ true → HasStopped self.new.over self.new.queue.waiting
            (S.answers self.old.stream) (S.answers self.new.stream) }
        ensures went { result ≡ false → HasAnswered IsOk (S.answers self.old.stream) (S.answers self.new.stream) }
        ensures frames { self.new.frames ≡ self.old.frames }
    {
        for _ in 0..MOST_WRITES {
            if !self.write_piece() {
                return true;
            }
        }
        false
    }
}
