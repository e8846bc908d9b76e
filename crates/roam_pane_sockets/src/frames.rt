//! Synchronized updates, which reach a pane's terminal as a whole.
ghost use Rattle.std.specs.Prelude.{◌≡◌, ◌≤◌, ◌<◌, ◌⊎◌, ◌-◌, ◌++◌, ◌↔◌, [], List, ℕ, true, false, length, take, drop, is_some, None, IfSome, IsTrue};
ghost use Rattle.roam_pane_sockets.specs.Frames.{HasNoEscape, HasNoMark, Takes, closes, frame_after, frame_at, frame_left, frame_with, free, free_before, held_until, is_over, no_frames, opens, since_after};
ghost use Rattle.roam_pane_sockets.specs.Pieces.{goes_on, left_open, piece_of};

use crate::moments::{after, is_time};
use crate::pieces::{left_open, piece_before};
use memchr::memchr;
use std::alloc::Global;
use std::marker::Model;
use std::mem::swap;

/// An update is kept back for at most this many milliseconds.
const LONGEST_HOLD: u64 = 150;

/// An update is kept back up to this many bytes.
const MOST_HELD: usize = 262_144;

/// ESC, with which CSI begins in 7 bits (ECMA-48, 5.3).
const ESCAPE: u8 = 0x1B;

/// The question mark: part of both sequences, and of no rendition.
const MARK: u8 = b'?';

/// The filter's output that hasn't gone on yet. An open update at its end is kept as a whole until it ends, for a limited time, and up to a
/// limited size.
#[derive(Drop)]
pub(crate) struct Frames {
    alloc: Global,
    ready: Vec<u8>,
    // The bytes behind it for which memory was refused. No update is kept back then.
    later: Vec<u8>,
    // Where the frame begins that is open.
    frame: Option<usize>,
    since: u64,
    // True if an update is open behind the bytes that went on.
    within: bool,
}

impl Model for Frames {
    ghost use Rattle.std.specs.Prelude.{◌≡◌, ◌≤◌, ◌++◌, [], length, nat_lt, IfSome};
    ghost use Rattle.roam_pane_sockets.specs.Frames.{FramesView};

    ghost Value = { FramesView };

    ghost view = { λ f. record {
      ready = f.ready.items ++ f.later.items;
      frame = f.frame;
      since = f.since;
      within = f.within;
      short = nat_lt 0 (length f.later.items);
    } };

    ghost invariant = { λ f. IfSome f.frame (λ begin. (begin ≤ length f.ready.items) × (f.later.items ≡ [])) };
}

fn opens(bytes: &[u8]) -> bool
    ensures opens { result ≡ opens bytes.now }
{
    matches!(
        bytes,
        [ESCAPE, b'[', b'?', b'2', b'0', b'2', b'6', b'h', ..]
    )
}

fn closes(bytes: &[u8]) -> bool
    ensures closes { result ≡ closes bytes.now }
{
    matches!(
        bytes,
        [ESCAPE, b'[', b'?', b'2', b'0', b'2', b'6', b'l', ..]
    )
}

pub(crate) fn frame_with(frame: Option<usize>, at: usize, bytes: &[u8]) -> Option<usize>
    ensures frame { result ≡ frame_with frame at bytes.now }
    ensures within { IfSome frame (λ begin. begin ≤ at) → IfSome result (λ begin. begin ≤ at) }
{
    if closes(bytes) {
        None
    } else if opens(bytes) && frame.is_none() {
        Some(at)
    } else {
        frame
    }
}

// How many bytes come before the next ESC: with none of them a frame begins or ends.
pub(crate) fn still_run(bytes: &[u8]) -> usize
    ensures within { result ≤ length bytes.now }
    ensures still { HasNoEscape (take result bytes.now) }
{
    match memchr(ESCAPE, bytes) {
        Some(at) => at,
        None => bytes.len(),
    }
}

// Where the frame begins that is open behind these bytes, the first of which come behind a place.
fn frame_after(frame: Option<usize>, from: usize, bytes: &[u8]) -> Option<usize>
    requires from { from ≤ length bytes.now }
    ensures frame { result ≡ frame_after frame from (drop from bytes.now) }
    ensures within { IfSome frame (λ begin. begin ≤ from) → IfSome result (λ begin. begin ≤ length bytes.now) }
{
    let mut open = frame;
    let mut at = from;
    while at < bytes.len() {
        at += still_run(bytes.split_at(at).1);
        if at < bytes.len() {
            open = frame_with(open, at, bytes.split_at(at).1);
            at += 1;
        }
    }
    open
}

// A frame began behind a place at this moment, or one that was open goes on.
fn since_after(frame: Option<usize>, from: usize, since: u64, now: u64) -> u64
    ensures since { result ≡ since_after frame from since now }
{
    match frame {
        Some(begin) if from <= begin => now,
        Some(_) | None => since,
    }
}

// Appends a chunk to the ready bytes, and returns it if memory is refused, else an empty one.
fn append(alloc: Global, ready: &mut Vec<u8>, chunk: Vec<u8>) -> Vec<u8>
    ensures all { ready.new.items ++ result.items ≡ ready.old.items ++ chunk.items }
    ensures whole { (result.items ≡ []) ⊎ (ready.new.items ≡ ready.old.items) }
    ensures more { length ready.old.items ≤ length ready.new.items }
{
    if ready.extend_from_slice(&chunk).is_ok() {
        Vec::new(alloc)
    } else {
        chunk
    }
}

// Returns true if no question mark is among some bytes, so that no update begins or ends there.
pub(crate) fn has_no_mark(bytes: &[u8]) -> bool
    ensures none { result ≡ true → HasNoMark bytes.now }
{
    match memchr(MARK, bytes) {
        Some(_) => false,
        None => true,
    }
}

// Returns the beginning of the update that is open after the appended bytes. None is kept back if memory was refused.
fn frame_behind(frame: Option<usize>, from: usize, ready: &[u8], later: &[u8]) -> Option<usize>
    requires from { from ≤ length ready.now }
    ensures frame { later.now ≡ [] → result ≡ frame_after frame from (drop from ready.now) }
    ensures none { (later.now ≡ [] → ⊥) → result ≡ None }
    ensures within { IfSome frame (λ begin. begin ≤ from) → IfSome result (λ begin. (begin ≤ length ready.now) × (later.now ≡ [])) }
{
    if !later.is_empty() {
        None
    } else if has_no_mark(ready.split_at(from).1) {
        frame
    } else {
        frame_after(frame, from, ready)
    }
}

// Returns true if an update isn't to be kept back any more at a moment.
fn is_over(frame: Option<usize>, count: usize, since: u64, now: u64) -> bool
    ensures over { (ready : List ℕ) → length ready ≡ count → result ≡ is_over frame ready since now }
{
    match frame {
        None => false,
        Some(begin) => {
            is_time(Some(since), now, LONGEST_HOLD) || count.saturating_sub(begin) >= MOST_HELD
        }
    }
}

// Moves the bytes behind the ready ones forward if there are no ready ones.
fn bring_up(ready: &mut Vec<u8>, later: &mut Vec<u8>)
    ensures all { ready.new.items ++ later.new.items ≡ ready.old.items ++ later.old.items }
    ensures first { ready.new.items ≡ [] → later.new.items ≡ [] }
    ensures none { later.old.items ≡ [] → (ready.new.items ≡ ready.old.items) × (later.new.items ≡ []) }
{
    if ready.is_empty() {
        swap(ready, later);
    }
}

// How many bytes may be handed on of those that are ready.
fn first_free(frame: Option<usize>, ready: &[u8]) -> usize
    ensures free { result ≡ free_before frame ready.now }
{
    match frame {
        None => ready.len(),
        Some(begin) => begin,
    }
}

// Where the frame begins once the first so many bytes were handed on.
fn frame_left(frame: Option<usize>, count: usize) -> Option<usize>
    ensures left { result ≡ frame_left frame count }
{
    match frame {
        None => None,
        Some(begin) => Some(begin.saturating_sub(count)),
    }
}

impl Frames {
    /// Nothing went through yet.
    pub(crate) fn new(alloc: Global) -> Frames
        ensures new { result ≡ no_frames }
    {
        Frames {
            alloc,
            ready: Vec::new(alloc),
            later: Vec::new(alloc),
            frame: None,
            since: 0,
            within: false,
        }
    }

    // Returns the beginning of the update that is kept back at a moment.
    fn frame_at(&self, now: u64) -> Option<usize>
        ensures frame { result ≡ frame_at now self.now }
    {
        let length = self.ready.len().saturating_add(self.later.len());
        if is_over(self.frame, length, self.since, now) {
            None
        } else {
            self.frame
        }
    }

    /// Ends an update that is over at a moment.
    pub(crate) fn pass(&mut self, now: u64)
        ensures passed { self.new ≡ record self.old { frame = frame_at now self.old } }
    {
        self.frame = self.frame_at(now);
    }

    /// Returns true if all bytes went on that may at a moment.
    pub(crate) fn is_held(&self, now: u64) -> bool
        ensures held { IsTrue result ↔ (free_before (frame_at now self.now) self.now.ready ≡ 0) }
        ensures none { self.now.ready ≡ [] → result ≡ true }
    {
        match self.frame_at(now) {
            None => self.ready.is_empty() && self.later.is_empty(),
            Some(begin) => begin == 0,
        }
    }

    /// Returns the same for the update as noted.
    pub(crate) fn is_still(&self) -> bool
        ensures still { IsTrue result ↔ (free self.now ≡ 0) }
    {
        match self.frame {
            None => self.ready.is_empty() && self.later.is_empty(),
            Some(begin) => begin == 0,
        }
    }

    /// Returns the last moment until which an update is kept back; `None` if none is.
    pub(crate) fn held_until(&self) -> Option<u64>
        ensures until { result ≡ held_until self.now.frame self.now.since }
    {
        match self.frame {
            None => None,
            Some(_) => after(Some(self.since), LONGEST_HOLD),
        }
    }

    /// Adds output behind the rest, of which nothing may go on now.
    pub(crate) fn take(&mut self, chunk: Vec<u8>, now: u64)
        requires held { free self.old ≡ 0 }
        ensures takes { Takes self.old self.new chunk.items now }
    {
        let from = self.ready.len();
        self.later = append(self.alloc, &mut self.ready, chunk);
        self.frame = frame_behind(self.frame, from, &self.ready, &self.later);
        self.since = since_after(self.frame, from, self.since, now);
    }

    /// Returns true if the rest of an update is to go on whose beginning did.
    pub(crate) fn goes_on(&self) -> bool
        ensures goes { result ≡ goes_on self.now }
    {
        self.within && !self.is_still()
    }

    /// Moves the bytes that may go on into the buffer, as many as fit. If they would end within an update, the piece ends behind the
    /// update's beginning.
    pub(crate) fn hand_on(&mut self, buf: &mut [u8]) -> usize
        ensures within { result ≤ length buf.new }
        ensures free { result ≤ free self.old }
        ensures some { 0 < free self.old → 0 < length buf.old → 0 < result }
        ensures bytes { take result buf.new ≡ take result self.old.ready }
        ensures rest { self.new ≡ record self.old {
          ready = drop result self.old.ready;
          frame = frame_left self.old.frame result;
          within = self.new.within;
          short = self.new.short;
        } }
        // The case that all bytes had memory.
        ensures piece { self.old.short ≡ false → result ≡ piece_of self.old (length buf.old) }
        ensures open { self.old.short ≡ false → self.new.within ≡ is_some (left_open self.old (length buf.old)) }
        ensures short { self.old.short ≡ false → self.new.short ≡ false }
    {
        bring_up(&mut self.ready, &mut self.later);
        let most = first_free(self.frame, &self.ready).min(buf.len());
        let frame = left_open(self.within, &self.ready, most);
        let count = piece_before(self.within, frame, most);
        buf.split_at_mut(count)
            .0
            .copy_from_slice(self.ready.as_slice().split_at(count).0);
        drop(self.ready.drain(..count));
        self.frame = frame_left(self.frame, count);
        self.within = frame.is_some();
        count
    }
}
