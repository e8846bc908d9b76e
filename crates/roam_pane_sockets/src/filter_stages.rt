//! A filter between a pane's program and its terminal.
ghost use Rattle.std.specs.Prelude.{◌≡◌, ◌⊎◌, ◌≤◌, ◌<◌, ◌++◌, ℕ, List, [], true, false, length, take, Some};
ghost use Rattle.roam_pane_sockets.specs.Frames.{free, held_until};
ghost use Rattle.roam_pane_sockets.specs.Pieces.{goes_on};
ghost use Rattle.roam_pane_sockets.specs.FilterStages.{Goes, FilterStagePassesOn, HasFree, IsFree, IsSifted, empty_filter_stage};

use crate::frames::Frames;
use roam_normalize::Filter;
use roam_normalize::laws::cuts_change_nothing;
use std::alloc::Global;
use std::marker::Model;

/// How many bytes of a program are read at once at most.
pub(crate) const MOST_READ: usize = 1024;

/// A filter on that way. Bytes are queued before it if memory is refused, and behind it if the buffer is full; nothing is read meanwhile.
/// An open update is kept behind it while later bytes are read. So at most one update, no larger than allowed, and the output of a piece
/// are kept.
#[derive(Drop)]
pub(crate) struct FilterStage {
    filter: Filter,
    // The number of bytes queued before the filter, from the front.
    piece: [u8; MOST_READ],
    unread: usize,
    frames: Frames,
}

impl Model for FilterStage {
    ghost use Rattle.std.specs.Prelude.{◌≤◌, take};
    ghost use Rattle.roam_pane_sockets.specs.FilterStages.{FilterStageView};

    ghost Value = { FilterStageView };

    ghost view = { λ s. record { held = s.filter; unread = take s.unread s.piece; frames = s.frames } };

    ghost invariant = { λ s. s.unread ≤ 1024 };
}

impl FilterStage {
    pub(crate) fn new(alloc: Global) -> FilterStage
        ensures new { result ≡ empty_filter_stage }
    {
        FilterStage {
            filter: Filter::new(alloc),
            piece: [0; MOST_READ],
            unread: 0,
            frames: Frames::new(alloc),
        }
    }

    // Returns the bytes queued before the filter.
    fn unread(&self) -> &[u8]
        ensures unread { result.now ≡ self.now.unread }
    {
        self.piece.split_at(self.unread).0
    }

    // Returns true if nothing may go on at a moment, and more may be read.
    pub(crate) fn is_quiet(&self, now: u64) -> bool
        ensures quiet { result ≡ true → self.now.unread ≡ [] }
        ensures some { result ≡ false → IsFree (Some self.now) → ⊥ }
        ensures free { result ≡ true → HasFree now (Some self.now) → ⊥ }
    {
        self.unread().is_empty() && self.frames.is_held(now)
    }

    // Returns the last moment until which an update is kept back; `None` if none is.
    pub(crate) fn held_until(&self) -> Option<u64>
        ensures until { result ≡ held_until self.now.frames.frame self.now.frames.since }
    {
        self.frames.held_until()
    }

    // Returns true if the rest of an update may go on whose beginning did.
    pub(crate) fn goes_on(&self) -> bool
        ensures goes { result ≡ goes_on self.now.frames }
    {
        self.frames.goes_on()
    }

    // A piece came, and waits before the filter.
    pub(crate) fn take_in(&mut self, piece: &[u8])
        requires few { length piece.now ≤ 1024 }
        ensures waits { self.new ≡ record self.old { unread = piece.now } }
    {
        let count = piece.len();
        self.piece.split_at_mut(count).0.copy_from_slice(piece);
        self.unread = count;
    }

    // Passes the bytes queued before the filter through it, if there is memory for that.
    fn sift(&mut self, now: u64)
        requires held { free self.old.frames ≡ 0 }
        ensures sifts { (self.new ≡ self.old) ⊎ IsSifted self.old self.new now }
    {
        if let Ok(ready) = self.filter.feed(self.piece.split_at(self.unread).0) {
            self.frames.take(ready, now);
            self.unread = 0;
        }
    }

    // Passes the bytes queued before the filter through it, if nothing may go on.
    fn sift_on(&mut self, now: u64)
        ensures sifts { (self.new ≡ self.old) ⊎ IsSifted self.old self.new now }
        ensures stays { 0 < free self.old.frames → self.new ≡ self.old }
    {
        if self.frames.is_still() {
            self.sift(now);
        }
    }

    // Moves the bytes that may go on at a moment into the buffer. It passes queued bytes through the filter if there are none.
    pub(crate) fn go_on(&mut self, buf: &mut [u8], now: u64) -> usize
        ensures within { result ≤ length buf.new }
        ensures goes { (came given : List ℕ) → Goes (Some self.old) came given
            → Goes (Some self.new) came (given ++ take result buf.new) }
        ensures some { HasFree now (Some self.old) → 0 < length buf.old → 0 < result }
        ensures through { FilterStagePassesOn now self.old self.new result }
    {
        cuts_change_nothing();
        self.frames.pass(now);
        self.sift_on(now);
        self.frames.hand_on(buf)
    }
}
