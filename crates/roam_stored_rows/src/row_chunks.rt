//! Any number of rows, in chunks of 256.
ghost use Rattle.std.specs.Prelude.{◌≡◌, ◌+◌, ◌<◌, ◌≤◌, ◌∷◌, ◌++◌, ℕ, List, [], drop, length, take, OnErr, OnOk};
ghost use Rattle.roam_stored_rows.specs.Chunks.{AllWhole, joined, whole};
ghost use Rattle.roam_stored_rows.specs.Rows.{StoredRow, row_of};

use crate::chunks::RowChunk;
use crate::wraps::Wrap;
use std::alloc::{AllocError, Global};
use std::collections::VecDeque;
use std::marker::Model;
use std::mem::replace;

// So many rows make a chunk whole.
const WHOLE: usize = 256;

/// Any number of rows: a row is found at once by its place, and the oldest and the newest go without a copy of the others.
#[derive(Drop)]
pub(crate) struct RowChunks {
    alloc: Global,
    whole: VecDeque<RowChunk>,
    last: RowChunk,
    // So many rows at the begin of the first chunk are dropped.
    dropped: usize,
    count: usize,
}

impl Model for RowChunks {
    ghost use Rattle.std.specs.Prelude.{◌≡◌, ◌+◌, ◌^◌, ◌<◌, ◌≤◌, ◌++◌, drop, length, List};
    ghost use Rattle.roam_stored_rows.specs.Rows.{StoredRow};
    ghost use Rattle.roam_stored_rows.specs.Chunks.{AllWhole, AreChunks, joined, whole};

    ghost Value = { List StoredRow };

    ghost view = { λ a. drop a.dropped (joined a.whole.items ++ a.last) };

    ghost invariant = { λ a. AreChunks a.whole.items a.last a.dropped a.count };
}

// Removes the whole chunks whose rows are all dropped, and returns how many rows of the others are.
fn forget(chunks: &mut VecDeque<RowChunk>, dropped: usize) -> usize
    requires whole { AllWhole chunks.old.items }
    ensures rest { (last : List StoredRow) → drop result (joined chunks.new.items ++ last) ≡ drop dropped (joined chunks.old.items ++ last) }
    ensures count { length (joined chunks.new.items) + dropped ≡ length (joined chunks.old.items) + result }
    ensures chunks { AllWhole chunks.new.items }
    ensures fewer { result ≤ dropped }
{
    let mut left = dropped;
    while WHOLE <= left {
        let Some(_) = chunks.pop_front() else {
            return left;
        };
        left -= WHOLE;
    }
    left
}

// Removes all rows but the first ones.
fn keep_first(chunks: &mut VecDeque<RowChunk>, last: &mut RowChunk, count: usize)
    requires chunks { AllWhole chunks.old.items }
    requires last { length last.old ≤ whole }
    ensures rows { joined chunks.new.items ++ last.new ≡ take count (joined chunks.old.items ++ last.old) }
    ensures chunks { AllWhole chunks.new.items }
    ensures last { length last.new ≤ whole }
{
    if chunks.len() <= count / WHOLE {
        last.truncate(count - chunks.len() * WHOLE);
        return;
    }
    chunks.truncate(count / WHOLE + 1);
    if let Some(mut chunk) = chunks.pop_back() {
        chunk.truncate(count % WHOLE);
        *last = chunk;
    }
}

impl RowChunks {
    /// No rows.
    pub(crate) fn new(alloc: Global) -> Self
        ensures none { result ≡ [] }
    {
        RowChunks {
            alloc,
            whole: VecDeque::new(alloc),
            last: RowChunk::new(alloc),
            dropped: 0,
            count: 0,
        }
    }

    /// How many rows they are.
    pub(crate) fn len(&self) -> usize
        ensures len { result ≡ length self.now }
    {
        self.count
    }

    // The chunk of a row, and its place there.
    fn chunk_of(&self, at: usize) -> (&RowChunk, usize)
        requires within { at < length self.now }
        ensures within { result.1 < length result.0.now }
        ensures row { row_of result.0.now result.1 ≡ row_of self.now at }
    {
        let place = self.dropped + at;
        if place / WHOLE < self.whole.len() {
            (&self.whole[place / WHOLE], place % WHOLE)
        } else {
            (&self.last, place - self.whole.len() * WHOLE)
        }
    }

    /// The bytes of a row.
    pub(crate) fn text_at(&self, at: usize) -> &[u8]
        requires within { at < length self.now }
        ensures text { result.now ≡ (row_of self.now at).text }
    {
        let (chunk, place) = self.chunk_of(at);
        chunk.text_at(place)
    }

    /// How a row ends.
    pub(crate) fn wrap_at(&self, at: usize) -> Wrap
        requires within { at < length self.now }
        ensures wrap { result ≡ (row_of self.now at).wrap }
    {
        let (chunk, place) = self.chunk_of(at);
        chunk.wrap_at(place)
    }

    // Begins another chunk with a row, behind the last one.
    fn push_chunk(&mut self, wrap: Wrap, text: &[u8]) -> Result<(), AllocError>
        ensures ok { OnOk result (self.new ≡ self.old ++ record { wrap = wrap; text = text.now } ∷ []) }
        ensures err { OnErr result (self.new ≡ self.old) }
    {
        if self.last.len() != WHOLE || usize::MAX - self.dropped == self.count {
            return Err(AllocError);
        }
        let mut fresh = RowChunk::new(self.alloc);
        fresh.push(wrap, text)?;
        let full = replace(&mut self.last, fresh);
        if let Err(refused) = self.whole.push_back(full) {
            self.last = refused.value;
            return Err(AllocError);
        }
        self.count += 1;
        Ok(())
    }

    /// Adds a row.
    pub(crate) fn push(&mut self, wrap: Wrap, text: &[u8]) -> Result<(), AllocError>
        ensures ok { OnOk result (self.new ≡ self.old ++ record { wrap = wrap; text = text.now } ∷ []) }
        ensures err { OnErr result (self.new ≡ self.old) }
    {
        if WHOLE <= self.last.len() {
            return self.push_chunk(wrap, text);
        }
        if usize::MAX - self.dropped == self.count {
            return Err(AllocError);
        }
        self.last.push(wrap, text)?;
        self.count += 1;
        Ok(())
    }

    /// Removes all rows.
    pub(crate) fn clear(&mut self)
        ensures none { self.new ≡ [] }
    {
        self.whole.clear();
        self.last.truncate(0);
        self.dropped = 0;
        self.count = 0;
    }

    /// Removes all rows but the first ones.
    pub(crate) fn truncate(&mut self, count: usize)
        ensures first { self.new ≡ take count self.old }
    {
        if self.count <= count {
            return;
        }
        keep_first(&mut self.whole, &mut self.last, self.dropped + count);
        self.count = count;
    }

    /// Removes the first rows.
    pub(crate) fn drop_first(&mut self, count: usize)
        ensures rest { self.new ≡ drop count self.old }
    {
        if self.count <= count {
            self.clear();
            return;
        }
        self.dropped = forget(&mut self.whole, self.dropped + count);
        self.count -= count;
    }
}
