//! Bytes that wait to be written.
ghost use Rattle.std.specs.Prelude.{◌≡◌, ◌++◌, ◌≤◌, ℕ, List, [], length, drop, OnOk, OnErr, IsOkUnless};

use roam_cells::Fault;
use std::alloc::Global;
use std::marker::Model;

/// The number of written bytes that are kept before the queued ones move to the front, if these are fewer. As much memory is kept for the
/// next bytes.
const MOST_KEPT: usize = 65_536;

/// Bytes that wait to be written, first in first out.
#[derive(Drop)]
pub struct Outbox {
    bytes: Vec<u8>,
    taken: usize,
}

impl Model for Outbox {
    ghost use Rattle.std.specs.Prelude.{ℕ, List, drop, length, ◌≤◌};

    ghost Value = { List ℕ };

    ghost view = { λ o. drop o.taken o.bytes.items };

    ghost invariant = { λ o. o.taken ≤ length o.bytes.items };
}

impl Outbox {
    /// Nothing waits.
    pub fn new(alloc: Global) -> Outbox
        ensures none { result ≡ [] }
    {
        Outbox {
            bytes: Vec::new(alloc),
            taken: 0,
        }
    }

    /// How many bytes wait.
    pub fn len(&self) -> usize
        ensures len { result ≡ length self.now }
    {
        self.bytes.len() - self.taken
    }

    /// Returns the queued bytes.
    pub fn as_slice(&self) -> &[u8]
        ensures bytes { result.now ≡ self.now }
    {
        self.bytes.as_slice().split_at(self.taken).1
    }

    /// Adds bytes behind those that wait, all or none. Refuses want of memory.
    pub fn push(&mut self, more: &[u8]) -> Result<(), Fault>
        ensures pushed { OnOk result (self.new ≡ self.old ++ more.now) }
        ensures err { OnErr result (self.new ≡ self.old) }
        ensures fault { IsOkUnless result Fault.OutOfMemory }
    {
        self.bytes.extend_from_slice(more)?;
        Ok(())
    }

    /// The first so many were written.
    pub fn took(&mut self, count: usize)
        requires within { count ≤ length self.old }
        ensures left { self.new ≡ drop count self.old }
    {
        self.taken += count;
        if self.taken == self.bytes.len()
            || (self.taken > MOST_KEPT && self.taken > self.bytes.len() / 2)
        {
            drop(self.bytes.drain(..self.taken));
            self.bytes.shrink_to(MOST_KEPT);
            self.taken = 0;
        }
    }

    /// Nothing waits any more.
    pub fn clear(&mut self)
        ensures none { self.new ≡ [] }
    {
        self.bytes.clear();
        self.bytes.shrink_to(MOST_KEPT);
        self.taken = 0;
    }
}
