//! The queue for the reader at the other end of a stream.
ghost use Rattle.std.specs.Prelude.{◌≡◌, ◌+◌, ◌++◌, ◌<◌, ◌≤◌, ℕ, List, true, false, length, drop, IfOk, OnOk, OnErr, IsOkUnless};
ghost use Rattle.roam_stream_framing.specs.Frames.{IsCarried, framed};
ghost use Rattle.roam_stream_framing.specs.Queues.{IsLost, IsQueued, index_of, may_queue, most_waiting, nothing_queued};

use crate::backlog::Backlog;
use crate::frames::LONGEST_DATAGRAM;
use byteorder::{BigEndian, ByteOrder};
use roam_cells::Fault;
use std::alloc::Global;
use std::marker::Model;

/// While so little waits, an instruction more is queued.
const LITTLE: usize = 65_536;

/// The most that waits: behind that little the largest instruction, which is 2,755 datagrams of 3,421,092 bytes, each behind its length.
const MOST_WAITING: usize = LITTLE + 3_421_092 + 2 * 2_755;

/// The length of a datagram's header, and the place in it of its fragment's number in the instruction.
const HEADER: usize = 42;

const INDEX_AT: usize = 36;

/// Datagrams for the reader at the other end of a stream. They are queued by instruction: all datagrams of one if the queue is short, or
/// none of them. The queue has at most 3,492,138 bytes.
#[derive(Drop)]
pub struct Queue {
    backlog: Backlog,
    takes: bool,
}

impl Model for Queue {
    ghost use Rattle.std.specs.Prelude.{◌≤◌, length};
    ghost use Rattle.roam_stream_framing.specs.Queues.{Queued, most_waiting};

    ghost Value = { Queued };

    ghost view = { λ q. record { waiting = q.backlog; takes = q.takes } };

    ghost invariant = { λ q. length q.backlog ≤ most_waiting };
}

// The place of a datagram's fragment in its instruction, from 0.
fn index_of(datagram: &[u8]) -> u16
    ensures index { result ≡ index_of datagram.now }
{
    if datagram.len() < HEADER {
        return 0;
    }
    BigEndian::read_u16(datagram.split_at(INDEX_AT).1)
}

// Returns true if a datagram has a possible length.
fn is_carried(datagram: &[u8]) -> bool
    ensures carried { result ≡ true → IsCarried datagram.now }
    ensures refused { result ≡ false → IsCarried datagram.now → ⊥ }
{
    !datagram.is_empty() && datagram.len() <= LONGEST_DATAGRAM
}

// Adds a datagram behind its length, whole or not at all. Refuses want of memory.
fn push(backlog: &mut Backlog, datagram: &[u8]) -> Result<(), Fault>
    requires carried { IsCarried datagram.now }
    requires few { length backlog.old ≤ most_waiting }
    ensures pushed { OnOk result (backlog.new ≡ backlog.old ++ framed datagram.now) }
    ensures err { OnErr result (backlog.new ≡ backlog.old) }
    ensures fault { IsOkUnless result Fault.OutOfMemory }
{
    let mut framed = [0u8; LONGEST_DATAGRAM + 2];
    let len = datagram.len();
    BigEndian::write_u16(&mut framed, len as u16);
    framed[2..2 + len].copy_from_slice(datagram);
    backlog.push(&framed[..2 + len])
}

impl Queue {
    /// Nothing waits.
    pub fn new(alloc: Global) -> Queue
        ensures none { result ≡ nothing_queued }
    {
        Queue {
            backlog: Backlog::new(alloc),
            takes: false,
        }
    }

    /// Returns the first piece of the queued bytes, of whole datagrams if whole ones were taken. It is empty exactly if none are queued.
    pub fn front(&self) -> &[u8]
        ensures front { (rest : List ℕ) × (self.now.waiting ≡ result.now ++ rest) }
        ensures some { 0 < length self.now.waiting → 0 < length result.now }
        ensures most { length self.now.waiting ≤ most_waiting }
    {
        self.backlog.front()
    }

    // Returns true if a datagram may be queued.
    fn may_queue(&self, datagram: &[u8]) -> bool
        ensures may { result ≡ may_queue self.now datagram.now }
    {
        if index_of(datagram) == 0 {
            self.backlog.len() <= LITTLE
        } else {
            self.takes && self.backlog.len() + (datagram.len() + 2) <= MOST_WAITING
        }
    }

    /// Queues a datagram, and returns true if it was queued. The first of an instruction is queued if at most 65,536 bytes are; a later one
    /// if those before it were. If one isn't, or memory is refused for it, it is lost with all that follow it.
    pub fn push(&mut self, datagram: &[u8]) -> bool
        ensures queued { result ≡ true → IsQueued self.old datagram.now self.new }
        ensures lost { result ≡ false → IsLost self.old self.new }
    {
        self.takes = is_carried(datagram)
            && self.may_queue(datagram)
            && push(&mut self.backlog, datagram).is_ok();
        self.takes
    }

    /// The first so many bytes were written.
    pub fn took(&mut self, count: usize)
        requires within { count ≤ length self.old.waiting }
        ensures left { self.new ≡ record self.old { waiting = drop count self.old.waiting } }
    {
        self.backlog.took(count);
    }
}
