//! The bytes read from a stream of datagrams, each behind its length.
ghost use Rattle.std.specs.Prelude.{◌≡◌, ◌≢◌, ◌++◌, ◌≤◌, ℕ, List, [], length, drop, None, IfSome, OnOk, OnErr, IsOkUnless};
ghost use Rattle.roam_stream_framing.specs.Frames.{Gives, IsFilled, IsFirst, front_by, front_of};

use byteorder::{BigEndian, ByteOrder};
use roam_cells::Fault;
use std::alloc::Global;
use std::marker::Model;

/// The most bytes of a datagram: a header's 42 and a payload's 1,200.
pub const LONGEST_DATAGRAM: usize = 1242;

/// How many bytes a length takes.
const LENGTH: usize = 2;

/// The state of the first datagram that isn't given yet.
#[derive(Clone, Copy, Debug, PartialEq, Eq)]
pub enum Front {
    /// A whole datagram of so many bytes, 1 to 1,242.
    Whole(usize),

    /// The beginning of one, or nothing.
    Part,

    /// An impossible length: the beginning of the next datagram is unknown.
    Spoiled,
}

/// The bytes that came over a stream of datagrams and aren't given yet.
#[derive(Drop)]
pub struct Frames {
    kept: Vec<u8>,
}

impl Model for Frames {
    ghost use Rattle.std.specs.Prelude.{ℕ, List};

    ghost Value = { List ℕ };

    ghost view = { λ f. f.kept.items };
}

// Returns the state of the first datagram, given its length and so many bytes.
fn front_by(len: usize, count: usize) -> Front
    requires len { len ≤ 65535 }
    ensures front { result ≡ front_by len count }
{
    if len == 0 || len > LONGEST_DATAGRAM {
        Front::Spoiled
    } else if count < len + LENGTH {
        Front::Part
    } else {
        Front::Whole(len)
    }
}

// Returns the state of the first datagram of these bytes.
fn front_in(kept: &[u8]) -> Front
    ensures front { result ≡ front_of kept.now }
{
    if kept.len() < LENGTH {
        return Front::Part;
    }
    front_by(usize::from(BigEndian::read_u16(kept)), kept.len())
}

/// Returns the first datagram of these bytes, if it is whole.
pub fn first_in(kept: &[u8]) -> Option<&[u8]>
    ensures first { IfSome result (λ d. IsFirst kept.now d.now) }
    ensures none { result ≡ None → (n : ℕ) → front_of kept.now ≢ Front.Whole n }
{
    match front_in(kept) {
        Front::Whole(len) => Some(kept.split_at(LENGTH).1.split_at(len).0),
        Front::Part | Front::Spoiled => None,
    }
}

// Drops the first bytes.
fn drop_front(kept: &mut Vec<u8>, count: usize)
    requires within { count ≤ length kept.old.items }
    ensures dropped { kept.new.items ≡ drop count kept.old.items }
{
    drop(kept.drain(..count));
}

// Fills a buffer from the front with as much of a datagram as fits, and returns that length.
fn fill(datagram: &[u8], buf: &mut [u8]) -> usize
    ensures filled { IsFilled datagram.now result buf.new }
    ensures within { result ≤ length buf.new }
{
    let len = datagram.len().min(buf.len());
    buf.split_at_mut(len)
        .0
        .copy_from_slice(datagram.split_at(len).0);
    len
}

impl Frames {
    /// Nothing came yet.
    pub fn new(alloc: Global) -> Frames
        ensures none { result ≡ [] }
    {
        Frames {
            kept: Vec::new(alloc),
        }
    }

    /// Returns the state of the first datagram. It takes no memory.
    pub fn front(&self) -> Front
        ensures front { result ≡ front_of self.now }
    {
        front_in(self.kept.as_slice())
    }

    /// More bytes came. Refuses want of memory, and has none of them then.
    pub fn came(&mut self, piece: &[u8]) -> Result<(), Fault>
        ensures came { OnOk result (self.new ≡ self.old ++ piece.now) }
        ensures err { OnErr result (self.new ≡ self.old) }
        ensures fault { IsOkUnless result Fault.OutOfMemory }
    {
        self.kept.extend_from_slice(piece)?;
        Ok(())
    }

    /// Gives the first datagram, if it is whole. It fills `buf` from the front with as much of it as fits, and returns that length. The
    /// rest is lost, as at a datagram socket. It takes no memory.
    pub fn next(&mut self, buf: &mut [u8]) -> Option<usize>
        ensures gives { IfSome result (λ n. Gives self.old self.new n buf.new) }
        ensures within { IfSome result (λ n. n ≤ length buf.new) }
        ensures none { result ≡ None → (self.new ≡ self.old) × ((n : ℕ) → front_of self.old ≢ Front.Whole n) }
    {
        let datagram = first_in(self.kept.as_slice())?;
        let framed = LENGTH + datagram.len();
        let count = fill(datagram, buf);
        drop_front(&mut self.kept, framed);
        Some(count)
    }
}
