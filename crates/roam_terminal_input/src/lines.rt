//! The lines that come over a stream, each ended by LF.
ghost use Rattle.std.specs.Prelude.{◌≡◌, ◌==◌, ◌++◌, ◌+◌, ◌≤◌, ◌<◌, ℕ, List, [], length, drop, IfSome, OnOk, OnErr, IsOkUnless, None, Some};
ghost use Rattle.std.specs.List.{position};
ghost use Rattle.roam_terminal_input.specs.Lines.{IsFirst, front_by, front_of, nothing_came};

use roam_cells::Fault;
use std::alloc::Global;
use std::marker::Model;

/// The most bytes of a line without its end: `paste ; `, 64 acts of 14 bytes, as `size 9999 9999`, and 63 times the 3 bytes between two.
pub const LONGEST_LINE: usize = 1093;

/// The state of the first line that isn't taken yet.
#[derive(Clone, Copy, Debug, PartialEq, Eq)]
pub enum Front {
    /// A line of so many bytes, and its end.
    Line(usize),

    /// The beginning of one, or nothing.
    Part,

    /// More bytes than a line has.
    TooLong,
}

/// The bytes that came over a stream of lines and aren't taken yet, and how many lines were taken.
#[derive(Drop)]
pub struct Lines {
    kept: Vec<u8>,
    count: u64,
}

impl Model for Lines {
    ghost use Rattle.roam_terminal_input.specs.Lines.{LinesView};

    ghost Value = { LinesView };

    ghost view = { λ l. record { kept = l.kept.items; count = l.count } };
}

// The place of the first LF.
fn end_in(kept: &[u8]) -> Option<usize>
    ensures place { result ≡ position (λ byte. byte == 0x0A) kept.now }
{
    kept.iter().position(|byte| *byte == b'\n')
}

// Returns the state of the first line, given the place of the first LF and so many bytes.
fn front_by(end: Option<usize>, count: usize) -> Front
    ensures front { result ≡ front_by end count }
{
    match end {
        Some(end) if end <= LONGEST_LINE => Front::Line(end),
        Some(_) => Front::TooLong,
        None if count <= LONGEST_LINE => Front::Part,
        None => Front::TooLong,
    }
}

// Drops the first bytes.
fn drop_front(kept: &mut Vec<u8>, count: usize)
    requires within { count ≤ length kept.old.items }
    ensures dropped { kept.new.items ≡ drop count kept.old.items }
{
    drop(kept.drain(..count));
}

impl Lines {
    /// Nothing came yet.
    pub fn new(alloc: Global) -> Lines
        ensures none { result ≡ nothing_came }
    {
        Lines {
            kept: Vec::new(alloc),
            count: 0,
        }
    }

    /// How many lines were taken.
    pub fn count(&self) -> u64
        ensures count { result ≡ self.now.count }
    {
        self.count
    }

    /// Returns the state of the first line. It takes no memory.
    pub fn front(&self) -> Front
        ensures front { result ≡ front_of self.now.kept }
    {
        front_by(end_in(self.kept.as_slice()), self.kept.len())
    }

    /// Returns the first line without its end, if it is whole. It takes no memory.
    pub fn first(&self) -> Option<&[u8]>
        ensures first { IfSome result (λ line. IsFirst self.now.kept line.now (drop (length line.now + 1) self.now.kept)) }
        ensures none { result ≡ None → (line rest : List ℕ) → IsFirst self.now.kept line rest → ⊥ }
    {
        match self.front() {
            Front::Line(len) => Some(self.kept.as_slice().split_at(len).0),
            Front::Part | Front::TooLong => None,
        }
    }

    /// More bytes came. Refuses want of memory, and has none of them then.
    pub fn came(&mut self, piece: &[u8]) -> Result<(), Fault>
        ensures came { OnOk result (self.new ≡ record self.old { kept = self.old.kept ++ piece.now }) }
        ensures err { OnErr result (self.new ≡ self.old) }
        ensures fault { IsOkUnless result Fault.OutOfMemory }
    {
        self.kept.extend_from_slice(piece)?;
        Ok(())
    }

    /// Removes the first line, if it is whole. It takes no memory.
    pub fn took(&mut self)
        ensures took { (line rest : List ℕ) → IsFirst self.old.kept line rest → self.new.kept ≡ rest }
        ensures none { ((line rest : List ℕ) → IsFirst self.old.kept line rest → ⊥) → self.new ≡ self.old }
    {
        let Front::Line(len) = self.front() else {
            return;
        };
        drop_front(&mut self.kept, len + 1);
        self.count = self.count.saturating_add(1);
    }
}
