//! Bytes that wait to be written, kept in pieces.
ghost use Rattle.std.specs.Prelude.{◌≡◌, ◌+◌, ◌^◌, ◌++◌, ◌<◌, ◌≤◌, ℕ, List, [], length, drop, min, OnOk, OnErr, IsOkUnless};
ghost use Rattle.roam_stream_framing.specs.Backlogs.{AreFilled, joined};

use roam_cells::Fault;
use std::alloc::Global;
use std::marker::Model;
use std::mem::replace;

/// So many bytes a piece has at most.
const MOST_OF_A_PIECE: usize = 32_768;

/// A first-in, first-out queue of bytes to be written. It is kept in pieces, each of which is freed once written. So memory is taken and
/// freed in blocks of a size that fits gaps, while a growing vector has to move to a larger block.
#[derive(Drop)]
pub(crate) struct Backlog {
    alloc: Global,
    full: Vec<Vec<u8>>,
    last: Vec<u8>,
    len: usize,
}

impl Model for Backlog {
    ghost use Rattle.std.specs.Prelude.{◌≡◌, ◌++◌, ℕ, List, length};
    ghost use Rattle.roam_stream_framing.specs.Backlogs.{AreFilled, joined};

    ghost Value = { List ℕ };

    ghost view = { λ b. joined b.full.items ++ b.last.items };

    ghost invariant = { λ b. (b.len ≡ length (joined b.full.items ++ b.last.items)) × AreFilled b.full.items };
}

// The last piece is full. Refuses want of memory.
fn part(alloc: Global, full: &mut Vec<Vec<u8>>, last: &mut Vec<u8>) -> Result<(), Fault>
    requires some { 0 < length last.old.items }
    requires filled { AreFilled full.old.items }
    ensures same { joined full.new.items ++ last.new.items ≡ joined full.old.items ++ last.old.items }
    ensures filled { AreFilled full.new.items }
    ensures fault { IsOkUnless result Fault.OutOfMemory }
{
    full.reserve(1)?;
    let piece = replace(last, Vec::new(alloc));
    full.push_reserved(piece);
    Ok(())
}

// Removes the first bytes of a piece, and returns how many: at most all.
fn take(piece: &mut Vec<u8>, count: usize) -> usize
    ensures left { piece.new.items ≡ drop result piece.old.items }
    ensures taken { result ≡ min count (length piece.old.items) }
{
    let taken = count.min(piece.len());
    drop(piece.drain(..taken));
    taken
}

// Removes the first bytes of the first piece, and the piece once it is empty. Returns how many.
fn take_first(full: &mut Vec<Vec<u8>>, count: usize) -> usize
    requires some { 0 < length full.old.items }
    requires filled { AreFilled full.old.items }
    ensures left { joined full.new.items ≡ drop result (joined full.old.items) }
    ensures filled { AreFilled full.new.items }
    ensures within { result ≤ count }
    ensures fits { result ≤ length (joined full.old.items) }
    ensures some { 0 < count → 0 < result }
{
    if full[0].len() > count {
        return take(&mut full[0], count);
    }
    full.remove(0).len()
}

impl Backlog {
    /// Nothing waits.
    pub(crate) fn new(alloc: Global) -> Backlog
        ensures none { result ≡ [] }
    {
        Backlog {
            alloc,
            full: Vec::new(alloc),
            last: Vec::new(alloc),
            len: 0,
        }
    }

    /// How many bytes wait.
    pub(crate) fn len(&self) -> usize
        ensures len { result ≡ length self.now }
    {
        self.len
    }

    /// Returns the first piece of the queued bytes: empty exactly if none are queued.
    pub(crate) fn front(&self) -> &[u8]
        ensures front { (rest : List ℕ) × (self.now ≡ result.now ++ rest) }
        ensures some { 0 < length self.now → 0 < length result.now }
    {
        match self.full.first() {
            Some(piece) => piece.as_slice(),
            None => self.last.as_slice(),
        }
    }

    /// Adds bytes behind those that wait, all or none, and all to one piece. Refuses want of memory.
    pub(crate) fn push(&mut self, more: &[u8]) -> Result<(), Fault>
        requires few { length self.old + length more.now < 2 ^ 64 }
        ensures pushed { OnOk result (self.new ≡ self.old ++ more.now) }
        ensures err { OnErr result (self.new ≡ self.old) }
        ensures fault { IsOkUnless result Fault.OutOfMemory }
    {
        if !self.last.is_empty() && self.last.len() + more.len() > MOST_OF_A_PIECE {
            part(self.alloc, &mut self.full, &mut self.last)?;
        }
        self.last.extend_from_slice(more)?;
        self.len += more.len();
        Ok(())
    }

    // Removes the first so many bytes, at most one piece, and returns how many.
    fn take_piece(&mut self, count: usize) -> usize
        requires within { count ≤ length self.old }
        ensures within { result ≤ count }
        ensures some { 0 < count → 0 < result }
        ensures left { self.new ≡ drop result self.old }
    {
        let taken = if self.full.is_empty() {
            take(&mut self.last, count)
        } else {
            take_first(&mut self.full, count)
        };
        self.len -= taken;
        taken
    }

    /// The first so many were written.
    pub(crate) fn took(&mut self, count: usize)
        requires within { count ≤ length self.old }
        ensures left { self.new ≡ drop count self.old }
    {
        let mut left = count;
        while left > 0 {
            left -= self.take_piece(left);
        }
    }
}
