//! The answered bytes that wait to be taken.
ghost use Rattle.std.specs.Prelude.{◌≡◌, ◌+◌, ◌-◌, ◌<◌, ◌≤◌, ◌++◌, [], length, min, take, drop, IfOk, decimal};
ghost use Rattle.roam_term.specs.Limits.{most_output};

use crate::limits::MOST_OUTPUT;
use circular_buffer::HeapCircularBuffer;
use itoa::Buffer;
use std::alloc::{AllocError, Global};
use std::marker::Model;

/// A queue of answered bytes, whose memory is made with it.
#[derive(Drop)]
pub struct Output {
    bytes: HeapCircularBuffer<u8>,
}

impl Model for Output {
    ghost use Rattle.roam_term.specs.Limits.{most_output};
    ghost use Rattle.std.specs.Prelude.{◌≡◌, ◌≤◌, List, ℕ, length};

    ghost Value = { List ℕ };

    ghost view = { λ o. o.bytes.items };

    ghost invariant = { λ o. (o.bytes.capacity ≡ most_output) × (length o.bytes.items ≤ most_output) };
}

// Writes bytes from a place on, as many as fit, and returns their number.
fn fill(out: &mut [u8], at: usize, bytes: &[u8]) -> usize
    requires inside { at ≤ length out.old }
    ensures count { result ≡ min (length bytes.now) (length out.old - at) }
    ensures bytes { out.new ≡ take at out.old ++ (take result bytes.now ++ drop (at + result) out.old) }
{
    let count = bytes.len().min(out.len() - at);
    out[at..at + count].copy_from_slice(&bytes[..count]);
    count
}

impl Output {
    /// An empty queue with room for 65,536 bytes; refuses want of memory.
    pub fn new(alloc: Global) -> Result<Self, AllocError>
        ensures empty { IfOk result (λ o. o ≡ []) }
    {
        let bytes = HeapCircularBuffer::with_capacity(alloc, MOST_OUTPUT)?;
        Ok(Output { bytes })
    }

    /// How many bytes wait.
    pub fn len(&self) -> usize
        ensures len { result ≡ length self.now }
        ensures most { result ≤ most_output }
    {
        self.bytes.len()
    }

    /// Appends bytes for which there is room. It takes no memory.
    pub fn push(&mut self, bytes: &[u8])
        requires room { length self.old + length bytes.now ≤ most_output }
        ensures waiting { self.new ≡ self.old ++ bytes.now }
    {
        self.bytes.fill_from_slice(bytes);
    }

    /// Appends a number in decimal.
    pub fn push_number(&mut self, n: u16)
        requires room { length self.old + 5 ≤ most_output }
        ensures waiting { self.new ≡ self.old ++ decimal n }
        ensures short { n < 1000 → length self.new ≤ length self.old + 3 }
    {
        let mut buffer = Buffer::new();
        self.push(buffer.format(n).as_bytes());
    }

    /// Copies the first queued bytes, as many as fit, and returns their number.
    pub fn copy_to(&self, out: &mut [u8]) -> usize
        ensures count { result ≡ min (length self.now) (length out.old) }
        ensures bytes { out.new ≡ take result self.now ++ drop result out.old }
    {
        let (front, back) = self.bytes.as_slices();
        let first = fill(out, 0, front);
        first + fill(out, first, back)
    }

    /// Takes the first n bytes off the queue.
    pub fn drop_front(&mut self, n: usize)
        requires waiting { n ≤ length self.old }
        ensures waiting { self.new ≡ drop n self.old }
    {
        let left = self.bytes.len() - n;
        self.bytes.truncate_front(left);
    }
}
