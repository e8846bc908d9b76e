//! Readers and writers that work in pieces, and fail at a given call; and what a run prints, as text.
use std::alloc::{AllocError, Global};
use std::fmt::Display;
use std::io;
use std::io::{Read, Write};
use std::str::from_utf8;

/// Returns bytes as text; bytes that are no text are listed as numbers.
pub fn text_of(alloc: Global, bytes: &[u8]) -> Result<String, AllocError> {
    match from_utf8(bytes) {
        Ok(text) => String::from_str(alloc, text),
        Err(_) => format!(in alloc; "{bytes:?}"),
    }
}

/// Returns the output of a run, and then its error, if it has one.
pub fn told<F: Display + Drop>(
    alloc: Global,
    out: &[u8],
    ran: Result<(), F>,
) -> Result<String, AllocError> {
    let text = text_of(alloc, out)?;
    match ran {
        Ok(()) => Ok(text),
        Err(fault) => format!(in alloc; "{}error: {fault}", text.as_str()),
    }
}

/// Gives at most so many bytes at the next read, at most so many at each later one, and fails at the read with a number; 0 is none.
#[derive(Drop)]
pub struct Cut<'a> {
    pub rest: &'a [u8],
    pub next: usize,
    pub later: usize,
    pub reads: u32,
    pub fails_at: u32,
}

impl<'a> Cut<'a> {
    pub fn new(rest: &'a [u8], next: usize, later: usize) -> Self {
        Cut {
            rest,
            next,
            later,
            reads: 0,
            fails_at: 0,
        }
    }
}

impl<'a> Read for Cut<'a> {
    fn read(&mut self, buf: &mut [u8]) -> io::Result<usize> {
        self.reads = self.reads.saturating_add(1);
        if self.reads == self.fails_at {
            return Err(io::Error::from(io::ErrorKind::Other));
        }
        let count = self.next.min(buf.len()).min(self.rest.len());
        let (now, rest) = self.rest.split_at(count);
        buf[..count].copy_from_slice(now);
        self.rest = rest;
        self.next = self.later;
        Ok(count)
    }
}

/// Gives the byte 7F, which does nothing, so many times, one at each read, and then ends.
#[derive(Drop)]
pub struct Drip {
    pub left: u32,
}

impl Read for Drip {
    fn read(&mut self, buf: &mut [u8]) -> io::Result<usize> {
        if self.left == 0 || buf.is_empty() {
            return Ok(0);
        }
        self.left -= 1;
        buf[0] = 0x7F;
        Ok(1)
    }
}

/// Takes at most 7 bytes at each call, and fails at the call with a number, flushes among them; 0 is none.
#[derive(Drop)]
pub struct Narrow {
    pub calls: u32,
    pub fails_at: u32,
}

impl Narrow {
    fn call(&mut self) -> io::Result<()> {
        self.calls = self.calls.saturating_add(1);
        if self.calls == self.fails_at {
            return Err(io::Error::from(io::ErrorKind::Other));
        }
        Ok(())
    }
}

impl Write for Narrow {
    fn write(&mut self, buf: &[u8]) -> io::Result<usize> {
        self.call()?;
        Ok(buf.len().min(7))
    }

    fn flush(&mut self) -> io::Result<()> {
        self.call()
    }
}
