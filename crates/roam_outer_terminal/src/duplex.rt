//! Streams whose two ways are apart.
ghost use Rattle.std.specs.Prelude.{IfOk, ◌≡◌, ◌≤◌, length};
ghost use Rattle.std.specs.Io.KnownBytes.{Keeps, ReadConsumes, WriteAppends};

use std::io;
use std::io::{Read, Write};

/// A stream with two independent directions and an outer terminal at its other end. A read leaves the written bytes as they are, and a
/// write leaves the unread bytes. `Read` and `Write` alone don't promise this.
pub trait Duplex: Read + Write {
    /// Reads available bytes, as `read` does.
    fn read_some(&mut self, buf: &mut [u8]) -> io::Result<usize>
        ensures bound { IfOk result (λ n. n ≤ length buf.new) }
        ensures bytes { ReadConsumes (Self.remaining self.old) (Self.remaining self.new) result buf.new }
        ensures apart { Keeps (Self.contents self.old) (Self.contents self.new) };

    /// Writes as much of some bytes as it takes now, as `write` does.
    fn write_some(&mut self, bytes: &[u8]) -> io::Result<usize>
        ensures bound { IfOk result (λ n. n ≤ length bytes.now) }
        ensures bytes { WriteAppends (Self.contents self.old) (Self.contents self.new) result bytes.now }
        ensures apart { Keeps (Self.remaining self.old) (Self.remaining self.new) };
}

/// A stream of which no byte is known, as that of a socket.
#[derive(Drop)]
pub struct Opaque<S> {
    stream: S,
}

impl<S> Opaque<S> {
    /// Wraps a stream, so that clauses say nothing of it.
    pub fn new(stream: S) -> Opaque<S>
        ensures stream { result.stream ≡ stream }
    {
        Opaque { stream }
    }
}

impl<S: Read> Read for Opaque<S> {
    fn read(&mut self, buf: &mut [u8]) -> io::Result<usize> {
        self.stream.read(buf)
    }
}

impl<S: Write> Write for Opaque<S> {
    fn write(&mut self, bytes: &[u8]) -> io::Result<usize> {
        self.stream.write(bytes)
    }

    fn flush(&mut self) -> io::Result<()> {
        self.stream.flush()
    }
}

impl<S: Read + Write> Duplex for Opaque<S> {
    fn read_some(&mut self, buf: &mut [u8]) -> io::Result<usize> {
        self.stream.read(buf)
    }

    fn write_some(&mut self, bytes: &[u8]) -> io::Result<usize> {
        self.stream.write(bytes)
    }
}
