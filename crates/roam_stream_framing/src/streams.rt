//! The streams that carry datagrams.
ghost use Rattle.std.specs.Prelude.{◌∷◌, ℕ, List, [], Option, None, Result};
ghost use Rattle.std.specs.declared.io.Error.{Error as ErrorOf};
ghost use Rattle.std.specs.Io.{ReadsAtMost, WritesAtMost};
ghost use Rattle.std.specs.Io.KnownBytes.{ReadConsumes, WriteAppends};
ghost use Rattle.roam_stream_framing.specs.Streams.{Answered};

use std::io;
use std::io::{Read, Write};

/// A stream: a reader and a writer whose results a proof may know. Every reader and writer is one.
pub trait Stream {
    // The bytes that reads will give from here on, and those that were written, if they are known.
    ghost remaining: { Self → Option (List ℕ) } = { λ _. None };

    ghost contents: { Self → Option (List ℕ) } = { λ _. None };

    // The results of reads and writes from here on, if they are known.
    ghost answers: { Self → Option (List (Result ℕ ErrorOf)) } = { λ _. None };

    /// Reads once.
    fn read_once(&mut self, buf: &mut [u8]) -> io::Result<usize>
        ensures bound { ReadsAtMost result buf.new }
        ensures bytes { ReadConsumes (remaining self.old) (remaining self.new) result buf.new }
        ensures answer { Answered (answers self.old) (answers self.new) (result ∷ []) };

    /// Writes once.
    fn write_once(&mut self, bytes: &[u8]) -> io::Result<usize>
        ensures bound { WritesAtMost result bytes.now }
        ensures bytes { WriteAppends (contents self.old) (contents self.new) result bytes.now }
        ensures answer { Answered (answers self.old) (answers self.new) (result ∷ []) };
}

impl<S: Read + Write> Stream for S {
    ghost remaining = { λ stream. S.remaining stream };

    ghost contents = { λ stream. S.contents stream };

    fn read_once(&mut self, buf: &mut [u8]) -> io::Result<usize> {
        self.read(buf)
    }

    fn write_once(&mut self, bytes: &[u8]) -> io::Result<usize> {
        self.write(bytes)
    }
}
