//! The stream of an outer terminal that has to say a whole line soon.
ghost use Rattle.std.specs.Prelude.{◌≡◌, ◌≤◌, IfOk, IfSome, IsSome, None, Ok, false, length, true};
ghost use Rattle.roam_attach.specs.Arriving.{HasNothing, ends_line, first_line, last_moment};

use mio::net::UnixStream;
use roam_sockets::Moments;
use std::io;
use std::io::{ErrorKind, Read, Write};
use std::time::Clock;

/// The milliseconds that a terminal has for its first whole line. A silent connection keeps its place for no longer.
const FIRST_LINE: u64 = 10_000;

/// The stream of an outer terminal, which ends if its first line isn't whole after ten seconds. It doesn't record its bytes.
#[derive(Drop)]
pub(crate) struct Arrival<C> {
    stream: UnixStream,
    // The moments since the first look at its bytes; `None` once the first line was whole.
    waiting: Option<Moments<C>>,
}

impl<C: Clock + Drop> Arrival<C> {
    /// A terminal that comes now.
    pub(crate) fn new(stream: UnixStream, clock: C) -> Arrival<C> {
        Arrival {
            stream,
            waiting: Some(Moments::real(clock)),
        }
    }
}

// Returns true if a read gave the end of a line.
fn ends_line(came: &io::Result<usize>, buf: &[u8]) -> bool
    requires bound { IfOk came.now (λ n. n ≤ length buf.now) }
    ensures ends { result ≡ ends_line came.now buf.now }
{
    match came {
        Ok(count) => buf.split_at(*count).0.contains(&b'\n'),
        Err(_) => false,
    }
}

// Returns the result of a read: the end of the stream if the terminal is late and nothing can be read.
fn unless_late(is_late: bool, came: io::Result<usize>) -> io::Result<usize>
    ensures late { is_late ≡ true → HasNothing came → result ≡ Ok 0 }
    ensures others { (is_late ≡ true → HasNothing came → ⊥) → result ≡ came }
{
    match came {
        Ok(count) => Ok(count),
        Err(error) if is_late && error.kind() == ErrorKind::WouldBlock => Ok(0),
        Err(error) => Err(error),
    }
}

// Returns the result of a read, or the end of the stream if no line arrived in time. A terminal that said a line waits for nothing more.
fn in_time<C: Clock + Drop>(
    waiting: &mut Option<Moments<C>>,
    came: io::Result<usize>,
    buf: &[u8],
) -> io::Result<usize>
    requires bound { IfOk came (λ n. n ≤ length buf.now) }
    ensures bound { IfOk result (λ n. n ≤ length buf.now) }
    ensures said { waiting.old ≡ None → (result ≡ came) × (waiting.new ≡ None) }
    ensures line { ends_line came buf.now ≡ true → (result ≡ came) × (waiting.new ≡ None) }
    ensures waits { IsSome waiting.old → ends_line came buf.now ≡ false → IsSome waiting.new }
    ensures late { IfSome waiting.new (λ moments. first_line ≤ last_moment moments → HasNothing came → result ≡ Ok 0) }
    ensures early { IfSome waiting.new (λ moments. (first_line ≤ last_moment moments → HasNothing came → ⊥) → result ≡ came) }
{
    let Some(moments) = waiting else {
        return came;
    };
    let is_late = moments.now() >= FIRST_LINE;
    if ends_line(&came, buf) {
        *waiting = None;
        return came;
    }
    unless_late(is_late, came)
}

impl<C: Clock + Drop> Read for Arrival<C> {
    fn read(&mut self, buf: &mut [u8]) -> io::Result<usize> {
        let came = self.stream.read(buf);
        in_time(&mut self.waiting, came, buf)
    }
}

impl<C: Clock + Drop> Write for Arrival<C> {
    fn write(&mut self, bytes: &[u8]) -> io::Result<usize> {
        self.stream.write(bytes)
    }

    fn flush(&mut self) -> io::Result<()> {
        self.stream.flush()
    }
}
