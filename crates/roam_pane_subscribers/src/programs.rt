//! The stream of a program that follows the panes.
ghost use Rattle.std.specs.Prelude.{◌≡◌, ◌<◌, ◌≤◌, List, [], ◌∷◌, length, is_some, take, None, IfSome, IsSome};
ghost use Rattle.roam_faults.specs.Streams.{IsStreamEnd};
ghost use Rattle.roam_pane_sockets.specs.Peers.{HasFailed};
ghost use Rattle.roam_pane_sockets.specs.FilterStages.{bytes_given};
ghost use Rattle.roam_pane_subscribers.specs.Programs.{HasAsked, Heard, Wrote};

use mio::Registry;
use mio::net::{UnixListener, UnixStream};
use roam_faults::is_stream_end;
use roam_pane_sockets::{has_failed, next_at};
use roam_stream_framing::Stream;

/// A program at the other end of a stream, or none any more.
#[derive(Drop)]
pub(crate) struct Program<S> {
    stream: Option<S>,
}

impl Program<UnixStream> {
    /// The next program that waits at a socket, or none.
    pub(crate) fn next(listener: &UnixListener, registry: &Registry) -> Program<UnixStream> {
        Program {
            stream: next_at(listener, registry),
        }
    }
}

impl<S: Stream + Drop> Program<S> {
    /// Returns true if the program is connected.
    pub(crate) fn is_there(&self) -> bool
        ensures there { result ≡ is_some self.now.stream }
    {
        self.stream.is_some()
    }

    /// Lets it go.
    pub(crate) fn let_go(&mut self)
        ensures none { self.new.stream ≡ None }
    {
        self.stream = None;
    }

    /// Returns the number of bytes that the program wrote into the buffer; `None` if it wrote none. Drops a closed stream.
    pub(crate) fn hear(&mut self, buf: &mut [u8]) -> Option<usize>
        ensures within { IfSome result (λ n. n ≤ length buf.new) }
        ensures asked { IfSome self.old.stream (λ old. HasAsked IsStreamEnd S.answers old self.new.stream) }
        ensures none { self.old.stream ≡ None → self.new.stream ≡ None }
        ensures there { IfSome result (λ _. IsSome self.new.stream) }
        ensures heard { Heard S.remaining self.old.stream self.new.stream (bytes_given result buf.new) }
    {
        let answer = self.stream.as_mut()?.read_once(buf);
        if is_stream_end(&answer) {
            self.stream = None;
            return None;
        }
        answer.ok()
    }

    /// Returns how many of the bytes the program took, 0 if it isn't connected. Drops a failed stream.
    pub(crate) fn tell(&mut self, bytes: &[u8]) -> usize
        ensures within { result ≤ length bytes.now }
        ensures asked { IfSome self.old.stream (λ old. HasAsked HasFailed S.answers old self.new.stream) }
        ensures none { self.old.stream ≡ None → self.new.stream ≡ None }
        ensures wrote { Wrote S.contents self.old.stream self.new.stream (take result bytes.now) }
    {
        let Some(stream) = self.stream.as_mut() else {
            return 0;
        };
        let answer = stream.write_once(bytes);
        if has_failed(&answer) {
            self.stream = None;
        }
        answer.unwrap_or(0)
    }
}
