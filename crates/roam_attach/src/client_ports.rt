//! The ports of a client instance over sockets. They don't record their calls.
ghost use Rattle.std.specs.Prelude.{◌≡◌, ◌⊎◌, ◌↔◌, IsTrue, ◌-◌, ◌≤◌, [], ◌∷◌, ℕ, true, false, length, is_some, None, Some, IfOk, IfSome, IsSome, IfErr};
ghost use Rattle.std.specs.Io.KnownBytes.{Appends, Keeps};
ghost use Rattle.roam_outer_terminal.specs.Silence.{due_of, is_over, end_of, notice_of};
ghost use Rattle.roam_attach.specs.Notices.{failing_after, has_given_up};
ghost use Rattle.roam_sockets.specs.declared.moments.Moments.{Moments};
ghost use Rattle.roam_attach.specs.Ways.{Goes, MoreGoes, Sends, StillWaits, has_ended};

use crate::connecting::Connection;
use mio::net::UnixStream;
use roam_hub::Addr;
use roam_outer_terminal::{End, Silence, notice};
use roam_sockets::SHORT_WAIT;
use roam_stream_framing::Stream;
use roam_turns::Ports;
use std::alloc::Global;
use std::io::Write;
use std::time::Clock;

/// How many milliseconds of failing are enough.
const HALF_SECOND: u64 = 500;

/// The ports of a client instance: its connection, and the writer of the outer terminal's bytes. They know when the server was heard last,
/// and since when showing fails.
#[derive(Drop)]
pub struct ClientPorts<R, W> {
    connection: Connection<R>,
    outer: W,
    silence: Silence,
    failing: Option<u64>,
}

impl<R: Clock + Drop, W: Write + Drop> ClientPorts<R, W> {
    /// The ports over a connection, and what takes the outer terminal's bytes: nothing was heard or written yet.
    pub fn new(connection: Connection<R>, outer: W) -> ClientPorts<R, W>
        ensures ports { result ≡ record {
          connection = connection;
          outer = outer;
          silence = record { moment = 0; heard = None; told = None };
          failing = None;
        } }
    {
        ClientPorts {
            connection,
            outer,
            silence: Silence::new(),
            failing: None,
        }
    }

    /// Returns true if the server is seen to have ended: a stream to it is closed.
    pub fn has_ended(&self) -> bool
        ensures ended { result ≡ has_ended self.now.connection.way }
    {
        self.connection.has_ended()
    }

    /// Sets the moment, in milliseconds.
    pub fn set_moment(&mut self, moment: u64)
        ensures moment { self.new ≡ record self.old { connection = record self.old.connection { moments = Moments.Set moment } } }
    {
        self.connection.set_moment(moment);
    }

    /// Returns true if the outer terminal didn't take all of the last screen.
    pub fn has_failed(&self) -> bool
        ensures failed { result ≡ is_some self.now.failing }
    {
        self.failing.is_some()
    }

    /// Returns true if it took no screen whole in the last half second.
    pub fn has_given_up(&self) -> bool
        ensures given_up { result ≡ has_given_up self.now.silence self.now.failing }
    {
        match self.failing {
            None => false,
            Some(since) => self.silence.has_passed(since, HALF_SECOND),
        }
    }

    /// Returns what was heard if the instance ends now.
    pub fn end(&self) -> End
        ensures end { result ≡ end_of self.now.silence }
    {
        self.silence.end()
    }

    /// Lets input of a stream end a wait.
    pub fn watch_stream(&self, stream: &mut UnixStream)
        ensures same { stream.new ≡ stream.old }
    {
        self.connection.report(stream, false);
    }

    /// The moment of the last turn, in milliseconds.
    pub fn moment(&self) -> u64
        ensures moment { result ≡ self.now.silence.moment }
    {
        self.silence.moment()
    }

    /// Returns true if so many milliseconds have passed since a moment.
    pub fn has_passed(&self, since: u64, long: u64) -> bool
        ensures passed { IsTrue result ↔ long ≤ self.now.silence.moment - since }
    {
        self.silence.has_passed(since, long)
    }

    /// Returns true if nobody reads the watched descriptor any more.
    pub fn is_unread(&self) -> bool
        ensures unread { result ≡ self.now.connection.waits.unread }
    {
        self.connection.is_unread()
    }

    /// Sends queued bytes, and waits for input, at most ten milliseconds, unless some arrived since the last call.
    pub fn rest(&mut self)
        ensures quiet { self.new.connection.waits.quiet ≡ true }
        ensures waited { IfSome self.new.connection.waits.longest (λ long. (self.old.connection.waits.quiet ≡ true) × (long ≡ SHORT_WAIT)) }
        // It waits if no input arrived, unless more bytes can go at once.
        ensures busy { self.old.connection.waits.quiet ≡ true → self.new.connection.waits.longest ≡ None
            → MoreGoes ⟦<UnixStream as Stream>⟧.answers self.old.connection.way self.new.connection.way }
        ensures goes { Goes ⟦<UnixStream as Stream>⟧.answers self.old.connection.moment self.old.connection.way self.new.connection.way }
        ensures others { self.new ≡ record self.old { connection = self.new.connection } }
        ensures connection { self.new.connection
            ≡ record self.old.connection { waits = self.new.connection.waits; way = self.new.connection.way } }
    {
        self.connection.rest(SHORT_WAIT);
    }

    /// Sends queued bytes, as many as go now, and doesn't wait.
    pub fn flush(&mut self)
        ensures goes { Goes ⟦<UnixStream as Stream>⟧.answers self.old.connection.moment self.old.connection.way self.new.connection.way }
        ensures others { self.new ≡ record self.old { connection = self.new.connection } }
        ensures connection { self.new.connection ≡ record self.old.connection { way = self.new.connection.way } }
    {
        self.connection.flush();
    }

    /// Tells of a silence of ten seconds and more over the last row of the outer terminal, once a second. Answers whether what that
    /// terminal shows isn't known any more: something was heard again, or not all of this was taken.
    pub fn tell_silence(&mut self, alloc: Global) -> bool
        ensures over { is_over self.old.silence ≡ true → result ≡ true }
        ensures quiet { is_over self.old.silence ≡ false → due_of self.old.silence ≡ None → (result ≡ false) × (self.new ≡ self.old) }
        ensures unknown { result ≡ true → self.new.silence.told ≡ None }
        // A notice isn't forgotten while the terminal shows it.
        ensures stays { result ≡ false → IfSome self.old.silence.told (λ _. IsSome self.new.silence.told) }
        ensures told { IfSome self.new.silence.told (λ seconds. (self.old.silence.told ≡ Some seconds)
            ⊎ ((due_of self.old.silence ≡ Some seconds)
            × Appends (W.contents self.old.outer) (W.contents self.new.outer) (notice_of seconds))) }
        // If the terminal is still known, nothing was written, or this silence is shown over its screen.
        ensures known { result ≡ false → (self.new ≡ self.old) ⊎ ((seconds : ℕ) × (due_of self.old.silence ≡ Some seconds)
            × (self.new.silence.told ≡ Some seconds)
            × Appends (W.contents self.old.outer) (W.contents self.new.outer) (notice_of seconds)) }
        ensures heard { self.new.silence ≡ record self.old.silence { told = self.new.silence.told } }
    {
        if self.silence.is_over() {
            self.silence.tell(None);
            return true;
        }
        match self.silence.due() {
            None => false,
            Some(seconds) => self.tell(alloc, seconds),
        }
    }

    // Shows so many seconds of silence, if there is memory. Returns true if not all of it was taken.
    fn tell(&mut self, alloc: Global, seconds: u64) -> bool
        ensures unknown { result ≡ true → self.new.silence.told ≡ None }
        // A notice isn't forgotten while the terminal shows it.
        ensures stays { result ≡ false → IfSome self.old.silence.told (λ _. IsSome self.new.silence.told) }
        ensures told { IfSome self.new.silence.told (λ told. (self.old.silence.told ≡ Some told)
            ⊎ ((told ≡ seconds) × Appends (W.contents self.old.outer) (W.contents self.new.outer) (notice_of seconds))) }
        ensures known { result ≡ false → (self.new ≡ self.old) ⊎ ((self.new.silence.told ≡ Some seconds)
            × Appends (W.contents self.old.outer) (W.contents self.new.outer) (notice_of seconds)) }
        ensures heard { self.new.silence ≡ record self.old.silence { told = self.new.silence.told } }
    {
        let Ok(text) = notice(alloc, seconds) else {
            return false;
        };
        let written = self.put(&text);
        self.silence
            .tell(if written { Some(seconds) } else { None });
        !written
    }

    // Writes to the outer terminal, notes since when that fails, and answers whether all was taken.
    fn put(&mut self, bytes: &[u8]) -> bool
        ensures written { result ≡ true → Appends (W.contents self.old.outer) (W.contents self.new.outer) bytes.now }
        ensures failing { self.new.failing ≡ failing_after self.old.failing result self.old.silence.moment }
        ensures others { self.new ≡ record self.old { outer = self.new.outer; failing = self.new.failing } }
    {
        let written = self.outer.write_all(bytes).is_ok() && self.outer.flush().is_ok();
        self.failing = failing_after(self.failing, written, self.silence.moment());
        written
    }
}

impl<R: Clock + Drop, W: Write + Drop> Ports for ClientPorts<R, W> {
    ghost written = { λ ports. W.contents ports.outer };

    ghost notice = { λ ports. ports.silence.told };

    fn now(&mut self) -> u64
        ensures set { (moment : ℕ) → self.old.connection.moments ≡ Moments.Set moment → result ≡ moment }
        ensures moment { self.new.silence ≡ record self.old.silence { moment = result } }
        ensures written { Keeps (W.contents self.old.outer) (W.contents self.new.outer) }
        ensures notice { self.new.silence.told ≡ self.old.silence.told }
    {
        let moment = self.connection.now();
        self.silence.at(moment);
        moment
    }

    fn receive(&mut self, buf: &mut [u8]) -> Option<(Addr, usize)>
        ensures within { IfSome result (λ r. r.1 ≤ length buf.new) }
        ensures heard { IfSome result (λ _. self.new.silence ≡ record self.old.silence { heard = Some self.old.silence.moment }) }
        ensures unheard { result ≡ None → self.new.silence ≡ self.old.silence }
        ensures stirs { IfSome result (λ _. self.new.connection.waits.quiet ≡ false) }
        ensures waiting { StillWaits self.old.connection.way self.new.connection.way }
        ensures written { Keeps (W.contents self.old.outer) (W.contents self.new.outer) }
        ensures notice { self.new.silence.told ≡ self.old.silence.told }
    {
        let came = self.connection.receive(buf)?;
        self.silence.hear();
        Some(came)
    }

    fn send(&mut self, to: Addr, bytes: &[u8]) -> bool
        ensures sends { Sends self.old.connection.moment to self.old.connection.way self.new.connection.way bytes.now result }
        ensures written { Keeps (W.contents self.old.outer) (W.contents self.new.outer) }
        ensures notice { self.new.silence.told ≡ self.old.silence.told }
    {
        self.connection.send(to, bytes)
    }

    fn pane_generations(&mut self, _pane: u8, _generation: Option<u64>)
        ensures same { self.new ≡ self.old }
        ensures written { Keeps (W.contents self.old.outer) (W.contents self.new.outer) }
        ensures notice { self.new.silence.told ≡ self.old.silence.told }
    {}

    fn pane_in(&mut self, _pane: u8, _buf: &mut [u8]) -> Option<usize>
        ensures none { result ≡ None }
        ensures written { Keeps (W.contents self.old.outer) (W.contents self.new.outer) }
        ensures notice { self.new.silence.told ≡ self.old.silence.told }
    {
        None
    }

    fn pane_out(&mut self, _pane: u8, _bytes: &[u8]) -> usize
        ensures none { result ≡ 0 }
        ensures written { Keeps (W.contents self.old.outer) (W.contents self.new.outer) }
        ensures notice { self.new.silence.told ≡ self.old.silence.told }
    {
        0
    }

    // A terminal with a notice of silence doesn't show its noted screen. Nothing is written then, and the terminal is painted anew.
    fn show(&mut self, bytes: &[u8]) -> bool
        ensures covered { is_some self.old.silence.told ≡ true → (result ≡ false) × (self.new ≡ self.old) }
        ensures failing { self.old.silence.told ≡ None
            → self.new.failing ≡ failing_after self.old.failing result self.old.silence.moment }
        ensures written { result ≡ true → Appends (W.contents self.old.outer) (W.contents self.new.outer) bytes.now }
        ensures notice { self.new.silence.told ≡ self.old.silence.told }
    {
        !self.silence.is_told() && self.put(bytes)
    }
}

// Returns the moment since which writing fails; `None` if it doesn't.
fn failing_after(failing: Option<u64>, written: bool, now: u64) -> Option<u64>
    ensures since { result ≡ failing_after failing written now }
{
    if written { None } else { failing.or(Some(now)) }
}
