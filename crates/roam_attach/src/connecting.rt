//! The way of a client instance to its server, the clock and the wait. They don't record their bytes.
ghost use Rattle.std.specs.Prelude.{◌≡◌, ◌⊎◌, ◌≤◌, ℕ, true, false, length, None, Some, IfOk, IfSome, IfErr};
ghost use Rattle.roam_attach.specs.Ways.{AllWent, Goes, IsFreshStream, IsFreshUdp, IsFrom, MoreGoes, Sends, StillWaits, has_ended};

use mio::event::Source;
use mio::net::UnixStream;
use roam_cells::Fault;
use roam_faults::RunFault;
use roam_hub::Addr;
use roam_sockets::{Moments, Udp, Waits};
use roam_stream_framing::{Carrier, Stream};
use roam_turns::Ports;
use std::alloc::Global;
use std::net::Net;
use std::os::fd::RawFd;
use std::time::Clock;

/// The way to the server: UDP on loopback, or a stream to its socket for client instances.
#[derive(Drop)]
pub(crate) enum Way {
    Udp(Udp),
    Stream(Carrier<UnixStream>),
}

/// Where a stream leads: it has one other end.
pub(crate) const OTHER_END: Addr = Addr {
    host: [0; 4],
    port: 0,
};

impl Way {
    // Returns the next datagram's sender, and how many bytes of `buf` it fills from the front.
    fn receive(&mut self, buf: &mut [u8]) -> Option<(Addr, usize)>
        ensures within { IfSome result (λ r. r.1 ≤ length buf.new) }
        ensures from { IfSome result (λ r. IsFrom self.old r.0) }
        ensures waiting { StillWaits self.old self.new }
    {
        match self {
            Way::Udp(udp) => udp.receive(buf),
            Way::Stream(carrier) => {
                let len = carrier.receive(buf)?;
                Some((OTHER_END, len))
            }
        }
    }

    // Sends a datagram at a moment, and returns true if it went or is queued.
    fn send(&mut self, to: Addr, bytes: &[u8], now: u64) -> bool
        ensures sends { Sends now to self.old self.new bytes.now result }
    {
        match self {
            Way::Udp(udp) => udp.send(to, bytes, now),
            Way::Stream(carrier) => carrier.send(bytes),
        }
    }

    // Sends queued bytes, as many as go now, and returns true if that was all that goes at this moment.
    fn flush(&mut self, now: u64) -> bool
        ensures all { result ≡ true → AllWent ⟦<UnixStream as Stream>⟧.answers self.old self.new }
        ensures more { result ≡ false → MoreGoes ⟦<UnixStream as Stream>⟧.answers self.old self.new }
        ensures goes { Goes ⟦<UnixStream as Stream>⟧.answers now self.old self.new }
    {
        match self {
            Way::Udp(udp) => udp.flush(now),
            Way::Stream(carrier) => carrier.flush(),
        }
    }

    // Returns true if the server is seen to have ended.
    fn has_ended(&self) -> bool
        ensures ended { result ≡ has_ended self.now }
    {
        match self {
            Way::Udp(_) => false,
            Way::Stream(carrier) => carrier.is_over(),
        }
    }
}

/// The way of a client instance to its server, the clock and the wait: its ports, but that nothing can be shown.
#[derive(Drop)]
pub struct Connection<R> {
    moments: Moments<R>,
    moment: u64,
    waits: Waits,
    way: Way,
}

impl<R: Clock + Drop> Connection<R> {
    /// Binds a free port of this machine. `Bind` if none can be bound, `OutOfMemory`.
    pub fn bind<N: Net>(
        net: &N,
        alloc: Global,
        moments: Moments<R>,
    ) -> Result<Connection<R>, RunFault>
        ensures moments { IfOk result (λ connection. (connection.moments ≡ moments) × (connection.moment ≡ 0)) }
        ensures waits { IfOk result (λ connection. (connection.waits.quiet ≡ true) × (connection.waits.unread ≡ false)) }
        ensures way { IfOk result (λ connection. IsFreshUdp connection.way) }
        ensures faults { IfErr result (λ fault. (fault ≡ RunFault.Bind) ⊎ (fault ≡ RunFault.Core Fault.OutOfMemory)) }
    {
        let waits = Waits::new(net, alloc)?;
        let udp = Udp::bind(net, alloc, &waits, 0)?;
        Ok(Connection {
            moments,
            moment: 0,
            waits,
            way: Way::Udp(udp),
        })
    }

    /// Connects to the socket for client instances in a server's folder. `Connect` if nobody listens there, `Bind` if the system has no
    /// wait to give, `OutOfMemory`.
    pub fn connect<N: Net>(
        net: &N,
        alloc: Global,
        folder: &str,
        moments: Moments<R>,
    ) -> Result<Connection<R>, RunFault>
        ensures moments { IfOk result (λ connection. (connection.moments ≡ moments) × (connection.moment ≡ 0)) }
        ensures waits { IfOk result (λ connection. (connection.waits.quiet ≡ true) × (connection.waits.unread ≡ false)) }
        ensures way { IfOk result (λ connection. IsFreshStream connection.way) }
        ensures faults { IfErr result (λ fault. (fault ≡ RunFault.Connect) ⊎ (fault ≡ RunFault.Bind)
            ⊎ (fault ≡ RunFault.Core Fault.OutOfMemory)) }
    {
        let Ok(path) = format!(in alloc; "{folder}/clients") else {
            return Err(RunFault::Core(Fault::OutOfMemory));
        };
        let Ok(mut stream) = UnixStream::connect(net, path.as_str()) else {
            return Err(RunFault::Connect);
        };
        let waits = Waits::new(net, alloc)?;
        waits.report(&mut stream, true);
        Ok(Connection {
            moments,
            moment: 0,
            waits,
            way: Way::Stream(Carrier::new(alloc, stream)),
        })
    }

    /// Sets the moment, in milliseconds.
    pub fn set_moment(&mut self, moment: u64)
        ensures moment { self.new ≡ record self.old { moments = Moments.Set moment } }
    {
        self.moments = Moments::Set(moment);
    }

    /// Returns the last moment in milliseconds.
    pub fn moment(&self) -> u64
        ensures moment { result ≡ self.now.moment }
    {
        self.moment
    }

    /// Returns true if the server is seen to have ended: a stream to it is closed.
    pub fn has_ended(&self) -> bool
        ensures ended { result ≡ has_ended self.now.way }
    {
        self.way.has_ended()
    }

    /// Watches a descriptor that is written to: `is_unread` says whether nobody reads there any more.
    pub fn watch(&mut self, descriptor: RawFd)
        ensures same { self.new ≡ self.old }
    {
        self.waits.watch(descriptor);
    }

    /// Returns true if nobody reads the watched descriptor any more.
    pub fn is_unread(&self) -> bool
        ensures unread { result ≡ self.now.waits.unread }
    {
        self.waits.is_unread()
    }

    /// Ends a wait if a source has input, or, for one that is written to, if it accepts bytes again.
    pub fn report<S: Source>(&self, source: &mut S, is_written: bool)
        ensures kept { S.keeps source.old source.new ⊎ (source.new ≡ source.old) }
    {
        self.waits.report(source, is_written);
    }

    /// Notes that something came, so that there is no wait.
    pub fn stir(&mut self)
        ensures stirs { self.new ≡ record self.old { waits = record self.old.waits { quiet = false } } }
    {
        self.waits.stir();
    }

    /// Sends queued bytes, and waits for input, at most so many milliseconds, unless some arrived since the last call.
    pub fn rest(&mut self, longest: u64)
        ensures quiet { self.new.waits.quiet ≡ true }
        ensures waited { IfSome self.new.waits.longest (λ long. (self.old.waits.quiet ≡ true) × (long ≡ longest)
            × AllWent ⟦<UnixStream as Stream>⟧.answers self.old.way self.new.way) }
        // It waits if no input arrived, unless more bytes can go at once.
        ensures busy { self.old.waits.quiet ≡ true → self.new.waits.longest ≡ None
            → MoreGoes ⟦<UnixStream as Stream>⟧.answers self.old.way self.new.way }
        ensures goes { Goes ⟦<UnixStream as Stream>⟧.answers self.old.moment self.old.way self.new.way }
        ensures others { self.new ≡ record self.old { waits = self.new.waits; way = self.new.way } }
    {
        if !self.way.flush(self.moment) {
            self.waits.stir();
        }
        self.waits.rest(longest);
    }

    /// Sends queued bytes, as many as go now, and doesn't wait.
    pub fn flush(&mut self)
        ensures goes { Goes ⟦<UnixStream as Stream>⟧.answers self.old.moment self.old.way self.new.way }
        ensures others { self.new ≡ record self.old { way = self.new.way } }
    {
        // The other bytes go later.
        let _ = self.way.flush(self.moment);
    }
}

impl<R: Clock + Drop> Ports for Connection<R> {
    fn now(&mut self) -> u64
        ensures set { (moment : ℕ) → self.old.moments ≡ Moments.Set moment → result ≡ moment }
        ensures moment { self.new.moment ≡ result }
        ensures others { self.new ≡ record self.old { moments = self.new.moments; moment = result } }
    {
        self.moment = self.moments.now();
        self.moment
    }

    fn receive(&mut self, buf: &mut [u8]) -> Option<(Addr, usize)>
        ensures within { IfSome result (λ r. r.1 ≤ length buf.new) }
        ensures from { IfSome result (λ r. IsFrom self.old.way r.0) }
        ensures stirs { IfSome result (λ _. self.new.waits.quiet ≡ false) }
        ensures waiting { StillWaits self.old.way self.new.way }
        ensures others { self.new ≡ record self.old { waits = self.new.waits; way = self.new.way } }
    {
        let came = self.way.receive(buf)?;
        self.waits.stir();
        Some(came)
    }

    fn send(&mut self, to: Addr, bytes: &[u8]) -> bool
        ensures sends { Sends self.old.moment to self.old.way self.new.way bytes.now result }
        ensures others { self.new ≡ record self.old { way = self.new.way } }
    {
        self.way.send(to, bytes, self.moment)
    }

    fn pane_generations(&mut self, _pane: u8, _generation: Option<u64>)
        ensures same { self.new ≡ self.old }
    {}

    fn pane_in(&mut self, _pane: u8, _buf: &mut [u8]) -> Option<usize>
        ensures none { result ≡ None }
    {
        None
    }

    fn pane_out(&mut self, _pane: u8, _bytes: &[u8]) -> usize
        ensures none { result ≡ 0 }
    {
        0
    }

    fn show(&mut self, _bytes: &[u8]) -> bool
        ensures none { result ≡ false }
    {
        false
    }
}
