//! The calls of a turn to a core. A core may record its calls: so a turn can't skip a datagram on the pretext that the core refused it.
ghost use Rattle.std.specs.Prelude.{◌≡◌, ◌≤◌, ℕ, length, List, [], ◌∷◌, Option, None, IfSome};
ghost use Rattle.roam_acts.specs.Acts.{IsInRange};
ghost use Rattle.roam_screens.specs.Screenshot.{Screenshot};
ghost use Rattle.roam_screens.specs.Shown.{shown_by};
ghost use Rattle.roam_session.specs.Queues.{IsWithin};
ghost use Rattle.roam_turns.specs.Calls.{Tells, ServerCall, ClientCall, copied_bytes, parcels_of, texts_in};
ghost use Rattle.roam_turns.specs.Calls.ServerCall.{ToServer, Generation, Room, PaneBytes, Output, Drain, ServerTick};
ghost use Rattle.roam_turns.specs.Calls.ClientCall.{Typed, ToClient, ClientTick};
ghost use Rattle.roam_session.specs.Stands.{waiting_at};
ghost use Rattle.roam_turns.specs.Cores.{server_step, client_step};
ghost use Rattle.roam_turns.specs.Painting.{Follows};

use roam_acts::Act;
use roam_cells::Fault;
use roam_hub::{Addr, Client, Heard, Server, Stop};
use roam_screens::Shown;
use std::alloc::Global;

/// The server, as a turn calls it.
pub trait ServerCore {
    // The calls made so far, if they are recorded.
    ghost made: { Self → Option (List ServerCall) } = { λ _. None };

    // The possible results and effects of a call.
    ghost step: { Self → ServerCall → Self → Type 0 };

    // The bytes that wait for the program of a pane that is there.
    ghost waiting: { Self → ℕ → Option (List ℕ) };

    /// Takes a datagram that came from an address at a moment.
    fn datagram(&mut self, alloc: Global, from: Addr, bytes: &[u8], now: u64) -> Result<usize, Stop>
        ensures tells { Tells (made self.old) (made self.new) (ToServer from bytes.now now result ∷ []) }
        ensures step { step self.old (ToServer from bytes.now now result) self.new };

    /// Which making of a pane of this number is there, if any.
    fn generation(&mut self, pane: u8) -> Option<u64>
        ensures tells { Tells (made self.old) (made self.new) (Generation pane result ∷ []) }
        ensures step { step self.old (Generation pane result) self.new };

    /// How many more bytes may wait for the program of a pane that is there.
    fn room(&mut self, pane: u8) -> Option<usize>
        ensures tells { Tells (made self.old) (made self.new) (Room pane result ∷ []) }
        ensures step { step self.old (Room pane result) self.new };

    /// Takes bytes that a pane's program wrote.
    fn pane_bytes(&mut self, pane: u8, piece: &[u8]) -> Result<(), Fault>
        ensures tells { Tells (made self.old) (made self.new) (PaneBytes pane piece.now result ∷ []) }
        ensures step { step self.old (PaneBytes pane piece.now result) self.new };

    /// Copies the first bytes queued for the program of a pane that is there, as many as fit, and returns their number.
    fn output(&mut self, pane: u8, out: &mut [u8]) -> Option<usize>
        ensures within { IfSome result (λ n. n ≤ length out.new) }
        ensures waits { IfSome result (λ n. IsWithin n (waiting self.new pane)) }
        ensures tells { Tells (made self.old) (made self.new) (Output pane (length out.old) (copied_bytes result out.new) ∷ []) }
        ensures step { step self.old (Output pane (length out.old) (copied_bytes result out.new)) self.new };

    /// Takes the first n bytes that wait for a pane's program, at most all of them.
    fn drain(&mut self, pane: u8, n: usize) -> Result<(), Fault>
        requires within { IsWithin n (waiting self.old pane) }
        ensures tells { Tells (made self.old) (made self.new) (Drain pane n result ∷ []) }
        ensures step { step self.old (Drain pane n result) self.new };

    /// Returns the datagrams to send at a moment, each with its address.
    fn tick(&mut self, alloc: Global, now: u64) -> Result<Vec<(Addr, Vec<u8>)>, Fault>
        ensures tells { Tells (made self.old) (made self.new) (ServerTick now (parcels_of result) ∷ []) }
        ensures step { step self.old (ServerTick now (parcels_of result)) self.new };
}

/// A client instance, as a turn calls it.
pub trait ClientCore {
    // The calls made so far, if they are recorded.
    ghost made: { Self → Option (List ClientCall) } = { λ _. None };

    // The possible results and effects of a call.
    ghost step: { Self → ClientCall → Self → Type 0 };

    // The number and the screen that it shows.
    ghost number: { Self → ℕ };

    ghost screen: { Self → Screenshot };

    /// Takes an act that was typed.
    fn typed(&mut self, act: Act) -> Result<(), Fault>
        requires in_range { IsInRange act }
        ensures tells { Tells (made self.old) (made self.new) (Typed act result ∷ []) }
        ensures step { step self.old (Typed act result) self.new }
        ensures follows { Follows (number self.old) (screen self.old) (number self.new) (screen self.new) };

    /// Takes a datagram that came at a moment.
    fn datagram(&mut self, alloc: Global, bytes: &[u8], now: u64) -> Result<Heard, Fault>
        ensures tells { Tells (made self.old) (made self.new) (ToClient bytes.now now result ∷ []) }
        ensures step { step self.old (ToClient bytes.now now result) self.new }
        ensures follows { Follows (number self.old) (screen self.old) (number self.new) (screen self.new) };

    /// The datagrams to send at a moment.
    fn tick(&mut self, alloc: Global, now: u64) -> Result<Vec<Vec<u8>>, Fault>
        ensures tells { Tells (made self.old) (made self.new) (ClientTick now (texts_in result) ∷ []) }
        ensures step { step self.old (ClientTick now (texts_in result)) self.new }
        ensures number { number self.new ≡ number self.old }
        ensures screen { screen self.new ≡ screen self.old };

    /// The number and the screen that it shows.
    fn shown(&self) -> (u64, Shown<'_>)
        ensures number { result.0 ≡ number self.now }
        ensures screen { shown_by result.1 ≡ screen self.now };
}

impl ServerCore for Server {
    ghost step = { server_step };

    ghost waiting = { λ server pane. waiting_at server.state.terms pane };

    fn datagram(
        &mut self,
        alloc: Global,
        from: Addr,
        bytes: &[u8],
        now: u64,
    ) -> Result<usize, Stop> {
        Server::datagram(self, alloc, from, bytes, now)
    }

    fn generation(&mut self, pane: u8) -> Option<u64> {
        Server::generation(self, pane)
    }

    fn room(&mut self, pane: u8) -> Option<usize> {
        Server::room(self, pane)
    }

    fn pane_bytes(&mut self, pane: u8, piece: &[u8]) -> Result<(), Fault> {
        Server::pane_bytes(self, pane, piece)
    }

    fn output(&mut self, pane: u8, out: &mut [u8]) -> Option<usize> {
        let waits = Server::output_len(self, pane)?;
        match Server::output(self, pane, out) {
            Ok(len) => Some(len.min(waits)),
            Err(_) => None,
        }
    }

    fn drain(&mut self, pane: u8, n: usize) -> Result<(), Fault> {
        Server::drain(self, pane, n)
    }

    fn tick(&mut self, alloc: Global, now: u64) -> Result<Vec<(Addr, Vec<u8>)>, Fault> {
        Server::tick(self, alloc, now)
    }
}

impl ClientCore for Client {
    ghost step = { client_step };

    ghost number = { λ client. client.kept.receiver.newest.number };

    ghost screen = { λ client. client.kept.receiver.newest.state };

    fn typed(&mut self, act: Act) -> Result<(), Fault> {
        Client::typed(self, act)
    }

    fn datagram(&mut self, alloc: Global, bytes: &[u8], now: u64) -> Result<Heard, Fault> {
        Client::datagram(self, alloc, bytes, now)
    }

    fn tick(&mut self, alloc: Global, now: u64) -> Result<Vec<Vec<u8>>, Fault> {
        Client::tick(self, alloc, now)
    }

    fn shown(&self) -> (u64, Shown<'_>) {
        Client::shown(self)
    }
}
