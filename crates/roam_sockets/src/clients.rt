//! The streams of client instances at a server's socket.
ghost use Rattle.std.specs.Prelude.{◌≡◌, ◌≢◌, ◌⊎◌, ◌++◌, ◌+◌, ◌<◌, ◌≤◌, ◌^◌, ℕ, [], ◌∷◌, length, slice_get, true, false, None, IfErr, IfOk, IfSome, OnErr, OnOk, IsOkUnless, string_bytes};
ghost use Rattle.std.specs.List.{All, AllZip, Contains};
ghost use Rattle.roam_sockets.specs.Addresses.{address_of, number_of};
ghost use Rattle.roam_sockets.specs.Clients.{Accepts, AcceptsOne, HasNoneAt, HaveCome, HaveNone, IsDone, IsFlushed, IsInTurn, IsLostAt, IsLostFor, IsNext, IsOf, IsPlaceOf, IsQueuedAt, IsQueuedFor, KeepsOpen, NoneCame, OneCame, Stays, most_peers, numbers_of, place_behind, queues_of};

use crate::arrivals::Arrivals;
use crate::files::{listen, listen_again};
use crate::waits::Waits;
use mio::net::{UnixListener, UnixStream};
use roam_cells::{Addr, Fault};
use roam_faults::RunFault;
use roam_stream_framing::{Carrier, Stream};
use std::alloc::Global;
use std::fs::{Files, remove_file};
use std::net::Net;

/// How many may be there at once: the 64 that edit and the 16 that watch, and some that come and go.
const MOST_PEERS: usize = 96;

/// The first number that is given to none: an address has 40 bits.
const NUMBERS_END: u64 = 1 << 40;

/// A client instance at the other end of a stream, by its number.
#[derive(Drop)]
pub(crate) struct ClientPeer<S> {
    number: u64,
    carrier: Carrier<S>,
}

/// The socket at which client instances reach a server, and the streams of those that are there. Each has an address of network 0, which no
/// other ever gets.
#[derive(Drop)]
pub struct Clients {
    path: String,
    listener: UnixListener,
    all: Vec<ClientPeer<UnixStream>>,
    last: u64,
    turn: usize,
    // True if the last write left nothing that could go at its moment.
    is_flushed: bool,
}

/// The address of the peer of a number: its low 40 bits, in network 0.
pub fn address_of(number: u64) -> Addr
    ensures address { result ≡ address_of number }
{
    Addr {
        host: [
            0,
            (number / 0x1_0000_0000 % 256) as u8,
            (number / 0x100_0000 % 256) as u8,
            (number / 0x1_0000 % 256) as u8,
        ],
        port: (number % 0x1_0000) as u16,
    }
}

// Returns the number of the peer at an address of network 0.
fn number_of(addr: Addr) -> Option<u64>
    ensures number { result ≡ number_of addr }
{
    let [network, high, middle, low] = addr.host;
    if network != 0 {
        return None;
    }
    Some(
        u64::from(high) * 0x1_0000_0000
            + u64::from(middle) * 0x100_0000
            + u64::from(low) * 0x1_0000
            + u64::from(addr.port),
    )
}

// Returns a datagram from one of the peers, each asked once from a place on: the peer's place, its address, and how many bytes of `buf` it
// fills from the front.
fn receive_from(
    all: &mut [ClientPeer<UnixStream>],
    first: usize,
    buf: &mut [u8],
) -> Option<(usize, Addr, usize)>
    ensures within { IfSome result (λ r. r.2 ≤ length buf.new) }
    ensures from { IfSome result (λ r. (number : ℕ) × Contains (numbers_of all.old) number × (r.1 ≡ address_of number)) }
    ensures next { IfSome result (λ r. IsNext all.new first r.0) }
    ensures is { IfSome result (λ r. IfSome (slice_get all.new r.0) (λ peer. r.1 ≡ address_of peer.number)) }
    ensures none { result ≡ None → (k : ℕ) → k < length all.old → HasNoneAt all.new (place_behind (length all.old) first k) }
    ensures stays { numbers_of all.new ≡ numbers_of all.old }
    ensures queues { queues_of all.new ≡ queues_of all.old }
{
    let count = all.len();
    for step in 0..count {
        let at = (first % count + step) % count;
        if let Some((from, len)) = receive_at(all, at, buf) {
            return Some((at, from, len));
        }
    }
    None
}

// A datagram that came from the one at a place.
fn receive_at(
    all: &mut [ClientPeer<UnixStream>],
    at: usize,
    buf: &mut [u8],
) -> Option<(Addr, usize)>
    requires within { at < length all.old }
    ensures within { IfSome result (λ r. r.1 ≤ length buf.new) }
    ensures from { IfSome result (λ r. (number : ℕ) × Contains (numbers_of all.old) number × (r.0 ≡ address_of number)) }
    ensures is { IfSome result (λ r. IfSome (slice_get all.new at) (λ peer. r.0 ≡ address_of peer.number)) }
    ensures none { result ≡ None → HasNoneAt all.new at }
    ensures others { (k : ℕ) → k ≢ at → slice_get all.new k ≡ slice_get all.old k }
    ensures stays { numbers_of all.new ≡ numbers_of all.old }
    ensures queues { queues_of all.new ≡ queues_of all.old }
{
    let peer = &mut all[at];
    let len = peer.carrier.receive(buf)?;
    Some((address_of(peer.number), len))
}

// Queues a datagram for the peer at a place, and returns true if it was queued.
fn send_at(all: &mut [ClientPeer<UnixStream>], at: usize, bytes: &[u8]) -> bool
    requires within { at < length all.old }
    ensures queued { result ≡ true → IsQueuedAt all.old all.new at bytes.now }
    ensures lost { result ≡ false → IsLostAt all.old all.new at }
    ensures stays { numbers_of all.new ≡ numbers_of all.old }
{
    let peer = &mut all[at];
    peer.carrier.send(bytes)
}

// Writes the queued bytes of each, and returns true if that was all that goes at this moment.
fn flush_all<S: Stream>(all: &mut [ClientPeer<S>]) -> bool
    ensures each { AllZip (λ old new. IsFlushed S.answers old new) all.old all.new }
    ensures done { result ≡ true → AllZip (λ old new. IsDone S.answers old new) all.old all.new }
{
    let Some((first, others)) = all.split_first_mut() else {
        return true;
    };
    let is_done = first.carrier.flush();
    flush_all(others) && is_done
}

// Writes the queued bytes of each, drops those whose stream is closed, and returns true if that was all that goes at this moment.
fn flush_open<S: Stream + Drop>(all: &mut Vec<ClientPeer<S>>) -> bool
    ensures keeps { KeepsOpen S.answers all.old.items all.new.items result }
{
    let is_all = flush_all(all);
    all.retain(|peer| !peer.carrier.is_over());
    is_all
}

// The place of the one of a number.
fn place_of(all: &[ClientPeer<UnixStream>], number: u64) -> Option<usize>
    ensures found { IfSome result (λ at. IsPlaceOf all.now at number) }
    ensures within { IfSome result (λ at. at < length all.now) }
    ensures none { result ≡ None → All (λ peer. peer.number ≢ number) all.now }
{
    for (at, peer) in all.iter().enumerate() {
        if peer.number == number {
            return Some(at);
        }
    }
    None
}

impl Arrivals for Clients {
    ghost comes_from = { λ clients from. IsOf clients from };

    fn next_arrival(&mut self, buf: &mut [u8]) -> Option<(Addr, usize)>
        ensures within { IfSome result (λ r. r.1 ≤ length buf.new) }
        ensures from { IfSome result (λ r. IsOf self.old r.0) }
        ensures turn { IfSome result (λ r. IsInTurn self.old self.new r.0) }
        ensures stays { Stays self.old self.new }
        ensures none { result ≡ None → HaveNone self.old self.new }
    {
        self.receive(buf)
    }
}

impl Clients {
    /// Binds the socket at a path; no peer is connected yet. `Bind` if it can't be bound.
    pub fn bind<R: Files + Net>(
        rt: &R,
        alloc: Global,
        waits: &Waits,
        path: String,
    ) -> Result<Clients, RunFault>
        ensures path { IfOk result (λ clients. clients.path ≡ path) }
        ensures none { IfOk result (λ clients. (clients.all.items ≡ []) × (clients.last ≡ 0)) }
        ensures fresh { IfOk result (λ clients. (clients.turn ≡ 0) × (clients.is_flushed ≡ true)) }
        ensures faults { IfErr result (λ fault. fault ≡ RunFault.Bind) }
    {
        let Some(mut listener) = listen(rt, path.as_str()) else {
            return Err(RunFault::Bind);
        };
        waits.report(&mut listener, false);
        Ok(Clients {
            path,
            listener,
            all: Vec::new(alloc),
            last: 0,
            turn: 0,
            is_flushed: true,
        })
    }

    /// Binds the socket anew if its file is gone.
    pub fn mend<R: Files + Net>(&mut self, rt: &R, waits: &Waits)
        ensures others { self.new ≡ record self.old { listener = self.new.listener } }
    {
        if listen_again(rt, self.path.as_str(), &mut self.listener) {
            waits.report(&mut self.listener, false);
        }
    }

    // Adds a stream under the next number. Refuses want of memory; then the stream is closed, and its number goes to none.
    fn add(&mut self, alloc: Global, stream: UnixStream) -> Result<(), Fault>
        requires numbers { self.old.last < 2 ^ 40 }
        ensures added { OnOk result (OneCame self.old self.new) }
        ensures more { OnOk result (length self.new.all.items ≡ length self.old.all.items + 1) }
        ensures flushed { self.new.is_flushed ≡ self.old.is_flushed }
        ensures others { self.new ≡ record self.old { all = self.new.all; last = self.new.last } }
        ensures err { OnErr result (NoneCame self.old self.new) }
        ensures fault { IsOkUnless result Fault.OutOfMemory }
    {
        let number = self.last + 1;
        let carrier = Carrier::new(alloc, stream);
        self.all.push(ClientPeer { number, carrier })?;
        self.last = number;
        Ok(())
    }

    // Adds a new peer. Its stream is closed if 96 are there, 2^40 numbers were given, or memory is refused.
    fn take(&mut self, alloc: Global, waits: &Waits, mut stream: UnixStream)
        ensures one { AcceptsOne self.old self.new }
        ensures flushed { self.new.is_flushed ≡ self.old.is_flushed }
        ensures others { self.new ≡ record self.old { all = self.new.all; last = self.new.last } }
        ensures few { length self.old.all.items ≤ most_peers → length self.new.all.items ≤ most_peers }
        ensures numbers { self.old.last < 2 ^ 40 → self.new.last < 2 ^ 40 }
    {
        if self.all.len() >= MOST_PEERS || self.last >= NUMBERS_END - 1 {
            return;
        }
        waits.report(&mut stream, true);
        // One for which there is no memory comes again.
        let _ = self.add(alloc, stream);
    }

    /// Accepts the peers at the socket. Their streams are closed if 96 are there, 2^40 numbers were given, or memory is refused.
    pub fn accept(&mut self, alloc: Global, waits: &Waits)
        ensures accepts { Accepts self.old self.new }
        ensures came { HaveCome self.old self.new }
        ensures flushed { self.new.is_flushed ≡ self.old.is_flushed }
        ensures others { self.new ≡ record self.old { all = self.new.all; last = self.new.last } }
        ensures few { length self.old.all.items ≤ most_peers → length self.new.all.items ≤ most_peers }
        ensures numbers { self.old.last < 2 ^ 40 → self.new.last < 2 ^ 40 }
    {
        for _ in 0..MOST_PEERS {
            let Ok((stream, _)) = self.listener.accept() else {
                return;
            };
            self.take(alloc, waits, stream);
        }
    }

    /// Returns a datagram from one of the peers, which take turns: the sender, and how many bytes of `buf` it fills from the front.
    pub fn receive(&mut self, buf: &mut [u8]) -> Option<(Addr, usize)>
        ensures within { IfSome result (λ r. r.1 ≤ length buf.new) }
        ensures from { IfSome result (λ r. IsOf self.old r.0) }
        ensures turn { IfSome result (λ r. IsInTurn self.old self.new r.0) }
        ensures stays { Stays self.old self.new }
        ensures queues { queues_of self.new.all.items ≡ queues_of self.old.all.items }
        ensures others { self.new ≡ record self.old { all = self.new.all; turn = self.new.turn } }
        ensures none { result ≡ None → HaveNone self.old self.new }
    {
        let (at, from, len) = receive_from(&mut self.all, self.turn, buf)?;
        self.turn = at + 1;
        Some((from, len))
    }

    /// Queues a datagram for the peer at an address, and returns true if it was queued. It is lost if the peer has left, or has much
    /// queued.
    pub fn send(&mut self, to: Addr, bytes: &[u8]) -> bool
        ensures queued { result ≡ true → IsQueuedFor self.old.all.items self.new.all.items (number_of to) bytes.now }
        ensures lost { result ≡ false → IsLostFor self.old.all.items self.new.all.items (number_of to) }
        ensures stays { Stays self.old self.new }
        ensures others { self.new ≡ record self.old { all = self.new.all } }
    {
        let Some(number) = number_of(to) else {
            return false;
        };
        match place_of(&self.all, number) {
            Some(at) => send_at(&mut self.all, at, bytes),
            None => false,
        }
    }

    /// Writes the queued bytes of the peers, as many as go now, and drops those that left. Returns true if that was all that goes at this
    /// moment.
    pub fn flush(&mut self) -> bool
        ensures last { self.new.last ≡ self.old.last }
        ensures keeps { KeepsOpen ⟦<UnixStream as Stream>⟧.answers self.old.all.items self.new.all.items result }
        ensures flushed { self.new.is_flushed ≡ result }
        ensures others { self.new ≡ record self.old { all = self.new.all; is_flushed = self.new.is_flushed } }
    {
        self.is_flushed = flush_open(&mut self.all);
        self.is_flushed
    }

    /// Removes the socket's file.
    pub fn remove(&self, files: &impl Files) {
        // A file that somebody removed before is no matter.
        let _ = remove_file(files, self.path.as_str());
    }
}
