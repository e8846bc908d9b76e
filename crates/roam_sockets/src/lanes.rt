//! The queue of an address, and its pace, over any datagram socket.
ghost use Rattle.std.specs.Prelude.{◌≡◌, ◌≢◌, ◌↔◌, ◌∷◌, [], List, Option, None, IfSome, IsTrue, not, true, false};
ghost use Rattle.std.specs.List.{All};
ghost use Rattle.roam_sockets.specs.Lanes.{AreReady, Flushes, GoesOne, Handed, Hands, IsDone, IsFresh, IsLaneAt, Sends, SendsEach, SendsTo, Takes, is_any_waiting, is_kept};

use crate::pace::Pace;
use roam_cells::Addr;
use roam_stream_framing::{Queue, first_in};
use std::alloc::Global;

/// A socket that takes datagrams to addresses.
pub(crate) trait DatagramSocket {
    // The datagrams that it was given, in order, if they are known.
    ghost handed: { Self → Option (List Handed) } = { λ _. None };

    /// Sends a datagram, and returns true if it went.
    fn send_once(&mut self, to: Addr, datagram: &[u8]) -> bool
        ensures handed { Hands (handed self.old) (handed self.new) (record { to = to; datagram = datagram.now } ∷ []) };
}

/// The queue of an address, and its pace.
#[derive(Drop)]
pub(crate) struct Lane {
    to: Addr,
    queue: Queue,
    pace: Pace,
}

impl Lane {
    // Nothing waits for an address, and nothing went there yet.
    fn new(alloc: Global, to: Addr) -> Lane
        ensures fresh { IsFresh to result }
    {
        Lane {
            to,
            queue: Queue::new(alloc),
            pace: Pace::new(),
        }
    }

    // Returns true if the lane has this address.
    fn is_to(&self, to: Addr) -> bool
        ensures to { IsTrue result ↔ (self.now.to ≡ to) }
    {
        self.to == to
    }

    // Sends the oldest queued datagram, if there is one and it may go at this moment, and returns true if it did.
    fn send_first<D: DatagramSocket>(&mut self, socket: &mut D, now: u64) -> bool
        ensures went { result ≡ true → GoesOne now self.old self.new (D.handed socket.old) (D.handed socket.new) }
        ensures done { result ≡ false → IsDone now self.new }
        ensures same { result ≡ false → (self.new ≡ self.old) × (socket.new ≡ socket.old) }
    {
        if !self.pace.may_go(now) {
            return false;
        }
        let Some(datagram) = first_in(self.queue.front()) else {
            return false;
        };
        let framed = datagram.len() + 2;
        // One that isn't sent is a loss.
        let _ = socket.send_once(self.to, datagram);
        self.queue.took(framed);
        self.pace.went(now);
        true
    }

    // Sends queued datagrams, as many as may go at this moment, and returns true if that was all.
    fn send_waiting<D: DatagramSocket>(&mut self, socket: &mut D, now: u64) -> bool
        ensures sends { Sends now self.old self.new (D.handed socket.old) (D.handed socket.new) result }
    {
        while self.send_first(socket, now) {}
        self.queue.front().is_empty()
    }

    // Queues a datagram, sends those that may go at this moment, and returns true if it was queued. Each datagram passes the queue, which
    // takes later ones of an instruction only after the earlier ones.
    fn send<D: DatagramSocket>(&mut self, socket: &mut D, datagram: &[u8], now: u64) -> bool
        ensures takes { Takes now self.old self.new datagram.now result (D.handed socket.old) (D.handed socket.new) }
    {
        let is_queued = self.queue.push(datagram);
        self.send_waiting(socket, now);
        is_queued
    }

    // Returns true if datagrams are queued, or one went at this moment.
    fn is_kept(&self, now: u64) -> bool
        ensures kept { result ≡ is_kept now self.now }
    {
        !self.queue.front().is_empty() || self.pace.is_at(now)
    }
}

// Sends the queued datagrams of each lane, as many as may go at this moment, and returns true if that was all.
fn send_each<D: DatagramSocket>(lanes: &mut [Lane], socket: &mut D, now: u64) -> bool
    ensures each { SendsEach now lanes.old lanes.new (D.handed socket.old) (D.handed socket.new) result }
{
    let Some((first, others)) = lanes.split_first_mut() else {
        return true;
    };
    let is_all = first.send_waiting(socket, now);
    send_each(others, socket, now) && is_all
}

// The place of an address's lane.
fn place_of(lanes: &[Lane], to: Addr) -> Option<usize>
    ensures found { IfSome result (λ at. IsLaneAt lanes.now at to) }
    ensures none { result ≡ None → All (λ lane. lane.to ≢ to) lanes.now }
{
    for (at, lane) in lanes.iter().enumerate() {
        if lane.is_to(to) {
            return Some(at);
        }
    }
    None
}

/// A socket to which datagrams go at a pace: 48 to one address in a millisecond, of an instruction all or none.
#[derive(Drop)]
pub(crate) struct Paced<D> {
    socket: D,
    alloc: Global,
    lanes: Vec<Lane>,
}

impl<D: DatagramSocket> Paced<D> {
    /// Nothing waits yet.
    pub(crate) fn new(alloc: Global, socket: D) -> Paced<D>
        ensures none { (result.socket ≡ socket) × (result.lanes.items ≡ []) }
    {
        Paced {
            socket,
            alloc,
            lanes: Vec::new(alloc),
        }
    }

    /// The socket.
    pub(crate) fn socket(&self) -> &D
        ensures socket { result.now ≡ self.now.socket }
    {
        &self.socket
    }

    // Returns the place of an address's lane, and makes one if there is none; `None` if memory is refused.
    fn lane(&mut self, to: Addr) -> Option<usize>
        ensures ready { AreReady to self.old.lanes.items self.new.lanes.items }
        ensures found { IfSome result (λ at. IsLaneAt self.new.lanes.items at to) }
        ensures none { result ≡ None → self.new.lanes.items ≡ self.old.lanes.items }
        ensures others { result ≡ None → All (λ lane. lane.to ≢ to) self.old.lanes.items }
        ensures socket { self.new.socket ≡ self.old.socket }
    {
        if let Some(at) = place_of(&self.lanes, to) {
            return Some(at);
        }
        let at = self.lanes.len();
        self.lanes.push(Lane::new(self.alloc, to)).ok()?;
        Some(at)
    }

    /// Sends a datagram at a moment, or queues it if the address got enough then. Returns true if it was sent or queued.
    pub(crate) fn send(&mut self, to: Addr, datagram: &[u8], now: u64) -> bool
        ensures sends { SendsTo now to self.old.lanes.items self.new.lanes.items datagram.now result
            (D.handed self.old.socket) (D.handed self.new.socket) }
    {
        match self.lane(to) {
            Some(at) => self.lanes[at].send(&mut self.socket, datagram, now),
            None => self.socket.send_once(to, datagram),
        }
    }

    /// Sends queued datagrams, as many as may go at this moment, and returns true if that was all. It drops the lane of an address without
    /// queued datagrams that got none at this moment.
    pub(crate) fn flush(&mut self, now: u64) -> bool
        ensures flushes { Flushes now self.old.lanes.items self.new.lanes.items
            (D.handed self.old.socket) (D.handed self.new.socket) result }
        ensures all { result ≡ not (is_any_waiting self.new.lanes.items) }
    {
        let are_all = send_each(&mut self.lanes, &mut self.socket, now);
        self.lanes.retain(|lane| lane.is_kept(now));
        are_all
    }
}
