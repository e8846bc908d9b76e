//! UDP on loopback.
ghost use Rattle.std.specs.Prelude.{◌≡◌, ◌⊎◌, ◌≤◌, [], ◌∷◌, length, not, None, IfOk, IfSome, IfErr};
ghost use Rattle.roam_sockets.specs.Addresses.{number_of};
ghost use Rattle.roam_sockets.specs.Lanes.{Flushes, SendsTo, is_any_waiting};

use crate::arrivals::Arrivals;
use crate::lanes::{DatagramSocket, Paced};
use crate::waits::Waits;
use mio::net::UdpSocket;
use roam_cells::Addr;
use roam_faults::RunFault;
use std::alloc::Global;
use std::io;
use std::net::{IpAddr, Ipv4Addr, Net, SocketAddr};

/// A UDP socket on loopback. Each address gets at most 48 datagrams in a millisecond; of an instruction, all or none.
#[derive(Drop)]
pub struct Udp {
    paced: Paced<UdpSocket>,
    port: u16,
}

/// A port of this machine.
pub fn loopback(port: u16) -> Addr
    ensures loopback { result ≡ record { host = 127 ∷ 0 ∷ 0 ∷ 1 ∷ []; port = port } }
{
    Addr {
        host: [127, 0, 0, 1],
        port,
    }
}

fn socket_addr(addr: Addr) -> SocketAddr {
    let [a, b, c, d] = addr.host;
    SocketAddr::new(IpAddr::V4(Ipv4Addr::new(a, b, c, d)), addr.port)
}

impl DatagramSocket for UdpSocket {
    fn send_once(&mut self, to: Addr, datagram: &[u8]) -> bool {
        match self.send_to(datagram, socket_addr(to)) {
            Ok(len) => len == datagram.len(),
            Err(_) => false,
        }
    }
}

impl Arrivals for Udp {
    ghost comes_from = { λ _ from. number_of from ≡ None };

    fn next_arrival(&mut self, buf: &mut [u8]) -> Option<(Addr, usize)>
        ensures within { IfSome result (λ r. r.1 ≤ length buf.new) }
        ensures far { IfSome result (λ r. number_of r.0 ≡ None) }
        ensures port { self.new.port ≡ self.old.port }
        ensures lanes { self.new.paced.lanes ≡ self.old.paced.lanes }
    {
        self.receive(buf)
    }
}

/// Tries to bind a port of this machine, to get the reason for which it can't be.
pub fn try_port(net: &impl Net, port: u16) -> io::Result<()> {
    UdpSocket::bind(net, socket_addr(loopback(port)))?;
    Ok(())
}

impl Udp {
    /// Binds a port of this machine; 0 asks for any free one. `Bind` if it can't be bound.
    pub fn bind(net: &impl Net, alloc: Global, waits: &Waits, port: u16) -> Result<Udp, RunFault>
        ensures port { IfOk result (λ udp. (port ≡ 0) ⊎ (udp.port ≡ port)) }
        ensures none { IfOk result (λ udp. udp.paced.lanes.items ≡ []) }
        ensures faults { IfErr result (λ fault. fault ≡ RunFault.Bind) }
    {
        let Ok(mut socket) = UdpSocket::bind(net, socket_addr(loopback(port))) else {
            return Err(RunFault::Bind);
        };
        let bound = match socket.local_addr() {
            Ok(addr) => addr.port(),
            Err(_) => return Err(RunFault::Bind),
        };
        waits.report(&mut socket, false);
        Ok(Udp {
            paced: Paced::new(alloc, socket),
            port: if port == 0 { bound } else { port },
        })
    }

    /// The port that it is bound to.
    pub fn port(&self) -> u16
        ensures port { result ≡ self.now.port }
    {
        self.port
    }

    /// Returns the next datagram's sender, and how many bytes of `buf` it fills from the front. It drops a datagram from network 0, whose
    /// addresses are those of streams.
    pub fn receive(&mut self, buf: &mut [u8]) -> Option<(Addr, usize)>
        ensures within { IfSome result (λ r. r.1 ≤ length buf.new) }
        ensures far { IfSome result (λ r. number_of r.0 ≡ None) }
        ensures port { self.new.port ≡ self.old.port }
        ensures lanes { self.new.paced.lanes ≡ self.old.paced.lanes }
    {
        match self.paced.socket().recv_from(buf) {
            Ok((len, SocketAddr::V4(from))) if from.ip().octets()[0] != 0 => {
                let from = Addr {
                    host: from.ip().octets(),
                    port: from.port(),
                };
                Some((from, len))
            }
            _ => None,
        }
    }

    /// Sends a datagram at a moment, or queues it if the address got enough then. Returns true if it was sent or queued.
    pub fn send(&mut self, to: Addr, bytes: &[u8], now: u64) -> bool
        ensures port { self.new.port ≡ self.old.port }
        ensures sends { SendsTo now to self.old.paced.lanes.items self.new.paced.lanes.items bytes.now result None None }
    {
        self.paced.send(to, bytes, now)
    }

    /// Sends queued datagrams, as many as may go at this moment, and returns true if that was all.
    pub fn flush(&mut self, now: u64) -> bool
        ensures port { self.new.port ≡ self.old.port }
        ensures flushes { Flushes now self.old.paced.lanes.items self.new.paced.lanes.items None None result }
        ensures all { result ≡ not (is_any_waiting self.new.paced.lanes.items) }
    {
        self.paced.flush(now)
    }
}
