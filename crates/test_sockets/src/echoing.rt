//! A server in memory, whose pane's program writes back its input, for a client instance over ports in memory.
use roam_hub::{Addr, Server};
use roam_turns::memory::RecordedCall;
use roam_turns::{MemoryPorts, serve_turn};
use std::alloc::Global;
use std::test::*;

/// How many milliseconds pass at each turn.
const TURN: u64 = 20;

const START: Addr = Addr {
    host: [127, 0, 0, 1],
    port: 6000,
};

const SERVER: Addr = Addr {
    host: [127, 0, 0, 1],
    port: 5000,
};

/// A server with its ports, the moment, and how many calls of both ports were carried.
#[derive(Drop)]
pub struct Echoing {
    server: Server,
    ports: MemoryPorts,
    moment: u64,
    heard: usize,
    sent: usize,
}

// Carries the datagrams sent since so many calls, and returns the number of calls.
fn carry(from: &MemoryPorts, seen: usize, by: Addr, to: &mut MemoryPorts) -> Result<usize, Fail> {
    for call in from.told().iter().skip(seen) {
        if let RecordedCall::Sent(_, bytes, true) = call {
            to.deliver(by, bytes)?;
        }
    }
    Ok(from.told().len())
}

// Returns the bytes that the program of pane 1 got since so many calls.
fn handed(alloc: Global, ports: &MemoryPorts, seen: usize) -> Result<Vec<u8>, Fail> {
    let mut all = Vec::new(alloc);
    for call in ports.told().iter().skip(seen) {
        if let RecordedCall::PaneTook(1, bytes, _) = call {
            all.extend_from_slice(bytes)?;
        }
    }
    Ok(all)
}

impl Echoing {
    /// A server of 24 by 80, whose pane has written nothing.
    pub fn new(alloc: Global) -> Result<Echoing, Fail> {
        Ok(Echoing {
            server: Server::new(alloc, 1, 24, 80)?,
            ports: MemoryPorts::new(alloc),
            moment: 0,
            heard: 0,
            sent: 0,
        })
    }

    /// It is this moment at the server, and at an instance.
    pub fn set_moment(&mut self, start: &mut MemoryPorts, moment: u64) {
        self.moment = moment;
        self.ports.set_moment(moment);
        start.set_moment(moment);
    }

    /// Takes two turns of the server, with the instance's datagrams before and the server's behind. Between them its program writes back
    /// its input.
    pub fn meet(&mut self, alloc: Global, start: &mut MemoryPorts) -> Result<(), Fail> {
        self.moment = self.moment.saturating_add(TURN);
        start.set_moment(self.moment);
        self.ports.set_moment(self.moment);
        self.heard = carry(start, self.heard, START, &mut self.ports)?;
        serve_turn(alloc, &mut self.server, &mut self.ports);
        let echo = handed(alloc, &self.ports, self.sent)?;
        self.ports.write(1, &echo)?;
        serve_turn(alloc, &mut self.server, &mut self.ports);
        self.sent = carry(&self.ports, self.sent, SERVER, start)?;
        Ok(())
    }
}
