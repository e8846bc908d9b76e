//! A server and two client instances, each with its ports, and a network between them.
ghost use Rattle.std.specs.Prelude.{◌≡◌, None, IfSome, IfOk};
ghost use Rattle.roam_acts.specs.Acts.{IsInRange};
ghost use Rattle.roam_turns.specs.Painting.{IsBehind};

use roam_acts::Act;
use roam_cells::Fault;
use roam_hub::{Addr, Client, Server};
use roam_screens::Shown;
use roam_turns::memory::RecordedCall;
use roam_turns::{MemoryPorts, Outer, attach_turn, serve_turn};
use std::alloc::Global;

pub const SESSION: u64 = 1;

const HOST: [u8; 4] = [127, 0, 0, 1];

/// Where the server is.
pub const SERVER: Addr = Addr {
    host: HOST,
    port: 5000,
};

/// Carries the datagrams that went out since so many calls, to a port or, at 0, to any, and answers how many calls there are.
pub fn carry(
    from: &MemoryPorts,
    seen: usize,
    source: Addr,
    port: u16,
    to: &mut MemoryPorts,
) -> Result<usize, Fault> {
    for call in from.told().iter().skip(seen) {
        if let RecordedCall::Sent(address, bytes, true) = call {
            if port == 0 || address.port == port {
                to.deliver(source, bytes)?;
            }
        }
    }
    Ok(from.told().len())
}

/// A client instance with the noted screen of its terminal.
#[derive(Drop)]
pub struct End {
    client: Client,
    outer: Outer,
    ports: MemoryPorts,
    address: Addr,
    // How many calls of its ports and of the server's were carried.
    sent: usize,
    heard: usize,
}

impl End {
    pub fn new(alloc: Global, id: u64, port: u16) -> Result<End, Fault>
        ensures none { IfOk result (λ end. end.outer ≡ None) }
    {
        let client = Client::new(alloc, SESSION, id)?;
        Ok(End {
            client,
            outer: Outer::new(),
            ports: MemoryPorts::new(alloc),
            address: Addr { host: HOST, port },
            sent: 0,
            heard: 0,
        })
    }

    pub fn ports(&self) -> &MemoryPorts {
        &self.ports
    }

    pub fn screen(&self) -> Shown<'_> {
        self.client.shown().1
    }

    /// One turn at a moment, whose call of this number fails; whether the act was taken.
    pub fn turn(&mut self, alloc: Global, now: u64, fails: u64, next: Option<&Act>) -> bool
        requires in_range { IfSome next (λ act. IsInRange act.now) }
        requires behind { IsBehind self.old.outer self.old.client.kept.receiver.newest.number self.old.client.kept.receiver.newest.state }
        ensures behind { IsBehind self.new.outer self.new.client.kept.receiver.newest.number self.new.client.kept.receiver.newest.state }
    {
        self.ports.set_moment(now);
        self.ports.fail_at(fails);
        attach_turn(
            alloc,
            &mut self.client,
            &mut self.outer,
            &mut self.ports,
            SERVER,
            next,
        )
    }
}

/// A server of 24 by 80 and two client instances.
#[derive(Drop)]
pub struct Stage {
    pub server: Server,
    pub ports: MemoryPorts,
    pub first: End,
    pub second: End,
    // True if the act of each instance was taken.
    pub is_split: bool,
    pub is_typed: bool,
}

fn both_ends(alloc: Global) -> Result<(End, End), Fault>
    ensures first { IfOk result (λ ends. ends.0.outer ≡ None) }
    ensures second { IfOk result (λ ends. ends.1.outer ≡ None) }
{
    let first = End::new(alloc, 0xA1, 5001)?;
    let second = End::new(alloc, 0xB1, 5002)?;
    Ok((first, second))
}

impl Stage {
    pub fn new(alloc: Global) -> Result<Stage, Fault>
        ensures first { IfOk result (λ stage. stage.first.outer ≡ None) }
        ensures second { IfOk result (λ stage. stage.second.outer ≡ None) }
    {
        let server = Server::new(alloc, SESSION, 24, 80)?;
        let (first, second) = both_ends(alloc)?;
        Ok(Stage {
            server,
            ports: MemoryPorts::new(alloc),
            first,
            second,
            is_split: false,
            is_typed: false,
        })
    }
}

/// One turn of a server at a moment, whose call of this number fails.
pub fn serve_at(alloc: Global, server: &mut Server, ports: &mut MemoryPorts, now: u64, fails: u64) {
    ports.set_moment(now);
    ports.fail_at(fails);
    serve_turn(alloc, server, ports);
}

/// Gives the server the datagrams of an instance.
pub fn carry_up(end: &mut End, server: &mut MemoryPorts) -> Result<(), Fault>
    ensures client { end.new.client ≡ end.old.client }
    ensures outer { end.new.outer ≡ end.old.outer }
{
    end.sent = carry(&end.ports, end.sent, end.address, 0, server)?;
    Ok(())
}

/// Gives an instance the datagrams of the server.
pub fn carry_down(server: &MemoryPorts, end: &mut End) -> Result<(), Fault>
    ensures client { end.new.client ≡ end.old.client }
    ensures outer { end.new.outer ≡ end.old.outer }
{
    end.heard = carry(server, end.heard, SERVER, end.address.port, &mut end.ports)?;
    Ok(())
}
