//! A server that has memory for nothing: a turn hands it all that came, all the same.
ghost use Rattle.std.specs.Prelude.{None};

use crate::turns_rows::are_letters;
use crate::turns_stage::SERVER;
use roam_cells::Fault;
use roam_hub::{Addr, Stop};
use roam_turns::{MemoryPorts, ServerCore, serve_turn};
use std::alloc::Global;
use std::test::*;

/// What it was given: datagrams, their bytes, bytes of programs, and ticks.
#[derive(Clone, Copy, Debug, PartialEq, Eq)]
struct Refuser {
    datagrams: usize,
    datagram_bytes: usize,
    pane_bytes: usize,
    ticks: usize,
}

impl ServerCore for Refuser {
    ghost step = { λ old call new. Unit {0} };

    ghost waiting = { λ core pane. None };

    fn datagram(
        &mut self,
        _alloc: Global,
        _from: Addr,
        bytes: &[u8],
        _now: u64,
    ) -> Result<usize, Stop> {
        self.datagrams = self.datagrams.saturating_add(1);
        self.datagram_bytes = self.datagram_bytes.saturating_add(bytes.len());
        Err(Stop {
            fault: Fault::OutOfMemory,
            taken: 0,
        })
    }

    fn generation(&mut self, _pane: u8) -> Option<u64> {
        Some(1)
    }

    fn room(&mut self, _pane: u8) -> Option<usize> {
        Some(65_536)
    }

    fn pane_bytes(&mut self, _pane: u8, piece: &[u8]) -> Result<(), Fault> {
        self.pane_bytes = self.pane_bytes.saturating_add(piece.len());
        Err(Fault::OutOfMemory)
    }

    fn output(&mut self, _pane: u8, _out: &mut [u8]) -> Option<usize> {
        None
    }

    fn drain(&mut self, _pane: u8, _n: usize) -> Result<(), Fault> {
        Err(Fault::OutOfMemory)
    }

    fn tick(&mut self, _alloc: Global, _now: u64) -> Result<Vec<(Addr, Vec<u8>)>, Fault> {
        self.ticks = self.ticks.saturating_add(1);
        Err(Fault::OutOfMemory)
    }
}

// Three datagrams come, and two programs write.
fn deliver(ports: &mut MemoryPorts) -> Result<(), Fault> {
    for _ in 0..3 {
        ports.deliver(SERVER, b"five!")?;
    }
    ports.write(1, b"ab")?;
    ports.write(2, b"c")?;
    Ok(())
}

// Returns true if everything that arrived was passed on, and nothing was sent.
fn is_handed_all(alloc: Global, ports: &mut MemoryPorts) -> bool {
    let mut refuser = Refuser {
        datagrams: 0,
        datagram_bytes: 0,
        pane_bytes: 0,
        ticks: 0,
    };
    let all = Refuser {
        datagrams: 3,
        datagram_bytes: 15,
        pane_bytes: 3,
        ticks: 1,
    };
    let is_delivered = deliver(ports).is_ok();
    serve_turn(alloc, &mut refuser, ports);
    is_delivered && refuser == all && are_letters(ports.told(), "NRRRrLLLLLLLLLGGggggggg")
}

fn hands_all(alloc: Global) -> bool {
    let mut ports = MemoryPorts::new(alloc);
    is_handed_all(alloc, &mut ports)
}

#[test]
fn a_server_that_refuses_all_is_handed_all(rt: HostRuntime) {
    assert!(rt; hands_all(rt.alloc()));
}
