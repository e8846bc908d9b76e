//! A caller of a turn, as the README of `roam_turns` shows it (`tools/worked_callers`).

// README: begin
use roam_acts::Act;
use roam_hub::{Addr, Client};
use roam_turns::memory::RecordedCall;
use roam_turns::{MemoryPorts, Outer, Ports, attach_turn};
use std::alloc::Global;

/// The first turn of a client instance, with its first act; whether the act was taken.
pub fn begin<P: Ports>(alloc: Global, client: &mut Client, ports: &mut P, server: Addr) -> bool {
    let mut outer = Outer::new();
    attach_turn(
        alloc,
        client,
        &mut outer,
        ports,
        server,
        Some(&Act::SplitRight),
    )
}

/// Returns true if such a turn, over ports in memory, sends a datagram to the server and opens the outer terminal.
pub fn is_begun(alloc: Global, client: &mut Client, server: Addr) -> bool {
    let mut ports = MemoryPorts::new(alloc);
    let mut is_sent = false;
    let mut is_opened = false;
    let is_taken = begin(alloc, client, &mut ports, server);
    for call in ports.told() {
        match call {
            RecordedCall::Sent(to, _, true) => is_sent = *to == server,
            RecordedCall::Showed(bytes, true) => is_opened = bytes.starts_with(b"\x1Bc"),
            _ => {}
        }
    }
    is_taken && is_sent && is_opened
}
// README: end

use crate::turns_stage::{SERVER, SESSION};
use std::test::*;

fn is_begun_at_first(alloc: Global) -> bool {
    match Client::new(alloc, SESSION, 0xA1) {
        Ok(mut client) => is_begun(alloc, &mut client, SERVER),
        Err(_) => false,
    }
}

#[test]
fn a_start_begins(rt: HostRuntime) {
    assert!(rt; is_begun_at_first(rt.alloc()));
}
