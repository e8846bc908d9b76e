//! A caller of both cores, as the README of `roam_hub` shows it (`tools/worked_callers`).

// README: begin
use roam_cells::Fault;
use roam_hub::{Addr, Client, Server};
use roam_screens::Seen;
use std::alloc::Global;

/// Gives the server the datagrams of a client instance, and the instance those of the server.
pub fn exchange(
    alloc: Global,
    server: &mut Server,
    client: &mut Client,
    now: u64,
) -> Result<(), Fault> {
    let from = Addr {
        host: [127, 0, 0, 1],
        port: 5001,
    };
    for bytes in client.tick(alloc, now)?.iter() {
        server
            .datagram(alloc, from, bytes, now)
            .map_err(|stop| stop.fault)?;
    }
    for (_, bytes) in server.tick(alloc, now)?.iter() {
        client.datagram(alloc, bytes, now)?;
    }
    Ok(())
}

/// Returns true if a client instance shows a letter of a pane's program as the first screen.
pub fn is_followed(alloc: Global, server: &mut Server, client: &mut Client) -> Result<bool, Fault> {
    server.pane_bytes(1, b"a")?;
    exchange(alloc, server, client, 0)?;
    let (number, shot) = client.shown();
    Ok(
        number == 1
            && matches!(shot.at(1, 1), Some(cell) if cell.chars().as_slice() == ['a'].as_slice()),
    )
}
// README: end

use std::test::*;

fn is_followed_by_new(alloc: Global, server: &mut Server) -> bool {
    match Client::new(alloc, 1, 0xA1) {
        Ok(mut client) => is_followed(alloc, server, &mut client) == Ok(true),
        Err(_) => false,
    }
}

fn is_followed_at_first(alloc: Global) -> bool {
    match Server::new(alloc, 1, 24, 80) {
        Ok(mut server) => is_followed_by_new(alloc, &mut server),
        Err(_) => false,
    }
}

#[test]
fn a_start_follows_a_server(rt: HostRuntime) {
    assert!(rt; is_followed_at_first(rt.alloc()));
}
