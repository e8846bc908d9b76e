//! A caller of `roam_shared_client`, as its README shows it (`tools/worked_callers`).

// README: begin
use roam_cells::Fault;
use roam_hub::{Addr, Client};
use roam_outer_terminal::Duplex;
use roam_shared_client::{Listening, SharedClient};
use roam_turns::Ports;
use std::alloc::Global;

/// An instance of a session with one terminal: so many rounds of it.
pub fn share<S: Duplex + Drop, P: Ports + Drop>(
    alloc: Global,
    client: Client,
    ports: P,
    stream: S,
    server: Addr,
    rounds: u64,
) -> Result<(), Fault> {
    let mut shared = SharedClient::new(alloc, client);
    let mut listening = Listening::new(ports);
    shared.add(alloc, stream)?;
    for _ in 0..rounds {
        // Whoever has something better to do waits so long at most.
        let _ = shared.round(alloc, &mut listening, server);
    }
    Ok(())
}
// README: end
