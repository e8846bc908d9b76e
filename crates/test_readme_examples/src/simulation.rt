//! A caller of `roam_simulation`, as its README shows it (`tools/worked_callers`).

// README: begin
use roam_cells::Fault;
use roam_hub::Addr;
use roam_simulation::{Event, Reply, World};
use roam_wire::Version;
use std::alloc::Global;

/// Returns the server's reply to the first datagram of a client instance.
pub fn first_hop(alloc: Global, session: u64) -> Result<Reply, Fault> {
    let mut world = World::new(alloc, session, 24, 80)?;
    world.step(alloc, &Event::Start(0, 1, Version::Two, false));
    world.step(alloc, &Event::ClientTick(0, 0));
    let from = Addr {
        host: [127, 0, 0, 1],
        port: 5001,
    };
    Ok(world.step(alloc, &Event::ToServer(1, from, 10)))
}
// README: end
