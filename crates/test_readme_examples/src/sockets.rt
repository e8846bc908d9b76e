//! A caller of `roam_sockets`, as its README shows it (`tools/worked_callers`).

// README: begin
use roam_faults::RunFault;
use roam_sockets::{Clients, Waits};
use std::alloc::Global;
use std::fs::Files;
use std::net::Net;

/// A socket for client instances at a path, with those that wait there.
pub fn clients_at<R: Files + Net>(
    rt: &R,
    alloc: Global,
    waits: &Waits,
    path: String,
) -> Result<Clients, RunFault> {
    let mut clients = Clients::bind(rt, alloc, waits, path)?;
    clients.accept(alloc, waits);
    Ok(clients)
}
// README: end
