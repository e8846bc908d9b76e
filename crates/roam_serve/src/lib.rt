//! `roam serve`: the turns of a server round its sockets and the clock.
#![tactic(auto)]

mod echoes;
mod refused;
mod server_ports;
mod serving;
mod tellings;

pub use refused::tell_unbound;
pub use server_ports::{OwnStart, ServerPorts};
pub use serving::{RunPorts, Serve, run_serve, serve_turns};
