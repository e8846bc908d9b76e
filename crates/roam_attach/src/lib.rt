//! `roam attach`: the turns of a client instance round real sockets, the clock and its outer terminals.
#![tactic(auto)]

mod arriving;
mod attaching;
mod client_ports;
mod connecting;
mod hosting;
mod refused;

pub use attaching::{Attach, Home, Typed, client_for, follow, run_attach};
pub use client_ports::ClientPorts;
pub use connecting::Connection;
pub use refused::{tell_end, tell_failed};
