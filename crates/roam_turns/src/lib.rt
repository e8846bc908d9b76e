//! One turn of a program with a core: input from its ports goes to the core, and the core's output goes to the ports.
#![tactic(auto)]

mod attaching;
pub mod cores;
pub mod laws;
pub mod memory;
mod outer;
pub mod ports;
mod screens;
mod sending;
mod serving;

pub use attaching::{attach_turn, quiet_turn};
pub use cores::{ClientCore, ServerCore};
pub use memory::MemoryPorts;
pub use outer::Outer;
pub use ports::Ports;
pub use serving::serve_turn;
