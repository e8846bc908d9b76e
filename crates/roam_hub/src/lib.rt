//! The program's two cores: the server and a client instance.
#![tactic(auto)]

pub mod addresses;
pub mod clients;
mod ends;
mod known;
mod limits;
mod moments;
mod packing;
mod records;
mod sending;
pub mod servers;
mod shared;
mod taking;
mod waits;

pub use addresses::Stop;
pub use clients::{Client, Heard};
pub use roam_cells::Addr;
pub use servers::Server;
