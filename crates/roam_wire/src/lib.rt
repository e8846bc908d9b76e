//! Datagrams and the instructions that they carry in fragments: their texts in both directions, cutting and gathering.
#![tactic(auto)]

pub mod cutting;
pub mod datagrams;
mod fragments;
pub mod gatherers;
mod headers;
pub mod instructions;
pub mod laws;
pub mod unchanging;
pub mod versions;

pub use cutting::cut;
pub use datagrams::{Datagram, Kind, read_datagram, write_datagram};
pub use gatherers::{Gathered, Gatherer};
pub use instructions::{Down, Up, read_down, read_up, write_down, write_up};
pub use unchanging::is_unchanging;
pub use versions::Version;
