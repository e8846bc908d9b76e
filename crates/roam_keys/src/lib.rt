//! Keys, and the bytes that they send to a program.
#![tactic(auto)]

pub mod keys;
pub mod sent;

pub use keys::Key;
pub use sent::{KeyModes, Sent};
