//! The world of both cores: the events between one server and its client instances, and their replies.
#![tactic(auto)]

pub mod events;
mod networks;
pub mod worlds;

pub use events::{Event, Reply};
pub use worlds::World;
