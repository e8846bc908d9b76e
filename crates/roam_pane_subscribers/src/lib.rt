//! The subscribers of a server's panes: the news of each, the pty host among them, and the closes that they ask for. The server's own
//! client instance types a close.
#![tactic(auto)]

mod clipping;
mod clips;
mod closing;
mod metadata_events;
mod programs;
mod queries;
mod querying;
mod seats;
mod subscribing;

pub use closing::{Closer, OWN};
pub use subscribing::Subscribers;
