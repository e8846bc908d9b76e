//! The sockets of a server's panes: the peer at each, and the bytes between a pane's program and its terminal.
#![tactic(auto)]

mod filter_stages;
mod frames;
mod moments;
mod pane_inputs;
mod panes;
mod peers;
mod pieces;

pub use moments::{after, is_time, sooner, standing};
pub use panes::Panes;
pub use peers::{has_failed, next_at};
