//! The outer terminals of a client instance, which come and go while it stays: a round with all of them, and its whole run.
#![tactic(auto)]

mod listening;
mod running;
mod sharing;

pub use listening::Listening;
pub use running::{Door, run_shared};
pub use sharing::{MOST_TERMINALS, SharedClient};
