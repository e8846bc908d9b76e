//! The two ends of a link of numbered states, over any lawful state.
//!
//! The model is Mosh's State Synchronization Protocol. This project's profile deviates in three points. A sender keeps at most eight states
//! and drops none without an acknowledgement. A diff is always against the base, which the other end is known to have. An end measures no
//! time.
#![tactic(auto)]

pub mod laws;
pub mod limits;
mod receivers;
mod senders;

pub use receivers::{Pair, Receiver, Step};
pub use senders::{Held, Instruction, Sender};
