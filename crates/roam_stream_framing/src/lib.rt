//! Datagrams over a stream, each behind its length: the bytes that aren't given yet, the queued bytes, and both around a stream.
#![tactic(auto)]

mod backlog;
mod carriers;
mod frames;
pub mod laws;
mod outbox;
mod queues;
mod streams;

pub use carriers::Carrier;
pub use frames::{Frames, Front, LONGEST_DATAGRAM, first_in};
pub use outbox::Outbox;
pub use queues::Queue;
pub use streams::Stream;
