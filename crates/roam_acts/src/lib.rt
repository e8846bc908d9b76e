//! Keys and acts, the input of a client, as values, lines and bytes; and the two ends that carry acts once and in order.
#![tactic(auto)]

pub mod acts;
pub mod bytes;
mod keys;
mod kinds;
pub mod laws;
pub mod limits;
pub mod lines;
pub mod senders;
pub mod takers;

pub use acts::Act;
pub use bytes::{read_acts, write_acts};
pub use lines::read_act;
pub use roam_keys::Key;
pub use senders::ActSender;
pub use takers::ActTaker;
