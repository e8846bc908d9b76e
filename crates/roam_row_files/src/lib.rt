//! Changes of stored rows as records of files, and the rows that such files give after any end of the process that wrote them.
#![tactic(auto)]

mod changes;
pub mod laws;
mod records;
mod replays;

pub use changes::{Change, Checkpoint};
pub use records::{SEGMENT_BYTES, front, push_change};
pub use replays::{last_checkpoint, replay};
