//! Rows that scrolled off the screen of a terminal, by number: the newest are kept, read, searched and withdrawn.
#![tactic(auto)]

mod chunks;
mod finding;
pub mod laws;
mod reading;
mod row_chunks;
mod stored;
mod wraps;

pub use finding::Way;
pub use stored::{MOST_TEXT, Page, StoreFault, StoredRows};
pub use wraps::Wrap;
