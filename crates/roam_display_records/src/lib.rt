//! The records that a front end reads from the stream of its terminal, and the text of a screen cell by cell.
#![tactic(auto)]

pub mod laws;
mod looks;
mod records;
mod taken;

pub use looks::{Looking, screen_text};
pub use records::{Record, record_text};
pub use taken::TakenLines;
