//! Rows of cells that go round in one buffer, each with how far it has been written.
#![tactic(auto)]

pub use rings::Ring;
pub use sizing::Fitted;

mod changing;
mod editing;
mod erasing;
mod halves;
pub mod laws;
mod lengths;
mod places;
pub mod rings;
mod scrolling;
pub mod sizing;
mod spans;
mod writing;
