//! The lines of a script of `roam world`, as values.
#![tactic(auto)]

mod kinds;
pub mod laws;
pub mod lines;
mod numbers;

pub use lines::{Line, LineFault, is_skipped, read_line};
