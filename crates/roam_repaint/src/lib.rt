//! The text that paints a screen over whatever a terminal shows.
#![tactic(auto)]

pub mod laws;
mod repainting;

pub use repainting::{Ending, may_pend, push_repaint};
