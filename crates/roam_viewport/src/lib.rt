//! A part of a screen as a screen of its own, for a terminal of another size, with masked cells that are left as they are.
#![tactic(auto)]

pub mod laws;
mod parts;

pub use parts::{Part, part_of};
