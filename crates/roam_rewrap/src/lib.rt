//! Rows of text at another width.
#![tactic(auto)]

pub mod laws;
mod places;
mod rows;
mod windows;
mod wrapping;

pub use places::ScreenPosition;
pub use rows::Row;
pub use windows::Reflow;
