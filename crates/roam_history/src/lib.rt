//! The rows that left a screen at its top, the last ones of them.
#![tactic(auto)]

pub use fitting::Fitted;
pub use histories::History;
pub use limits::MOST_LINES;

pub mod fitting;
pub mod histories;
pub mod laws;
pub mod limits;
mod lines;
