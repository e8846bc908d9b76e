//! The records of a terminal: the part of the screen that it shows, the taken lines, and the screens that it asked for.
#![tactic(auto)]

mod display_state;
pub mod laws;
mod painting;
mod saying;
mod scopes;

pub use display_state::DisplayState;
pub use saying::say;
pub use scopes::Scope;
