//! The table of control functions: the command of each function of ECMA-48 (5th edition) and of the VT220, in this project's profile.
//!
//! A function becomes a `Command`, a small value by groups, so that its caller never sees a number of the table. A function that the table
//! doesn't list has no command. `restyled` is SGR, a fold over its parameters.
#![tactic(auto)]

mod commands;
mod edits;
mod erasures;
mod modes;
mod motions;
mod parameters;
mod renditions;
mod reports;
mod settings;
mod shifts;

pub use commands::{Command, command_of};
pub use edits::Edit;
pub use erasures::Erasure;
pub use modes::Modes;
pub use motions::Motion;
pub use renditions::restyled;
pub use reports::Report;
pub use settings::Setting;
pub use shifts::Shift;
