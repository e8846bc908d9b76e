//! The output of `roam world`: the answers to the lines of a script.
//!
//! It is below the program, so that its clauses and edits don't pay for reading the command line's library.
#![tactic(auto)]

mod asked;
mod play;
mod replies;

pub use play::run_world;
