//! The output of `roam show`: the screen that a pane's bytes make, and the terminal's answers.
//!
//! It is below the program, so that its clauses and edits don't pay for reading the command line's library.
#![tactic(auto)]

mod show;

pub use show::{MOST_READS, push_number, push_numbered, push_screen, run_show};
