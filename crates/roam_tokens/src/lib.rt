//! Spelling of numbers and ids in the lines of acts and scripts and on the command line, and the first word of a line.
#![tactic(auto)]

mod numbers;
mod words;

pub use numbers::{id, number};
pub use words::first_word;
