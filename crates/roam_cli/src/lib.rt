//! The command line of `roam`: the request of its words.
//!
//! It is a crate of its own, so that no other crate reads the command line's library.
#![tactic(auto)]

mod asking;
mod commands;
mod options;
mod words;

pub use asking::{asked, asks_why, words_of};
pub use words::{Refusal, Request, Server, Source, Wire, read_words, request_of};
