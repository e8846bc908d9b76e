//! The events between one server and its clients, and the facts after every list of them.
#![tactic(auto)]

pub mod laws;
