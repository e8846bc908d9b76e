//! The laws of a run of a shared instance, round by round: the typed acts, and the bytes written to each of its terminals.
#![tactic(auto)]

pub mod laws;
