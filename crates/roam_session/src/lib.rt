//! The session: the terminals of up to nine panes under one layout, and the screen that they make.
#![tactic(auto)]

mod faces;
mod generations;
pub mod laws;
mod marks;
mod pictures;
mod queues;
mod sessions;
mod steps;

pub use sessions::Session;
