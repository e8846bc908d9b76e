//! The errors of a run of the program, whichever of its commands it is, and its exit status.
//!
//! This crate depends on the cores' errors alone, so that no command depends on the command line.
#![tactic(auto)]

mod ends;
mod faults;
mod streams;

pub use ends::end;
pub use faults::RunFault;
pub use streams::{is_for_now, is_stream_end};
