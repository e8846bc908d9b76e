//! The output of `roam rows`: every row that leaves each of many terminals, as records.
#![tactic(auto)]

mod faults;
mod panes;
mod records;
mod requests;
mod rows;

pub use faults::{RowsFault, end_rows};
pub use panes::{Pane, Tellings};
pub use rows::run_rows;
