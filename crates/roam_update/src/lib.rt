//! States that are kept alike at two ends by diffs, and the diff of a screen.
#![tactic(auto)]

pub use synced::Synced;

mod cell_text;
mod change_text;
mod drafts;
pub mod laws;
mod numbers;
mod old_shots;
mod row_shots;
mod runs;
mod shots;
mod sizes;
mod spelling;
mod synced;
mod tables;
mod walks;
