//! Predictions of the effect of keys, over the screen that is shown.
//!
//! The crate keeps no screen and no act: typed acts go to the session unchanged, and the screen stays as it was sent. Predictions are in
//! the row of the cursor. They are made and confirmed as in Mosh's speculative local echo, by epochs that begin hidden.
#![tactic(auto)]

pub mod laws;
mod over;
mod predictions;
mod seen;
mod typed;
mod underlined;

pub use predictions::{Moment, Place, Prediction, Predictions};
