//! The predictions of the keys of an outer terminal, over the screens noted of it, and the decision when to show them.
#![tactic(auto)]

mod delays;
mod overlay;

pub use overlay::Overlay;
