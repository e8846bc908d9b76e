//! The meaning of the rewritten renditions of `roam_normalize` to the terminal: the style that the program asked for.
#![tactic(auto)]

pub mod laws;
