//! The terminal of a pane: it takes bytes and shows a screen.
//!
//! The model is a VT220 with the control functions of ECMA-48 (5th edition), in this project's profile: `roam_controls` is the table of
//! functions, `specs/Terminal.antt` the state and the effect of each. A function that the table doesn't list has no effect. Deviations from
//! the VT220: a function that isn't selective erases guarded cells too, SUB shows no error character, and replies are seven-bit.
#![tactic(auto)]

mod alternates;
mod canvases;
mod edits;
mod erasures;
mod keys;
pub mod laws;
mod leaving;
mod limits;
mod motions;
mod outputs;
mod pens;
mod pictures;
mod printing;
mod reports;
mod settings;
mod shifts;
mod sizes;
mod terms;

pub use canvases::Canvas;
pub use limits::{MOST_LINES, MOST_OUTPUT, MOST_PIECE};
pub use pens::Saved;
pub use sizes::Fitted;
pub use terms::Term;
