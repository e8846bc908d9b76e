//! Pane metadata: modes of mouse, focus, pasting and keys, the cursor's shape, bells, the title and the text for the clipboard.
//!
//! The model is xterm's list of control sequences, as far as front ends use it; shapes of the cursor are those of the VT510 (DECSCUSR). A
//! terminal reads the same bytes and shows none of this on its screen.
//!
//! Terminals differ. This crate chooses:
//!
//! - Of the modes 1000, 1002 and 1003 the one that was set last counts, and a reset of any of them resets all, as in xterm and tmux.
//! - 47, 1047 and 1049 all show the alternate screen, as in this project's terminal.
//! - RIS resets modes and shape and removes the title, which xterm and tmux keep. It removes no bell that rang, no text for the clipboard
//!   and no question, since they have happened. Counts only grow, that of titles too, which counts a removed one as another. DECSTR resets
//!   the keypad alone.
//! - A title is that of OSC 0 or 2, a text for the clipboard that of OSC 52 for the selection `c` or for none; a question is nothing.
#![tactic(auto)]

mod asking;
mod keeping;
pub mod laws;
mod metadata;
mod queries;
mod screen_modes;
mod settings;
mod silence;
mod texts;

pub use metadata::Metadata;
pub use queries::{ModeState, Query};
pub use settings::{Settings, Tracking, fresh_settings};
