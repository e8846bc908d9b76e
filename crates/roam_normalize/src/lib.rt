//! A filter of a program's bytes. It rewrites sequences that this project's terminal reads otherwise than programs mean them.
//!
//! Programs are written for terminals that read more than this project's profile. It lacks sub-parameters of SGR behind colons (ISO 8613-6,
//! as in xterm), underline colours, and more than sixteen parameters. It lacks CSI s and CSI u (SCO), the clearing of DECCOLM (VT220), the
//! soft hyphen as a hyphen, and titles behind ESC k (screen, tmux). The filter writes these as the profile has them, leaves titles out, and
//! passes everything else byte for byte. It needs no state of earlier bytes: ESC begins a sequence anew in any state, and C2 a character.
#![tactic(auto)]

mod filters;
mod fronts;
pub mod laws;
mod meanings;
mod renditions;
mod titles;

pub use filters::Filter;
pub use fronts::{MOST_BODY, MOST_HELD};
pub use titles::MOST_TITLE;
