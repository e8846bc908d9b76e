//! The style of printed characters, and the state that DECSC saves.
ghost use Rattle.std.specs.Prelude.{◌≡◌};
ghost use Rattle.roam_term.specs.Pens.{plain_pen, nothing_saved};

use roam_cells::{Ink, Style};
use roam_charset::Sets;

/// The state that DECSC saves of a screen (VT220 Programmer Reference, chapter 4). Rows and columns count from 0.
#[derive(Clone, Copy)]
pub struct Saved {
    pub row: usize,
    pub col: usize,
    pub pending: bool,
    pub pen: Ink,
    pub sets: Sets,
    pub origin: bool,
}

/// The pen of the start: the default rendition, unguarded.
pub fn plain_pen() -> Ink
    ensures pen { result ≡ plain_pen }
{
    Ink::new(Style::default(), false)
}

impl Saved {
    /// Returns the state that DECRC restores if nothing is saved: the start's values.
    pub fn new() -> Self
        ensures saved { result ≡ nothing_saved }
    {
        Saved {
            row: 0,
            col: 0,
            pending: false,
            pen: plain_pen(),
            sets: Sets::new(),
            origin: false,
        }
    }
}
