//! Acts: the requests of a client to a session.
ghost use Rattle.std.specs.Prelude.{◌≡◌, ◌↔◌, IsTrue};
ghost use Rattle.roam_acts.specs.Acts.{is_in_range, IsInRange};

use crate::limits::{MOST_GROWTH, MOST_LENGTH, MOST_PANES, MOST_VIEW};
use roam_keys::Key;

/// A request of a client to a session: a key for the pane in focus, or a layout command.
#[derive(Clone, Copy, Debug, PartialEq, Eq)]
pub enum Act {
    /// A key for the pane in focus.
    Key(Key),

    /// Splits the pane in focus; the new pane is at its right.
    SplitRight,

    /// Splits the pane in focus; the new pane is below it.
    SplitDown,

    /// Closes the pane in focus.
    Close,

    /// Moves the focus to the pane of this number, 1 to 9.
    Focus(u8),

    /// Moves the focus to the next pane.
    Next,

    /// Lets the pane in focus grow by so many rows or columns along its split, -99 to 99.
    Grow(i16),

    /// Gives the session this size, in rows and columns, each 0 to 9,999.
    Size(u16, u16),

    /// Moves the view of the pane in focus by so many rows into its history, -500 to 500.
    View(i16),
}

impl Act {
    /// Returns true if the act's numbers are in their ranges: a pane 1 to 9, a growth -99 to 99, rows and columns 0 to 9,999, a view -500
    /// to 500.
    pub fn in_range(&self) -> bool
        ensures test { result ≡ is_in_range self.now }
        ensures in_range { IsTrue result ↔ IsInRange self.now }
    {
        match *self {
            Act::Focus(pane) => 1 <= pane && pane <= MOST_PANES,
            Act::Grow(by) => -MOST_GROWTH <= by && by <= MOST_GROWTH,
            Act::Size(rows, cols) => rows <= MOST_LENGTH && cols <= MOST_LENGTH,
            Act::View(by) => -MOST_VIEW <= by && by <= MOST_VIEW,
            Act::Key(_) | Act::SplitRight | Act::SplitDown | Act::Close | Act::Next => true,
        }
    }
}
