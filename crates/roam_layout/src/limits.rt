//! The limits of a session.
ghost use Rattle.std.specs.Prelude.{◌≡◌, ◌↔◌, IsTrue};
ghost use Rattle.roam_layout.specs.Layouts.{IsSessionSize, is_session_size};

use roam_cells::limits::{MOST_COLUMNS, MOST_ROWS};

/// The least number of rows of a session.
const LEAST_ROWS: u16 = 4;
/// The least number of columns of a session.
const LEAST_COLUMNS: u16 = 8;
/// The most rows of its history that a pane's view may go back.
pub(crate) const MOST_VIEW: u16 = roam_acts::limits::MOST_VIEW as u16;

/// Returns true if a session may have this size, in rows and columns.
pub(crate) fn is_session_size(rows: u16, cols: u16) -> bool
    ensures test { result ≡ is_session_size rows cols }
    ensures size { IsTrue result ↔ IsSessionSize rows cols }
{
    if rows < LEAST_ROWS || MOST_ROWS < rows {
        return false;
    }
    LEAST_COLUMNS <= cols && cols <= MOST_COLUMNS
}
