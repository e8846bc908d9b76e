//! How many rows a history may keep, and of how many columns.
ghost use Rattle.std.specs.Prelude.{◌↔◌, IsTrue};
ghost use Rattle.roam_history.specs.Limits.{IsHistorySize};

use roam_cells::limits::{LEAST_COLUMNS, MOST_COLUMNS};

/// The most lines of a history.
pub const MOST_LINES: usize = 500;

/// Returns true if a history may keep so many lines of so many columns.
pub fn is_history_size(lines: usize, cols: usize) -> bool
    ensures size { IsTrue result ↔ IsHistorySize lines cols }
{
    if MOST_LINES < lines {
        return false;
    }
    LEAST_COLUMNS as usize <= cols && cols <= MOST_COLUMNS as usize
}
