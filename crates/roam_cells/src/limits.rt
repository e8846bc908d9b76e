//! The sizes that a screen may have.
ghost use Rattle.std.specs.Prelude.{◌↔◌, IsTrue};
ghost use Rattle.roam_cells.specs.Limits.{IsSize};

/// The least number of rows of a screen.
pub const LEAST_ROWS: u16 = 2;
/// The most rows of a screen.
pub const MOST_ROWS: u16 = 200;
/// The least number of columns of a screen.
pub const LEAST_COLUMNS: u16 = 4;
/// The most columns of a screen.
pub const MOST_COLUMNS: u16 = 500;

/// Returns true if a screen may have this size, in rows and columns.
pub fn is_size(rows: u16, cols: u16) -> bool
    ensures size { IsTrue result ↔ IsSize rows cols }
{
    if rows < LEAST_ROWS || MOST_ROWS < rows {
        return false;
    }
    LEAST_COLUMNS <= cols && cols <= MOST_COLUMNS
}
