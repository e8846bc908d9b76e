//! Rectangles of a session's screen.
ghost use Rattle.std.specs.Prelude.{◌≡◌};
ghost use Rattle.roam_layout.specs.Rects.{rect_in, length_along, within};

/// The direction in which the children of a split follow each other.
#[derive(Clone, Copy, Debug, PartialEq, Eq)]
pub enum Way {
    /// The second child is at the right of the first, and the border is a column.
    Right,
    /// The second child is below the first, and the border is a row.
    Down,
}

/// A part of the screen: its first row and column, from 1, and its rows and columns.
#[derive(Clone, Copy, Debug, PartialEq, Eq)]
pub struct Rect {
    /// Its first row, from 1.
    pub row: u16,
    /// Its first column, from 1.
    pub col: u16,
    /// How many rows it has.
    pub rows: u16,
    /// How many columns it has.
    pub cols: u16,
}

impl Rect {
    /// Its length along a way: columns to the right, rows down.
    pub fn length_along(self, way: Way) -> u16
        ensures length { result ≡ length_along way self }
    {
        match way {
            Way::Right => self.cols,
            Way::Down => self.rows,
        }
    }

    /// Returns true if it has a row, from 1.
    pub fn has_row(self, row: u16) -> bool
        ensures row { result ≡ within self.row self.rows row }
    {
        self.row <= row && row - self.row < self.rows
    }
}

/// The rectangle of a pane in a list.
pub fn rect_of(list: &[(u8, Rect)], pane: u8) -> Option<Rect>
    ensures rect { result ≡ rect_in pane list.now }
{
    if list.is_empty() {
        None
    } else if list[0].0 == pane {
        Some(list[0].1)
    } else {
        rect_of(&list[1..], pane)
    }
}
