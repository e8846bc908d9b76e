//! How rows end.
ghost use Rattle.std.specs.Prelude.{◌≡◌};
ghost use Rattle.roam_stored_rows.specs.Rows.{is_on};

/// How a row ends.
#[derive(Clone, Copy)]
pub enum Wrap {
    /// A line ends in it.
    Ends,
    /// Autowrap went on from its last column.
    Full,
    /// A wide character that the last column would have cut went on to the next row: that column is no text.
    Early,
}

impl Wrap {
    /// Returns true if autowrap went on from the row.
    pub fn is_on(self) -> bool
        ensures on { result ≡ is_on self }
    {
        match self {
            Wrap::Ends => false,
            Wrap::Full | Wrap::Early => true,
        }
    }
}
