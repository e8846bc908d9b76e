//! Changes of stored rows.
use roam_stored_rows::Wrap;

/// A state of a terminal from which its reader goes on.
#[derive(Clone, Copy)]
pub struct Checkpoint<'a> {
    /// How many bytes of input the terminal had read.
    pub count: u64,
    /// How many rows its screen had.
    pub rows: u16,
    /// How many columns its screen had.
    pub cols: u16,
    /// The text that leads a terminal of this size into its state.
    pub text: &'a [u8],
}

/// A change of stored rows.
#[derive(Clone, Copy)]
pub enum Change<'a> {
    /// A segment begins, and its first row gets this number. Rows that do not reach up to it are dropped.
    Begin(u64),
    /// A row more: how it ends, and its bytes.
    Append(Wrap, &'a [u8]),
    /// The rows from this number on are withdrawn.
    Withdraw(u64),
    /// All rows are gone, and the next one has the number after theirs.
    Clear,
    /// The rows below this number are dropped.
    Forget(u64),
    /// The terminal's state at this place.
    Check(Checkpoint<'a>),
}
