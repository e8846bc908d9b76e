//! Limits of acts and of numbers.

/// Numbers of states, datagrams, instructions and acts are below this one.
pub const NUMBER_LIMIT: u64 = 1 << 62;

/// The most acts of an instance that may be unacknowledged.
pub const MOST_UNACKNOWLEDGED: usize = 1024;

/// The most acts of an instruction.
pub const MOST_ACTS: usize = 64;

/// The greatest number of a pane; the first is 1.
pub const MOST_PANES: u8 = 9;

/// The number after a pane's greatest: panes are numbered from 1 up to below it.
pub const PANES_END: u8 = MOST_PANES + 1;

/// By how many rows or columns a pane may grow or shrink at once.
pub(crate) const MOST_GROWTH: i16 = 99;

/// The greatest number of rows or columns that a size may ask for.
pub(crate) const MOST_LENGTH: u16 = 9999;

/// By how many rows a view may move at once.
pub const MOST_VIEW: i16 = 500;
