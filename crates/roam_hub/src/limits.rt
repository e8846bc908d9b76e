//! How much a server keeps.

/// The most client instances of a session that don't only watch.
pub(crate) const MOST_EDITING: usize = 64;

/// The most client instances of a session that only watch.
pub(crate) const MOST_WATCHING: usize = 16;
