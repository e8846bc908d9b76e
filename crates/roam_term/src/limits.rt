//! Limits of a terminal.

/// The most answered bytes that wait.
pub const MOST_OUTPUT: usize = 65536;

/// The longest piece of `Term::feed`, in bytes.
pub const MOST_PIECE: usize = 1024;

/// The most lines of history.
pub const MOST_LINES: u16 = roam_history::MOST_LINES as u16;

// One byte completes at most two functions. The first of two prints, so one byte has at most one answer. The longest have 10 bytes: DA's
// second answer, and a report of the cursor at row 200 and column 500; 12 leave room for a larger screen.
pub(crate) const MOST_ANSWER: usize = 12;
