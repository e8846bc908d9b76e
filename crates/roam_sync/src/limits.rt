//! The number of states that an end keeps, and the times at which a sender is due.

/// The most states that an end keeps.
pub const MOST_HELD: usize = 8;

/// Milliseconds after which a newest state that the other end isn't known to have is sent again.
pub const RESEND_AFTER: u64 = 250;

/// Milliseconds after which the newest state is sent again in any case.
pub const HEARTBEAT: u64 = 3000;
