//! The result of a server that stops at an act.

use roam_cells::Fault;

/// Why a datagram was refused, and how many of its acts were taken before.
#[derive(Clone, Copy, Debug, PartialEq, Eq)]
pub struct Stop {
    pub fault: Fault,
    pub taken: usize,
}
