//! A caller of `roam_tokens`, as its README shows it (`tools/worked_callers`).

// README: begin
use roam_tokens::{id, number};

/// A port and an id as `4000 5e55` has them.
pub fn port_and_id(port: &[u8], word: &[u8]) -> Option<(u64, u64)> {
    Some((number(port, 65_535)?, id(word)?))
}
// README: end
