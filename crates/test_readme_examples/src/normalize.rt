//! A caller of `roam_normalize`, as its README shows it (`tools/worked_callers`).

// README: begin
use roam_normalize::Filter;
use std::alloc::AllocError;

/// Returns how many bytes of a program's piece a terminal gets. If memory is refused, the piece may be given again.
pub fn fed_for(filter: &mut Filter, piece: &[u8]) -> Result<usize, AllocError> {
    let out = filter.feed(piece)?;
    Ok(out.len())
}
// README: end
