//! A caller of `roam_scrollback`, as its README shows it (`tools/worked_callers`).

// README: begin
use roam_cells::Fault;
use roam_scrollback::{LeftLines, RowSource};
use std::alloc::Global;

/// How many rows leave a screen of two rows by these bytes, read up to the first stop.
pub fn rows_of(alloc: Global, bytes: &[u8]) -> Result<usize, Fault> {
    let mut source = RowSource::new(alloc, 2, 80)?;
    let mut lines = LeftLines::new(alloc);
    source.feed(bytes, &mut lines);
    Ok(lines.count())
}
// README: end
