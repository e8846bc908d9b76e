//! A caller of `roam_rewrap`, as its README shows it (`tools/worked_callers`).

// README: begin
use roam_cells::Fault;
use roam_cells::limits::is_size;
use roam_rewrap::{Reflow, Row, ScreenPosition};
use std::alloc::Global;

/// How many rows lines take at a width, on a screen of 24 rows with its cursor at the instance of the first line.
pub fn rows_at(alloc: Global, lines: &[Row], cols: u16) -> Result<usize, Fault> {
    if !is_size(24, cols) {
        return Err(Fault::BadSize);
    }
    let cursor = ScreenPosition { row: 0, col: 0 };
    match Reflow::of(alloc, lines, cursor, 24, cols, true)? {
        Some(reflow) => Ok(reflow.rows().len()),
        None => Ok(0),
    }
}
// README: end
