//! A caller of `roam_scrollback_stream`, as its README shows it (`tools/worked_callers`).

// README: begin
use roam_scrollback_stream::{RowsFault, run_rows};
use std::alloc::Global;

/// Returns the rows that leave for these records.
pub fn rows_of(alloc: Global, records: &[u8]) -> Result<Vec<u8>, RowsFault> {
    let mut input = records;
    let mut out = Vec::new(alloc);
    run_rows(alloc, false, &mut input, &mut out)?;
    Ok(out)
}
// README: end
