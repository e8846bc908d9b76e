//! A caller of `roam_world_script`, as its README shows it (`tools/worked_callers`).

// README: begin
use roam_world_script::{Line, LineFault, is_skipped, read_line};
use std::alloc::Global;

/// Returns the value of a line; `None` if it is empty or begins with `#`.
pub fn line_of(alloc: Global, text: &[u8]) -> Result<Option<Line>, LineFault> {
    if is_skipped(text) {
        return Ok(None);
    }
    Ok(Some(read_line(alloc, text)?))
}
// README: end
