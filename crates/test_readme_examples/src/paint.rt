//! A caller of `roam_paint`, as its README shows it (`tools/worked_callers`).

// README: begin
use roam_cells::Fault;
use roam_paint::{open, paint};
use roam_screens::Shot;
use std::alloc::Global;

/// Returns the text with which a terminal in any state shows a screen.
pub fn first_text(alloc: Global, screen: &Shot) -> Result<Vec<u8>, Fault> {
    let mut text = Vec::new(alloc);
    open(&mut text)?;
    paint(
        &Shot::blank(alloc, screen.rows(), screen.cols())?,
        screen,
        &mut text,
    )?;
    Ok(text)
}
// README: end
