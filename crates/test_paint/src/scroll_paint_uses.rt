//! A caller of `roam_scroll_paint`, as its README shows it (`tools/worked_callers`).

// README: begin
use roam_cells::Fault;
use roam_paint::open;
use roam_screens::Shot;
use roam_scroll_paint::paint_moved;
use std::alloc::Global;

/// Returns the text with which a terminal in any state shows one screen and then another.
pub fn two_texts(alloc: Global, first: &Shot, second: &Shot) -> Result<Vec<u8>, Fault> {
    let blank = Shot::blank(alloc, first.rows(), first.cols())?;
    let mut text = Vec::new(alloc);
    open(&mut text)?;
    paint_moved(&blank, first, &mut text)?;
    paint_moved(first, second, &mut text)?;
    Ok(text)
}
// README: end
