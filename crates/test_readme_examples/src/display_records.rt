//! A caller of `roam_display_records`, as its README shows it (`tools/worked_callers`).

// README: begin
use roam_cells::Fault;
use roam_display_records::{Looking, Record, record_text, screen_text};
use roam_screens::RowShot;
use std::alloc::Global;

/// The record of a screen, cell by cell and in its styles.
pub fn told_screen(alloc: Global, screen: &RowShot) -> Result<Vec<u8>, Fault> {
    let text = screen_text(alloc, Looking::Styled, screen)?;
    record_text(alloc, Record::Screen(&text))
}
// README: end
