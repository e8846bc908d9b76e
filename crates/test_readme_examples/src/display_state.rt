//! A caller of `roam_display_state`, as its README shows it (`tools/worked_callers`).

// README: begin
use roam_cells::Fault;
use roam_display_state::DisplayState;
use roam_screens::RowShot;
use roam_stream_framing::Outbox;
use roam_terminal_input::Showing;
use std::alloc::Global;

/// Returns the records of a front end that shows this many rows and columns of a screen: their size, their place, and the painting.
pub fn told_of(alloc: Global, screen: &RowShot, rows: u16, cols: u16) -> Result<Outbox, Fault> {
    let mut waiting = Outbox::new(alloc);
    let mut display_state = DisplayState::new();
    display_state.show(Showing::Following(rows, cols));
    display_state.tell_screen(alloc, &mut waiting, screen)?;
    Ok(waiting)
}
// README: end
