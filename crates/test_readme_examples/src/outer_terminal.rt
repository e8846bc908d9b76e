//! A caller of `roam_outer_terminal`, as its README shows it (`tools/worked_callers`).

// README: begin
use roam_hub::Client;
use roam_outer_terminal::{Duplex, Silence, Taking, Terminal};
use std::alloc::Global;

/// Runs an instance with one terminal: takes its lines, paints the instance's screen, and writes queued bytes. Returns true if it goes on.
pub fn serve_one<S: Duplex + Drop>(
    alloc: Global,
    client: &mut Client,
    terminal: &mut Terminal<S>,
    silence: Silence,
) -> bool {
    let taking: Taking = terminal.hear(alloc, client);
    terminal.paint_if_ready(alloc, client, silence);
    terminal.settle(alloc, silence);
    !taking.is_end() && !terminal.is_gone()
}
// README: end
