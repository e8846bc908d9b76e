//! A caller of `roam_pane_sockets`, as its README shows it (`tools/worked_callers`).

// README: begin
use roam_faults::RunFault;
use roam_pane_sockets::Panes;
use roam_sockets::Waits;
use std::alloc::Global;
use std::fs::Files;
use std::net::Net;

/// Returns the panes' sockets of a folder with one open pane, and the bytes that go on to its terminal from its program.
pub fn first_pane<R: Files + Net>(
    rt: &R,
    alloc: Global,
    waits: &Waits,
    folder: &str,
    buf: &mut [u8],
) -> Result<(Panes, Option<usize>), RunFault> {
    let mut panes = Panes::bind(rt, alloc, waits.registry(), folder, true)?;
    panes.live(1, Some(1));
    let count = panes.read(waits.registry(), 1, buf, 0);
    Ok((panes, count))
}
// README: end
