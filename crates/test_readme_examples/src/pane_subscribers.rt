//! A caller of `roam_pane_subscribers`, as its README shows it (`tools/worked_callers`).

// README: begin
use roam_faults::RunFault;
use roam_pane_protocol::PaneList;
use roam_pane_subscribers::{Closer, Subscribers};
use roam_sockets::Waits;
use std::alloc::Global;
use std::fs::Files;
use std::net::Net;

/// Returns the socket of a folder for subscribers. Those that connected got the panes, and their requests are done at this moment.
pub fn tell_who_waits<R: Files + Net>(
    rt: &R,
    alloc: Global,
    waits: &Waits,
    folder: &str,
    now: &PaneList,
    closer: &mut Closer,
    moment: u64,
) -> Result<Subscribers, RunFault> {
    let mut subscribers = Subscribers::bind(rt, alloc, waits.registry(), folder)?;
    subscribers.accept(alloc, waits.registry());
    subscribers.tell(alloc, now, closer, moment);
    Ok(subscribers)
}
// README: end
