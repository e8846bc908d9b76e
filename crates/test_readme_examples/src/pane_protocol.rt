//! A caller of `roam_pane_protocol`, as its README shows it (`tools/worked_callers`).

// README: begin
use roam_cells::Fault;
use roam_pane_protocol::{Closing, ListedPane, PaneList, acts_for, lines_between, read_close};
use std::alloc::Global;

/// Returns the lines of a new subscriber for a session with one pane.
pub fn first_lines(alloc: Global) -> Result<String, Fault> {
    lines_between(alloc, &PaneList::unknown(), &one_pane())
}

/// Returns the result of a subscriber's line in that session; `None` for a bad line.
pub fn answer_to(line: &[u8]) -> Option<Closing> {
    Some(acts_for(&one_pane(), &read_close(line)?))
}

fn one_pane() -> PaneList {
    let mut panes = PaneList::unknown();
    panes.set(
        1,
        Some(ListedPane {
            generation: 1,
            row: 1,
            col: 1,
            rows: 23,
            cols: 80,
        }),
    );
    panes.set_focus(1);
    panes.set_clients(1);
    panes
}
// README: end
