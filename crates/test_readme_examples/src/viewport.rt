//! A caller of `roam_viewport`, as its README shows it (`tools/worked_callers`).

// README: begin
use roam_cells::Fault;
use roam_screens::RowShot;
use roam_viewport::{Part, part_of};
use std::alloc::Global;

/// Returns the part of a screen that a terminal of so many rows and columns shows: the part around the cursor, given the part before.
pub fn shown_there(alloc: Global, screen: &RowShot, before: Part) -> Result<RowShot, Fault> {
    let part = before.followed(screen);
    part_of(alloc, screen, part, &[])
}
// README: end
