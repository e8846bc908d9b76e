//! A caller of `roam_update`, as its README shows it (`tools/worked_callers`).

// README: begin
use roam_cells::Fault;
use roam_screens::RowShot;
use roam_update::Synced;
use std::alloc::Global;

/// A copy of a base, brought up to a state by the state's change.
pub fn followed<S: Synced>(alloc: Global, base: &S, state: &S) -> Result<S, Fault> {
    let mut text = Vec::new(alloc);
    state.write_change(alloc, base, &mut text)?;
    let mut copy = base.copy(alloc)?;
    copy.apply(alloc, &text)?;
    Ok(copy)
}

/// A blank screen of 4 by 10, reached from one of 2 by 8.
pub fn grown(alloc: Global) -> Result<RowShot, Fault> {
    followed(
        alloc,
        &RowShot::blank(alloc, 2, 8)?,
        &RowShot::blank(alloc, 4, 10)?,
    )
}
// README: end
