//! A caller of `roam_overlay`, as its README shows it (`tools/worked_callers`).

// README: begin
use roam_acts::Act;
use roam_cells::Fault;
use roam_overlay::Overlay;
use roam_screens::{RowShot, Shown};
use std::alloc::Global;

/// Returns the overlay over a screen noted under a number after acts are typed there, the first under number 1; none is acknowledged.
pub fn laid_after(
    alloc: Global,
    number: u64,
    acts: &[Act],
    screen: &RowShot,
) -> Result<Option<RowShot>, Fault> {
    let mut overlay = Overlay::new(alloc, false)?;
    overlay.typed(false, 1, acts, screen);
    overlay.judge(alloc, number, &Shown::New(screen), 0, 0)?;
    overlay.over(alloc, &Shown::New(screen), 0) // none: an epoch begins hidden
}
// README: end
