//! A caller of predictions, as the README of `roam_prediction` shows it (`tools/worked_callers`).

// README: begin
use roam_acts::Act;
use roam_cells::Fault;
use roam_prediction::{Moment, Predictions};
use roam_screens::RowShot;
use std::alloc::Global;

/// Returns the screen with its overlay after an act is typed there; the screen before is the same, and nothing is acknowledged.
pub fn shown_after(alloc: Global, act: &Act, screen: &RowShot) -> Result<RowShot, Fault> {
    let mut predictions = Predictions::new(alloc)?;
    predictions.typed(1, act, screen);
    let moment = Moment {
        at: 0,
        acknowledged: 0,
        delay: 0,
    };
    predictions.seen(moment, screen, screen);
    predictions.over(alloc, screen) // the screen itself: an epoch begins hidden
}
// README: end

use roam_acts::read_act;
use std::test::*;

#[test]
fn an_epoch_begins_hidden(rt: HostRuntime) -> Result<(), Fail> {
    let screen = RowShot::blank(rt.alloc(), 4, 20)?;
    let act = read_act(b"char 61")?;
    let shown = shown_after(rt.alloc(), &act, &screen)?;
    let text = shown.row_text(rt.alloc(), 0)?;
    assert!(rt; text.iter().all(|c| *c == ' '));
    Ok(())
}
