//! A caller of the layout, as the README of `roam_layout` shows it (`tools/worked_callers`).

// README: begin
ghost use Rattle.std.specs.Prelude.{OnOk};
ghost use Rattle.roam_layout.specs.Layouts.{IsSessionSize};

use roam_acts::Act;
use roam_cells::Fault;
use roam_layout::Layout;
use std::alloc::Global;

/// Two panes beside one another, the right one in focus. Refuses `BadSize`, `TooSmall`, `OutOfMemory`.
pub fn two_panes(alloc: Global, rows: u16, cols: u16) -> Result<Layout, Fault>
    ensures size { OnOk result (IsSessionSize rows cols) }
{
    let mut layout = Layout::new(alloc, rows, cols)?;
    layout.apply(alloc, &Act::SplitRight)?;
    Ok(layout)
}

/// Returns true if pane 2 has the right half of 24 by 80, with a border between the panes and the status row below.
pub fn has_the_right_half(layout: &Layout) -> bool {
    match layout.rects().last() {
        Some((pane, rect)) => *pane == 2
            && layout.focus() == 2
            && (rect.row, rect.col) == (1, 41)
            && (rect.rows, rect.cols) == (23, 40),
        None => false,
    }
}
// README: end

use std::test::*;

#[test]
fn two_panes_stand_beside_one_another(rt: HostRuntime) {
    let layout = two_panes(rt.alloc(), 24, 80);
    assert!(rt; matches!(&layout, Ok(layout) if has_the_right_half(layout)));
}
