//! The changes of the panes by an act.
ghost use Rattle.std.specs.Prelude.{◌≡◌, ◌++◌, IfOk};
ghost use Rattle.roam_layout.specs.Changes.{size_of, panes_closed, panes_made, panes_sized, first_of, size_if_other};

use crate::rects::{Rect, rect_of};
use std::alloc::{AllocError, Global};

/// A pane's number and its size in rows and columns.
#[derive(Clone, Copy, Debug, PartialEq, Eq)]
pub struct PaneSize {
    /// Its number, 1 to 9.
    pub pane: u8,
    /// Its rows.
    pub rows: u16,
    /// Its columns.
    pub cols: u16,
}

/// Which panes an act closed, made and gave another size.
#[derive(Drop)]
pub struct Changes {
    /// The pane that is no more.
    pub closed: Option<u8>,
    /// The pane that is new.
    pub made: Option<PaneSize>,
    /// The panes that were there before and have another size now, in tree order.
    pub sized: Vec<PaneSize>,
}

impl Changes {
    /// Returns the changes between the panes with their rectangles before an act and those after it.
    pub fn between(
        alloc: Global,
        old: &[(u8, Rect)],
        new: &[(u8, Rect)],
    ) -> Result<Changes, AllocError>
        ensures closed { IfOk result (λ changes. changes.closed ≡ first_of (panes_closed old.now new.now)) }
        ensures made { IfOk result (λ changes. changes.made ≡ first_of (panes_made old.now new.now)) }
        ensures sized { IfOk result (λ changes. changes.sized.items ≡ panes_sized old.now new.now) }
    {
        let mut sized = Vec::new(alloc);
        add_sized(old, new, &mut sized)?;
        Ok(Changes {
            closed: closed(old, new),
            made: made(old, new),
            sized,
        })
    }
}

fn size_of(pane: u8, rect: Rect) -> PaneSize
    ensures size { result ≡ size_of (pane, rect) }
{
    PaneSize {
        pane,
        rows: rect.rows,
        cols: rect.cols,
    }
}

fn closed(old: &[(u8, Rect)], new: &[(u8, Rect)]) -> Option<u8>
    ensures closed { result ≡ first_of (panes_closed old.now new.now) }
{
    if old.is_empty() {
        return None;
    }
    match rect_of(new, old[0].0) {
        None => Some(old[0].0),
        Some(_) => closed(&old[1..], new),
    }
}

fn made(old: &[(u8, Rect)], new: &[(u8, Rect)]) -> Option<PaneSize>
    ensures made { result ≡ first_of (panes_made old.now new.now) }
{
    if new.is_empty() {
        return None;
    }
    let (pane, rect) = new[0];
    match rect_of(old, pane) {
        None => Some(size_of(pane, rect)),
        Some(_) => made(old, &new[1..]),
    }
}

fn size_if_other(pane: u8, rect: Rect, before: Option<Rect>) -> Option<PaneSize>
    ensures size { result ≡ size_if_other (pane, rect) before }
{
    match before {
        None => None,
        Some(before) if before.rows == rect.rows && before.cols == rect.cols => None,
        Some(_) => Some(size_of(pane, rect)),
    }
}

fn add_sized(
    old: &[(u8, Rect)],
    new: &[(u8, Rect)],
    sized: &mut Vec<PaneSize>,
) -> Result<(), AllocError>
    ensures sized { IfOk result (λ _. sized.new.items ≡ sized.old.items ++ panes_sized old.now new.now) }
{
    if new.is_empty() {
        return Ok(());
    }
    let (pane, rect) = new[0];
    if let Some(size) = size_if_other(pane, rect, rect_of(old, pane)) {
        sized.push(size)?;
    }
    add_sized(old, &new[1..], sized)
}
