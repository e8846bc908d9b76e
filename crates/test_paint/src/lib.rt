//! The texts that lead from one screen to another, for `roam_bench`: the diffs of both versions, and the paintings with and without moved
//! rows. And tests of them, by public calls alone.
//!
//! They have a crate of their own, since the gate proves a crate with tests twice.
#![tactic(auto)]

#[cfg(test)]
mod changes;
#[cfg(test)]
mod paintings;
#[cfg(test)]
mod screens;
#[cfg(test)]
mod scroll_paint_uses;
#[cfg(test)]
mod scroll_paintings;
#[cfg(test)]
mod tables;

use roam_cells::Fault;
use roam_paint::paint;
use roam_screens::{RowShot, RowShot1, Shot};
use roam_scroll_paint::paint_moved;
use roam_term::Term;
use roam_update::Synced;
use std::alloc::Global;

/// How many bytes a terminal is fed at once.
const PIECE: usize = 1024;

// Feeds a piece, and drops its answers.
fn take_piece(term: &mut Term, piece: &[u8]) -> Result<(), Fault> {
    term.feed(piece)?;
    let answered = term.output_len();
    term.take_output(answered);
    Ok(())
}

fn take(term: &mut Term, bytes: &[u8]) -> Result<(), Fault> {
    for piece in bytes.chunks(PIECE) {
        take_piece(term, piece)?;
    }
    Ok(())
}

fn shot_after(alloc: Global, term: &mut Term, bytes: &[u8]) -> Result<Shot, Fault> {
    take(term, bytes)?;
    term.shot(alloc, 0)
}

/// The screen of a terminal without history after these bytes.
pub fn screen(alloc: Global, rows: u16, cols: u16, bytes: &[u8]) -> Result<Shot, Fault> {
    let mut term = Term::new(alloc, rows, cols, 0)?;
    shot_after(alloc, &mut term, bytes)
}

/// The diff that leads from one screen to another.
pub fn change<S: Synced>(alloc: Global, old: &S, new: &S) -> Result<Vec<u8>, Fault> {
    let mut text = Vec::new(alloc);
    new.write_change(alloc, old, &mut text)?;
    Ok(text)
}

/// The diff between what version 1 shows of two screens.
pub fn narrow_change(alloc: Global, old: &RowShot, new: &RowShot) -> Result<Vec<u8>, Fault> {
    let old = RowShot1::of(alloc, old)?;
    let new = RowShot1::of(alloc, new)?;
    change(alloc, &old, &new)
}

/// Returns the painting.
pub fn painted(alloc: Global, old: &RowShot, new: &RowShot) -> Result<Vec<u8>, Fault> {
    let mut text = Vec::new(alloc);
    paint(old, new, &mut text)?;
    Ok(text)
}

/// Returns the painting with moved rows.
pub fn moved(alloc: Global, old: &RowShot, new: &RowShot) -> Result<Vec<u8>, Fault> {
    let mut text = Vec::new(alloc);
    paint_moved(old, new, &mut text)?;
    Ok(text)
}
