//! The text that paints a screen over whatever a terminal shows.
ghost use Rattle.std.specs.Prelude.{◌≡◌, ◌↔◌, ◌++◌, ◌∷◌, [], IfOk, IsTrue, OnOk, if◌then◌else◌};
ghost use Rattle.std.specs.List.{flat_map};
ghost use Rattle.roam_grid.specs.Writing.{columns};
ghost use Rattle.roam_paint.specs.Painting.{text_between};
ghost use Rattle.roam_paint.specs.Sequences.{spelling_of};
ghost use Rattle.roam_repaint.specs.Repainted.{MayPend};
ghost use Rattle.roam_repaint.specs.Repainting.{cell_there, finishing, other_screen, repaint_text, rewritten, wrap_off};

use roam_cells::{Cell, Fault, Style};
use roam_paint::{paint, push_points, push_restyle};
use roam_screens::Shot;
use std::alloc::{AllocError, Global};

/// The state of a terminal behind the text of a screen: true if the cell at its cursor is written last, so that a wrap is pending; the
/// style; and DECAWM.
#[derive(Clone, Copy)]
pub struct Ending {
    pub pending: bool,
    pub style: Style,
    pub wraps: bool,
}

// The cell at the cursor.
#[tactic(auto, using(crate::proofs::Texts::there_is))]
fn cell_there(shot: &Shot) -> Cell
    ensures cell { result ≡ cell_there shot.now }
{
    shot.facts();
    let (row, col) = shot.cursor();
    match shot.at(row, col) {
        Some(cell) => cell,
        None => Cell::blank(),
    }
}

// The columns that a cell takes.
fn columns(cell: &Cell) -> u16
    ensures columns { result ≡ columns cell.now }
{
    if cell.is_wide() { 2 } else { 1 }
}

/// Returns true if a wrap can be pending behind the cell at the cursor: lines wrap, and that cell ends in the last column.
pub fn may_pend(shot: &Shot, ending: Ending) -> bool
    ensures pends { IsTrue result ↔ MayPend (record { shot = shot.now; pending = ending.pending; style = ending.style; wraps = ending.wraps }) }
{
    shot.facts();
    let (_, col) = shot.cursor();
    let cell = cell_there(shot);
    if !ending.wraps || cell.is_right_half() {
        return false;
    }
    col - 1 + columns(&cell) == shot.cols()
}

// A screen of another size.
fn other_screen(alloc: Global, shot: &Shot) -> Result<Shot, Fault>
    ensures other { IfOk result (λ other. other ≡ other_screen shot.now) }
{
    if shot.rows() == 2 {
        return Shot::blank(alloc, 3, 4);
    }
    Shot::blank(alloc, 2, 4)
}

// Writes the cell at the cursor again.
#[tactic(auto, using(crate::proofs::Texts::cell_text))]
fn push_rewritten(text: &mut Vec<u8>, cell: &Cell) -> Result<(), AllocError>
    ensures text { OnOk result (text.new.items ≡ text.old.items ++ flat_map spelling_of (rewritten cell.now)) }
{
    push_restyle(text, cell.style())?;
    push_points(text, cell)
}

// A wrap is pending or not.
fn push_pending(text: &mut Vec<u8>, shot: &Shot, pending: bool) -> Result<(), AllocError>
    ensures text { OnOk result (text.new.items ≡ text.old.items
        ++ flat_map spelling_of (if pending then rewritten (cell_there shot.now) else [])) }
{
    if pending {
        push_rewritten(text, &cell_there(shot))?;
    }
    Ok(())
}

// DECAWM is reset.
fn push_wrap_off(text: &mut Vec<u8>) -> Result<(), AllocError>
    ensures text { OnOk result (text.new.items ≡ text.old.items ++ flat_map spelling_of (wrap_off ∷ [])) }
{
    text.extend_from_slice(b"\x1B[?7l")?;
    Ok(())
}

// Lines wrap or don't.
fn push_wraps(text: &mut Vec<u8>, wraps: bool) -> Result<(), AllocError>
    ensures text { OnOk result (text.new.items ≡ text.old.items ++ flat_map spelling_of (if wraps then [] else wrap_off ∷ [])) }
{
    if !wraps {
        push_wrap_off(text)?;
    }
    Ok(())
}

#[tactic(auto, using(crate::proofs::Texts::finishing_text))]
fn push_finishing(text: &mut Vec<u8>, shot: &Shot, ending: Ending) -> Result<(), AllocError>
    ensures text { OnOk result (text.new.items ≡ text.old.items ++ flat_map spelling_of (finishing
        (record { shot = shot.now; pending = ending.pending; style = ending.style; wraps = ending.wraps }))) }
{
    push_pending(text, shot, ending.pending)?;
    push_restyle(text, ending.style)?;
    push_wraps(text, ending.wraps)
}

/// Adds the text that paints a screen over whatever a plain terminal of its size shows, and leaves it so.
#[tactic(auto, using(crate::proofs::Texts::whole_text))]
pub fn push_repaint(
    alloc: Global,
    text: &mut Vec<u8>,
    shot: &Shot,
    ending: Ending,
) -> Result<(), Fault>
    ensures text { OnOk result (text.new.items ≡ text.old.items ++ repaint_text
        (record { shot = shot.now; pending = ending.pending; style = ending.style; wraps = ending.wraps })) }
{
    let other = other_screen(alloc, shot)?;
    text.extend_from_slice(b"\x1B(B\x0F\x1B[?7h\x1B[0r\x1B[0m")?;
    paint(&other, shot, text)?;
    push_finishing(text, shot, ending)?;
    Ok(())
}
