//! The text that leads a ground terminal from one screen to another.
ghost use Rattle.std.specs.Prelude.{◌≡◌, ◌⊎◌, ℕ, ◌≤◌, ◌<◌, ◌+◌, ◌*◌, ◌++◌, length, map, OnOk, OnErr, IfOk, IsOkUnless, replicate, [], true, slice_index_or};
ghost use Rattle.std.specs.List.{flat_map};
ghost use Rattle.roam_cells.specs.Glyph.{blank};
ghost use Rattle.roam_text.specs.Log.{Byte};
ghost use Rattle.roam_text.specs.Functions.{functions_of};
ghost use Rattle.roam_paint.specs.Painting.{text_between};
ghost use Rattle.roam_scroll_paint.specs.Sequences.{text_of};
ghost use Rattle.roam_scroll_paint.specs.Bands.{FitsBand};
ghost use Rattle.roam_scroll_paint.specs.Rows.{IsSameRow};
ghost use Rattle.roam_scroll_paint.specs.Painting.{settling, hiding, revealing, IsBody, IsPaintingText};
ghost use Rattle.roam_scroll_paint.specs.Doubts.{ArePlacedBehind, doubts_between, longest_placing};
ghost use Rattle.roam_scroll_paint.specs.Short.{AddsShortBody, IsShort};
ghost use Rattle.roam_scroll_paint.specs.Leads.{Leads, added};

use crate::choice::{choose, costs_of};
use crate::counting::plain_bytes;
use crate::differences::is_same_size;
use crate::drawing::draw_rows;
use crate::laws::{painting_leads, painting_places};
use crate::plain::write_rows;
use crate::renditions::push_styled_from;
use crate::sequences::{push_placing_at, push_preparing};
use roam_cells::{Cell, Fault, Style};
use roam_paint::{push_hide_cursor, push_show_cursor};
use roam_screens::Seen;
use std::alloc::{AllocError, Global};

/// A text of fewer bytes doesn't hide the cursor, if its visibility stays.
const SHORT: usize = 128;

// Appends the default style, if another is set, and the cursor's place.
#[tactic(auto, using(crate::proofs::Settled::settling_text))]
fn push_settling<N: Seen>(text: &mut Vec<u8>, new: &N, style: Style) -> Result<(), AllocError>
    ensures text { OnOk result (text.new.items ≡ text.old.items ++ flat_map text_of (settling (N.screen new.now) style)) }
{
    new.facts();
    let cursor = new.cursor();
    push_styled_from(text, style, Style::default())?;
    push_placing_at(text, usize::from(cursor.0 - 1), usize::from(cursor.1 - 1))?;
    Ok(())
}

// All but what hides the cursor and shows it.
fn push_body<O: Seen, N: Seen>(
    text: &mut Vec<u8>,
    old: &O,
    new: &N,
    costs: &[u32],
    blanks: &[Cell],
    marks: &mut [bool],
) -> Result<(), AllocError>
    requires costs { (r : ℕ) → slice_index_or costs.now r 1 ≡ 0 → IsSameRow (O.screen old.now) (N.screen new.now) r }
    requires blanks { blanks.now ≡ replicate (N.screen new.now).cols blank }
    requires marks { length marks.old ≡ (N.screen new.now).cols }
    ensures body { OnOk result (IsBody (O.screen old.now) (N.screen new.now) text.old.items text.new.items) }
{
    let band = choose(old, new, costs);
    push_preparing(text, is_same_size(old, new), band)?;
    let style = draw_rows(text, old, new, band, costs, blanks, marks)?;
    push_settling(text, new, style)?;
    Ok(())
}

// The same of a text that moves no row and writes the places that differ and nothing else.
fn push_plain_body<O: Seen, N: Seen>(
    text: &mut Vec<u8>,
    old: &O,
    new: &N,
    blanks: &[Cell],
    marks: &mut [bool],
) -> Result<(), AllocError>
    requires blanks { blanks.now ≡ replicate (N.screen new.now).cols blank }
    requires marks { length marks.old ≡ (N.screen new.now).cols }
    ensures body { OnOk result (IsBody (O.screen old.now) (N.screen new.now) text.old.items text.new.items) }
    ensures few { OnOk result (AddsShortBody (O.screen old.now) (N.screen new.now) text.old.items text.new.items) }
{
    new.facts();
    push_preparing(text, is_same_size(old, new), None)?;
    let style = write_rows(text, old, new, blanks, marks)?;
    push_settling(text, new, style)?;
    Ok(())
}

fn plain_body_of<O: Seen, N: Seen>(alloc: Global, old: &O, new: &N) -> Result<Vec<u8>, AllocError>
    ensures body { IfOk result (λ text. IsBody (O.screen old.now) (N.screen new.now) [] text.items) }
    ensures few { IfOk result (λ text. AddsShortBody (O.screen old.now) (N.screen new.now) [] text.items) }
{
    let cols = usize::from(new.cols());
    let blanks = vec![in alloc; Cell::blank(); cols]?;
    let mut marks = vec![in alloc; false; cols]?;
    let mut text = Vec::new(alloc);
    push_plain_body(&mut text, old, new, &blanks, marks.as_mut_slice())?;
    Ok(text)
}

fn body_of<O: Seen, N: Seen>(
    alloc: Global,
    old: &O,
    new: &N,
    costs: &[u32],
) -> Result<Vec<u8>, AllocError>
    requires costs { (r : ℕ) → slice_index_or costs.now r 1 ≡ 0 → IsSameRow (O.screen old.now) (N.screen new.now) r }
    ensures body { IfOk result (λ text. IsBody (O.screen old.now) (N.screen new.now) [] text.items) }
{
    let cols = usize::from(new.cols());
    let blanks = vec![in alloc; Cell::blank(); cols]?;
    let mut marks = vec![in alloc; false; cols]?;
    let mut text = Vec::new(alloc);
    push_body(&mut text, old, new, costs, &blanks, marks.as_mut_slice())?;
    Ok(text)
}

// Returns a text with the cursor hidden before, and shown behind if it is visible.
#[tactic(auto, using(crate::proofs::Spelled::hidden_text))]
fn hidden(alloc: Global, body: &[u8], visible: bool) -> Result<Vec<u8>, AllocError>
    ensures text { IfOk result (λ text. text.items
        ≡ flat_map text_of (hiding true) ++ (body.now ++ flat_map text_of (revealing true visible))) }
{
    let mut text = Vec::new(alloc);
    push_hide_cursor(&mut text)?;
    text.extend_from_slice(body)?;
    push_show_cursor(&mut text, visible)?;
    Ok(text)
}

// Returns true if the cursor is as visible on both screens.
fn is_as_visible<O: Seen, N: Seen>(old: &O, new: &N) -> bool
    ensures same { result ≡ true → (O.screen old.now).visible ≡ (N.screen new.now).visible }
{
    old.visible() == new.visible()
}

fn moving_text<O: Seen, N: Seen>(
    alloc: Global,
    old: &O,
    new: &N,
    costs: &[u32],
) -> Result<Vec<u8>, AllocError>
    requires costs { (r : ℕ) → slice_index_or costs.now r 1 ≡ 0 → IsSameRow (O.screen old.now) (N.screen new.now) r }
    ensures painting { IfOk result (λ text. IsPaintingText (O.screen old.now) (N.screen new.now) text.items) }
{
    let body = body_of(alloc, old, new, costs)?;
    if body.len() < SHORT && is_as_visible(old, new) {
        return Ok(body);
    }
    let text = hidden(alloc, &body, new.visible())?;
    Ok(text)
}

// Returns the text that moves no row and writes the places that differ and nothing else.
fn plain_text<O: Seen, N: Seen>(alloc: Global, old: &O, new: &N) -> Result<Vec<u8>, AllocError>
    ensures painting { IfOk result (λ text. IsPaintingText (O.screen old.now) (N.screen new.now) text.items) }
    ensures shorter { IfOk result (λ text. IsShort (O.screen old.now) (N.screen new.now) text.items) }
{
    let body = plain_body_of(alloc, old, new)?;
    let text = hidden(alloc, &body, new.visible())?;
    Ok(text)
}

// Returns the shorter of two texts.
fn shorter_of(one: Vec<u8>, other: Vec<u8>) -> Vec<u8>
    ensures either { (result.items ≡ one.items) ⊎ (result.items ≡ other.items) }
    ensures shorter { length result.items ≤ length other.items }
{
    if one.len() <= other.len() { one } else { other }
}

// The other text is written only if its count doesn't show that it is longer.
fn shorter_text<O: Seen, N: Seen>(alloc: Global, old: &O, new: &N) -> Result<Vec<u8>, AllocError>
    ensures painting { IfOk result (λ text. IsPaintingText (O.screen old.now) (N.screen new.now) text.items) }
    ensures shorter { IfOk result (λ text. IsShort (O.screen old.now) (N.screen new.now) text.items) }
{
    let costs = costs_of(alloc, old, new)?;
    let moving = moving_text(alloc, old, new, &costs)?;
    if moving.len() <= plain_bytes(old, new, &costs, moving.len()) {
        return Ok(moving);
    }
    let plain = plain_text(alloc, old, new)?;
    Ok(shorter_of(moving, plain))
}

/// Appends a text that leads a ground terminal from one screen to another. `OutOfMemory` leaves `out` as it was.
///
/// A band of rows goes up or down if that is shorter, by margins (DECSTBM) and LF (ECMA-48 8.3.74) or RI (8.3.104) at their edge. Places
/// that differ afterwards are written, and short gaps with them. A blank end of a row is erased (EL, 8.3.41). SGR (8.3.117) names the
/// changes.
///
/// Terminals disagree on the width of cells with more than one code point, emoji modifiers (UTS #51) and regional indicators (UAX #29).
/// CUP (8.3.21) comes behind each of them, before anything else is written on its row. For each such cell that differs the text may be ten
/// bytes longer than that of `roam_paint`, and else it is never longer.
pub fn paint_moved<O: Seen, N: Seen>(old: &O, new: &N, out: &mut Vec<u8>) -> Result<(), Fault>
    ensures leads { OnOk result (Leads (O.screen old.now) (N.screen new.now) (added out.old.items out.new.items)) }
    ensures placed { OnOk result (ArePlacedBehind (functions_of (map Byte (added out.old.items out.new.items)))) }
    ensures shorter { OnOk result (length (added out.old.items out.new.items)
        ≤ length (text_between (O.screen old.now) (N.screen new.now))
        + longest_placing * doubts_between (O.screen old.now) (N.screen new.now)) }
    ensures adds { OnOk result (out.new.items ≡ out.old.items ++ added out.old.items out.new.items) }
    ensures err { OnErr result (out.new.items ≡ out.old.items) }
    ensures fault { IsOkUnless result Fault.OutOfMemory }
{
    old.facts();
    new.facts();
    painting_leads();
    painting_places();
    let text = shorter_text(*out.allocator(), old, new)?;
    out.extend_from_slice(&text)?;
    Ok(())
}
