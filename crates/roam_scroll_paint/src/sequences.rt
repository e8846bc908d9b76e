//! The text of a painter's functions.
ghost use Rattle.std.specs.Prelude.{◌≡◌, ◌∷◌, [], ◌++◌, ◌<◌, ◌+◌, OnOk, length, replicate, true, None, IfSome};
ghost use Rattle.std.specs.List.{flat_map};
ghost use Rattle.roam_term.specs.ControlFunctions.{csi};
ghost use Rattle.roam_paint.specs.Texts.{code_text};
ghost use Rattle.roam_scroll_paint.specs.Sequences.{text_of};
ghost use Rattle.roam_scroll_paint.specs.Bands.{to_row, set_margins, reset_margins, line_feed, reverse_index, steps, edge_row, moves_band, preparing};
ghost use Rattle.roam_scroll_paint.specs.Rows.{placing_at, erase_line};

use crate::bands::Band;
use roam_paint::{push_code, push_erase_all, push_number, push_place_cursor};
use std::alloc::AllocError;

// CUP to the first column of a row, from 1.
#[tactic(auto, using(crate::proofs::Spelled::to_row_text))]
fn push_to_row(text: &mut Vec<u8>, row: u16) -> Result<(), AllocError>
    requires some { 0 < row }
    ensures text { OnOk result (text.new.items ≡ text.old.items ++ text_of (to_row row)) }
{
    text.extend_from_slice(b"\x1B[")?;
    push_number(text, row)?;
    text.extend_from_slice(b"H")
}

/// The cursor goes to a row and a column, both from 0.
pub fn push_placing_at(text: &mut Vec<u8>, row: usize, col: usize) -> Result<(), AllocError>
    requires few { (row < 1000) × (col < 1000) }
    ensures text { OnOk result (text.new.items ≡ text.old.items ++ text_of (placing_at row col)) }
{
    if col == 0 {
        return push_to_row(text, row as u16 + 1);
    }
    push_place_cursor(text, row as u16 + 1, col as u16 + 1)
}

// Margins, of rows from 1 (DECSTBM, VT220 Programmer Reference).
#[tactic(auto, using(crate::proofs::Spelled::set_margins_text))]
fn push_set_margins(text: &mut Vec<u8>, top: u16, bottom: u16) -> Result<(), AllocError>
    ensures text { OnOk result (text.new.items ≡ text.old.items ++ text_of (set_margins top bottom)) }
{
    text.extend_from_slice(b"\x1B[")?;
    push_number(text, top)?;
    text.extend_from_slice(b";")?;
    push_number(text, bottom)?;
    text.extend_from_slice(b"r")
}

// So many LF (ECMA-48 8.3.74).
#[tactic(auto, using(crate::proofs::Spelled::one_more))]
fn push_line_feeds(text: &mut Vec<u8>, count: u16) -> Result<(), AllocError>
    ensures text { OnOk result (text.new.items ≡ text.old.items ++ flat_map text_of (replicate count line_feed)) }
{
    for _step in 0..count {
        text.extend_from_slice(b"\n")?;
    }
    Ok(())
}

// So many RI (ECMA-48 8.3.104).
#[tactic(auto, using(crate::proofs::Spelled::one_more))]
fn push_reverse_indexes(text: &mut Vec<u8>, count: u16) -> Result<(), AllocError>
    ensures text { OnOk result (text.new.items ≡ text.old.items ++ flat_map text_of (replicate count reverse_index)) }
{
    for _step in 0..count {
        text.extend_from_slice(b"\x1BM")?;
    }
    Ok(())
}

fn push_steps(text: &mut Vec<u8>, band: Band) -> Result<(), AllocError>
    ensures text { OnOk result (text.new.items ≡ text.old.items ++ flat_map text_of (steps band)) }
{
    if band.up {
        return push_line_feeds(text, band.count);
    }
    push_reverse_indexes(text, band.count)
}

fn edge_row(band: Band) -> u16
    requires top { band.top + 1 < band.bottom }
    ensures row { result ≡ edge_row band }
    ensures some { 0 < result }
{
    if band.up { band.bottom } else { band.top + 1 }
}

// DECSTBM without parameters.
fn push_reset_margins(text: &mut Vec<u8>) -> Result<(), AllocError>
    ensures text { OnOk result (text.new.items ≡ text.old.items ++ text_of reset_margins) }
{
    text.extend_from_slice(b"\x1B[r")
}

// A band goes up or down.
#[tactic(auto, using(crate::proofs::Spelled::band_text))]
fn push_band(text: &mut Vec<u8>, band: Band) -> Result<(), AllocError>
    requires top { band.top + 1 < band.bottom }
    ensures text { OnOk result (text.new.items ≡ text.old.items ++ flat_map text_of (moves_band band)) }
{
    push_set_margins(text, band.top + 1, band.bottom)?;
    push_to_row(text, edge_row(band))?;
    push_steps(text, band)?;
    push_reset_margins(text)?;
    Ok(())
}

// Further parameters.
fn push_codes(text: &mut Vec<u8>, codes: &[u16]) -> Result<(), AllocError>
    ensures text { OnOk result (text.new.items ≡ text.old.items ++ flat_map (code_text true) codes.now) }
{
    for code in codes {
        push_code(text, true, *code)?;
    }
    Ok(())
}

/// SGR with these parameters.
#[tactic(auto, using(crate::proofs::Spelled::rendition_text))]
pub fn push_rendition(text: &mut Vec<u8>, codes: &[u16]) -> Result<(), AllocError>
    requires some { 0 < length codes.now }
    ensures text { OnOk result (text.new.items ≡ text.old.items ++ text_of (csi None codes.now 0x6D)) }
{
    text.extend_from_slice(b"\x1B[")?;
    push_number(text, codes[0])?;
    push_codes(text, &codes[1..])?;
    text.extend_from_slice(b"m")?;
    Ok(())
}

/// EL 0 (ECMA-48 8.3.41).
pub fn push_erase_line(text: &mut Vec<u8>) -> Result<(), AllocError>
    ensures text { OnOk result (text.new.items ≡ text.old.items ++ text_of erase_line) }
{
    text.extend_from_slice(b"\x1B[K")
}

/// Appends the text before all rows: a band moves, or if sizes differ all is erased.
#[tactic(auto, using(crate::proofs::Spelled::erase_all_text))]
pub fn push_preparing(text: &mut Vec<u8>, same: bool, band: Option<Band>) -> Result<(), AllocError>
    requires band { IfSome band (λ b. b.top + 1 < b.bottom) }
    ensures text { OnOk result (text.new.items ≡ text.old.items ++ flat_map text_of (preparing same band)) }
{
    if !same {
        return push_erase_all(text, same);
    }
    match band {
        Some(band) => push_band(text, band),
        None => Ok(()),
    }
}
