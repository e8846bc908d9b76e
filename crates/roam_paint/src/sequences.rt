//! The text of a painter's functions.
ghost use Rattle.std.specs.Prelude.{◌≡◌, ◌∷◌, [], ◌++◌, OnOk, decimal, if◌then◌else◌};
ghost use Rattle.std.specs.List.{flat_map};
ghost use Rattle.std.specs.Char.{encode_utf8};
ghost use Rattle.roam_term.specs.ControlFunctions.{place_cursor, set_style, set_mixture, restyle};
ghost use Rattle.roam_paint.specs.Sequences.{spelling_of};
ghost use Rattle.roam_paint.specs.Texts.{code_text, colour_text};

use itoa::Buffer;
use roam_cells::{Cell, Colour, Style};
use std::alloc::AllocError;

/// Appends a number in decimals.
pub fn push_number(text: &mut Vec<u8>, n: u16) -> Result<(), AllocError>
    ensures number { OnOk result (text.new.items ≡ text.old.items ++ decimal n) }
{
    let mut buffer = Buffer::new();
    text.extend_from_slice(buffer.format(n).as_bytes())
}

/// Appends CUP (ECMA-48 8.3.21) to a row and a column, both from 1. After an error the text may have a part of it.
#[tactic(auto, using(crate::proofs::Spellings::place_cursor_text))]
pub fn push_place_cursor(text: &mut Vec<u8>, row: u16, col: u16) -> Result<(), AllocError>
    ensures text { OnOk result (text.new.items ≡ text.old.items ++ spelling_of (place_cursor row col)) }
{
    text.extend_from_slice(b"\x1B[")?;
    push_number(text, row)?;
    text.extend_from_slice(b";")?;
    push_number(text, col)?;
    text.extend_from_slice(b"H")
}

/// Appends a further parameter behind a semicolon, if it is on.
pub fn push_code(text: &mut Vec<u8>, on: bool, code: u16) -> Result<(), AllocError>
    ensures text { OnOk result (text.new.items ≡ text.old.items ++ code_text on code) }
{
    if on {
        text.extend_from_slice(b";")?;
        push_number(text, code)?;
    }
    Ok(())
}

fn push_colour(text: &mut Vec<u8>, code: u16, colour: Colour) -> Result<(), AllocError>
    ensures text { OnOk result (text.new.items ≡ text.old.items ++ colour_text code colour) }
{
    if let Colour::Index(n) = colour {
        push_code(text, true, code)?;
        push_code(text, true, 5)?;
        push_code(text, true, u16::from(n))?;
    }
    Ok(())
}

/// SGR (ECMA-48 8.3.117) that sets a style but for its mixtures, whatever style is set.
pub fn push_set_style(text: &mut Vec<u8>, style: Style) -> Result<(), AllocError>
    ensures text { OnOk result (text.new.items ≡ text.old.items ++ spelling_of (set_style style)) }
{
    text.extend_from_slice(b"\x1B[")?;
    push_number(text, 0)?;
    push_code(text, style.bold, 1)?;
    push_code(text, style.faint, 2)?;
    push_code(text, style.italic, 3)?;
    push_code(text, style.underline, 4)?;
    push_code(text, style.blink, 5)?;
    push_code(text, style.reverse, 7)?;
    push_code(text, style.conceal, 8)?;
    push_code(text, style.strike, 9)?;
    push_colour(text, 38, style.foreground)?;
    push_colour(text, 48, style.background)?;
    text.extend_from_slice(b"m")?;
    Ok(())
}

// Appends SGR that sets a colour, after 38 or 48, if it is a mixture.
#[tactic(auto, using(crate::proofs::Spellings::mixture_text))]
fn push_mixture(text: &mut Vec<u8>, code: u16, colour: Colour) -> Result<(), AllocError>
    ensures text { OnOk result (text.new.items ≡ text.old.items ++ flat_map spelling_of (set_mixture code colour)) }
{
    if let Colour::Rgb(red, green, blue) = colour {
        text.extend_from_slice(b"\x1B[")?;
        push_number(text, code)?;
        push_code(text, true, 2)?;
        push_code(text, true, u16::from(red))?;
        push_code(text, true, u16::from(green))?;
        push_code(text, true, u16::from(blue))?;
        text.extend_from_slice(b"m")?;
    }
    Ok(())
}

/// SGR (ECMA-48 8.3.117) that sets a style, whatever style is set: its mixtures by sequences of their own.
#[tactic(auto, using(crate::proofs::Spellings::restyle_text))]
pub fn push_restyle(text: &mut Vec<u8>, style: Style) -> Result<(), AllocError>
    ensures text { OnOk result (text.new.items ≡ text.old.items ++ flat_map spelling_of (restyle style)) }
{
    push_set_style(text, style)?;
    push_mixture(text, 38, style.foreground)?;
    push_mixture(text, 48, style.background)?;
    Ok(())
}

fn push_point(text: &mut Vec<u8>, point: char) -> Result<(), AllocError>
    ensures text { OnOk result (text.new.items ≡ text.old.items ++ encode_utf8 point) }
{
    let mut bytes = [0u8; 4];
    text.extend_from_slice(point.encode_utf8(&mut bytes).as_bytes())
}

/// The code points of a cell, in UTF-8; a right half has none.
pub fn push_points(text: &mut Vec<u8>, cell: &Cell) -> Result<(), AllocError>
    ensures text { OnOk result (text.new.items ≡ text.old.items ++ flat_map encode_utf8 cell.now.points) }
{
    let points = cell.chars();
    for point in points.as_slice() {
        push_point(text, *point)?;
    }
    Ok(())
}

/// Appends the text that hides the cursor (DECTCEM, VT220 Programmer Reference). After an error the text may have a part of it.
pub fn push_hide_cursor(text: &mut Vec<u8>) -> Result<(), AllocError>
    ensures text { OnOk result (text.new.items ≡ text.old.items ++ (0x1B ∷ 0x5B ∷ 0x3F ∷ 0x32 ∷ 0x35 ∷ 0x6C ∷ [])) }
{
    text.extend_from_slice(b"\x1B[?25l")
}

/// Appends ED 2 (ECMA-48 8.3.39), which erases all, unless sizes are equal (`same`). After an error the text may have a part of it.
pub fn push_erase_all(text: &mut Vec<u8>, same: bool) -> Result<(), AllocError>
    ensures text { OnOk result (text.new.items ≡ text.old.items ++ (if same then [] else 0x1B ∷ 0x5B ∷ 0x32 ∷ 0x4A ∷ [])) }
{
    if !same {
        text.extend_from_slice(b"\x1B[2J")?;
    }
    Ok(())
}

/// Appends the text that shows the cursor (DECTCEM, VT220 Programmer Reference), if it is visible. After an error the text may have a part
/// of it.
pub fn push_show_cursor(text: &mut Vec<u8>, visible: bool) -> Result<(), AllocError>
    ensures text { OnOk result (text.new.items ≡ text.old.items
        ++ (if visible then 0x1B ∷ 0x5B ∷ 0x3F ∷ 0x32 ∷ 0x35 ∷ 0x68 ∷ [] else [])) }
{
    if visible {
        text.extend_from_slice(b"\x1B[?25h")?;
    }
    Ok(())
}
