//! The text of a cell, written and read.

ghost use Rattle.std.specs.Prelude.{◌≡◌, ◌≤◌, ◌+◌, ◌*◌, ◌<◌, ◌++◌, true, length, option_and_then, IfSome, OnOk};
ghost use Rattle.byteorder.specs.Endian.{big_bytes};
ghost use Rattle.roam_update.specs.CellText.{bit, flags, colour_kind, colour_index, points_text, cell_text};
ghost use Rattle.roam_update.specs.Styles.{Whole};
ghost use Rattle.roam_update.specs.CellText.{point_read, points_read, colour_read, style_of, whole_style, number_read, is_style, glyph_of, glyph_read, cell_size};

use crate::spelling::Spelling;
use byteorder::{BigEndian, ByteOrder};
use roam_cells::{Cell, Colour, Style};
use std::alloc::AllocError;

/// Adds the bytes of a number of four.
pub fn add_number(text: &mut Vec<u8>, number: u32) -> Result<(), AllocError>
    ensures number { OnOk result (text.new.items ≡ text.old.items ++ big_bytes 4 number) }
{
    let mut bytes = [0u8; 4];
    BigEndian::write_u32(&mut bytes, number);
    text.extend_from_slice(&bytes)
}

fn bit(set: bool) -> u8
    ensures bit { result ≡ bit set }
    ensures few { result ≤ 1 }
{
    if set { 1 } else { 0 }
}

pub fn flags(style: Style) -> u8
    ensures flags { result ≡ flags style }
{
    bit(style.bold)
        + 2 * bit(style.faint)
        + 4 * bit(style.italic)
        + 8 * bit(style.underline)
        + 16 * bit(style.blink)
        + 32 * bit(style.reverse)
        + 64 * bit(style.conceal)
        + 128 * bit(style.strike)
}

pub fn add_points(text: &mut Vec<u8>, points: &[char]) -> Result<(), AllocError>
    ensures points { OnOk result (text.new.items ≡ text.old.items ++ points_text points.now) }
{
    for point in points {
        add_number(text, *point as u32)?;
    }
    Ok(())
}

// A colour in two bytes; a mixture has none, and is said as the default.
fn colour(colour: Colour) -> (u8, u8)
    ensures kind { result.0 ≡ colour_kind colour }
    ensures index { result.1 ≡ colour_index colour }
{
    match colour {
        Colour::Default => (0, 0),
        Colour::Index(index) => (1, index),
        Colour::Rgb(_, _, _) => (0, 0),
    }
}

/// Adds the text of a cell that says its style in full.
#[tactic(auto, using(crate::proofs::CellAgain::few_points))]
pub fn add_whole_cell(text: &mut Vec<u8>, cell: &Cell) -> Result<(), AllocError>
    ensures cell { OnOk result (text.new.items ≡ text.old.items ++ cell_text Whole cell.now) }
{
    cell.facts();
    let points = cell.chars();
    let style = cell.style();
    let foreground = colour(style.foreground);
    let background = colour(style.background);
    text.extend_from_slice(&[
        points.len() as u8,
        flags(style),
        foreground.0,
        foreground.1,
        background.0,
        background.1,
    ])?;
    add_points(text, points.as_slice())
}

fn read_point(text: &[u8]) -> Option<char>
    ensures point { result ≡ point_read text.now }
{
    if text.len() < 4 {
        return None;
    }
    char::from_u32(BigEndian::read_u32(text))
}

fn read_colour(kind: u8, index: u8) -> Option<Colour>
    ensures colour { result ≡ colour_read kind index }
{
    if kind == 0 && index == 0 {
        Some(Colour::Default)
    } else if kind == 1 {
        Some(Colour::Index(index))
    } else {
        None
    }
}

/// The number of a style in the second to the fourth byte of a text.
pub fn read_number(text: &[u8]) -> usize
    requires long { 4 ≤ length text.now }
    ensures number { result ≡ number_read text.now }
    ensures few { result < 0x1000000 }
{
    BigEndian::read_u24(&text[1..]) as usize
}

/// A style that is said in full, in the second to the sixth byte of a text.
pub fn read_whole_style(text: &[u8]) -> Option<Style>
    requires long { 6 ≤ length text.now }
    ensures style { result ≡ whole_style text.now }
{
    let foreground = read_colour(text[2], text[3])?;
    let background = read_colour(text[4], text[5])?;
    Some(style_of(text[1], foreground, background))
}

/// The style of a byte of flags and two colours.
pub fn style_of(flags: u8, foreground: Colour, background: Colour) -> Style
    ensures style { result ≡ style_of flags foreground background }
{
    Style {
        bold: flags % 2 == 1,
        faint: flags / 2 % 2 == 1,
        italic: flags / 4 % 2 == 1,
        underline: flags / 8 % 2 == 1,
        blink: flags / 16 % 2 == 1,
        reverse: flags / 32 % 2 == 1,
        conceal: flags / 64 % 2 == 1,
        strike: flags / 128 % 2 == 1,
        foreground,
        background,
    }
}

// The colours of a style are ones that there are.
fn style_facts(style: Style)
    ensures style { is_style style ≡ true }
{}

#[tactic(auto, using(crate::proofs::Putting::points_long))]
fn read_points(text: &[u8], count: u8, style: Style) -> Option<Cell>
    requires few { count ≤ 3 }
    requires style { is_style style ≡ true }
    ensures cell { result ≡ option_and_then (λ points. glyph_of points style) (points_read count text.now) }
    ensures long { IfSome result (λ _. 4 * count ≤ length text.now) }
{
    if count == 0 {
        return Some(Cell::right_half(style, false));
    }
    let first = read_point(text)?;
    if count == 1 {
        return Cell::of(&[first], style, false);
    }
    let second = read_point(&text[4..])?;
    if count == 2 {
        return Cell::of(&[first, second], style, false);
    }
    let third = read_point(&text[8..])?;
    Cell::of(&[first, second, third], style, false)
}

/// Returns the unguarded cell at the front of a text, or `None` if there is none.
pub fn read_cell(form: &Spelling, text: &[u8]) -> Option<Cell>
    ensures cell { result ≡ glyph_read form.now text.now }
    ensures long { IfSome result (λ _. cell_size form.now text.now ≤ length text.now) }
{
    let head = form.head_size();
    if text.len() < head || 3 < text[0] {
        return None;
    }
    let style = form.read_style(text)?;
    style_facts(style);
    read_points(&text[head..], text[0], style)
}
