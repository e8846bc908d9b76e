//! The functions that set a style in place of another one.
ghost use Rattle.std.specs.Prelude.{◌≡◌, [], ◌∷◌, ◌++◌, ◌<◌, length, true, OnOk, IfOk};
ghost use Rattle.std.specs.List.{flat_map};
ghost use Rattle.roam_cells.specs.Same.{same_colour, same_style};
ghost use Rattle.roam_scroll_paint.specs.Sequences.{text_of};
ghost use Rattle.roam_scroll_paint.specs.Styles.{flag_added, colour_words, colour_added, change_codes, ends_flag, is_default, ends_alone, adds, changing, styled_from};

use crate::sequences::push_rendition;
use roam_cells::{Colour, Style};
use roam_paint::{is_same_style, push_restyle};
use std::alloc::{AllocError, Global};

fn is_same_colour(one: Colour, other: Colour) -> bool
    ensures same { result ≡ same_colour one other }
{
    one.is_same(other)
}

fn is_default(colour: Colour) -> bool
    ensures is { result ≡ is_default colour }
{
    match colour {
        Colour::Default => true,
        Colour::Index(_) => false,
        Colour::Rgb(_, _, _) => false,
    }
}

// A parameter for a flag that comes.
fn push_flag(codes: &mut Vec<u16>, before: bool, after: bool, code: u16) -> Result<(), AllocError>
    ensures codes { OnOk result (codes.new.items ≡ codes.old.items ++ flag_added before after code) }
{
    if after && !before {
        codes.push(code)?;
    }
    Ok(())
}

fn push_words(
    codes: &mut Vec<u16>,
    code: u16,
    ending: u16,
    colour: Colour,
) -> Result<(), AllocError>
    ensures codes { OnOk result (codes.new.items ≡ codes.old.items ++ colour_words code ending colour) }
{
    match colour {
        Colour::Default => codes.extend_from_slice(&[ending]),
        Colour::Index(n) => codes.extend_from_slice(&[code, 5, u16::from(n)]),
        Colour::Rgb(red, green, blue) => codes.extend_from_slice(&[
            code,
            2,
            u16::from(red),
            u16::from(green),
            u16::from(blue),
        ]),
    }
}

// The parameters of a colour that isn't the one that is set.
fn push_colour(
    codes: &mut Vec<u16>,
    before: Colour,
    after: Colour,
    code: u16,
    ending: u16,
) -> Result<(), AllocError>
    ensures codes { OnOk result (codes.new.items ≡ codes.old.items ++ colour_added before after code ending) }
{
    if is_same_colour(before, after) {
        return Ok(());
    }
    push_words(codes, code, ending, after)
}

fn push_flags(codes: &mut Vec<u16>, from: Style, to: Style) -> Result<(), AllocError>
    ensures codes { OnOk result (codes.new.items ≡ (((((((codes.old.items ++ flag_added from.bold to.bold 1)
        ++ flag_added from.faint to.faint 2) ++ flag_added from.italic to.italic 3) ++ flag_added from.underline to.underline 4)
        ++ flag_added from.blink to.blink 5) ++ flag_added from.reverse to.reverse 7) ++ flag_added from.conceal to.conceal 8)
        ++ flag_added from.strike to.strike 9) }
{
    push_flag(codes, from.bold, to.bold, 1)?;
    push_flag(codes, from.faint, to.faint, 2)?;
    push_flag(codes, from.italic, to.italic, 3)?;
    push_flag(codes, from.underline, to.underline, 4)?;
    push_flag(codes, from.blink, to.blink, 5)?;
    push_flag(codes, from.reverse, to.reverse, 7)?;
    push_flag(codes, from.conceal, to.conceal, 8)?;
    push_flag(codes, from.strike, to.strike, 9)?;
    Ok(())
}

// The parameters for all that a style has and another one hasn't.
#[tactic(auto, unfolding(crate::specs::Styles::change_codes))]
fn change_codes(alloc: Global, from: Style, to: Style) -> Result<Vec<u16>, AllocError>
    ensures codes { IfOk result (λ codes. codes.items ≡ change_codes from to) }
{
    let mut codes = Vec::new(alloc);
    push_flags(&mut codes, from, to)?;
    push_colour(&mut codes, from.foreground, to.foreground, 38, 39)?;
    push_colour(&mut codes, from.background, to.background, 48, 49)?;
    Ok(codes)
}

// Returns true if a flag of one style isn't in the other.
fn ends_flag(from: Style, to: Style) -> bool
    ensures ends { result ≡ ends_flag from to }
{
    (from.bold && !to.bold)
        || (from.faint && !to.faint)
        || (from.italic && !to.italic)
        || (from.underline && !to.underline)
        || (from.blink && !to.blink)
        || (from.reverse && !to.reverse)
        || (from.conceal && !to.conceal)
        || (from.strike && !to.strike)
}

// Returns true if a colour goes back to the default and the other isn't kept.
fn ends_alone(before: Colour, after: Colour, other_before: Colour, other_after: Colour) -> bool
    ensures ends { result ≡ ends_alone before after other_before other_after }
{
    !is_default(before)
        && is_default(after)
        && (is_default(other_after) || !is_same_colour(other_before, other_after))
}

#[tactic(auto, unfolding(crate::specs::Styles::adds))]
fn adds(from: Style, to: Style, codes: &[u16]) -> bool
    requires codes { codes.now ≡ change_codes from to }
    ensures adds { result ≡ adds from to }
    ensures some { result ≡ true → 0 < length codes.now }
{
    !ends_flag(from, to)
        && !ends_alone(
            from.foreground,
            to.foreground,
            from.background,
            to.background,
        )
        && !ends_alone(
            from.background,
            to.background,
            from.foreground,
            to.foreground,
        )
        && !codes.is_empty()
        && codes.len() <= 16
}

#[tactic(auto, using(crate::proofs::Spelled::restyle_text))]
fn push_changing(text: &mut Vec<u8>, from: Style, to: Style) -> Result<(), AllocError>
    ensures text { OnOk result (text.new.items ≡ text.old.items ++ flat_map text_of (changing from to)) }
{
    let codes = change_codes(*text.allocator(), from, to)?;
    if adds(from, to, &codes) {
        return push_rendition(text, &codes);
    }
    push_restyle(text, to)
}

/// Appends the text that sets a style in place of another one; nothing if they are equal.
pub fn push_styled_from(text: &mut Vec<u8>, from: Style, to: Style) -> Result<(), AllocError>
    ensures text { OnOk result (text.new.items ≡ text.old.items ++ flat_map text_of (styled_from from to)) }
{
    if is_same_style(to, from) {
        return Ok(());
    }
    push_changing(text, from, to)
}
