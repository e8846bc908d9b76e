//! A style and a guard as a cell keeps them.
ghost use Rattle.std.specs.Prelude.{◌≡◌, ◌↔◌, true, ◌≤◌, ◌<◌, ◌+◌, ◌*◌, false, IsTrue};
ghost use Rattle.roam_cells.specs.Inks.{digit, is_odd, number_of, colour_of, ink_numbered, style_numbered, IsInkNumber};
ghost use Rattle.roam_cells.specs.Aspects.{Aspect, showing, mask_of, digits_of, is_aspect};

use crate::styles::{Colour, Style};
use std::marker::Model;

/// A style and a guard in one number, so that cells are small and two of them are compared in few tests.
#[derive(Clone, Copy)]
pub struct Ink {
    // Its binary digits from the last: the guard, the eight flags from bold to strike, 25 of the foreground and 25 of the background. A
    // colour is 0 for the default, n + 1 for the index n, and from 257 on a mixture, with blue in the last eight digits.
    number: u64,
}

impl Model for Ink {
    ghost use Rattle.roam_cells.specs.Inks.{InkValue, ink_of, IsInk, inside_of, inside_back};

    ghost Value = { InkValue };

    ghost view = { ink_of };

    ghost invariant = { IsInk };

    ghost inverse = { inside_of };

    ghost inverse_ok = { inside_back };
}

#[tactic(auto, unfolding(crate::specs::Inks::digit))]
#[inline]
pub(crate) fn digit(flag: bool) -> u64
    ensures digit { result ≡ digit flag }
    ensures one { result ≤ 1 }
{
    if flag { 1 } else { 0 }
}

#[tactic(auto, unfolding(crate::specs::Inks::is_odd))]
#[inline]
pub(crate) fn is_odd(n: u64) -> bool
    ensures odd { result ≡ is_odd n }
{
    n % 2 == 1
}

#[tactic(auto, unfolding(crate::specs::Inks::number_of, crate::specs::Inks::colour_of))]
#[inline]
fn number_of(of: Colour) -> u32
    ensures number { result ≡ number_of of }
    ensures back { colour_of result ≡ of }
    ensures few { result ≤ 16777472 }
{
    match of {
        Colour::Default => 0,
        Colour::Index(n) => u32::from(n) + 1,
        Colour::Rgb(r, g, b) => 257 + 65536 * u32::from(r) + 256 * u32::from(g) + u32::from(b),
    }
}

#[tactic(auto, unfolding(crate::specs::Inks::colour_of))]
#[inline]
fn colour_of(number: u32) -> Colour
    requires few { number ≤ 16777472 }
    ensures colour { result ≡ colour_of number }
{
    if number == 0 {
        Colour::Default
    } else if number <= 256 {
        Colour::Index((number - 1) as u8)
    } else {
        let mixed = number - 257;
        Colour::Rgb(
            (mixed / 65536) as u8,
            (mixed / 256 % 256) as u8,
            (mixed % 256) as u8,
        )
    }
}

impl Ink {
    /// The ink of a style and a guard.
    #[inline]
    pub fn new(style: Style, guard: bool) -> Self
        ensures ink { result ≡ record { style = style; guarded = guard } }
    {
        let marks = digit(style.conceal) + 2 * digit(style.strike);
        let looks = digit(style.blink) + 2 * (digit(style.reverse) + 2 * marks);
        let lines = digit(style.italic) + 2 * (digit(style.underline) + 2 * looks);
        let digits = digit(guard) + 2 * (digit(style.bold) + 2 * (digit(style.faint) + 2 * lines));
        let colours = number_of(style.foreground) as u64
            + 0x200_0000 * number_of(style.background) as u64;
        Ink {
            number: digits + 512 * colours,
        }
    }

    /// The ink of a number that an ink has.
    #[inline]
    pub(crate) fn numbered(number: u64) -> Self
        requires ink { IsInkNumber number }
        ensures ink { result ≡ ink_numbered number }
    {
        Ink { number }
    }

    /// Its number.
    #[inline]
    pub(crate) fn number(&self) -> u64
        ensures number { ink_numbered result ≡ self.now }
        ensures ink { IsInkNumber result }
    {
        self.number
    }

    /// Its style.
    #[tactic(auto, unfolding(crate::specs::Inks::ink_numbered, crate::specs::Inks::style_of))]
    #[inline]
    pub fn style(&self) -> Style
        ensures style { result ≡ self.now.style }
    {
        let flags = self.number % 512 / 2;
        Style {
            bold: is_odd(flags),
            faint: is_odd(flags / 2),
            italic: is_odd(flags / 2 / 2),
            underline: is_odd(flags / 2 / 2 / 2),
            blink: is_odd(flags / 2 / 2 / 2 / 2),
            reverse: is_odd(flags / 2 / 2 / 2 / 2 / 2),
            conceal: is_odd(flags / 2 / 2 / 2 / 2 / 2 / 2),
            strike: is_odd(flags / 2 / 2 / 2 / 2 / 2 / 2 / 2),
            foreground: colour_of((self.number / 512 % 0x200_0000) as u32),
            background: colour_of((self.number / 512 / 0x200_0000) as u32),
        }
    }

    /// The number of its style, by which styles are compared and looked up.
    #[inline]
    pub fn style_number(&self) -> u64
        ensures style { style_numbered result ≡ self.now.style }
    {
        self.number / 2
    }

    /// Returns true if it is guarded.
    #[tactic(auto, unfolding(crate::specs::Inks::ink_numbered))]
    #[inline]
    pub fn guard(&self) -> bool
        ensures guard { result ≡ self.now.guarded }
    {
        is_odd(self.number)
    }

    /// The same ink without its guard.
    #[inline]
    pub fn unguarded(&self) -> Self
        ensures ink { result ≡ record { style = self.now.style; guarded = false } }
    {
        Ink {
            number: self.number / 2 * 2,
        }
    }

    /// The same ink in another colour.
    #[inline]
    pub fn with_foreground(self, colour: Colour) -> Self
        ensures ink { result ≡ record self { style = record self.style { foreground = colour } } }
    {
        let was = self.number / 512 % 0x200_0000;
        Ink {
            number: self.number - 512 * was + 512 * number_of(colour) as u64,
        }
    }

    /// The same ink on another colour.
    #[inline]
    pub fn with_background(self, colour: Colour) -> Self
        ensures ink { result ≡ record self { style = record self.style { background = colour } } }
    {
        let was = self.number / 512 / 0x200_0000;
        Ink {
            number: self.number - 0x4_0000_0000 * was + 0x4_0000_0000 * number_of(colour) as u64,
        }
    }

    /// The same ink, bold or not (each flag is set in its digit, without the others being read).
    #[inline]
    pub fn with_bold(self, on: bool) -> Self
        ensures ink { result ≡ record self { style = record self.style { bold = on } } }
    {
        Ink {
            number: self.number - 2 * (self.number / 2 % 2) + 2 * digit(on),
        }
    }

    /// The same ink, faint or not.
    #[inline]
    pub fn with_faint(self, on: bool) -> Self
        ensures ink { result ≡ record self { style = record self.style { faint = on } } }
    {
        Ink {
            number: self.number - 4 * (self.number / 4 % 2) + 4 * digit(on),
        }
    }

    /// The same ink, italic or not.
    #[inline]
    pub fn with_italic(self, on: bool) -> Self
        ensures ink { result ≡ record self { style = record self.style { italic = on } } }
    {
        Ink {
            number: self.number - 8 * (self.number / 8 % 2) + 8 * digit(on),
        }
    }

    /// The same ink, underline or not.
    #[inline]
    pub fn with_underline(self, on: bool) -> Self
        ensures ink { result ≡ record self { style = record self.style { underline = on } } }
    {
        Ink {
            number: self.number - 16 * (self.number / 16 % 2) + 16 * digit(on),
        }
    }

    /// The same ink, blink or not.
    #[inline]
    pub fn with_blink(self, on: bool) -> Self
        ensures ink { result ≡ record self { style = record self.style { blink = on } } }
    {
        Ink {
            number: self.number - 32 * (self.number / 32 % 2) + 32 * digit(on),
        }
    }

    /// The same ink, reverse or not.
    #[inline]
    pub fn with_reverse(self, on: bool) -> Self
        ensures ink { result ≡ record self { style = record self.style { reverse = on } } }
    {
        Ink {
            number: self.number - 64 * (self.number / 64 % 2) + 64 * digit(on),
        }
    }

    /// The same ink, conceal or not.
    #[inline]
    pub fn with_conceal(self, on: bool) -> Self
        ensures ink { result ≡ record self { style = record self.style { conceal = on } } }
    {
        Ink {
            number: self.number - 128 * (self.number / 128 % 2) + 128 * digit(on),
        }
    }

    /// The same ink, strike or not.
    #[inline]
    pub fn with_strike(self, on: bool) -> Self
        ensures ink { result ≡ record self { style = record self.style { strike = on } } }
    {
        Ink {
            number: self.number - 256 * (self.number / 256 % 2) + 256 * digit(on),
        }
    }

    /// Returns the ink with another aspect, by the mask and digits of that: digits of its number are cleared and others put there. So
    /// aspects come from a table and are set without a branch.
    #[inline]
    pub fn with_digits(self, mask: u64, digits: u64) -> Self
        requires aspect { (a : Aspect) × (is_aspect a ≡ true) × (mask ≡ mask_of a) × (digits ≡ digits_of a) }
        ensures shown { (a : Aspect) → is_aspect a ≡ true → mask ≡ mask_of a → digits ≡ digits_of a
            → result ≡ record self { style = showing a self.style } }
    {
        Ink {
            number: self.number - (self.number & mask) + digits,
        }
    }

    /// Returns true if two inks are equal in style and guard.
    #[inline]
    pub fn is_same(&self, other: &Self) -> bool
        ensures same { IsTrue result ↔ (self.now ≡ other.now) }
    {
        self.number == other.number
    }
}

impl Style {
    /// Returns a number of the style: two styles are equal exactly if their numbers are.
    #[inline]
    pub fn number(self) -> u64
        ensures style { style_numbered result ≡ self }
    {
        Ink::new(self, false).style_number()
    }
}
