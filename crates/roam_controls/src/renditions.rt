//! SGR: select graphic rendition.
ghost use Rattle.std.specs.Prelude.{◌≡◌, ◌<◌, ◌≤◌, length, take, fold};
ghost use Rattle.roam_cells.specs.Aspects.{mask_of, digits_of};
ghost use Rattle.roam_controls.specs.Aspects.{aspect_of};
ghost use Rattle.roam_controls.specs.Renditions.{Rendition, coloured_style, mixed_style, with_aspect, read_so_far, with_parameter, styled_by};

use roam_cells::{Colour, Ink};

/// The layer of a colour.
#[derive(Clone, Copy)]
pub enum Layer {
    Foreground,
    Background,
}

/// The meaning of the next parameter of SGR.
#[derive(Clone, Copy)]
pub enum Awaited {
    Aspect,
    ColourSpace(Layer),
    ColourIndex(Layer),
    /// How much red a mixture has.
    Red(Layer),
    /// How much green, after the red.
    Green(Layer, u16),
    /// How much blue, after the red and the green.
    Blue(Layer, u16, u16),
    /// The rest has no effect.
    Nothing,
}

/// An ink while SGR's parameters are read.
#[derive(Clone, Copy)]
pub struct Restyling {
    pub ink: Ink,
    pub awaited: Awaited,
}

#[inline]
fn colour(ink: Ink, layer: Layer, colour: Colour) -> Ink
    ensures coloured { result ≡ record ink { style = coloured_style layer colour ink.style } }
{
    match layer {
        Layer::Foreground => ink.with_foreground(colour),
        Layer::Background => ink.with_background(colour),
    }
}

#[inline]
fn mix(ink: Ink, layer: Layer, red: u16, green: u16, blue: u16) -> Ink
    ensures mixed { result ≡ record ink { style = mixed_style layer red green blue ink.style } }
{
    if red <= 255 && green <= 255 && blue <= 255 {
        colour(ink, layer, Colour::Rgb(red as u8, green as u8, blue as u8))
    } else {
        ink
    }
}

// Which digits of an ink's number each aspect clears, from 0 to 107, and which it puts there.
#[rattlefmt::skip]
static MASKS: [u64; 108] = [
    0x7FFFFFFFFFFFFFE, 0x2, 0x4, 0x8, 0x10, 0x20,
    0x0, 0x40, 0x80, 0x100, 0x0, 0x0,
    0x0, 0x0, 0x0, 0x0, 0x0, 0x0,
    0x0, 0x0, 0x0, 0x10, 0x6, 0x8,
    0x10, 0x20, 0x0, 0x40, 0x80, 0x100,
    0x3FFFFFE00, 0x3FFFFFE00, 0x3FFFFFE00, 0x3FFFFFE00, 0x3FFFFFE00, 0x3FFFFFE00,
    0x3FFFFFE00, 0x3FFFFFE00, 0x0, 0x3FFFFFE00, 0x7FFFFFC00000000, 0x7FFFFFC00000000,
    0x7FFFFFC00000000, 0x7FFFFFC00000000, 0x7FFFFFC00000000, 0x7FFFFFC00000000, 0x7FFFFFC00000000, 0x7FFFFFC00000000,
    0x0, 0x7FFFFFC00000000, 0x0, 0x0, 0x0, 0x0,
    0x0, 0x0, 0x0, 0x0, 0x0, 0x0,
    0x0, 0x0, 0x0, 0x0, 0x0, 0x0,
    0x0, 0x0, 0x0, 0x0, 0x0, 0x0,
    0x0, 0x0, 0x0, 0x0, 0x0, 0x0,
    0x0, 0x0, 0x0, 0x0, 0x0, 0x0,
    0x0, 0x0, 0x0, 0x0, 0x0, 0x0,
    0x3FFFFFE00, 0x3FFFFFE00, 0x3FFFFFE00, 0x3FFFFFE00, 0x3FFFFFE00, 0x3FFFFFE00,
    0x3FFFFFE00, 0x3FFFFFE00, 0x0, 0x0, 0x7FFFFFC00000000, 0x7FFFFFC00000000,
    0x7FFFFFC00000000, 0x7FFFFFC00000000, 0x7FFFFFC00000000, 0x7FFFFFC00000000, 0x7FFFFFC00000000, 0x7FFFFFC00000000,
];

#[rattlefmt::skip]
static DIGITS: [u64; 108] = [
    0x0, 0x2, 0x4, 0x8, 0x10, 0x20,
    0x0, 0x40, 0x80, 0x100, 0x0, 0x0,
    0x0, 0x0, 0x0, 0x0, 0x0, 0x0,
    0x0, 0x0, 0x0, 0x10, 0x0, 0x0,
    0x0, 0x0, 0x0, 0x0, 0x0, 0x0,
    0x200, 0x400, 0x600, 0x800, 0xA00, 0xC00,
    0xE00, 0x1000, 0x0, 0x0, 0x400000000, 0x800000000,
    0xC00000000, 0x1000000000, 0x1400000000, 0x1800000000, 0x1C00000000, 0x2000000000,
    0x0, 0x0, 0x0, 0x0, 0x0, 0x0,
    0x0, 0x0, 0x0, 0x0, 0x0, 0x0,
    0x0, 0x0, 0x0, 0x0, 0x0, 0x0,
    0x0, 0x0, 0x0, 0x0, 0x0, 0x0,
    0x0, 0x0, 0x0, 0x0, 0x0, 0x0,
    0x0, 0x0, 0x0, 0x0, 0x0, 0x0,
    0x0, 0x0, 0x0, 0x0, 0x0, 0x0,
    0x1200, 0x1400, 0x1600, 0x1800, 0x1A00, 0x1C00,
    0x1E00, 0x2000, 0x0, 0x0, 0x2400000000, 0x2800000000,
    0x2C00000000, 0x3000000000, 0x3400000000, 0x3800000000, 0x3C00000000, 0x4000000000,
];

#[inline]
#[tactic(auto, using(crate::proofs::Rows::row_at))]
fn mask_at(param: u16) -> u64
    requires below { param < 108 }
    ensures mask { result ≡ mask_of (aspect_of param) }
{
    MASKS[param as usize]
}

#[inline]
#[tactic(auto, using(crate::proofs::Rows::row_at))]
fn digits_at(param: u16) -> u64
    requires below { param < 108 }
    ensures digits { result ≡ digits_of (aspect_of param) }
{
    DIGITS[param as usize]
}

#[inline]
fn with_aspect(ink: Ink, param: u16) -> Ink
    ensures set { result ≡ record ink { style = with_aspect param ink.style } }
{
    if param < 108 {
        ink.with_digits(mask_at(param), digits_at(param))
    } else {
        ink
    }
}

impl Restyling {
    #[inline(always)]
    fn read(&mut self, param: u16)
        ensures read { read_so_far self.new.ink.style self.new.awaited
            ≡ with_parameter (read_so_far self.old.ink.style self.old.awaited) param }
        ensures guard { self.new.ink.guarded ≡ self.old.ink.guarded }
    {
        match self.awaited {
            Awaited::Aspect => match param {
                38 => self.awaited = Awaited::ColourSpace(Layer::Foreground),
                48 => self.awaited = Awaited::ColourSpace(Layer::Background),
                _ => self.ink = with_aspect(self.ink, param),
            },
            Awaited::ColourSpace(layer) => match param {
                5 => self.awaited = Awaited::ColourIndex(layer),
                2 => self.awaited = Awaited::Red(layer),
                _ => self.awaited = Awaited::Nothing,
            },
            Awaited::ColourIndex(layer) => {
                if param <= 255 {
                    self.ink = colour(self.ink, layer, Colour::Index(param as u8));
                }
                self.awaited = Awaited::Aspect;
            }
            Awaited::Red(layer) => self.awaited = Awaited::Green(layer, param),
            Awaited::Green(layer, red) => self.awaited = Awaited::Blue(layer, red, param),
            Awaited::Blue(layer, red, green) => {
                self.ink = mix(self.ink, layer, red, green, param);
                self.awaited = Awaited::Aspect;
            }
            Awaited::Nothing => {}
        }
    }

    // Reads a parameter, and with it those of the colour that it begins, if they are there: then no test of the awaited meaning is between
    // them. Returns the place of the next one.
    #[inline]
    fn read_some(&mut self, params: &[u16], at: usize) -> usize
        requires at_in { at < length params.now }
        ensures more { at < result }
        ensures within { result ≤ length params.now }
        ensures read { (before : Rendition)
            → read_so_far self.old.ink.style self.old.awaited ≡ fold with_parameter before (take at params.now)
            → read_so_far self.new.ink.style self.new.awaited ≡ fold with_parameter before (take result params.now) }
        ensures guard { self.new.ink.guarded ≡ self.old.ink.guarded }
    {
        self.read(params[at]);
        match self.awaited {
            Awaited::ColourSpace(_) => {}
            _ => return at + 1,
        }
        if params.len() - at < 3 {
            return at + 1;
        }
        self.read(params[at + 1]);
        self.read(params[at + 2]);
        match self.awaited {
            Awaited::Green(_, _) => {}
            _ => return at + 3,
        }
        if params.len() - at < 5 {
            return at + 3;
        }
        self.read(params[at + 3]);
        self.read(params[at + 4]);
        at + 5
    }
}

/// Returns the ink that SGR's parameters make of this one (ECMA-48 8.3.117). They are read from the first on, each after those before it,
/// and change the style; the guard stays.
pub fn restyled(ink: Ink, params: &[u16]) -> Ink
    ensures styled { result ≡ record ink { style = styled_by params.now ink.style } }
{
    let mut restyling = Restyling {
        ink,
        awaited: Awaited::Aspect,
    };
    let mut at = 0;
    while at < params.len() {
        at = restyling.read_some(params, at);
    }
    restyling.ink
}
