//! Graphic sets: which function designates or invokes which.
ghost use Rattle.std.specs.Prelude.{◌≡◌};
ghost use Rattle.roam_controls.specs.Shifts.{c0_shift, c1_shift, locking_shift, element_of, charset_of, designation_of};

use roam_charset::{Charset, Element};

/// The change of the graphic sets.
#[derive(Clone, Copy)]
pub enum Shift {
    Locking(Element),
    Single(Element),
    Designation(Element, Charset),
}

/// The shift that a C0 control asks for.
pub fn c0_shift(code: u8) -> Option<Shift>
    ensures shift { result ≡ c0_shift code }
{
    match code {
        // SO
        0x0E => Some(Shift::Locking(Element::G1)),
        // SI
        0x0F => Some(Shift::Locking(Element::G0)),
        _ => None,
    }
}

/// The shift that a C1 control asks for.
pub fn c1_shift(code: u8) -> Option<Shift>
    ensures shift { result ≡ c1_shift code }
{
    match code {
        // SS2
        0x8E => Some(Shift::Single(Element::G2)),
        // SS3
        0x8F => Some(Shift::Single(Element::G3)),
        _ => None,
    }
}

/// The locking shift that an escape sequence asks for.
pub fn locking_shift(last: u8) -> Option<Shift>
    ensures shift { result ≡ locking_shift last }
{
    match last {
        // LS2
        b'n' => Some(Shift::Locking(Element::G2)),
        // LS3
        b'o' => Some(Shift::Locking(Element::G3)),
        _ => None,
    }
}

fn element_of(intermediate: u8) -> Option<Element>
    ensures element { result ≡ element_of intermediate }
{
    match intermediate {
        b'(' => Some(Element::G0),
        b')' => Some(Element::G1),
        b'*' => Some(Element::G2),
        b'+' => Some(Element::G3),
        _ => None,
    }
}

fn charset_of(last: u8) -> Option<Charset>
    ensures charset { result ≡ charset_of last }
{
    match last {
        b'0' => Some(Charset::DecSpecialGraphics),
        b'A' => Some(Charset::UnitedKingdom),
        b'B' => Some(Charset::Ascii),
        _ => None,
    }
}

/// The designation that an escape sequence with this intermediate byte asks for.
pub fn designation_of(intermediate: u8, last: u8) -> Option<Shift>
    ensures shift { result ≡ designation_of intermediate last }
{
    match (element_of(intermediate), charset_of(last)) {
        (Some(element), Some(set)) => Some(Shift::Designation(element, set)),
        _ => None,
    }
}
