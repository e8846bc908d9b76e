//! Moves of the cursor: which function asks for which.
ghost use Rattle.std.specs.Prelude.{◌≡◌};
ghost use Rattle.roam_controls.specs.Motions.{c0_motion, c1_motion, later_motion, motion_of};

use crate::parameters::{first_count, second_count};

/// Where the cursor goes. Counts are from 1 up; rows and columns count from 1.
#[derive(Clone, Copy)]
pub enum Motion {
    Backspace,
    CarriageReturn,
    LineFeed,
    Index,
    NextLine,
    Up(u16),
    Down(u16),
    Right(u16),
    Left(u16),
    NextLines(u16),
    PreviousLines(u16),
    Column(u16),
    Row(u16),
    Position(u16, u16),
    ReverseIndex,
    Tab(u16),
    BackTab(u16),
}

/// The move that a C0 control asks for.
pub fn c0_motion(code: u8) -> Option<Motion>
    ensures motion { result ≡ c0_motion code }
{
    match code {
        // BS
        0x08 => Some(Motion::Backspace),
        // HT
        0x09 => Some(Motion::Tab(1)),
        // LF, VT, FF
        0x0A | 0x0B | 0x0C => Some(Motion::LineFeed),
        // CR
        0x0D => Some(Motion::CarriageReturn),
        _ => None,
    }
}

/// The move that a C1 control asks for.
pub fn c1_motion(code: u8) -> Option<Motion>
    ensures motion { result ≡ c1_motion code }
{
    match code {
        // IND
        0x84 => Some(Motion::Index),
        // NEL
        0x85 => Some(Motion::NextLine),
        // RI
        0x8D => Some(Motion::ReverseIndex),
        _ => None,
    }
}

fn later_motion(params: &[u16], last: u8) -> Option<Motion>
    ensures motion { result ≡ later_motion params.now last }
{
    match last {
        // CHT
        b'I' => Some(Motion::Tab(first_count(params))),
        // CBT
        b'Z' => Some(Motion::BackTab(first_count(params))),
        // HPA
        b'`' => Some(Motion::Column(first_count(params))),
        // HPR
        b'a' => Some(Motion::Right(first_count(params))),
        // VPA
        b'd' => Some(Motion::Row(first_count(params))),
        // VPR
        b'e' => Some(Motion::Down(first_count(params))),
        // HVP
        b'f' => Some(Motion::Position(first_count(params), second_count(params))),
        _ => None,
    }
}

/// The move that a control sequence with this final byte asks for.
pub fn motion_of(params: &[u16], last: u8) -> Option<Motion>
    ensures motion { result ≡ motion_of params.now last }
{
    match last {
        // CUU
        b'A' => Some(Motion::Up(first_count(params))),
        // CUD
        b'B' => Some(Motion::Down(first_count(params))),
        // CUF
        b'C' => Some(Motion::Right(first_count(params))),
        // CUB
        b'D' => Some(Motion::Left(first_count(params))),
        // CNL
        b'E' => Some(Motion::NextLines(first_count(params))),
        // CPL
        b'F' => Some(Motion::PreviousLines(first_count(params))),
        // CHA
        b'G' => Some(Motion::Column(first_count(params))),
        // CUP
        b'H' => Some(Motion::Position(first_count(params), second_count(params))),
        _ => later_motion(params, last),
    }
}
