//! The bytes that a key sends: the codes of the VT220's keyboard under its modes.
ghost use Rattle.std.specs.Prelude.{◌≡◌, ◌+◌, ◌≤◌, ◌++◌, [], ◌∷◌, length, if◌then◌else◌};
ghost use Rattle.roam_keys.specs.Sent.{cursor_key, keypad_key, numbered_sequence, return_key, bytes_of_key, single_shift};

use crate::keys::Key;
use std::marker::Model;

/// The modes of a terminal that change what its keyboard sends.
#[derive(Clone, Copy, Debug, PartialEq, Eq)]
pub struct KeyModes {
    /// DECCKM: cursor keys send application sequences.
    pub application_cursor: bool,

    /// DECKPAM: the keypad sends application sequences.
    pub application_keypad: bool,

    /// LNM: the return key sends a line feed too.
    pub new_line: bool,
}

/// The bytes that a key sends, at most 5 of them, kept without memory of their own.
#[derive(Debug, Drop)]
pub struct Sent {
    bytes: [u8; 5],
    len: usize,
}

impl Model for Sent {
    ghost use Rattle.std.specs.Prelude.{ℕ, ◌≤◌, List, take};

    ghost Value = { List ℕ };

    ghost view = { λ s. take s.len s.bytes };

    ghost invariant = { λ s. s.len ≤ 5 };
}

impl Sent {
    /// The bytes, in the order in which they are sent.
    pub fn as_slice(&self) -> &[u8]
        ensures bytes { result.now ≡ self.now }
        ensures most { length result.now ≤ 5 }
    {
        self.bytes.as_slice().split_at(self.len).0
    }

    fn of(text: &[u8]) -> Self
        requires short { length text.now ≤ 5 }
        ensures bytes { result ≡ text.now }
    {
        let mut bytes = [0u8; 5];
        bytes[..text.len()].copy_from_slice(text);
        Sent {
            bytes,
            len: text.len(),
        }
    }

    fn single_shift(last: u8) -> Self
        ensures bytes { result ≡ single_shift last }
    {
        Sent::of(&[0x1B, b'O', last])
    }

    fn cursor_key(modes: KeyModes, last: u8) -> Self
        ensures bytes { result ≡ cursor_key modes last }
    {
        if modes.application_cursor {
            Sent::single_shift(last)
        } else {
            Sent::of(&[0x1B, b'[', last])
        }
    }

    fn keypad_key(modes: KeyModes, last: u8, character: u8) -> Self
        ensures bytes { result ≡ keypad_key modes last character }
    {
        if modes.application_keypad {
            Sent::single_shift(last)
        } else {
            Sent::of(&[character])
        }
    }

    fn keypad_enter(modes: KeyModes) -> Self
        ensures bytes { result ≡ (if modes.application_keypad then single_shift 0x4D else return_key modes) }
    {
        if modes.application_keypad {
            Sent::single_shift(b'M')
        } else {
            Sent::return_key(modes)
        }
    }

    fn return_key(modes: KeyModes) -> Self
        ensures bytes { result ≡ return_key modes }
    {
        if modes.new_line {
            Sent::of(b"\r\n")
        } else {
            Sent::of(b"\r")
        }
    }

    // A number of one or two digits.
    fn numbered(digits: &str) -> Self
        requires short { length digits.now ≤ 2 }
        ensures bytes { result ≡ numbered_sequence digits.now }
    {
        let digits = digits.as_bytes();
        let mut text = [0x1B, b'[', 0, 0, 0];
        text[2..2 + digits.len()].copy_from_slice(digits);
        text[2 + digits.len()] = b'~';
        Sent {
            bytes: text,
            len: digits.len() + 3,
        }
    }
}

impl Key {
    /// The bytes that this key sends under the modes of a terminal (VT220 Programmer Reference, chapter 3); a character
    /// sends its UTF-8.
    pub fn sent(self, modes: KeyModes) -> Sent
        ensures bytes { result ≡ bytes_of_key modes self }
    {
        match self {
            Key::Char(c) => Sent::of(c.encode_utf8(&mut [0u8; 4]).as_bytes()),
            Key::Up => Sent::cursor_key(modes, b'A'),
            Key::Down => Sent::cursor_key(modes, b'B'),
            Key::Right => Sent::cursor_key(modes, b'C'),
            Key::Left => Sent::cursor_key(modes, b'D'),
            Key::Pf1 => Sent::single_shift(b'P'),
            Key::Pf2 => Sent::single_shift(b'Q'),
            Key::Pf3 => Sent::single_shift(b'R'),
            Key::Pf4 => Sent::single_shift(b'S'),
            Key::Find => Sent::numbered("1"),
            Key::Insert => Sent::numbered("2"),
            Key::Remove => Sent::numbered("3"),
            Key::Select => Sent::numbered("4"),
            Key::Prev => Sent::numbered("5"),
            Key::Next => Sent::numbered("6"),
            Key::F6 => Sent::numbered("17"),
            Key::F7 => Sent::numbered("18"),
            Key::F8 => Sent::numbered("19"),
            Key::F9 => Sent::numbered("20"),
            Key::F10 => Sent::numbered("21"),
            Key::F11 => Sent::numbered("23"),
            Key::F12 => Sent::numbered("24"),
            Key::F13 => Sent::numbered("25"),
            Key::F14 => Sent::numbered("26"),
            Key::F15 => Sent::numbered("28"),
            Key::F16 => Sent::numbered("29"),
            Key::F17 => Sent::numbered("31"),
            Key::F18 => Sent::numbered("32"),
            Key::F19 => Sent::numbered("33"),
            Key::F20 => Sent::numbered("34"),
            Key::Pad0 => Sent::keypad_key(modes, b'p', b'0'),
            Key::Pad1 => Sent::keypad_key(modes, b'q', b'1'),
            Key::Pad2 => Sent::keypad_key(modes, b'r', b'2'),
            Key::Pad3 => Sent::keypad_key(modes, b's', b'3'),
            Key::Pad4 => Sent::keypad_key(modes, b't', b'4'),
            Key::Pad5 => Sent::keypad_key(modes, b'u', b'5'),
            Key::Pad6 => Sent::keypad_key(modes, b'v', b'6'),
            Key::Pad7 => Sent::keypad_key(modes, b'w', b'7'),
            Key::Pad8 => Sent::keypad_key(modes, b'x', b'8'),
            Key::Pad9 => Sent::keypad_key(modes, b'y', b'9'),
            Key::PadMinus => Sent::keypad_key(modes, b'm', b'-'),
            Key::PadComma => Sent::keypad_key(modes, b'l', b','),
            Key::PadPeriod => Sent::keypad_key(modes, b'n', b'.'),
            Key::PadEnter => Sent::keypad_enter(modes),
            Key::Return => Sent::return_key(modes),
            Key::Backspace => Sent::of(&[0x7F]),
        }
    }
}
