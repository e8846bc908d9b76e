//! The names and the numbers of the keys, by which lines and bytes go.
ghost use Rattle.std.specs.Prelude.{◌≡◌};
ghost use Rattle.roam_acts.specs.Keys.{named_keys, named_in, numbered_in, number_of, name_of};

use roam_keys::Key;

// The keys that have a number and a name, in the order of their numbers.
static NAMED: [Key; 45] = [
    Key::Up,
    Key::Down,
    Key::Right,
    Key::Left,
    Key::Pf1,
    Key::Pf2,
    Key::Pf3,
    Key::Pf4,
    Key::Find,
    Key::Insert,
    Key::Remove,
    Key::Select,
    Key::Prev,
    Key::Next,
    Key::F6,
    Key::F7,
    Key::F8,
    Key::F9,
    Key::F10,
    Key::F11,
    Key::F12,
    Key::F13,
    Key::F14,
    Key::F15,
    Key::F16,
    Key::F17,
    Key::F18,
    Key::F19,
    Key::F20,
    Key::Pad0,
    Key::Pad1,
    Key::Pad2,
    Key::Pad3,
    Key::Pad4,
    Key::Pad5,
    Key::Pad6,
    Key::Pad7,
    Key::Pad8,
    Key::Pad9,
    Key::PadMinus,
    Key::PadComma,
    Key::PadPeriod,
    Key::PadEnter,
    Key::Return,
    Key::Backspace,
];

/// A key's number and name, the one table of them: 0 and nothing for a character.
pub(crate) fn entry(key: Key) -> (u8, &'static str)
    ensures number { result.0 ≡ number_of key }
    ensures name { result.1.now ≡ name_of key }
{
    match key {
        Key::Char(_) => (0, ""),
        Key::Up => (1, "up"),
        Key::Down => (2, "down"),
        Key::Right => (3, "right"),
        Key::Left => (4, "left"),
        Key::Pf1 => (5, "pf1"),
        Key::Pf2 => (6, "pf2"),
        Key::Pf3 => (7, "pf3"),
        Key::Pf4 => (8, "pf4"),
        Key::Find => (9, "find"),
        Key::Insert => (10, "insert"),
        Key::Remove => (11, "remove"),
        Key::Select => (12, "select"),
        Key::Prev => (13, "prev"),
        Key::Next => (14, "next"),
        Key::F6 => (15, "f6"),
        Key::F7 => (16, "f7"),
        Key::F8 => (17, "f8"),
        Key::F9 => (18, "f9"),
        Key::F10 => (19, "f10"),
        Key::F11 => (20, "f11"),
        Key::F12 => (21, "f12"),
        Key::F13 => (22, "f13"),
        Key::F14 => (23, "f14"),
        Key::F15 => (24, "f15"),
        Key::F16 => (25, "f16"),
        Key::F17 => (26, "f17"),
        Key::F18 => (27, "f18"),
        Key::F19 => (28, "f19"),
        Key::F20 => (29, "f20"),
        Key::Pad0 => (30, "pad0"),
        Key::Pad1 => (31, "pad1"),
        Key::Pad2 => (32, "pad2"),
        Key::Pad3 => (33, "pad3"),
        Key::Pad4 => (34, "pad4"),
        Key::Pad5 => (35, "pad5"),
        Key::Pad6 => (36, "pad6"),
        Key::Pad7 => (37, "pad7"),
        Key::Pad8 => (38, "pad8"),
        Key::Pad9 => (39, "pad9"),
        Key::PadMinus => (40, "padminus"),
        Key::PadComma => (41, "padcomma"),
        Key::PadPeriod => (42, "padperiod"),
        Key::PadEnter => (43, "padenter"),
        Key::Return => (44, "return"),
        Key::Backspace => (45, "backspace"),
    }
}

/// The key that has this number.
pub(crate) fn numbered(number: u8) -> Option<Key>
    ensures key { result ≡ numbered_in named_keys number }
{
    numbered_in(&NAMED, number)
}

/// The key that has this name.
pub(crate) fn named(name: &[u8]) -> Option<Key>
    ensures key { result ≡ named_in named_keys name.now }
{
    named_in(&NAMED, name)
}

fn numbered_in(keys: &[Key], number: u8) -> Option<Key>
    ensures key { result ≡ numbered_in keys.now number }
{
    keys.iter().copied().find(|key| entry(*key).0 == number)
}

fn named_in(keys: &[Key], name: &[u8]) -> Option<Key>
    ensures key { result ≡ named_in keys.now name.now }
{
    keys.iter()
        .copied()
        .find(|key| entry(*key).1.as_bytes() == name)
}
