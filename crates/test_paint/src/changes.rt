//! Diffs of screens, byte for byte, in version 1: texts that are written again as read, refused texts, and diffs between screens. The
//! parts that both versions share take any screen.
//!
//! Tables are texts of hexadecimal digits in words; a word with `*8` behind it is repeated eight times. A row has a result and a text:
//! `kept`, written again as read; `beginnings`, each proper one refused; `refused`, with the reason. A hop has three texts with `>` between
//! them: those from a blank screen to two others, and the one from the first to the second.

use crate::change;
use crate::screens::{Other, malformed};
use hex::FromHexError;
use roam_cells::{Cell, Fault, Style, are_same_cells, width};
use roam_screens::{RowShot, RowShot1, Seen};
use roam_update::Synced;
use std::alloc::Global;
use std::test::*;

// From a blank screen of 2 by 8 to `a` in the first cell, the cursor behind it.
const ONE: &str = "0002 0008 0001 0002 01 00000001 00000000 00000001 010000000000 00000061";

// The same, and then a text that changes nothing.
const ONE_AND_NONE: &str =
    "0002 0008 0001 0002 01 00000001 00000000 00000001 010000000000 00000061 0002 0008 0001 0001 01 00000000";

// From there to `a` and `c` in the first and the third cell.
const TWO: &str =
    "0002 0008 0001 0004 01 00000002 00000000 00000001 010000000000 00000061 00000002 00000001 010000000000 00000063";

// `x` in each corner of 3 by 5, and a hidden cursor in the last.
const CORNERS: &str =
    "0003 0005 0003 0005 00 00000004 00000000 00000001 010000000000 00000078 00000004 00000001 010000000000 00000078 \
    0000000a 00000001 010000000000 00000078 0000000e 00000001 010000000000 00000078";

// The number of other values that each byte of ONE may have, by a reader of the grammar that shares no code with this crate. Those of the
// code point may have the values that make a character of one column.
const OTHER_VALUES: &str =
    "0 98 0 246 0 1 0 7 1 0 0 0 0 0 0 0 15 0 0 0 0 0 255 1 0 1 0 narrow narrow narrow narrow";

const ROWS: &str = "\
kept: 0002 0008 0001 0001 01 00000000
kept: 0002 0008 0001 0002 01 00000001 00000000 00000001 010000000000 00000061
kept: 0002 0008 0001 0004 01 00000002 00000000 00000001 010000000000 00000061 00000002 00000001 010000000000 00000063
beginnings: 0002 0008 0001 0001 01 00000000
beginnings: 0002 0008 0001 0002 01 00000001 00000000 00000001 010000000000 00000061
beginnings: 0002 0008 0001 0004 01 00000002 00000000 00000001 010000000000 00000061 00000002 00000001 010000000000 00000063
refused a lone right half: 0002 0008 0001 0001 01 00000001 00000000 00000001 00 00 0000 0000
refused a cursor in column 9: 0002 0008 0001 0009 01 00000000
refused a cursor in row 3: 0002 0008 0003 0001 01 00000000
refused a cursor in row 0: 0002 0008 0000 0001 01 00000000
refused 1 row: 0001 0008 0001 0001 01 00000000
refused 251 columns: 0002 00fb 0001 0001 01 00000000
refused a cursor neither visible nor hidden: 0002 0008 0001 0001 02 00000000
refused two runs that touch: 0002 0008 0001 0001 01 00000002 00000000 00000001 01 00 0000 0000 00000061 00000001 00000001 01 00 0000 \
    0000 00000062
refused two runs that fall: 0002 0008 0001 0001 01 00000002 00000004 00000001 01 00 0000 0000 00000061 00000000 00000001 01 00 0000 \
    0000 00000062
refused a run of no cell: 0002 0008 0001 0001 01 00000001 00000000 00000000
refused a run past the end: 0002 0008 0001 0001 01 00000001 00000010 00000001 01 00 0000 0000 00000061
refused a run longer than any screen: 0002 0008 0001 0001 01 00000001 00000001 ffffffff 01 00 0000 0000 00000061
refused more runs than there are: 0002 0008 0001 0001 01 ffffffff 00000000 00000001 01 00 0000 0000 00000061
refused a wide character in the last column: 0002 0008 0001 0001 01 00000001 00000007 00000002 01 00 0000 0000 00004e2d 00 00 0000 0000
refused a right half of another style: 0002 0008 0001 0001 01 00000001 00000000 00000002 01 00 0000 0000 00004e2d 00 01 0000 0000
refused a wide character with no right half: 0002 0008 0001 0001 01 00000001 00000000 00000001 01 00 0000 0000 00004e2d
refused a control: 0002 0008 0001 0001 01 00000001 00000000 00000001 01 00 0000 0000 00000007
refused a surrogate: 0002 0008 0001 0001 01 00000001 00000000 00000001 01 00 0000 0000 0000d800
refused a joiner alone: 0002 0008 0001 0001 01 00000001 00000000 00000001 01 00 0000 0000 00000301
refused two letters: 0002 0008 0001 0001 01 00000001 00000000 00000001 02 00 0000 0000 00000061 00000062
refused four code points: 0002 0008 0001 0001 01 00000001 00000000 00000001 04 00 0000 0000 00000061 00000301 00000301 00000301
refused a colour of kind 2: 0002 0008 0001 0001 01 00000001 00000000 00000001 01 00 0201 0000 00000061
refused a colour of kind 0 with an index: 0002 0008 0001 0001 01 00000001 00000000 00000001 01 00 0000 0001 00000061
refused a byte too many: 0002 0008 0001 0001 01 00000000 00";

// Screens, each by its text from a blank one: blank ones, a letter, the corners, a wide character in a style, two that are full of one
// letter.
const SCREENS: &str = "\
0002 0004 0001 0001 01 00000000
0002 0008 0001 0001 01 00000000
0002 0008 0001 0002 01 00000001 00000000 00000001 010000000000 00000061
0003 0005 0003 0005 00 00000004 00000000 00000001 010000000000 00000078 00000004 00000001 010000000000 00000078 \
    0000000a 00000001 010000000000 00000078 0000000e 00000001 010000000000 00000078
0002 0008 0001 0001 01 00000001 00000003 00000002 018100000000 00004e2d 008100000000
0018 0050 0001 0001 01 00000001 00000000 00000780 01000000000000000079*1920
0064 00fa 0001 0001 01 00000001 00000000 000061a8 0100000000000000007a*25000";

// Screens that an independent terminal made of random input, with the diffs of an independent writer; and the longest one of one letter a
// cell, with ten bytes a cell, eight a run's head, and thirteen a diff.
const HOPS: &str = "\
0002 0004 0002 0002 01 00000001 00000004 00000001 010000000000 0000002d
> 0002 0004 0002 0001 01 00000001 00000004 00000001 010000000000 0000002d
> 0002 0004 0002 0001 01 00000000

0002 0014 0002 0006 01 00000001 00000000 00000001 020000000000 00000065 00000301
> 0002 0014 0001 0002 01 00000000
> 0002 0014 0001 0002 01 00000001 00000000 00000001 010000000000 00000020

0005 0014 0001 0003 01 00000000
> 0005 0014 0001 0003 01 00000001 00000000 00000002 010000000000 0000fffd 010000000000 00000071
> 0005 0014 0001 0003 01 00000001 00000000 00000002 010000000000 0000fffd 010000000000 00000071

0007 0008 0001 0002 01 00000002 00000000 00000001 010000000000 00000071 00000007 00000001 010000000000 0000002b
> 0007 0008 0001 0008 01 00000000
> 0007 0008 0001 0008 01 00000002 00000000 00000001 010000000000 00000020 00000007 00000001 010000000000 00000020

0007 000c 0004 000c 01 00000000
> 0007 000c 0001 0004 01 00000001 00000000 00000004 010000000000 0000007a 010000000000 00000061 010000000000 00004e2d 000000000000
> 0007 000c 0001 0004 01 00000001 00000000 00000004 010000000000 0000007a 010000000000 00000061 010000000000 00004e2d 000000000000

0003 0007 0001 0007 00 00000002 00000006 00000001 010001040000 0000005e 00000014 00000001 010001040000 00000076
> 0002 0008 0002 0002 01 00000001 00000008 00000001 010000000000 0000002d
> 0002 0008 0002 0002 01 00000002 00000006 00000001 010000000000 00000020 00000008 00000001 010000000000 0000002d

0003 0005 0001 0005 01 00000002 00000004 00000001 010000000000 0000002b 0000000c 00000002 010000000000 00000064 010000000000 00000065
> 0003 0005 0001 0005 01 00000002 00000004 00000001 010000000000 00000068 0000000c 00000002 010000000000 00000064 010000000000 00000065
> 0003 0005 0001 0005 01 00000001 00000004 00000001 010000000000 00000068

0006 000a 0001 0001 01 00000000
> 0006 000a 0001 0006 01 00000001 00000000 00000005 010000000000 000000e9 010000000000 00004e2d 000000000000 020000000000 00000065
00000301 010000000000 00000078
> 0006 000a 0001 0006 01 00000001 00000000 00000005 010000000000 000000e9 010000000000 00004e2d 000000000000 020000000000 00000065
00000301 010000000000 00000078

0004 0006 0002 0006 01 00000000
> 0004 0006 0002 0005 01 00000001 00000005 00000005 010000000000 000000e9 010000000000 00004e2d 000000000000 020000000000 0000240a
00000301 010000000000 00002502
> 0004 0006 0002 0005 01 00000001 00000005 00000005 010000000000 000000e9 010000000000 00004e2d 000000000000 020000000000 0000240a
00000301 010000000000 00002502

0005 0006 0003 0002 01 00000001 0000000c 00000004 010000000000 00004e2d 000000000000 010000000000 00020000 000000000000
> 0005 000f 0002 000a 01 00000001 00000017 00000001 010000000000 0000002b
> 0005 000f 0002 000a 01 00000002 00000017 00000001 010000000000 0000002b 0000001e 00000004 010000000000 00000020 010000000000 00000020
010000000000 00000020 010000000000 00000020

0008 0013 0003 0006 01 00000005 00000000 00000015 010000000000 0000007c 010000000000 00000058 010000000000 00000074 010000000000 00000072
010000000000 00000046 010000000000 00000070 010000000000 00000048 010000000000 00000050 010000000000 0000006f 010000000000 00000060
010000000000 00000070 010000000000 0000002f 010000000000 0000002d 010000000000 00000039 010000000000 0000004d 010000000000 00000069
010000000000 00000078 010000000000 00000028 010000000000 0000005c 010000000000 00000074 010000000000 00000075 00000026 00000009
010000000000 0000006c 010000000000 00000071 010000000000 00000023 010000000000 0000005f 010000000000 00000078 010000000000 0000006c
010000000000 0000006d 010000000000 0000006e 010000000000 0000006f 00000039 00000002 010000000000 00000068 010000000000 00000069 0000004c
0000002f 010000000000 00000039 010000000000 00000039 010000000000 00000039 010000000000 00000039 010000000000 00000039 010000000000
00000039 010000000000 00000039 010000000000 00000039 010000000000 00000039 010000000000 00000039 010000000000 00000039 010000000000
00000039 010000000000 00000039 010000000000 00000039 010000000000 00000039 010000000000 00000039 010000000000 00000039 010000000000
00000039 010000000000 00000039 010000000000 00000063 010000000000 00000064 010000000000 00000065 010000000000 00000066 010000000000
00000067 010000000000 00000068 010000000000 00000069 010000000000 0000006a 010000000000 0000006b 010000000000 0000006c 010000000000
0000006d 010000000000 0000006e 010000000000 0000006f 010000000000 00000070 010000000000 00000071 010000000000 00000072 010000000000
00000073 010000000000 00000074 010000000000 00000075 010000000000 00000066 010000000000 00000067 010000000000 00000068 010000000000
00000069 010000000000 0000006a 010000000000 0000006b 010000000000 0000006c 010000000000 0000006d 010000000000 0000006e 00000085 00000013
010000000000 00000059 010000000000 00000059 010000000000 00000059 010000000000 00000059 010000000000 00000059 010000000000 0000006c
010000000000 00000071 010000000000 00000059 010000000000 00000059 010000000000 00000059 010000000000 00000059 010000000000 00000059
010000000000 00000059 010000000000 00000059 010000000000 00000059 010000000000 00000059 010000000000 00000059 010000000000 00000059
010000000000 00000059
> 0008 0013 0003 0003 01 00000005 00000000 00000015 010000000000 0000007c 010000000000 00000058 010000000000 00000074 010000000000
00000072 010000000000 00000046 010000000000 00000070 010000000000 00000048 010000000000 00000050 010000000000 0000006f 010000000000
00000060 010000000000 00000070 010000000000 0000002f 010000000000 0000002d 010000000000 00000039 010000000000 0000004d 010000000000
00000069 010000000000 00000078 010000000000 00000028 010000000000 0000005c 010000000000 00000055 010000000000 00000055 00000026 00000009
010000000000 00000065 010000000000 00000066 010000000000 00000023 010000000000 0000005f 010000000000 00000078 010000000000 0000006c
010000000000 0000006d 010000000000 0000006e 010000000000 0000006f 00000039 00000002 010000000000 00000068 010000000000 00000069 0000004c
0000002f 010000000000 00000039 010000000000 00000039 010000000000 00000039 010000000000 00000039 010000000000 00000039 010000000000
00000039 010000000000 00000039 010000000000 00000039 010000000000 00000039 010000000000 00000039 010000000000 00000039 010000000000
00000039 010000000000 00000039 010000000000 00000039 010000000000 00000039 010000000000 00000039 010000000000 00000039 010000000000
00000039 010000000000 00000039 010000000000 00000063 010000000000 00000064 010000000000 00000065 010000000000 00000066 010000000000
00000067 010000000000 00000068 010000000000 00000069 010000000000 0000006a 010000000000 0000006b 010000000000 0000006c 010000000000
0000006d 010000000000 0000006e 010000000000 0000006f 010000000000 00000070 010000000000 00000071 010000000000 00000072 010000000000
00000073 010000000000 00000074 010000000000 00000075 010000000000 00000066 010000000000 00000067 010000000000 00000068 010000000000
00000069 010000000000 0000006a 010000000000 0000006b 010000000000 0000006c 010000000000 0000006d 010000000000 0000006e 00000085 00000013
010000000000 00000059 010000000000 00000059 010000000000 00000059 010000000000 00000059 010000000000 00000059 010000000000 0000006c
010000000000 00000071 010000000000 00000059 010000000000 00000059 010000000000 00000059 010000000000 00000059 010000000000 00000059
010000000000 00000059 010000000000 00000059 010000000000 00000059 010000000000 00000059 010000000000 00000059 010000000000 00000059
010000000000 00000059
> 0008 0013 0003 0003 01 00000002 00000013 00000002 010000000000 00000055 010000000000 00000055 00000026 00000002 010000000000 00000065
010000000000 00000066

0003 0008 0002 0005 01 00000001 0000000a 00000002 010000000000 00005b57 000000000000
> 0003 0008 0003 0005 01 00000002 0000000a 00000002 010000000000 00005b57 000000000000 00000010 00000004 010000000000 000030b3
000000000000 010000000000 000030b3 000000000000
> 0003 0008 0003 0005 01 00000001 00000010 00000004 010000000000 000030b3 000000000000 010000000000 000030b3 000000000000

0064 00fa 0001 0001 01 00000000
> 0064 00fa 0001 0001 01 00000001 00000000 000061a8 01000000000000000078*25000
> 0064 00fa 0001 0001 01 00000001 00000000 000061a8 01000000000000000078*25000

0064 00fa 0001 0001 01 00000001 00000000 000061a8 01000000000000000078*25000
> 0064 00fa 0001 0001 01 00000001 00000000 000061a8 01000000000000000078*25000
> 0064 00fa 0001 0001 01 00000000";

fn part_of(alloc: Global, digits: &str) -> Result<Vec<u8>, Fault> {
    match hex::decode(alloc, digits) {
        Ok(bytes) => Ok(bytes),
        Err(FromHexError::OutOfMemory) => Err(Fault::OutOfMemory),
        Err(_) => Err(Fault::BadChange),
    }
}

// Adds the bytes of a word.
fn push_word(bytes: &mut Vec<u8>, word: &str) -> Result<(), Fault> {
    let (digits, times) = match word.split_once('*') {
        Some((digits, times)) => (digits, times.parse::<u32>().unwrap_or(0)),
        None => (word, 1),
    };
    let part = part_of(*bytes.allocator(), digits)?;
    for _ in 0..times {
        bytes.extend_from_slice(&part)?;
    }
    Ok(())
}

/// The bytes of words of hexadecimal digits.
pub fn bytes_of(alloc: Global, words: &str) -> Result<Vec<u8>, Fault> {
    let mut bytes = Vec::new(alloc);
    for word in words.split_whitespace() {
        push_word(&mut bytes, word)?;
    }
    Ok(bytes)
}

/// Returns true if two screens are equal.
pub fn is_same<S: Seen>(one: &S, other: &S) -> bool {
    if one.rows() != other.rows() || one.cols() != other.cols() {
        return false;
    }
    for i in 0..one.rows() {
        if !are_same_cells(one.row(i), other.row(i)) {
            return false;
        }
    }
    one.cursor() == other.cursor() && one.visible() == other.visible()
}

/// Returns the screen after a text.
pub fn made<S: Synced>(alloc: Global, base: &S, text: &[u8]) -> Result<S, Fault> {
    let mut shot = base.copy(alloc)?;
    shot.apply(alloc, text)?;
    Ok(shot)
}

/// Returns the screen after a text in digits.
pub fn made_by<S: Synced>(alloc: Global, base: &S, words: &str) -> Result<S, Fault> {
    let text = bytes_of(alloc, words)?;
    made(alloc, base, &text)
}

// Returns the first place at which two texts differ.
fn first_other_place(text: &[u8], wanted: &[u8]) -> usize {
    for (place, byte) in text.iter().enumerate() {
        if wanted.get(place) != Some(byte) {
            return place;
        }
    }
    text.len()
}

/// Returns how a text differs from the expected one.
pub fn other_bytes(alloc: Global, text: &[u8], wanted: &[u8]) -> Other {
    if text == wanted {
        return Ok(None);
    }
    let place = first_other_place(text, wanted);
    Ok(Some(format!(in alloc;
        "{} bytes in place of {}, byte {place}: {:?} in place of {:?}",
        text.len(),
        wanted.len(),
        text.get(place),
        wanted.get(place)
    )?))
}

// Returns the place and the cursor of the screen, as a text, at which two screens differ.
fn other_screen<S: Seen>(alloc: Global, shot: &S, wanted: &S) -> Other {
    if is_same(shot, wanted) {
        return Ok(None);
    }
    let found = (shot.rows(), shot.cols(), shot.cursor(), shot.visible());
    let expected = (
        wanted.rows(),
        wanted.cols(),
        wanted.cursor(),
        wanted.visible(),
    );
    Ok(Some(format!(in alloc; "a screen of {found:?} in place of {expected:?}, or other cells")?))
}

// Returns how the diff between two screens differs from a text.
fn other_change<S: Synced>(alloc: Global, base: &S, shot: &S, text: &[u8]) -> Other {
    let written = change(alloc, base, shot)?;
    other_bytes(alloc, written.as_slice(), text)
}

/// Returns how a text that leads from a screen to another is written otherwise from there.
pub fn other_kept<S: Synced>(alloc: Global, blank: &S, text: &[u8]) -> Other {
    let shot = made(alloc, blank, text)?;
    other_change(alloc, blank, &shot, text)
}

// Returns how a text is not refused, or does not leave a screen as it was.
fn other_refused<S: Synced + Seen>(alloc: Global, old: &S, text: &[u8]) -> Other {
    let mut shot = Synced::copy(old, alloc)?;
    match shot.apply(alloc, text) {
        Err(Fault::BadChange) => other_screen(alloc, &shot, old),
        answer => Ok(Some(format!(in alloc; "{answer:?} in place of a refusal")?)),
    }
}

fn other_beginnings<S: Synced + Seen>(alloc: Global, old: &S, text: &[u8]) -> Other {
    for n in 0..text.len() {
        if let Some(other) = other_refused(alloc, old, &text[..n])? {
            return Ok(Some(format!(in alloc; "the first {n} bytes: {}", other.as_str())?));
        }
    }
    Ok(None)
}

fn other_so<S: Synced + Seen>(alloc: Global, blank: &S, old: &S, what: &str, text: &[u8]) -> Other {
    match what {
        "kept" => other_kept(alloc, blank, text),
        "beginnings" => other_beginnings(alloc, old, text),
        _ if what.starts_with("refused ") => other_refused(alloc, old, text),
        _ => malformed(alloc),
    }
}

/// Returns how a row is not true: a kept text leads on from a blank screen, and a refused one leaves the old screen.
pub fn other_row<S: Synced + Seen>(alloc: Global, blank: &S, old: &str, row: &str) -> Other {
    let Some((what, words)) = row.split_once(": ") else {
        return malformed(alloc);
    };
    let old = made_by(alloc, blank, old)?;
    let text = bytes_of(alloc, words)?;
    other_so(alloc, blank, &old, what, &text)
}

// Returns how the diff from one screen to another does not lead there.
fn other_led<S: Synced + Seen>(alloc: Global, base: &S, shot: &S) -> Other {
    let text = change(alloc, base, shot)?;
    let copy = made(alloc, base, &text)?;
    other_screen(alloc, &copy, shot)
}

fn other_of_each<S: Synced + Seen>(alloc: Global, blank: &S, base: &S, screens: &str) -> Other {
    for screen in screens.lines() {
        let shot = made_by(alloc, blank, screen)?;
        if let Some(other) = other_led(alloc, base, &shot)? {
            return Ok(Some(format!(in alloc; "to {screen}: {}", other.as_str())?));
        }
    }
    Ok(None)
}

/// Returns how diffs do not lead from a screen to each of them.
pub fn other_reached<S: Synced + Seen>(
    alloc: Global,
    blank: &S,
    screen: &str,
    screens: &str,
) -> Other {
    let base = made_by(alloc, blank, screen)?;
    other_of_each(alloc, blank, &base, screens)
}

// Returns how this text is not the one written from one screen to another, or does not lead there.
fn other_between(alloc: Global, old: &RowShot1, new: &RowShot1, text: &[u8]) -> Other {
    match other_change(alloc, old, new, text)? {
        None => {
            let made = made(alloc, old, text)?;
            other_screen(alloc, &made, new)
        }
        other => Ok(other),
    }
}

// The three texts of a hop; `None` if it is malformed.
fn three_of(hop: &str) -> Option<(&str, &str, &str)> {
    let (old, rest) = hop.split_once('>')?;
    let (new, words) = rest.split_once('>')?;
    Some((old, new, words))
}

fn other_hop(alloc: Global, blank: &RowShot1, hop: &str) -> Other {
    let Some((old, new, words)) = three_of(hop) else {
        return malformed(alloc);
    };
    let old = made_by(alloc, blank, old)?;
    let new = made_by(alloc, blank, new)?;
    let text = bytes_of(alloc, words)?;
    other_between(alloc, &old, &new, &text)
}

// A blank screen.
fn blank_of(alloc: Global, cols: u16) -> Result<RowShot1, Fault> {
    RowShot1::of(alloc, &RowShot::blank(alloc, 2, cols)?)
}

// Returns how a row, a screen or a hop is not true from a blank screen on.
fn other_from_blank(alloc: Global, table: Table, case: &str) -> Other {
    let blank = blank_of(alloc, 8)?;
    match table {
        Table::Rows => other_row(alloc, &blank, TWO, case),
        Table::Screens => other_reached(alloc, &blank, case, SCREENS),
        Table::Hops => other_hop(alloc, &blank, case),
    }
}

/// The table of a case.
#[derive(Clone, Copy)]
enum Table {
    Rows,
    Screens,
    Hops,
}

#[test]
fn rows_are_kept_or_refused(rt: HostRuntime) {
    for row in ROWS.lines() {
        assert_eq!(rt;
            other_from_blank(rt.alloc(), Table::Rows, row),
            Ok(None),
            "{row}"
        );
    }
}

#[test]
fn changes_lead_from_screen_to_screen(rt: HostRuntime) {
    for screen in SCREENS.lines() {
        assert_eq!(rt;
            other_from_blank(rt.alloc(), Table::Screens, screen),
            Ok(None),
            "{screen}"
        );
    }
    for hop in HOPS.split("\n\n") {
        assert_eq!(rt;
            other_from_blank(rt.alloc(), Table::Hops, hop),
            Ok(None),
            "{hop}"
        );
    }
}

fn other_at_the_end(alloc: Global, blank: &RowShot1) -> Other {
    let mut text = bytes_of(alloc, ONE)?;
    blank.write_change(alloc, blank, &mut text)?;
    let wanted = bytes_of(alloc, ONE_AND_NONE)?;
    other_bytes(alloc, text.as_slice(), wanted.as_slice())
}

fn is_kept_but_for_a_space(alloc: Global, blank: &RowShot1, shot: &RowShot1, text: &[u8]) -> bool {
    match change(alloc, blank, shot) {
        Ok(kept) => kept.as_slice() == text || (text.last() == Some(&b' ') && kept.len() == 13),
        Err(_) => false,
    }
}

// Returns true if ONE with a changed byte is read by its meaning: it is written again, except for a space, which is no difference.
fn is_taken(alloc: Global, blank: &RowShot1, text: &[u8]) -> Result<bool, Fault> {
    match made(alloc, blank, text) {
        Ok(shot) => Ok(is_kept_but_for_a_space(alloc, blank, &shot, text)),
        Err(Fault::BadChange) => Ok(false),
        Err(fault) => Err(fault),
    }
}

// The text with another byte at a place.
fn text_with(alloc: Global, one: &[u8], place: usize, value: u8) -> Result<Vec<u8>, Fault> {
    let mut text = Vec::from_slice(alloc, one)?;
    if let Some(byte) = text.get_mut(place) {
        *byte = value;
    }
    Ok(text)
}

// Returns how many other values are accepted at a place; more than there are if one is refused for another reason.
fn count_taken(alloc: Global, blank: &RowShot1, one: &[u8], place: usize) -> usize {
    let mut count = 0usize;
    for value in 0..=255u8 {
        match text_with(alloc, one, place, value) {
            Ok(text) if text.as_slice() == one => (),
            Ok(text) => match is_taken(alloc, blank, &text) {
                Ok(is_taken) => count = count.saturating_add(usize::from(is_taken)),
                Err(_) => return usize::MAX,
            },
            Err(_) => return usize::MAX,
        }
    }
    count
}

// How many other values one byte of the code point may have: those that make a character of one column.
fn count_narrow(place: usize) -> usize {
    let mut count = 0usize;
    for value in 0..=255u8 {
        let mut point = [0, 0, 0, 0x61];
        if let Some(byte) = point.get_mut(place) {
            *byte = value;
        }
        if let Some(c) = char::from_u32(u32::from_be_bytes(point)) {
            if c != 'a' && width(c) == 1 {
                count = count.saturating_add(1);
            }
        }
    }
    count
}

// The number of other values of a table at a place of ONE; `None` if it is malformed.
fn wanted_others(place: usize, wanted: &str) -> Option<usize> {
    if wanted == "narrow" {
        return Some(count_narrow(place.saturating_sub(27)));
    }
    wanted.parse::<usize>().ok()
}

// Returns how many other values than expected are accepted at a place of ONE.
fn other_taken(alloc: Global, blank: &RowShot1, place: usize, wanted: &str) -> Other {
    let Some(wanted) = wanted_others(place, wanted) else {
        return malformed(alloc);
    };
    let one = bytes_of(alloc, ONE)?;
    let count = count_taken(alloc, blank, &one, place);
    if count == wanted {
        return Ok(None);
    }
    Ok(Some(format!(in alloc; "{count} other values in place of {wanted}")?))
}

// A wide character in the first row of 2 by 8, with its left half in a column from 0 and one byte of flags.
fn wide_at(alloc: Global, col: u8, flags: u8) -> Result<RowShot1, Fault> {
    let mut text = [
        0, 2, 0, 8, 0, 1, 0, 1, 1, 0, 0, 0, 1, 0, 0, 0, 0, 0, 0, 0, 2, 1, 0, 0, 0, 0, 0, 0, 0,
        0x4E, 0x2D, 0, 0, 0, 0, 0, 0,
    ];
    text[16] = col;
    text[22] = flags;
    text[32] = flags;
    let blank = blank_of(alloc, 8)?;
    made(alloc, &blank, &text)
}

// Returns the length of the diff from a wide character in 8 columns to a blank screen of fewer.
fn cut_len(alloc: Global, cols: u16, col: u8, flags: u8) -> Result<usize, Fault> {
    let base = wide_at(alloc, col, flags)?;
    let blank = blank_of(alloc, cols)?;
    let text = change(alloc, &base, &blank)?;
    Ok(text.len())
}

// Both halves, below `cols`, differ from blanks; the left one alone, cut, if its style does; none beyond the last column is named.
fn named_len(cols: u16, col: u8, is_plain: bool) -> usize {
    let right = u16::from(col) + 1;
    if right < cols {
        13 + 8 + 2 * 10
    } else if right == cols && !is_plain {
        13 + 8 + 10
    } else {
        13
    }
}

fn is_x(shot: &RowShot1, row: u16, col: u16) -> bool {
    match shot.at(row, col) {
        Some(cell) => cell.is_same(&Cell::ascii(b'x', Style::default(), false)),
        None => false,
    }
}

// Returns the first place of 3 by 5 that has no `x` though it is a corner, or has one though it is none.
fn first_other_corner(shot: &RowShot1) -> Option<(u16, u16)> {
    for row in 1..4 {
        for col in 1..6 {
            let corner = (row == 1 || row == 3) && (col == 1 || col == 5);
            if is_x(shot, row, col) != corner {
                return Some((row, col));
            }
        }
    }
    None
}

// Returns how a screen is not one of 3 by 5 with `x` only in its corners, and a hidden cursor in the last.
fn other_corners(alloc: Global, blank: &RowShot1) -> Other {
    let shot = made_by(alloc, blank, CORNERS)?;
    if let Some(place) = first_other_corner(&shot) {
        return Ok(Some(format!(in alloc; "another cell at {place:?}")?));
    }
    let found = (shot.rows(), shot.cols(), shot.cursor(), shot.visible());
    let wanted = (3, 5, (3, 5), false);
    if found == wanted {
        return Ok(None);
    }
    Ok(Some(format!(in alloc; "a screen of {found:?} in place of {wanted:?}")?))
}

/// The trial of a blank screen.
#[derive(Clone, Copy)]
enum Trial<'a> {
    AddedAtTheEnd,
    ChangedByte(usize, &'a str),
    Corners,
}

fn other_tried(alloc: Global, trial: Trial<'_>) -> Other {
    let blank = blank_of(alloc, 8)?;
    match trial {
        Trial::AddedAtTheEnd => other_at_the_end(alloc, &blank),
        Trial::ChangedByte(place, wanted) => other_taken(alloc, &blank, place, wanted),
        Trial::Corners => other_corners(alloc, &blank),
    }
}

#[test]
fn each_changed_byte_is_refused_or_exact(rt: HostRuntime) {
    for (place, wanted) in OTHER_VALUES.split(' ').enumerate() {
        assert_eq!(rt;
            other_tried(rt.alloc(), Trial::ChangedByte(place, wanted)),
            Ok(None),
            "at {place}"
        );
    }
}

// A diff is added at the end, and turns each corner. A wide cell that is cut is a space in its style, at each column of each width.
#[test]
fn ends_corners_and_cuts(rt: HostRuntime) {
    assert_eq!(rt;
        other_tried(rt.alloc(), Trial::AddedAtTheEnd),
        Ok(None),
        "end"
    );
    assert_eq!(rt;
        other_tried(rt.alloc(), Trial::Corners),
        Ok(None),
        "corners"
    );
    for cols in 4..8u16 {
        for col in 0..7u8 {
            assert_eq!(rt;
                cut_len(rt.alloc(), cols, col, 0),
                Ok(named_len(cols, col, true)),
                "plain, {col} of {cols}"
            );
            assert_eq!(rt;
                cut_len(rt.alloc(), cols, col, 1),
                Ok(named_len(cols, col, false)),
                "styled, {col} of {cols}"
            );
        }
    }
}

// What is wrong with a call that may be refused memory: its name, and what it did; `None` if nothing is.
pub type Wrong = Option<(&'static str, &'static str)>;

// A call has succeeded and had its effect, or it failed for want of memory and changed nothing.
fn wrong_in(call: &'static str, answer: Result<(), Fault>, is_done: bool, is_kept: bool) -> Wrong {
    match answer {
        Ok(()) if is_done => None,
        Ok(()) => Some((call, "succeeded without its effect")),
        Err(Fault::OutOfMemory) if is_kept => None,
        Err(Fault::OutOfMemory) => Some((call, "was refused memory and had an effect")),
        Err(_) => Some((call, "was refused for another reason than memory")),
    }
}

/// The diff from one screen to another is written and applied so, or memory is refused and nothing changes.
pub fn wrong_change<S: Synced + Seen>(alloc: Global, old: &mut S, new: &S, text: &[u8]) -> Wrong {
    let mut out = Vec::new(alloc);
    let written = new.write_change(alloc, old, &mut out);
    let applied = old.apply(alloc, text);
    wrong_in(
        "write_change",
        written,
        out.as_slice() == text,
        out.is_empty(),
    )
    .or(wrong_in("apply", applied, is_same(old, new), !is_same(old, new)))
}

fn wrong_copy(alloc: Global, shot: &RowShot1) -> Wrong {
    match Synced::copy(shot, alloc) {
        Ok(copy) => wrong_in("copy", Ok(()), is_same(&copy, shot), true),
        Err(fault) => wrong_in("copy", Err(fault), true, true),
    }
}

// The test ends if there is no memory for the screens themselves.
fn first_wrong(alloc: Global) -> Result<Wrong, Fault> {
    let mut old = blank_of(alloc, 8)?;
    let text = bytes_of(alloc, ONE)?;
    let new = made(alloc, &old, &text)?;
    Ok(wrong_copy(alloc, &new).or(wrong_change(alloc, &mut old, &new, &text)))
}

#[test]
fn refused_memory_changes_nothing(rt: HostRuntime) {
    let found = first_wrong(rt.alloc());
    assert!(rt;
        matches!(found, Ok(None) | Err(Fault::OutOfMemory)),
        "{found:?}"
    );
}
