//! Diffs of screens of version 2, byte for byte: each style is said once, in a table. Tables of texts are written as those of version 1.

use crate::changes::{
    Wrong, bytes_of, made, made_by, other_bytes, other_kept, other_reached, other_row, wrong_change,
};
use crate::narrow_change;
use crate::screens::Other;
use roam_cells::{Cell, Colour, Fault, Style};
use roam_screens::{RowShot, RowShot1, Seen};
use roam_update::Synced;
use std::alloc::Global;
use std::test::*;

// From a blank screen of 2 by 8 to `a` in the foreground (10, 20, 30), the cursor behind it.
const MIXED: &str =
    "0002 0008 0001 0002 01 000001 00020a141e00000000 00000001 00000000 00000001 01 000000 00000061";

// The same for a client of version 1.
const NARROWED: &str = "0002 0008 0001 0002 01 00000001 00000000 00000001 01 00 0110 0000 00000061";

// `x` in each corner of 3 by 5, three of one style and the third in bold, and a hidden cursor in the last.
const CORNERS: &str = "0003 0005 0003 0005 00 000002 000000000000000000 010000000000000000 \
    00000004 00000000 00000001 01 000000 00000078 00000004 00000001 01 000000 00000078 \
    0000000a 00000001 01 000001 00000078 0000000e 00000001 01 000000 00000078";

const ROWS: &str = "\
kept: 0002 0008 0001 0001 01 000000 00000000
kept: 0002 0008 0001 0002 01 000001 00020a141e00000000 00000001 00000000 00000001 01 000000 00000061
kept: 0003 0005 0003 0005 00 000002 000000000000000000 010000000000000000 00000004 00000000 00000001 01 000000 00000078 \
    00000004 00000001 01 000000 00000078 0000000a 00000001 01 000001 00000078 0000000e 00000001 01 000000 00000078
beginnings: 0003 0005 0003 0005 00 000002 000000000000000000 010000000000000000 00000004 00000000 00000001 01 000000 00000078 \
    00000004 00000001 01 000000 00000078 0000000a 00000001 01 000001 00000078 0000000e 00000001 01 000000 00000078
refused a style that no cell has: 0002 0008 0001 0001 01 000001 000000000000000000 00000000
refused two styles, of which no cell has the second: 0002 0008 0001 0001 01 000002 000000000000000000 010000000000000000 \
    00000001 00000000 00000001 01 000000 00000061
refused a style twice: 0002 0008 0001 0001 01 000002 010000000000000000 010000000000000000 00000001 00000000 00000002 \
    01 000000 00000061 01 000001 00000061
refused two styles in the other order: 0002 0008 0001 0001 01 000002 010000000000000000 000000000000000000 00000001 \
    00000000 00000002 01 000001 00000061 01 000000 00000061
refused a number above the styles: 0002 0008 0001 0001 01 000001 010000000000000000 00000001 00000000 00000001 01 000001 00000061
refused a number where there is no style: 0002 0008 0001 0001 01 000000 00000001 00000000 00000001 01 000000 00000061
refused a colour of kind 3: 0002 0008 0001 0001 01 000001 000300000000000000 00000001 00000000 00000001 01 000000 00000061
refused a colour of kind 0 with a number: 0002 0008 0001 0001 01 000001 000000000100000000 00000001 00000000 00000001 01 000000 00000061
refused a colour of kind 1 with three: 0002 0008 0001 0001 01 000001 000000000001000100 00000001 00000000 00000001 01 000000 00000061
refused more styles than the screen has places: 0002 0008 0001 0001 01 000011 000000000000000000 00000000
refused more styles than the text has: 0002 0008 0001 0001 01 ffffff 000000000000000000 00000000
refused a lone right half: 0002 0008 0001 0001 01 000001 010000000000000000 00000001 00000000 00000001 00 000000
refused a cursor in column 9: 0002 0008 0001 0009 01 000000 00000000
refused a cursor in row 3: 0002 0008 0003 0001 01 000000 00000000
refused 201 rows: 00c9 0008 0001 0001 01 000000 00000000
refused 501 columns: 0002 01f5 0001 0001 01 000000 00000000
refused a byte too many: 0002 0008 0001 0001 01 000000 00000000 00
refused a text of version 1: 0002 0008 0001 0002 01 00000001 00000000 00000001 01 00 0000 0000 00000061";

// Screens, each by the text that leads there from a blank one: the smallest, a mixture, the corners, the largest.
const SCREENS: &str = "\
0002 0004 0001 0001 01 000000 00000000
0002 0008 0001 0002 01 000001 00020a141e00000000 00000001 00000000 00000001 01 000000 00000061
0003 0005 0003 0005 00 000002 000000000000000000 010000000000000000 00000004 00000000 00000001 01 000000 00000078 \
    00000004 00000001 01 000000 00000078 0000000a 00000001 01 000001 00000078 0000000e 00000001 01 000000 00000078
00c8 01f4 0001 0001 01 000000 00000000";

fn other_row_from_blank(alloc: Global, row: &str) -> Other {
    let blank = RowShot::blank(alloc, 2, 8)?;
    other_row(alloc, &blank, CORNERS, row)
}

fn other_reached_from_blank(alloc: Global, screen: &str) -> Other {
    let blank = RowShot::blank(alloc, 2, 8)?;
    other_reached(alloc, &blank, screen, SCREENS)
}

#[test]
fn rows_and_screens_by_tables(rt: HostRuntime) {
    for row in ROWS.lines() {
        assert_eq!(rt; other_row_from_blank(rt.alloc(), row), Ok(None), "{row}");
    }
    for screen in SCREENS.lines() {
        assert_eq!(rt;
            other_reached_from_blank(rt.alloc(), screen),
            Ok(None),
            "{screen}"
        );
    }
}

// Returns true if a cell is `a` in a mixture.
fn is_mixed(cell: Option<Cell>) -> bool {
    let mixed = Style {
        foreground: Colour::Rgb(10, 20, 30),
        ..Style::default()
    };
    match cell {
        Some(cell) => cell.is_same(&Cell::ascii(b'a', mixed, false)),
        None => false,
    }
}

// Returns how a screen is not the mixture, also for a client of version 1.
fn other_mixture(alloc: Global, blank: &RowShot, shot: &RowShot) -> Other {
    let found = (is_mixed(shot.at(1, 1)), shot.cursor());
    let wanted = (true, (1, 2));
    if found != wanted {
        return Ok(Some(format!(in alloc;
            "mixed, and a cursor: {found:?} in place of {wanted:?}"
        )?));
    }
    let text = narrow_change(alloc, blank, shot)?;
    let narrowed = bytes_of(alloc, NARROWED)?;
    other_bytes(alloc, text.as_slice(), narrowed.as_slice())
}

fn other_made_mixture(alloc: Global) -> Other {
    let blank = RowShot::blank(alloc, 2, 8)?;
    let shot = made_by(alloc, &blank, MIXED)?;
    other_mixture(alloc, &blank, &shot)
}

// Adds 100,000 styles, each with a mixture of its own.
fn push_styles(text: &mut Vec<u8>) -> Result<(), Fault> {
    for n in 0..100_000u32 {
        text.extend_from_slice(&[0, 2])?;
        text.extend_from_slice(&n.to_be_bytes()[1..])?;
        text.extend_from_slice(&[0, 0, 0, 0])?;
    }
    Ok(())
}

// Adds 100,000 cells of three code points, each in a style of its own.
fn push_cells(text: &mut Vec<u8>) -> Result<(), Fault> {
    for n in 0..100_000u32 {
        text.push(3)?;
        text.extend_from_slice(&n.to_be_bytes()[1..])?;
        text.extend_from_slice(&[0, 0, 0, 0x65, 0, 0, 3, 1, 0, 0, 3, 1])?;
    }
    Ok(())
}

// Returns the text from a blank screen to 200 by 500 in which each cell has a mixture of its own and three code points.
fn largest(alloc: Global) -> Result<Vec<u8>, Fault> {
    let mut text = bytes_of(alloc, "00c8 01f4 0001 0001 01 0186a0")?;
    push_styles(&mut text)?;
    text.extend_from_slice(&[0, 0, 0, 1, 0, 0, 0, 0, 0, 1, 0x86, 0xA0])?;
    push_cells(&mut text)?;
    Ok(text)
}

fn other_largest(alloc: Global) -> Other {
    let blank = RowShot::blank(alloc, 2, 8)?;
    let text = largest(alloc)?;
    if text.len() != 2_500_024 {
        return Ok(Some(format!(in alloc; "{} bytes in place of 2,500,024", text.len())?));
    }
    other_kept(alloc, &blank, &text)
}

// Texts that are no diff, refused with any memory: nine styles for eight places, a table of eight that is cut short, a missing number of
// runs, and a bad first style.
const REFUSED_AT_ONCE: &str = "\
0002 0004 0001 0001 01 000009 000000000000000000 010000000000000000 020000000000000000 030000000000000000 040000000000000000 \
    050000000000000000 060000000000000000 070000000000000000 080000000000000000 00000000
0002 0004 0001 0001 01 000008 000000000000000000 010000000000000000 020000000000000000 00000000
0002 0004 0001 0001 01 000001 000000000000000000 000000
0002 0004 0001 0001 01 000002 000300000000000000 010000000000000000 00000000";

// Returns the first of these texts that is not refused as one that is no diff.
fn first_not_refused(alloc: Global, old: &mut RowShot) -> Result<Wrong, Fault> {
    for row in REFUSED_AT_ONCE.lines() {
        let text = bytes_of(alloc, row)?;
        if old.apply(alloc, &text) != Err(Fault::BadChange) {
            return Ok(Some(("not refused", row)));
        }
    }
    Ok(None)
}

// The test ends if there is no memory for the screens themselves.
fn first_wrong(alloc: Global) -> Result<Wrong, Fault> {
    let mut old = RowShot::blank(alloc, 2, 8)?;
    let text = bytes_of(alloc, CORNERS)?;
    let new = made(alloc, &old, &text)?;
    match first_not_refused(alloc, &mut old)? {
        None => Ok(wrong_change(alloc, &mut old, &new, &text)),
        wrong => Ok(wrong),
    }
}

#[test]
fn memory_refused_to_a_table_changes_nothing(rt: HostRuntime) {
    let found = first_wrong(rt.alloc());
    assert!(rt;
        matches!(found, Ok(None) | Err(Fault::OutOfMemory)),
        "{found:?}"
    );
}

// A blank screen of 200 by 500 with the cursor in row 150, in version 1.
fn cut_to_version_1(alloc: Global) -> Result<RowShot1, Fault> {
    let mut shot = RowShot::blank(alloc, 200, 500)?;
    shot.set_cursor((150, 7), true);
    RowShot1::of(alloc, &shot)
}

// The rows, the columns, the cursor and its visibility of a large screen in version 1.
type Large = (u16, u16, (u16, u16), bool);

fn large_cut(alloc: Global) -> Result<Large, Fault> {
    let old = cut_to_version_1(alloc)?;
    Ok((old.rows(), old.cols(), old.cursor(), old.visible()))
}

// A mixture in both versions; the longest diff has a style a cell; a large screen in version 1.
#[test]
fn a_mixture_the_longest_change_and_a_large_screen(rt: HostRuntime) {
    assert_eq!(rt; other_made_mixture(rt.alloc()), Ok(None), "mixture");
    assert_eq!(rt; other_largest(rt.alloc()), Ok(None), "longest");
    assert_eq!(rt;
        large_cut(rt.alloc()),
        Ok((100, 250, (99, 7), false)),
        "large"
    );
}
