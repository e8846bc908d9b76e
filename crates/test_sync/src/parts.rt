//! Parts of screens cell by cell, the lines that ask for them, and the records of a front end.
//!
//! Tables are texts, one case after another with an empty line between them. A case has in its first line the rows and columns of a
//! terminal, its input, the line that asks for a part, and one that masks some of it or nothing, with bars between. Then comes the text of
//! the part, with a slash between two cells.
use roam_cells::Fault;
use roam_display_records::{Looking, Record, TakenLines, record_text, screen_text};
use roam_screens::RowShot;
use roam_term::Term;
use roam_terminal_input::{Showing, read_showing};
use roam_viewport::{Part, part_of};
use std::alloc::Global;
use std::test::*;

// The screen of a terminal of so many rows and columns, after a text was written to it.
fn screen_after(alloc: Global, rows: u16, cols: u16, text: &str) -> Result<RowShot, Fault> {
    let mut term = Term::new(alloc, rows, cols, 0)?;
    term.feed(text.as_bytes())?;
    let shot = term.shot(alloc, 0)?;
    RowShot::of(alloc, &shot)
}

// The part that a line asks for.
fn part_asked(line: &str, screen: &RowShot) -> Option<Part> {
    match read_showing(line.as_bytes())? {
        Showing::Exactly(part) => Some(part),
        Showing::Following(rows, cols) => Some(Part {
            row: 0,
            col: 0,
            rows,
            cols,
        }
        .followed(screen)),
        _ => None,
    }
}

// The part of a terminal that a line masks, or one that has no place.
fn mask_asked(line: &str) -> Part {
    match read_showing(line.as_bytes()) {
        Some(Showing::Mask(part)) => part,
        _ => Part {
            row: 0,
            col: 0,
            rows: 0,
            cols: 0,
        },
    }
}

// Returns true if a text is another one, with a slash for IS1.
fn is_told(text: &[u8], expected: &str) -> bool {
    let mut bytes = expected.bytes();
    for byte in text {
        let shown = if *byte == 0x1F { b'/' } else { *byte };
        if bytes.next() != Some(shown) {
            return false;
        }
    }
    bytes.next().is_none()
}

fn is_part(alloc: Global, case: &str) -> Result<bool, Fault> {
    let Some((asked, expected)) = case.split_once('\n') else {
        return Ok(false);
    };
    let mut words = asked.split('|');
    let (size, text) = (words.next().unwrap_or(""), words.next().unwrap_or(""));
    let (line, mask) = (words.next().unwrap_or(""), words.next().unwrap_or(""));
    let Some((rows, cols)) = size.split_once(' ') else {
        return Ok(false);
    };
    let (rows, cols) = (
        rows.parse::<u16>().unwrap_or(0),
        cols.parse::<u16>().unwrap_or(0),
    );
    let screen = screen_after(alloc, rows, cols, text)?;
    let Some(part) = part_asked(line, &screen) else {
        return Ok(false);
    };
    let shown = part_of(alloc, &screen, part, &[mask_asked(mask)])?;
    let told = screen_text(alloc, Looking::Points, &shown)?;
    let Some((b'\n', rows)) = told.split_last() else {
        return Ok(false);
    };
    Ok(is_told(rows, expected))
}

/// Wide characters cut at either edge and by a mask, places outside the screen, a cursor outside; a part that follows the cursor.
const PARTS: &str = "\
3 6|ab中d\x1B[2;1Hxyz|part 0 0 2 4|
2 4 2 4 visible
a/b/中/
x/y/z/\x20

3 6|ab中d\x1B[2;1Hxyz|part 0 3 2 4|
2 4 2 1 visible
 /d/ /\x20
 / / /\x20

2 6|abc中|part 0 0 2 4|
2 4 1 4 hidden
a/b/c/\x20
 / / /\x20

2 4|ab|part 1 0 3 4|
3 4 1 3 hidden
 / / /\x20
 / / /\x20
 / / /\x20

2 6|ab中d|part 0 0 2 6|mask 0 1 1 2
2 6 1 6 visible
a/ / / /d/\x20
 / / / / /\x20

4 8|\x1B[4;8Hz\x1B[4;8H|part 2 4|
2 4 2 4 visible
 / / /\x20
 / / /z

4 8|\x1B[3;2Hz|part 2 4|
2 4 2 3 visible
 / / /\x20
 /z/ /\x20";

#[test]
fn parts_are_shown(rt: HostRuntime) -> Result<(), Fail> {
    let alloc = rt.alloc();
    for case in PARTS.split("\n\n") {
        assert!(rt; is_part(alloc, case)?, "{case}");
    }
    Ok(())
}

fn is_record(alloc: Global, told: Record<'_>, text: &str) -> Result<bool, Fault> {
    Ok(record_text(alloc, told)?.as_slice() == text.as_bytes())
}

/// Each record as it is written.
#[test]
fn records_are_told(rt: HostRuntime) -> Result<(), Fail> {
    let alloc = rt.alloc();
    let records = [
        (Record::Events, "\nevents\n"),
        (Record::Size(24, 80), "size 24 80\n"),
        (Record::Place(0, 131), "part 0 131\n"),
        (Record::Paint(b"\x1b[1Ha\n"), "paint 6\n\x1b[1Ha\n"),
        (Record::Anew(b""), "anew 0\n"),
        (Record::Screen(b"2 4\n"), "screen 4\n2 4\n"),
        (Record::Silent(10), "silent 10\n"),
        (Record::Heard, "heard\n"),
        (Record::Refused(3, "bad act"), "refused 3 bad act\n"),
        (Record::Taken(7), "taken 7\n"),
        (Record::Full, "full\n"),
    ];
    for (told, text) in records {
        assert!(rt; is_record(alloc, told, text)?, "{text}");
    }
    let screen = screen_after(alloc, 2, 4, "\x1b[31ma\x1b[1mb\x1b[2H\x1b[1mc")?;
    let text = screen_text(alloc, Looking::Styled, &screen)?;
    let styled =
        "2 4 2 2 visible\n\x1b[0;38;5;1ma/\x1b[0;1;38;5;1mb/\x1b[0m / \n\x1b[0;1;38;5;1mc/\x1b[0m / / \n";
    assert!(rt; is_told(&text, styled), "{text:?}");
    Ok(())
}

/// Lines are reported once they and all before them are acknowledged, also if more wait than are kept apart; no bad line is read.
#[test]
fn lines_are_taken(rt: HostRuntime) -> Result<(), Fail> {
    let mut lines = TakenLines::new();
    lines.took(Some(2));
    lines.took(None);
    lines.took(Some(5));
    for (acts, told) in [(1, None), (2, Some(2)), (4, None), (5, Some(3)), (5, None)] {
        assert!(rt; lines.acknowledged(acts) == told, "{acts} acts");
    }
    for act in 6..76 {
        lines.took(Some(act));
    }
    for (acts, told) in [(68, Some(66)), (74, None), (75, Some(73))] {
        assert!(rt; lines.acknowledged(acts) == told, "{acts} acts");
    }
    let bad = [
        "part 1 4",
        "part 2 3",
        "part 201 4",
        "part 0 0 2 501",
        "part 00 0 2 4",
        "part 0 0 2 4 ",
        "part 65536 0 2 4",
        "part  2 4",
        "part",
        "part 1 2 3",
        "whole ",
        "Whole",
        "mask 0 0 0 4",
        "mask 0 0 201 4",
        "mask 2 4",
        "unmask 1",
        "",
    ];
    for line in bad {
        assert!(rt; read_showing(line.as_bytes()).is_none(), "{line}");
    }
    assert!(rt;
        read_showing(b"whole") == Some(Showing::Whole)
            && read_showing(b"unmask") == Some(Showing::Unmask)
    );
    Ok(())
}
