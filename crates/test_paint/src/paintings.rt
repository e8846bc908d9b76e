//! Paintings, each shown by a terminal that was in the middle of a sequence before it was opened.
//!
//! Tables are texts, one case after another with an empty line between them: the input of two terminals, with a bar between. In `TEXTS` a
//! name comes before, and the text between their screens behind.
use crate::screen;
use crate::screens::{
    Other, malformed, other_after, other_text, shown_by, size_and_input, text_behind,
};
use roam_cells::Fault;
use roam_paint::{open, paint};
use roam_screens::Shot;
use roam_term::Term;
use std::alloc::Global;
use std::test::*;

// Two terminals of 2 by 8: a name, and in the next line the input of both, and the text.
const TEXTS: &str = "\
nothing
||\x1B[?25l\x1B[0m\x1B[1;1H\x1B[?25h

a default cell behind one in bold
|\x1B[1ma\x1B[0mb|\x1B[?25l\x1B[1;1H\x1B[0;1ma\x1B[0mb\x1B[0m\x1B[1;3H\x1B[?25h

a bold cell alone
|\x1B[1ma|\x1B[?25l\x1B[1;1H\x1B[0;1ma\x1B[0m\x1B[1;2H\x1B[?25h

half of an old pair is written over, and its other half is painted too
a中|abc|\x1B[?25l\x1B[1;2Hbc\x1B[0m\x1B[1;4H\x1B[?25h

the left half alone differs: the run is widened to the whole cell, and the next run touches it and stays apart
中b|文c|\x1B[?25l\x1B[1;1H文\x1B[1;3Hc\x1B[0m\x1B[1;4H\x1B[?25h

a wide cell that doesn't differ stands between two runs
a中z|b中y|\x1B[?25l\x1B[1;1Hb\x1B[1;4Hy\x1B[0m\x1B[1;5H\x1B[?25h

a wide cell over two narrow ones
xx\x1B[1;3H\x1B[7mc|x中d|\x1B[?25l\x1B[1;2H中d\x1B[0m\x1B[1;5H\x1B[?25h

the last column, and then the next row: the cursor is placed anew
|abcdefgh\r\ni\x1B[?25l|\x1B[?25l\x1B[1;1Habcdefgh\x1B[2;1Hi\x1B[0m\x1B[2;2H

a wide cell in the last two columns
|\x1B[1;7H中\r\ni|\x1B[?25l\x1B[1;7H中\x1B[2;1Hi\x1B[0m\x1B[2;2H\x1B[?25h

mixtures have sequences of their own behind the cell's SGR; an empty number is 0
|\x1B[1;38;2;10;20;30;48;2;;0;255ma|\x1B[?25l\x1B[1;1H\x1B[0;1m\x1B[38;2;10;20;30m\x1B[48;2;0;0;255ma\x1B[0m\x1B[1;2H\x1B[?25h

a style stays set over places that don't differ, and over rows
|\x1B[31;1ma\x1B[1;4Hb\x1B[2;1Hc|\x1B[?25l\x1B[1;1H\x1B[0;1;38;5;1ma\x1B[1;4Hb\x1B[2;1Hc\x1B[0m\x1B[2;2H\x1B[?25h

another style behind the same
\x1B[31;1mabc|\x1B[31;1mabc\x1B[44md|\x1B[?25l\x1B[1;4H\x1B[0;1;38;5;1;48;5;4md\x1B[0m\x1B[1;5H\x1B[?25h

a cell of three code points
e|e\u{301}\u{302}|\x1B[?25l\x1B[1;1He\u{301}\u{302}\x1B[0m\x1B[1;2H\x1B[?25h

every flag and both colours
|\x1B[1;2;3;4;5;7;8;9;38;5;255;48;5;15mx|\x1B[?25l\x1B[1;1H\x1B[0;1;2;3;4;5;7;8;9;38;5;255;48;5;15mx\x1B[0m\x1B[1;2H\x1B[?25h";

// Terminals of these rows and columns: a wide cell over two narrow ones at each column, and back; styles, each flag alone, all, and
// colours; other sizes, joined cells, the last column, a hidden cursor.
const PAIRS: &str = "\
2 8 abcdefgh|2 8 abcdefgh\x1B[1;1H中

2 8 abcdefgh|2 8 abcdefgh\x1B[1;2H中

2 8 abcdefgh|2 8 abcdefgh\x1B[1;3H中

2 8 abcdefgh|2 8 abcdefgh\x1B[1;4H中

2 8 abcdefgh|2 8 abcdefgh\x1B[1;5H中

2 8 abcdefgh|2 8 abcdefgh\x1B[1;6H中

2 8 abcdefgh|2 8 abcdefgh\x1B[1;7H中

2 8 中文中文|2 8 a中文中

2 8 abc|2 8 a\x1B[1mb\x1B[0mc

2 8 abc|2 8 a\x1B[2mb\x1B[0mc

2 8 abc|2 8 a\x1B[3mb\x1B[0mc

2 8 abc|2 8 a\x1B[4mb\x1B[0mc

2 8 abc|2 8 a\x1B[5mb\x1B[0mc

2 8 abc|2 8 a\x1B[7mb\x1B[0mc

2 8 abc|2 8 a\x1B[8mb\x1B[0mc

2 8 abc|2 8 a\x1B[9mb\x1B[0mc

2 8 abc|2 8 a\x1B[1;2;3;4;5;7;8;9mb\x1B[0mc

2 8 \x1B[1;2;3;4;5;7;8;9;31;42mabc|2 8 abd

2 8 |2 8 \x1B[38;5;0ma

2 8 |2 8 \x1B[38;5;7ma

2 8 |2 8 \x1B[38;5;8ma

2 8 |2 8 \x1B[38;5;15ma

2 8 |2 8 \x1B[38;5;255ma

2 8 |2 8 \x1B[48;5;0ma

2 8 |2 8 \x1B[48;5;7ma

2 8 |2 8 \x1B[48;5;8ma

2 8 |2 8 \x1B[48;5;15ma

2 8 |2 8 \x1B[48;5;255ma

4 10 abcdefghij\r\nklmn\r\n\r\nxyz|2 8 abc

2 8 abc\r\ndef|4 10 abc\r\n\r\n\r\n中文中文中

2 10 abc|4 8 abc

4 8 \x1B[7mabc|4 10 \x1B[7mabc

2 8 e|2 8 e\u{301}

2 8 中\u{301}\u{302}|2 8 中

2 8 |2 8 abcdefgh\u{301}\r\nx

2 8 |2 8 \x1B[1;7H中\u{301}\u{302}

2 8 |2 8 abcdefghijklmnop

2 8 abcdefghijklmnop|2 8 abcdefgX\r\nY

2 8 abc|2 8 abc\x1B[?25l

2 8 abc\x1B[?25l|2 8 abd

2 8 abc\x1B[?5h|2 8 abc";

// The screen of 2 by 8 that these bytes make.
fn small(alloc: Global, input: &str) -> Result<Shot, Fault> {
    screen(alloc, 2, 8, input.as_bytes())
}

// The text that opens a terminal and leads it to a screen.
fn opening_to(alloc: Global, screen: &Shot) -> Result<Vec<u8>, Fault> {
    let mut text = Vec::new(alloc);
    open(&mut text)?;
    let blank = Shot::blank(alloc, screen.rows(), screen.cols())?;
    paint(&blank, screen, &mut text)?;
    Ok(text)
}

// The text between two screens, behind `before`.
fn text_between(alloc: Global, old: &Shot, new: &Shot) -> Result<Vec<u8>, Fault> {
    let mut text = Vec::from_slice(alloc, b"before")?;
    paint(old, new, &mut text)?;
    Ok(text)
}

fn other_painted(alloc: Global, term: &mut Term, old: &Shot, new: &Shot) -> Other {
    let text = text_between(alloc, old, new)?;
    let painting = text
        .as_slice()
        .strip_prefix(b"before".as_slice())
        .unwrap_or(b"");
    other_after(alloc, term, painting, new)
}

// Opens a terminal in any state, leads it by an old screen to a new one, and returns how it shows another.
fn other_by(alloc: Global, term: &mut Term, before: &str, old: &Shot, new: &Shot) -> Other {
    term.feed(before.as_bytes())?;
    let text = opening_to(alloc, old)?;
    match other_after(alloc, term, &text, old)? {
        None => other_painted(alloc, term, old, new),
        other => Ok(other),
    }
}

fn other_led(alloc: Global, before: &str, old: &Shot, new: &Shot) -> Other {
    let mut term = Term::new(alloc, 4, 10, 0)?;
    other_by(alloc, &mut term, before, old, new)
}

// There and back.
fn other_there_and_back(alloc: Global, old: &Shot, new: &Shot) -> Other {
    match other_led(alloc, "abc\x1B[?1049h\x1B[3;4r\x1B[1;31", old, new)? {
        None => other_led(
            alloc,
            "\x1B[5mxyz\x0E\x1B(0\x1B[4h\x1B[?6h\x1B]0;a",
            new,
            old,
        ),
        other => Ok(other),
    }
}

fn other_of_pair(alloc: Global, pair: &str) -> Other {
    let (old, new) = pair.split_once('|').unwrap_or((pair, ""));
    match (size_and_input(old), size_and_input(new)) {
        (Some(old), Some(new)) => {
            let old = shown_by(alloc, old)?;
            let new = shown_by(alloc, new)?;
            other_there_and_back(alloc, &old, &new)
        }
        _ => malformed(alloc),
    }
}

#[test]
fn pairs_of_screens(rt: HostRuntime) {
    for pair in PAIRS.split("\n\n") {
        assert_eq!(rt; other_of_pair(rt.alloc(), pair), Ok(None), "{pair:?}");
    }
}

fn other_written(alloc: Global, old: &Shot, new: &Shot, wanted: &str) -> Other {
    let text = text_between(alloc, old, new)?;
    other_text(alloc, text.as_slice(), wanted)
}

// The inputs of a case, and the text between their screens; `None` if it is malformed.
fn inputs_and_text(case: &str) -> Option<(&str, &str, &str)> {
    let (_, rest) = case.split_once('\n')?;
    let (old, rest) = rest.split_once('|')?;
    let (new, text) = rest.split_once('|')?;
    Some((old, new, text))
}

fn other_of_case(alloc: Global, case: &str) -> Other {
    let Some((old, new, text)) = inputs_and_text(case) else {
        return malformed(alloc);
    };
    let old = small(alloc, old)?;
    let new = small(alloc, new)?;
    match other_written(alloc, &old, &new, text)? {
        None => other_led(alloc, "", &old, &new),
        other => Ok(other),
    }
}

fn opened_behind(alloc: Global) -> Result<Vec<u8>, Fault> {
    let mut text = Vec::new(alloc);
    text.push(b'a')?;
    open(&mut text)?;
    Ok(text)
}

#[test]
fn texts(rt: HostRuntime) -> Result<(), Fail> {
    for case in TEXTS.split("\n\n") {
        assert_eq!(rt; other_of_case(rt.alloc(), case), Ok(None), "{case:?}");
    }
    let text = opened_behind(rt.alloc())?;
    assert_eq!(rt; text.as_slice(), b"a\x1Bc".as_slice());
    Ok(())
}

// Paints behind a text; if memory is refused, returns how long the text is then, and paints again.
fn paint_or_keep(old: &Shot, new: &Shot, out: &mut Vec<u8>) -> (usize, Result<(), Fault>) {
    let before = out.len();
    if paint(old, new, out).is_ok() {
        return (before, Ok(()));
    }
    let kept = out.len();
    (kept, paint(old, new, out))
}

// What a painting behind `before` gave: the length after a refusal, the answer to the last call, and the text.
type Painted = (usize, Result<(), Fault>, Vec<u8>);

fn painted_or_kept(alloc: Global) -> Result<Painted, Fault> {
    let old = small(alloc, "a")?;
    let new = small(alloc, "\x1B[1mb\x1B[2;1H\x1B[38;5;9mc")?;
    let mut out = Vec::from_slice(alloc, b"before")?;
    let (kept, answer) = paint_or_keep(&old, &new, &mut out);
    Ok((kept, answer, out))
}

// This test also runs with each of its allocations refused in turn. It ends if there is no memory for the values themselves. If memory is
// refused nothing is added, and the same call then adds the text.
#[test]
fn refused_memory_paints_nothing(rt: HostRuntime) {
    let text = "\x1B[?25l\x1B[1;1H\x1B[0;1mb\x1B[2;1H\x1B[0;1;38;5;9mc\x1B[0m\x1B[2;2H\x1B[?25h";
    match painted_or_kept(rt.alloc()) {
        Ok((kept, answer, out)) => {
            assert_eq!(rt; kept, b"before".len(), "length after a refusal");
            assert_eq!(rt; answer, Ok(()), "last call");
            assert_eq!(rt; text_behind(out.as_slice()), Some(text));
        }
        Err(fault) => assert_eq!(rt; fault, Fault::OutOfMemory),
    }
}
