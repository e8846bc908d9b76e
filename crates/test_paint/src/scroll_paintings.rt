//! Texts that move rows, and the screens of terminals after them.
//!
//! Tables are texts, one case after another with an empty line between them. A case of `TEXTS` has a name, and in the next line the rows
//! and columns of a terminal, its input, the input of another of that size, and the text between their screens, with bars between. A case
//! of `PAIRS` has two terminals, with a bar between.
use crate::screen;
use crate::screens::{
    Other, malformed, other_after, other_text, shown_by, size_and_input, text_behind,
};
use crate::scroll_paint_uses::two_texts;
use roam_cells::Fault;
use roam_paint::paint;
use roam_screens::Shot;
use roam_scroll_paint::paint_moved;
use roam_term::Term;
use std::alloc::Global;
use std::test::*;

const TEXTS: &str = "\
nothing
2 8 ||\x1B[1H

a cell in the first column: CUP without a column
2 8 |a|\x1B[1Ha\x1B[1;2H

a default cell behind one in bold
2 8 |\x1B[1ma\x1B[0mb|\x1B[1H\x1B[1ma\x1B[0mb\x1B[1;3H

a bold cell alone
2 8 |\x1B[1ma|\x1B[1H\x1B[1ma\x1B[0m\x1B[1;2H

a flag is added to a colour
2 8 |\x1B[31ma\x1B[1mb|\x1B[1H\x1B[38;5;1ma\x1B[1mb\x1B[0m\x1B[1;3H

a colour ends beside one that stays
2 8 |\x1B[31;44ma\x1B[39mb|\x1B[1H\x1B[38;5;1;48;5;4ma\x1B[39mb\x1B[0m\x1B[1;3H

a mixture is a part of what changes
2 8 |\x1B[1ma\x1B[38;2;1;2;3mb|\x1B[1H\x1B[1ma\x1B[38;2;1;2;3mb\x1B[0m\x1B[1;3H

a gap is written through
2 8 abc|xbz|\x1B[1Hxbz\x1B[1;4H

a gap in another style is moved over
2 8 a\x1B[1mb\x1B[0mc|x\x1B[1mb\x1B[0mz|\x1B[1Hx\x1B[1;3Hz\x1B[1;4H

the end of a row is erased
2 8 abcdefgh|ab|\x1B[1;3H\x1B[K\x1B[1;3H

and behind what is written
2 8 abcdefgh|xy|\x1B[1Hxy\x1B[K\x1B[1;3H

and behind a gap
2 8 abcdefgh|xb|\x1B[1Hxb\x1B[K\x1B[1;3H

in the default style
2 8 abcdefgh|\x1B[1mxy|\x1B[1H\x1B[1mxy\x1B[0m\x1B[K\x1B[1;3H

two blanks are written
2 8 abc|a|\x1B[1;2H  \x1B[1;2H

the last column, and then the next row
2 8 |abcdefgh\r\ni|\x1B[1Habcdefgh\x1B[2Hi\x1B[2;2H

half of an old pair is written over, and its other half is written too
2 8 a中|abc|\x1B[1;2Hbc\x1B[1;4H

a wide cell over two narrow ones
2 8 xx\x1B[1;3H\x1B[7mc|x中d|\x1B[1;2H中d\x1B[1;5H

behind a letter with a joined accent CUP comes
2 8 |e\u{301}f|\x1B[1He\u{301}\x1B[1;2Hf\x1B[1;3H

and behind VS16
2 8 |\u{2764}\u{FE0F}x|\x1B[1H\u{2764}\u{FE0F}\x1B[1;2Hx\x1B[1;3H

and behind each part of a ZWJ sequence that ends in ZWJ
2 8 |\u{1F469}\u{200D}\u{1F469}x|\x1B[1H\u{1F469}\u{200D}\x1B[1;3H\u{1F469}x\x1B[1;6H

and behind an emoji modifier
2 8 |\u{1F44D}\u{1F3FD}x|\x1B[1H\u{1F44D}\u{1F3FD}\x1B[1;5Hx\x1B[1;6H

and behind each regional indicator
2 8 |\u{1F1E9}\u{1F1EA}x|\x1B[1H\u{1F1E9}\x1B[1;2H\u{1F1EA}\x1B[1;3Hx\x1B[1;4H

and before another style
2 8 |e\u{301}\x1B[1mf|\x1B[1He\u{301}\x1B[1;2H\x1B[1mf\x1B[0m\x1B[1;3H

and before the erased end of a row
2 8 abcdefgh|e\u{301}|\x1B[1He\u{301}\x1B[1;2H\x1B[K\x1B[1;2H

a gap with a joined accent is moved over
2 8 ae\u{301}c|xe\u{301}z|\x1B[1Hx\x1B[1;3Hz\x1B[1;4H

and a gap behind one
2 8 abc|e\u{301}bz|\x1B[1He\u{301}\x1B[1;3Hz\x1B[1;4H

the cursor is hidden where it was visible
2 8 |\x1B[?25l|\x1B[?25l\x1B[1H

and shown
2 8 \x1B[?25l||\x1B[?25l\x1B[1H\x1B[?25h

rows go up
4 20 aaaaaaaaaaaaaaaa\r\nbbbbbbbbbbbbbbbb\r\ncccccccccccccccc\r\ndddddddddddddddd|bbbbbbbbbbbbbbbb\r\ncccccccccccccccc\r\ndddddddddddddddd\r\neeeeeeeeeeeeeeee|\x1B[1;4r\x1B[4H\n\x1B[r\x1B[4Heeeeeeeeeeeeeeee\x1B[4;17H

rows go down
4 20 aaaaaaaaaaaaaaaa\r\nbbbbbbbbbbbbbbbb\r\ncccccccccccccccc\r\ndddddddddddddddd|eeeeeeeeeeeeeeee\r\naaaaaaaaaaaaaaaa\r\nbbbbbbbbbbbbbbbb\r\ncccccccccccccccc\x1B[1;17H|\x1B[1;4r\x1B[1H\x1BM\x1B[r\x1B[1Heeeeeeeeeeeeeeee\x1B[1;17H

rows go down by two between a first and a last row
6 20 ffffffffffffffff\r\naaaaaaaaaaaaaaaa\r\nbbbbbbbbbbbbbbbb\r\ncccccccccccccccc\r\ndddddddddddddddd\r\nffffffffffffffff|ffffffffffffffff\r\n\r\n\r\naaaaaaaaaaaaaaaa\r\nbbbbbbbbbbbbbbbb\r\nffffffffffffffff|\x1B[2;5r\x1B[2H\x1BM\x1BM\x1B[r\x1B[6;17H";

// Three rows would go up by 97 rows, with an LF for each. They are written, and CUP comes behind a joined accent.
const FAR: &str = "rows that go far
100 8 \x1B[98He\u{301}bcd\r\nefgh\r\nijkl|e\u{301}bcd\r\nefgh\r\nijkl|\
\x1B[?25l\x1B[1He\u{301}\x1B[1;2Hbcd\x1B[2Hefgh\x1B[3Hijkl\x1B[98H    \x1B[99H    \x1B[100H    \x1B[3;5H\x1B[?25h";

// Rows that go up and down with wide and joined characters, styles and blank ends; other sizes.
const PAIRS: &str = "\
6 10 aaaaaaaa\r\n中文中文\r\ncccccccc\r\ndddddddd\r\neeeeeeee\r\nffffffff|\
6 10 中文中文\r\ncccccccc\r\ndddddddd\r\neeeeeeee\r\nffffffff\r\n\x1B[7m中xyz文w

6 10 aaaaaaaa\r\nbbbbbbbb\r\ncccccccc\r\ndddddddd\r\neeeeeeee\r\nffffffff|\
6 10 aaaaaaaa\r\n\r\nx\r\nbbbbbbbb\r\ncccccccc\r\nffffffff

6 10 \x1B[44maaaaaaaa\r\nbbbbbbbb\r\ncccc\x1B[0mcccc\r\ndddddddd\r\ne\u{301}eeeeeee\r\nffffffff|\
6 10 \x1B[44mbbbbbbbb\r\ncccc\x1B[0mcccc\r\ndddddddd\r\ne\u{301}eeeeeee\r\nffffffff\x1B[?25l

4 10 中文中文中|4 10 a中文中文

4 10 a中文中文|4 10 ab

3 8 abcdefgh\r\nabcdefgh|4 10 abcdefgh\r\n\x1B[1;38;5;200;48;2;1;2;3mabcdefgh

4 10 abcdefghij|2 8 \x1B[1;2;3;4;5;7;8;9;31;42mabc\x1B[0;1;31md\x1B[42me";

// The text between two screens, behind `before`.
fn text_between(alloc: Global, old: &Shot, new: &Shot) -> Result<Vec<u8>, Fault> {
    let mut text = Vec::from_slice(alloc, b"before")?;
    paint_moved(old, new, &mut text)?;
    Ok(text)
}

// Returns how many cells of a screen have more than one code point, an emoji modifier or a regional indicator.
fn doubtful_cells(shown: &Shot) -> usize {
    let mut count = 0usize;
    for row in 1..shown.rows().saturating_add(1) {
        for col in 1..shown.cols().saturating_add(1) {
            if let Some(cell) = shown.at(row, col) {
                count = count.saturating_add(usize::from(is_doubtful(cell.chars().as_slice())));
            }
        }
    }
    count
}

fn is_doubtful(points: &[char]) -> bool {
    match points {
        [] => false,
        [point] => matches!(*point, '\u{1F3FB}'..='\u{1F3FF}' | '\u{1F1E6}'..='\u{1F1FF}'),
        _ => true,
    }
}

// Returns how much longer this text between two screens is than the text that leaves nothing out, with CUP of ten bytes for each cell on
// whose width terminals disagree.
fn other_length(alloc: Global, old: &Shot, new: &Shot, text: &[u8]) -> Other {
    let mut plain = Vec::from_slice(alloc, b"before")?;
    paint(old, new, &mut plain)?;
    let most = plain
        .len()
        .saturating_add(doubtful_cells(new).saturating_mul(10));
    if text.len() <= most {
        return Ok(None);
    }
    Ok(Some(format!(in alloc; "a text of {} bytes in place of {}", text.len(), most)?))
}

fn other_painted(alloc: Global, term: &mut Term, old: &Shot, new: &Shot) -> Other {
    let text = text_between(alloc, old, new)?;
    let painting = text
        .as_slice()
        .strip_prefix(b"before".as_slice())
        .unwrap_or(b"");
    match other_length(alloc, old, new, text.as_slice())? {
        None => other_after(alloc, term, painting, new),
        other => Ok(other),
    }
}

fn last_but_one_starts_with(shown: &Shot, char: char) -> bool {
    match shown.at(shown.rows().saturating_sub(1), 1) {
        Some(cell) => cell.chars().as_slice() == [char].as_slice(),
        None => false,
    }
}

// An LF in the last row of a terminal moves it up: its margins are full.
fn other_scrolled(alloc: Global, term: &mut Term) -> Other {
    term.feed(b"\x1B[999;1HZ\n")?;
    let shown = term.shot(alloc, 0)?;
    if last_but_one_starts_with(&shown, 'Z') {
        return Ok(None);
    }
    Ok(Some(format!(in alloc; "no Z in the last row but one")?))
}

// There, back and there again.
fn other_about(alloc: Global, term: &mut Term, old: &Shot, new: &Shot) -> Other {
    match other_painted(alloc, term, old, new)? {
        None => match other_painted(alloc, term, new, old)? {
            None => other_painted(alloc, term, old, new),
            other => Ok(other),
        },
        other => Ok(other),
    }
}

// A terminal goes to an old screen by the new one, then there, back and there again.
fn other_by(alloc: Global, term: &mut Term, old: &Shot, new: &Shot) -> Other {
    let text = two_texts(alloc, new, old)?;
    match other_after(alloc, term, &text, old)? {
        None => match other_about(alloc, term, old, new)? {
            None => other_scrolled(alloc, term),
            other => Ok(other),
        },
        other => Ok(other),
    }
}

fn other_led(alloc: Global, old: &Shot, new: &Shot) -> Other {
    let rows = old.rows().max(new.rows()).max(7);
    let mut term = Term::new(alloc, rows, 20, 0)?;
    other_by(alloc, &mut term, old, new)
}

fn other_of_pair(alloc: Global, pair: &str) -> Other {
    let (old, new) = pair.split_once('|').unwrap_or((pair, ""));
    match (size_and_input(old), size_and_input(new)) {
        (Some(old), Some(new)) => {
            let old = shown_by(alloc, old)?;
            let new = shown_by(alloc, new)?;
            other_led(alloc, &old, &new)
        }
        _ => malformed(alloc),
    }
}

#[test]
fn pairs_of_screens(rt: HostRuntime) {
    for pair in PAIRS.split("\n\n") {
        assert_eq!(rt; other_of_pair(rt.alloc(), pair), Ok(None), "{pair:?}");
    }
}

fn other_written(alloc: Global, old: &Shot, new: &Shot, wanted: &str) -> Other {
    let text = text_between(alloc, old, new)?;
    match other_length(alloc, old, new, text.as_slice())? {
        None => other_text(alloc, text.as_slice(), wanted),
        other => Ok(other),
    }
}

// A size and an input, an input, and the text between their screens.
type Inputs<'a> = ((u16, u16, &'a str), &'a str, &'a str);

// The inputs and the text of a case; `None` if it is malformed.
fn inputs_and_text(case: &str) -> Option<Inputs<'_>> {
    let (_, rest) = case.split_once('\n')?;
    let (old, rest) = rest.split_once('|')?;
    let (input, text) = rest.split_once('|')?;
    Some((size_and_input(old)?, input, text))
}

fn other_of_case(alloc: Global, case: &str) -> Other {
    let Some((size_and_input, input, text)) = inputs_and_text(case) else {
        return malformed(alloc);
    };
    let (rows, cols, _) = size_and_input;
    let old = shown_by(alloc, size_and_input)?;
    let new = screen(alloc, rows, cols, input.as_bytes())?;
    match other_written(alloc, &old, &new, text)? {
        None => other_led(alloc, &old, &new),
        other => Ok(other),
    }
}

#[test]
fn texts(rt: HostRuntime) {
    for case in TEXTS.split("\n\n") {
        assert_eq!(rt; other_of_case(rt.alloc(), case), Ok(None), "{case:?}");
    }
}

#[test]
fn rows_that_go_far(rt: HostRuntime) {
    assert_eq!(rt; other_of_case(rt.alloc(), FAR), Ok(None), "{FAR:?}");
}

// Paints behind a text; if memory is refused, returns how long the text is then, and paints again.
fn paint_or_keep(old: &Shot, new: &Shot, out: &mut Vec<u8>) -> (usize, Result<(), Fault>) {
    let before = out.len();
    if paint_moved(old, new, out).is_ok() {
        return (before, Ok(()));
    }
    let kept = out.len();
    (kept, paint_moved(old, new, out))
}

// What a painting behind `before` gave: the length after a refusal, the answer to the last call, and the text.
type Painted = (usize, Result<(), Fault>, Vec<u8>);

fn painted_or_kept(alloc: Global) -> Result<Painted, Fault> {
    let old = screen(alloc, 2, 8, b"a")?;
    let new = screen(alloc, 2, 8, b"\x1B[1mb\x1B[2;1H\x1B[38;5;9mc")?;
    let mut out = Vec::from_slice(alloc, b"before")?;
    let (kept, answer) = paint_or_keep(&old, &new, &mut out);
    Ok((kept, answer, out))
}

// This test also runs with each of its allocations refused in turn. It ends if there is no memory for the values themselves. If memory is
// refused nothing is added, and the same call then adds the text.
#[test]
fn refused_memory_paints_nothing(rt: HostRuntime) {
    let text = "\x1B[1H\x1B[1mb\x1B[2H\x1B[38;5;9mc\x1B[0m\x1B[2;2H";
    match painted_or_kept(rt.alloc()) {
        Ok((kept, answer, out)) => {
            assert_eq!(rt; kept, b"before".len(), "length after a refusal");
            assert_eq!(rt; answer, Ok(()), "last call");
            assert_eq!(rt; text_behind(out.as_slice()), Some(text));
        }
        Err(fault) => assert_eq!(rt; fault, Fault::OutOfMemory),
    }
}
