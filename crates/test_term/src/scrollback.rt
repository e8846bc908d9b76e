//! The history, views and sizes: the rows that leave for the history, the rows of a view, and the effect of a size on both.
use crate::term_rows::{Other, malformed, other_shown, pair};
use crate::term_trials::{Trial, other_tried};
use roam_cells::Fault;
use roam_term::Term;
use std::alloc::Global;
use std::test::*;

// Cases with an empty line between them: a name; the terminal's rows, columns and lines, and the view; the input, with `> 2 8` for a size
// of 2 rows and 8 columns; and in one line the rows that are shown then, and the cursor from row and column 1.
const CASES: &str = "\
a smaller screen: rows leave at the top so that the cursor's stays
4 8 500, view 0
1\r\n2\r\n3\r\n4
> 2 8
3       |4       |2 2 shown

one row back, the cursor is below the screen
4 8 500, view 1
1\r\n2\r\n3\r\n4
> 2 8
2       |3       |2 2 hidden

a view beyond the oldest row shows the oldest
4 8 500, view 500
1\r\n2\r\n3\r\n4
> 2 8
1       |2       |2 2 hidden

the cursor is above the cut: rows go at the bottom, none to the history
4 8 500, view 1
1\r\n2\r\n3\r\n4\x1B[2;1H
> 2 8
1       |2       |2 1 shown

a wide cell that is cut in two is a space
2 8 500, view 0
123\u{4E2D}
> 2 4
123 |    |1 4 shown

a line feed in the last row
2 4 500, view 1
a\r\nb\r\nc
a   |b   |2 2 hidden

a wrap in the last row
2 4 500, view 1
abcdefghij
abcd|efgh|2 3 hidden

REP that wraps in the last row
2 4 500, view 1
a\x1B[11b
aaaa|aaaa|2 4 hidden

a wide character that wraps in the last row
2 4 500, view 1
abcd\x1B[2;4Hx\u{4E2D}
abcd|   x|2 3 hidden

SU
3 4 500, view 2
a\r\nb\r\nc\x1B[2S
a   |b   |c   |3 2 hidden

SU of more rows than there are
3 4 500, view 500
a\r\nb\r\nc\x1B[9999S
a   |b   |c   |3 2 hidden

SU between margins, the upper in the first row
3 4 500, view 500
a\r\nb\r\nc\x1B[1;2r\x1B[2S
a   |b   |    |3 1 shown

NEL
2 4 500, view 1
a\x1BEb\x1BEc
a   |b   |2 2 hidden

IND
2 4 500, view 1
a\x1BDb\x1BDc
a   | b  |2 4 hidden

below a top margin nothing leaves
3 4 500, view 500
a\r\nb\r\nc\x1B[2;3r\x1B[3;1H\n\r\n\x1B[2S
a   |    |    |3 1 shown

IL, DL, SD, RI and DECALN give none
2 4 500, view 500
a\r\nb\x1B[H\x1B[2L\x1B[2M\x1B[2T\x1BM\x1B#8
EEEE|EEEE|1 1 shown

the alternate screen gives none and isn't scrolled back
2 4 500, view 500
a\r\nb\r\nc\x1B[?1047h\r\n1\r\n2\r\n3
2   |3   |2 2 shown

the main screen's history stays while the alternate is shown
2 4 500, view 500
a\r\nb\r\nc\x1B[?1047h\r\n1\r\n2\r\n3\x1B[?1047l
a   |b   |2 2 hidden

a smaller alternate screen: its rows leave and are not kept
4 4 500, view 500
m\x1B[?47h\r1\r\n2\r\n3\r\n4
> 2 4
3   |4   |2 2 shown

the main screen behind a smaller alternate one
4 4 500, view 500
m\x1B[?47h\r1\r\n2\r\n3\r\n4
> 2 4
\x1B[?47l
m   |    |2 2 shown

kept rows are cut with the screen
2 8 500, view 1
abc\u{4E2D}fgh\r\n2\r\n3
> 2 4
abc |2   |2 2 hidden

kept rows are padded with the screen
2 8 500, view 1
abc\u{4E2D}fgh\r\n2\r\n3
> 2 4
> 2 8
abc     |2       |2 2 hidden

seven lines on three rows, NUL behind them: the last two, and a blank one
3 8 500, view 0
1\r\n2\r\n3\r\n4\r\n5\r\n6\r\n7\r\n\0
6       |7       |        |3 1 shown

the first three of five rows that left
3 8 500, view 5
1\r\n2\r\n3\r\n4\r\n5\r\n6\r\n7\r\n\0
1       |2       |3       |3 1 hidden

the last two of five rows that left
3 8 500, view 2
1\r\n2\r\n3\r\n4\r\n5\r\n6\r\n7\r\n\0
4       |5       |6       |3 1 hidden

no line is kept
2 4 0, view 500
a\r\nb\r\nc\r\nd
c   |d   |2 2 shown

one line is kept
2 4 1, view 500
a\r\nb\r\nc\r\nd
b   |c   |2 2 hidden

RIS keeps the history
2 4 500, view 1
a\r\nb\r\nc\x1Bc
a   |    |2 1 shown

a pending wrap is gone after a size, and REP forgets its character
2 4 500, view 0
abcd
> 2 6
\x1B[2bx
abcx  |      |1 5 shown";

// Four rows on a screen of two, and its view one row back.
const FOUR_IN_TWO: &str = "1\r\n2\r\n3\r\n4\n> 2 8";

const ONE_BACK: &str = "2       |3       |2 2 hidden";

// A size, and maybe bytes in the next line.
fn take_size(alloc: Global, term: &mut Term, step: &str) -> Result<(), Fault> {
    let (size, bytes) = step.split_once('\n').unwrap_or((step, ""));
    let (rows, cols) = pair(size).unwrap_or((0, 0));
    term.resize(alloc, rows, cols)?;
    term.feed(bytes.as_bytes())
}

// Does all steps; a size that isn't understood is a bad one.
fn take(alloc: Global, term: &mut Term, steps: &str) -> Result<(), Fault> {
    let mut steps = steps.split("\n> ");
    term.feed(steps.next().unwrap_or("").as_bytes())?;
    for step in steps {
        take_size(alloc, term, step)?;
    }
    Ok(())
}

/// Returns how steps do not lead to the view in the last line.
pub fn other_after(alloc: Global, term: &mut Term, view: u16, text: &str) -> Other {
    let Some((steps, wanted)) = text.rsplit_once('\n') else {
        return malformed(alloc);
    };
    take(alloc, term, steps)?;
    other_shown(alloc, term, view, wanted)
}

// The rows, the columns and the lines of a terminal, the view, and the steps with the rows of the view.
type Parts<'a> = ((u16, u16), u16, u16, &'a str);

// The parts of a case; `None` if it is malformed.
fn parts_of(case: &str) -> Option<Parts<'_>> {
    let (_, rest) = case.split_once('\n')?;
    let (line, rest) = rest.split_once('\n')?;
    let (setting, view) = line.split_once(", view ")?;
    let (size, lines) = setting.rsplit_once(' ')?;
    let size = pair(size)?;
    match (lines.parse::<u16>(), view.parse::<u16>()) {
        (Ok(lines), Ok(view)) => Some((size, lines, view, rest)),
        _ => None,
    }
}

fn other_of_case(alloc: Global, case: &str) -> Other {
    match parts_of(case) {
        Some(((rows, cols), lines, view, rest)) => other_tried(
            alloc,
            rows,
            cols,
            lines,
            Trial::Steps(view, rest),
        ),
        None => malformed(alloc),
    }
}

#[test]
fn rows_that_leave_and_sizes(rt: HostRuntime) {
    for case in CASES.split("\n\n") {
        assert_eq!(rt; other_of_case(rt.alloc(), case), Ok(None), "{case:?}");
    }
}

/// The first byte of a wide character, a size, and a bad byte leave a replacement character in the size.
pub fn other_inside(alloc: Global, term: &mut Term) -> Other {
    term.feed(b"\xE4")?;
    term.resize(alloc, 3, 8)?;
    term.feed(b"\xB8A")?;
    other_shown(
        alloc,
        term,
        0,
        "\u{FFFD}A      |        |        |1 3 shown",
    )
}

fn feed_number(alloc: Global, term: &mut Term, n: u16) -> Result<(), Fault> {
    let line = format!(in alloc; "{n}\r\n")?;
    term.feed(line.as_bytes())
}

/// Of 501 rows that left the last 500 are kept.
pub fn other_oldest(alloc: Global, term: &mut Term) -> Other {
    for n in 1..=502u16 {
        feed_number(alloc, term, n)?;
    }
    match other_shown(alloc, term, 500, "2       |3       |2 1 hidden")? {
        None => other_shown(alloc, term, 1, "501     |502     |2 1 hidden"),
        other => Ok(other),
    }
}

fn next(state: &mut u32) -> u32 {
    *state = state.wrapping_mul(1664525).wrapping_add(1013904223);
    *state >> 8
}

/// Returns how a view has not a size, or not its cursor within.
pub fn other_whole(alloc: Global, term: &Term, size: (u16, u16), view: u16) -> Other {
    let shot = term.shot(alloc, view)?;
    let (row, col) = shot.cursor();
    let found = (shot.rows(), shot.cols());
    if found == size && row <= size.0 && col <= size.1 {
        return Ok(None);
    }
    Ok(Some(format!(in alloc; "view {view}: {found:?} in place of {size:?}, cursor {row} {col}")?))
}

// It takes some bytes, some wide and joined characters, and the size.
fn other_at_size(alloc: Global, term: &mut Term, state: &mut u32, size: (u16, u16)) -> Other {
    let mut piece = [0; 64];
    for byte in piece.iter_mut() {
        *byte = (next(state) % 256) as u8;
    }
    term.feed(&piece)?;
    term.feed("a\u{4E2D}b\u{301}\r\n\u{4E2D}\u{4E2D}".as_bytes())?;
    term.resize(alloc, size.0, size.1)?;
    other_whole(alloc, term, size, (next(state) % 50) as u16)
}

/// A fixed sequence of sizes with text between leaves a whole screen after each (`Shot` has no other).
pub fn other_thousand(alloc: Global, term: &mut Term) -> Other {
    let mut state = 7;
    for _ in 0..1000 {
        let size = (
            (2 + next(&mut state) % 9) as u16,
            (4 + next(&mut state) % 30) as u16,
        );
        if let Some(other) = other_at_size(alloc, term, &mut state, size)? {
            return Ok(Some(other));
        }
    }
    Ok(None)
}

// Returns the rows, the columns and the lines of memory made for a size, or the refusal.
fn size_fitted(
    alloc: Global,
    term: &Term,
    rows: u16,
    cols: u16,
) -> Result<(usize, usize, usize), Fault> {
    let fitted = term.fit(alloc, rows, cols)?;
    Ok((fitted.rows(), fitted.cols(), fitted.lines()))
}

fn other_refused(alloc: Global, term: &mut Term) -> Other {
    for (rows, cols) in [(1, 8), (201, 8), (2, 3), (2, 501), (0, 0)] {
        let resized = term.resize(alloc, rows, cols);
        let fitted = size_fitted(alloc, term, rows, cols);
        if resized != Err(Fault::BadSize) || fitted != Err(Fault::BadSize) {
            return Ok(Some(format!(in alloc; "{rows} by {cols}: {resized:?} and {fitted:?}")?));
        }
    }
    Ok(None)
}

fn other_fitted(alloc: Global, term: &Term) -> Other {
    let found = size_fitted(alloc, term, 3, 9)?;
    if found == (3, 9, 500) {
        return Ok(None);
    }
    Ok(Some(format!(in alloc; "fitted {found:?} in place of (3, 9, 500)")?))
}

fn other_one_back(alloc: Global, term: &Term) -> Other {
    match other_shown(alloc, term, 1, ONE_BACK)? {
        None => match other_fitted(alloc, term)? {
            None => other_shown(alloc, term, 1, ONE_BACK),
            other => Ok(other),
        },
        other => Ok(other),
    }
}

/// The same is shown after each refused size, and after a fit.
pub fn other_kept_size(alloc: Global, term: &mut Term) -> Other {
    take(alloc, term, FOUR_IN_TWO)?;
    match other_refused(alloc, term)? {
        None => other_one_back(alloc, term),
        other => Ok(other),
    }
}

// A size inside a character acts at once; a full history loses the oldest; a thousand sizes; sizes outside the limits are refused.
#[test]
fn sizes_and_a_full_history(rt: HostRuntime) {
    assert_eq!(rt;
        other_tried(rt.alloc(), 2, 8, 500, Trial::SizeInside),
        Ok(None),
        "inside"
    );
    assert_eq!(rt;
        other_tried(rt.alloc(), 2, 8, 500, Trial::FullHistory),
        Ok(None),
        "full"
    );
    assert_eq!(rt;
        other_tried(rt.alloc(), 2, 4, 40, Trial::ThousandSizes),
        Ok(None),
        "thousand"
    );
    assert_eq!(rt;
        other_tried(rt.alloc(), 4, 8, 500, Trial::RefusedSizes),
        Ok(None),
        "refused"
    );
}

// Returns true if a view shows one row back, or memory is refused.
fn is_one_back(alloc: Global, term: &Term) -> bool {
    matches!(other_shown(alloc, term, 1, ONE_BACK), Ok(None) | Err(_))
}

// A size refused for memory changes nothing, and the same size with memory has the result of one without a refusal. Returns what is wrong.
fn wrong_after_refusal(alloc: Global, term: &mut Term) -> Option<&'static str> {
    if term.feed(b"1\r\n2\r\n3\r\n4") != Ok(()) {
        return Some("the lines are refused");
    }
    let refused = term.resize(alloc, 2, 8);
    if refused.is_ok() {
        return if is_one_back(alloc, term) {
            None
        } else {
            Some("another view after a size")
        };
    }
    if refused != Err(Fault::OutOfMemory) {
        return Some("the size is refused for another reason than memory");
    }
    if other_whole(alloc, term, (4, 8), 0) != Ok(None) {
        return Some("another size after a refusal");
    }
    if term.resize(alloc, 2, 8) != Ok(()) {
        return Some("the size is refused twice");
    }
    if is_one_back(alloc, term) {
        None
    } else {
        Some("another view after a refusal")
    }
}

fn first_wrong(alloc: Global) -> Result<Option<&'static str>, Fault> {
    let mut term = Term::new(alloc, 4, 8, 5)?;
    Ok(wrong_after_refusal(alloc, &mut term))
}

#[test]
fn a_size_without_memory_changes_nothing(rt: HostRuntime) {
    let found = first_wrong(rt.alloc());
    assert!(rt;
        matches!(found, Ok(None) | Err(Fault::OutOfMemory)),
        "{found:?}"
    );
}
