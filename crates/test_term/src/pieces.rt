//! The terminal of a pane, fed by pieces: renditions, sizes, the queue of answers. The tests of `roam show` have the effect of text and
//! moves on a screen.
use crate::scrollback::other_whole;
use crate::term_rows::{Other, malformed, other_shown};
use crate::term_trials::{Trial, other_tried};
use roam_cells::{Cell, Colour, Fault, Style};
use roam_term::{MOST_PIECE, Term};
use std::alloc::Global;
use std::test::*;

// The input, and the style of a character printed then. An index is up to 255: a larger one is ignored, and an empty one is 0; 2 and three
// numbers are ignored; otherwise, or cut short, the rest has no effect. Other numbers, private markers and intermediate bytes change
// nothing.
const RENDERED: &str = "\
\x1B[1m|bold
\x1B[2;3m|faint italic
\x1B[4;5m|underline blink
\x1B[21m|underline
\x1B[7;8;9m|reverse conceal strike
\x1B[1;2;3;4;5;7;8;9m\x1B[22;23;24;25;27;28;29m|plain
\x1B[1;31;42m\x1B[m|plain
\x1B[1;31;42m\x1B[;4m|underline
\x1B[30;47m|foreground=0 background=7
\x1B[97;100m|foreground=15 background=8
\x1B[31;41m\x1B[39;49m|plain
\x1B[38;5;255;48;5;0m|foreground=255 background=0
\x1B[38;5;256;1m|bold
\x1B[38;5;;1m|foreground=0 bold
\x1B[38;2;1;4;7;1m|foreground=1,4,7 bold
\x1B[48;2;1;4;7;3m|background=1,4,7 italic
\x1B[1;38;3;4m|bold
\x1B[1;38m|bold
\x1B[1;48;5m|bold
\x1B[38;2;4m|plain
\x1B[6;10;26;38;9;1m|plain
\x1B[?1m\x1B[>4m\x1B[1 m|plain";

fn part_of(text: &str) -> Option<u8> {
    text.parse::<u8>().ok()
}

// A place in the table, or a mixture of three parts.
fn colour_of(text: &str) -> Option<Colour> {
    let Some((red, rest)) = text.split_once(',') else {
        return Some(Colour::Index(part_of(text)?));
    };
    let (green, blue) = rest.split_once(',')?;
    Some(Colour::Rgb(part_of(red)?, part_of(green)?, part_of(blue)?))
}

fn add_colour(style: &mut Style, word: &str) -> bool {
    let Some((name, index)) = word.split_once('=') else {
        return false;
    };
    let Some(colour) = colour_of(index) else {
        return false;
    };
    match name {
        "foreground" => style.foreground = colour,
        "background" => style.background = colour,
        _ => return false,
    }
    true
}

fn add(style: &mut Style, word: &str) -> bool {
    match word {
        "plain" => {}
        "bold" => style.bold = true,
        "faint" => style.faint = true,
        "italic" => style.italic = true,
        "underline" => style.underline = true,
        "blink" => style.blink = true,
        "reverse" => style.reverse = true,
        "conceal" => style.conceal = true,
        "strike" => style.strike = true,
        _ => return add_colour(style, word),
    }
    true
}

fn style_of(words: &str) -> Option<Style> {
    let mut style = Style::default();
    for word in words.split(' ') {
        if !add(&mut style, word) {
            return None;
        }
    }
    Some(style)
}

// Adds a word with a colour, if it is none of the default.
fn push_colour(alloc: Global, words: &mut String, name: &str, colour: Colour) -> Result<(), Fault> {
    let word = match colour {
        Colour::Default => return Ok(()),
        Colour::Index(index) => format!(in alloc; " {name}={index}")?,
        Colour::Rgb(red, green, blue) => format!(in alloc; " {name}={red},{green},{blue}")?,
    };
    words.push_str(word.as_str())?;
    Ok(())
}

// The words of a style, with a space before each.
fn words_of(alloc: Global, style: Style) -> Result<String, Fault> {
    let mut words = String::new(alloc);
    for (is_on, word) in [
        (style.bold, " bold"),
        (style.faint, " faint"),
        (style.italic, " italic"),
        (style.underline, " underline"),
        (style.blink, " blink"),
        (style.reverse, " reverse"),
        (style.conceal, " conceal"),
        (style.strike, " strike"),
    ] {
        if is_on {
            words.push_str(word)?;
        }
    }
    push_colour(alloc, &mut words, "foreground", style.foreground)?;
    push_colour(alloc, &mut words, "background", style.background)?;
    Ok(words)
}

fn other_cell(alloc: Global, cell: Cell, style: Style) -> Other {
    let points = cell.chars();
    if points.as_slice() == ['a'].as_slice() && cell.style() == style && !cell.guard() {
        return Ok(None);
    }
    let words = words_of(alloc, cell.style())?;
    Ok(Some(format!(in alloc;
        "{:?} in the style{}, guard {}",
        points.as_slice(),
        words.as_str(),
        cell.guard()
    )?))
}

/// Returns how a character has not a style, unguarded, after this input.
pub fn other_drawn(alloc: Global, term: &mut Term, before: &str, style: Style) -> Other {
    term.feed(before.as_bytes())?;
    term.feed(b"a")?;
    let shot = term.shot(alloc, 0)?;
    match shot.at(1, 1) {
        Some(cell) => other_cell(alloc, cell, style),
        None => Ok(Some(format!(in alloc; "no cell")?)),
    }
}

fn other_rendered(alloc: Global, line: &str) -> Other {
    let (before, words) = line.split_once('|').unwrap_or((line, ""));
    match style_of(words) {
        Some(style) => other_tried(alloc, 2, 8, 0, Trial::Rendition(before, style)),
        None => malformed(alloc),
    }
}

// Inputs, and whether they leave the first character in reverse: DECSCNM turns the reverse flag of each cell, twice the same as once.
const REVERSED: &str = "\
\x1B[?5ha|yes
\x1B[?5h\x1B[?5ha|yes
\x1B[?25;5ha|yes
\x1B[7m\x1B[?5ha|no
\x1B[?5ha\x1B[?5l|no";

/// Returns how an input leaves the first character in reverse, or not, otherwise than expected.
pub fn other_reverse(alloc: Global, term: &mut Term, input: &str, reverse: bool) -> Other {
    term.feed(input.as_bytes())?;
    let shot = term.shot(alloc, 0)?;
    match shot.at(1, 1) {
        Some(cell) if cell.style().reverse == reverse => Ok(None),
        Some(_) => Ok(Some(format!(in alloc; "reverse {} in place of {reverse}", !reverse)?)),
        None => Ok(Some(format!(in alloc; "no cell")?)),
    }
}

fn other_reversed(alloc: Global, line: &str) -> Other {
    match line.split_once('|') {
        Some((input, "yes")) => other_tried(alloc, 2, 8, 0, Trial::Reverse(input, true)),
        Some((input, "no")) => other_tried(alloc, 2, 8, 0, Trial::Reverse(input, false)),
        _ => malformed(alloc),
    }
}

#[test]
fn renditions_and_a_reversed_screen(rt: HostRuntime) {
    for line in RENDERED.lines() {
        assert_eq!(rt; other_rendered(rt.alloc(), line), Ok(None), "{line:?}");
    }
    for line in REVERSED.lines() {
        assert_eq!(rt; other_reversed(rt.alloc(), line), Ok(None), "{line:?}");
    }
}

fn feed_letters(term: &mut Term, count: usize) -> Result<(), Fault> {
    let letters = [b'a'; MOST_PIECE + 1];
    term.feed(&letters[..count.min(MOST_PIECE + 1)])
}

/// A piece one letter too long is refused, and then one of the most letters fills the screen.
pub fn other_longest(alloc: Global, term: &mut Term) -> Other {
    let refused = feed_letters(term, MOST_PIECE + 1);
    if refused != Err(Fault::TooLong) {
        return Ok(Some(format!(in alloc; "{refused:?} for one letter too many")?));
    }
    match other_shown(alloc, term, 0, "        |        |1 1 shown")? {
        None => other_filled(alloc, term),
        other => Ok(other),
    }
}

fn other_filled(alloc: Global, term: &mut Term) -> Other {
    let full = "aaaaaaaa|aaaaaaaa|2 8 shown";
    feed_letters(term, MOST_PIECE)?;
    match other_shown(alloc, term, 0, full)? {
        None => other_shown(alloc, term, 500, full),
        other => Ok(other),
    }
}

// The answers of a VT220 with selective erasure, one for each byte `c` of these.
fn takes(term: &mut Term, wanted: &[u8]) -> bool {
    let mut out = [0; 16];
    let count = term.copy_output(&mut out[..wanted.len().min(16)]);
    term.take_output(count);
    &out[..count] == wanted
}

/// A full queue refuses a piece and loses nothing.
pub fn other_queue(alloc: Global, term: &mut Term) -> Other {
    match other_fill(alloc, term)? {
        None => other_emptied(alloc, term),
        other => Ok(other),
    }
}

// Returns how many questions a terminal takes, each a piece.
fn count_taken(term: &mut Term) -> u32 {
    let mut answers = 0u32;
    for _ in 0..16_384 {
        if term.feed(b"\x1B[c").is_err() {
            break;
        }
        answers = answers.saturating_add(1);
    }
    answers
}

// Each of these answers has 8 bytes. A piece needs 12 free bytes for each of its own.
// It takes 8,188 questions and no more, and an answer's last bytes only in two pieces.
fn other_fill(alloc: Global, term: &mut Term) -> Other {
    let count = count_taken(term);
    let found = (count, term.output_len());
    let wanted = (8188, 65_504);
    if found != wanted {
        return Ok(Some(format!(in alloc; "questions and bytes {found:?} in place of {wanted:?}")?));
    }
    let whole = term.feed(b"\x1B[c");
    let first = term.feed(b"\x1B[");
    let last = term.feed(b"c");
    let found = (whole, first, last);
    let wanted = (Err(Fault::Busy), Ok(()), Ok(()));
    if found == wanted {
        return Ok(None);
    }
    Ok(Some(format!(in alloc; "a question, and its two pieces: {found:?} in place of {wanted:?}")?))
}

fn other_emptied(alloc: Global, term: &mut Term) -> Other {
    for answer in 0..8189u32 {
        if !takes(term, b"\x1B[?62;6c") {
            return Ok(Some(format!(in alloc; "another answer {answer}")?));
        }
    }
    let left = term.output_len();
    if left == 0 {
        return Ok(None);
    }
    Ok(Some(format!(in alloc; "{left} bytes are left")?))
}

/// No bytes are queued.
pub fn other_nothing(alloc: Global, term: &mut Term) -> Other {
    let waiting = term.output_len();
    let mut out = [7; 3];
    let count = term.copy_output(&mut out);
    term.take_output(0);
    let found = (waiting, count, out, term.output_len());
    let wanted = (0, 0, [7; 3], 0);
    if found == wanted {
        return Ok(None);
    }
    Ok(Some(format!(in alloc; "{found:?} in place of {wanted:?}")?))
}

fn feed_any(term: &mut Term, state: &mut u32) -> Result<(), Fault> {
    let mut piece = [0; MOST_PIECE];
    for byte in piece.iter_mut() {
        *state = state.wrapping_mul(1664525).wrapping_add(1013904223);
        *byte = (*state >> 24) as u8;
    }
    term.feed(&piece)
}

/// Any bytes are read, and leave the size.
pub fn other_fed(alloc: Global, term: &mut Term) -> Other {
    let mut state: u32 = 1;
    for _ in 0..200 {
        feed_any(term, &mut state)?;
    }
    other_whole(alloc, term, (24, 80), 0)
}

// Returns the answer to a new terminal.
fn answer_to_new(alloc: Global, rows: u16, cols: u16, lines: u16) -> Result<(), Fault> {
    match Term::new(alloc, rows, cols, lines) {
        Ok(_) => Ok(()),
        Err(fault) => Err(fault),
    }
}

#[test]
fn sizes_and_lines(rt: HostRuntime) {
    for (rows, cols, lines) in [(2, 4, 0), (200, 500, 500), (24, 80, 1)] {
        assert_eq!(rt;
            other_tried(rt.alloc(), rows, cols, lines, Trial::Whole(rows, cols)),
            Ok(None),
            "{rows} by {cols}, {lines} lines"
        );
    }
    for (rows, cols, lines) in [
        (1, 8, 0),
        (201, 8, 0),
        (2, 3, 0),
        (2, 501, 0),
        (2, 8, 501),
        (0, 0, 65535),
    ] {
        assert_eq!(rt;
            answer_to_new(rt.alloc(), rows, cols, lines),
            Err(Fault::BadSize),
            "{rows} by {cols}, {lines} lines"
        );
    }
}

#[test]
fn pieces_and_the_queue(rt: HostRuntime) {
    assert_eq!(rt;
        other_tried(rt.alloc(), 2, 8, 0, Trial::LongestPiece),
        Ok(None),
        "piece"
    );
    assert_eq!(rt;
        other_tried(rt.alloc(), 2, 8, 0, Trial::FullAnswers),
        Ok(None),
        "queue"
    );
    assert_eq!(rt;
        other_tried(rt.alloc(), 2, 8, 0, Trial::NothingWaits),
        Ok(None),
        "nothing"
    );
    assert_eq!(rt;
        other_tried(rt.alloc(), 24, 80, 0, Trial::AnyBytes),
        Ok(None),
        "bytes"
    );
}

fn cursor_of(alloc: Global, term: &Term) -> Result<(u16, u16), Fault> {
    let shot = term.shot(alloc, 0)?;
    Ok(shot.cursor())
}

// The answer to two letters, and the cursor then, as two calls find it.
type Fed = (
    Result<(), Fault>,
    Result<(u16, u16), Fault>,
    Result<(u16, u16), Fault>,
);

fn feed_two(alloc: Global, term: &mut Term) -> Fed {
    let fed = term.feed(b"ab");
    let first = cursor_of(alloc, term);
    let second = cursor_of(alloc, term);
    (fed, first, second)
}

fn fed_two(alloc: Global) -> Result<Fed, Fault> {
    let mut term = Term::new(alloc, 2, 8, 0)?;
    Ok(feed_two(alloc, &mut term))
}

// A call after one that was refused memory finds the terminal as it was.
#[test]
fn refused_memory_changes_nothing(rt: HostRuntime) {
    match fed_two(rt.alloc()) {
        Ok((fed, first, second)) => {
            assert_eq!(rt; fed, Ok(()));
            assert!(rt;
                matches!(first, Ok((1, 3)) | Err(Fault::OutOfMemory)),
                "first: {first:?}"
            );
            assert!(rt;
                matches!(second, Ok((1, 3)) | Err(Fault::OutOfMemory)),
                "second: {second:?}"
            );
        }
        Err(fault) => assert_eq!(rt; fault, Fault::OutOfMemory),
    }
}
