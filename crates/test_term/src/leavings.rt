//! The rows that leave a terminal, beside a history that keeps them all, and from which rows autowrap went on.
use roam_cells::{Cell, Fault};
use roam_scrollback::{LeftLines, RowSource, Wrap, push_line};
use roam_term::Term;
use std::alloc::{AllocError, Global};
use std::test::*;

// The parts of inputs: text of one and of two columns, ends of lines, scrolls and their opposites, both screens, styles, resets.
const PARTS: [&str; 24] = [
    "a",
    "bcd",
    "efghijklmn",
    "\u{4E2D}",
    "x\u{4E2D}\u{6587}y",
    "e\u{301}",
    "\r\n",
    "\n",
    "\r",
    "\x1BD",
    "\x1BE",
    "\x1BM",
    "\x1B[2S",
    "\x1B[9S",
    "\x1B[T",
    "z\x1B[30b",
    "\x1B[?1049h",
    "\x1B[?1049l",
    "\x1B[1;31m",
    "\x1B[m",
    "\x1B[2;3r",
    "\x1B[r",
    "\x1B[L\x1B[2M\x1B[K",
    "\x1Bc",
];

// How many parts an input has.
const MANY: usize = 40;

// The next number of a sequence (Marsaglia, Xorshift RNGs, 2003).
fn next(seed: &mut u64) -> u64 {
    let mut x = *seed;
    x ^= x << 13;
    x ^= x >> 7;
    x ^= x << 17;
    *seed = x;
    x
}

fn input(alloc: Global, seed: &mut u64) -> Result<Vec<u8>, AllocError> {
    let mut bytes = Vec::new(alloc);
    for _ in 0..MANY {
        let part = PARTS[(next(seed) % 24) as usize];
        bytes.extend_from_slice(part.as_bytes())?;
    }
    Ok(bytes)
}

// Feeds a source with all bytes, however a number cuts them.
fn feed_cut(source: &mut RowSource, bytes: &[u8], lines: &mut LeftLines, cut: u64) {
    let longest = (cut % 7) as usize + 1;
    for piece in bytes.chunks(longest) {
        let fed = source.feed(piece, lines);
        source.feed(piece.split_at(fed.count.min(piece.len())).1, lines);
    }
}

// Returns the line of the first row that a view of a terminal shows, which ends so.
fn first_line(alloc: Global, term: &Term, view: u16, wrap: Wrap) -> Result<Vec<u8>, Fault> {
    let shot = term.shot(alloc, view)?;
    let mut cells = Vec::new(alloc);
    for col in 1..9 {
        if let Some(cell) = shot.at(1, col) {
            cells.push(cell)?;
        }
    }
    let mut text = Vec::new(alloc);
    push_line(&mut text, wrap, &cells)?;
    Ok(text)
}

// The same for a row that ends as its line says: one that lacks the last column left it to a wide character.
fn first_like(alloc: Global, term: &Term, view: u16, line: &[u8]) -> Result<Vec<u8>, Fault> {
    if line.first() != Some(&b'+') {
        return first_line(alloc, term, view, Wrap::Ends);
    }
    let full = first_line(alloc, term, view, Wrap::Full)?;
    if full.len().saturating_sub(1) == line.len() {
        return Ok(full);
    }
    first_line(alloc, term, view, Wrap::Early)
}

// Returns the lines of the last rows of a history, the oldest first, on the main screen: as many as there are lines, each of which says
// how its row ends.
fn lines_of_history(alloc: Global, bytes: &[u8], lines: &LeftLines) -> Result<Vec<u8>, Fault> {
    let mut term = Term::new(alloc, 3, 8, 500)?;
    for piece in bytes.chunks(64) {
        term.feed(piece)?;
    }
    term.feed(b"\x1B[?47l")?;
    let mut text = Vec::new(alloc);
    let mut view = lines.count();
    for line in lines.text().split(|byte| *byte == b'\n') {
        if view == 0 {
            break;
        }
        let row = first_like(alloc, &term, view.min(500) as u16, line)?;
        text.extend_from_slice(&row)?;
        view -= 1;
    }
    Ok(text)
}

fn is_kept(alloc: Global, seed: &mut u64) -> Result<bool, Fault> {
    let bytes = input(alloc, seed)?;
    let mut source = RowSource::new(alloc, 3, 8)?;
    let mut lines = LeftLines::new(alloc);
    feed_cut(&mut source, &bytes, &mut lines, next(seed));
    let kept = lines_of_history(alloc, &bytes, &lines)?;
    Ok(lines.count() <= 500 && lines.lost() == 0 && lines.text() == kept.as_slice())
}

#[test]
fn rows_that_leave_are_those_of_a_history(rt: HostRuntime) {
    let mut seed = 20_261_128;
    for i in 0..2000 {
        assert!(rt; is_kept(rt.alloc(), &mut seed) == Ok(true), "input {i}");
    }
}
