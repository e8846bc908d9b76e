//! Rows of cells: the effect of each operation, on new rows and with the first row turned.
//!
//! The cases are texts, since a table of text is proved at once, whatever its length. A case has a name, a line as `2 8: put 0 0 1 ab,
//! insert 0 1 2` (rows, columns, and the operations on blank rows), and each row with the pen of each column. Rows and columns count from
//! 0, a right half is `~`, a pen is plain (0), bold (1), guarded (2) or both (3). `put` and `run` (printable ASCII at once) have row,
//! column, pen and text behind them; `join` has row, column and code point; `erase`, `insert` and `delete` have the row, and then from, to,
//! or column, count; `blank` has from, to; `up` and `down` a number of rows; `region-up` and `region-down` top, bottom, count; `size` rows,
//! columns, and the number of rows that left at the top.
use crate::words::{is_printable, looks, number, numbers, parts_of, reads};
use roam_cells::limits::is_size;
use roam_cells::{Cell, Style, width};
use roam_rows::{Fitted, Ring, laws};
use std::alloc::{AllocError, Global};
use std::test::*;

fn style_of(pen: u8) -> Style {
    let mut style = Style::default();
    style.bold = pen % 2 == 1;
    style
}

// Returns blank rows of a size; of two by four if it is out of the limits.
fn made(alloc: Global, rows: usize, cols: usize) -> Result<Ring, AllocError> {
    let (rows, cols) = (rows.min(999) as u16, cols.min(999) as u16);
    if is_size(rows, cols) {
        Ring::new(alloc, rows as usize, cols as usize)
    } else {
        Ring::new(alloc, 2, 4)
    }
}

// Returns memory for rows of a size; `None` if it is out of the limits.
fn fitted(alloc: Global, rows: usize, cols: usize) -> Option<Fitted> {
    let (rows, cols) = (rows.min(999) as u16, cols.min(999) as u16);
    if is_size(rows, cols) {
        return Fitted::new(alloc, rows as usize, cols as usize).ok();
    }
    None
}

fn put(ring: &mut Ring, row: usize, col: usize, text: &str, pen: u8) -> bool {
    let mut at = col;
    for c in text.chars() {
        if let Some(cell) = Cell::of(&[c], style_of(pen), 2 <= pen) {
            let columns = width(c);
            if row < ring.rows() && at < ring.cols() && !cell.is_right_half() {
                if !cell.is_wide() || 1 < ring.cols() - at {
                    ring.put(row, at, cell);
                }
            }
            at = at.saturating_add(columns);
        }
    }
    true
}

fn run(ring: &mut Ring, row: usize, col: usize, text: &str, pen: u8) -> bool {
    let bytes = text.as_bytes();
    let cell = Cell::ascii(b' ', style_of(pen), 2 <= pen);
    if row < ring.rows() && col <= ring.cols() && bytes.len() <= ring.cols() - col {
        if !bytes.is_empty() && is_printable(bytes) {
            ring.put_run(row, col, cell, bytes);
        }
    }
    true
}

// Each of these answers whether it knows the act and does it.

fn join(ring: &mut Ring, row: usize, col: usize, points: &str) -> bool {
    for point in points.chars() {
        if !join_one(ring, row, col, point) {
            return false;
        }
    }
    true
}

fn join_one(ring: &mut Ring, row: usize, col: usize, point: char) -> bool {
    if row < ring.rows() && col < ring.cols() {
        ring.join(row, col, point);
        return true;
    }
    false
}

fn write(ring: &mut Ring, name: &str, words: &str) -> bool {
    let [row, col, pen, text, _] = parts_of(words, ' ');
    let (Some(row), Some(col)) = (number(row), number(col)) else {
        return false;
    };
    match (name, pen.parse::<u8>()) {
        ("join", _) => join(ring, row, col, pen),
        ("put", Ok(pen)) => put(ring, row, col, text, pen),
        ("run", Ok(pen)) => run(ring, row, col, text, pen),
        _ => false,
    }
}

fn edit(ring: &mut Ring, name: &str, row: usize, from: usize, last: usize) -> bool {
    let is_place = row < ring.rows() && from < ring.cols();
    let is_range = is_place && from < last && last <= ring.cols();
    match name {
        "erase" if is_range => ring.erase(row, from, last),
        "erase-unguarded" if is_range => ring.erase_unguarded(row, from, last),
        "insert" if is_place => ring.insert(row, from, last),
        "delete" if is_place => ring.delete(row, from, last),
        _ => return false,
    }
    true
}

fn scroll_region(ring: &mut Ring, name: &str, top: usize, bottom: usize, n: usize) -> bool {
    let is_region = top <= bottom && bottom < ring.rows();
    match name {
        "region-up" if is_region => ring.scroll_region_up(top, bottom, n),
        "region-down" if is_region => ring.scroll_region_down(top, bottom, n),
        _ => return false,
    }
    true
}

fn blank(ring: &mut Ring, name: &str, from: usize, to: usize) -> bool {
    let is_range = from <= to && to <= ring.rows();
    match name {
        "blank" if is_range => ring.blank_rows(from, to),
        "blank-unguarded" if is_range => ring.blank_unguarded_rows(from, to),
        _ => return false,
    }
    true
}

fn scroll(ring: &mut Ring, name: &str, n: usize) -> bool {
    match name {
        "up" => ring.scroll_up(n),
        "down" => ring.scroll_down(n),
        _ => return false,
    }
    true
}

fn fill(ring: &mut Ring, text: &str) -> bool {
    match text.as_bytes() {
        [byte] if 0x20 <= *byte && *byte < 0x7F => {
            ring.fill(Cell::ascii(*byte, Style::default(), false));
            true
        }
        _ => false,
    }
}

fn take_size(ring: &mut Ring, fitted: Option<Fitted>, off: usize) -> bool {
    match fitted {
        Some(fitted) => ring.adopt(fitted, off),
        None => return false,
    }
    true
}

fn size(alloc: Global, ring: &mut Ring, words: &str) -> bool {
    match numbers(words) {
        Some((3, rows, cols, off, _)) => take_size(ring, fitted(alloc, rows, cols), off),
        _ => false,
    }
}

fn change(ring: &mut Ring, name: &str, words: &str) -> bool {
    match numbers(words) {
        Some((3, first, second, third, _)) => edit(ring, name, first, second, third)
            || scroll_region(ring, name, first, second, third),
        Some((2, from, to, _, _)) => blank(ring, name, from, to),
        Some((1, n, _, _, _)) => scroll(ring, name, n),
        _ => false,
    }
}

fn act(alloc: Global, ring: &mut Ring, words: &str) -> bool {
    let (name, rest) = words.split_once(' ').unwrap_or((words, ""));
    match name {
        "put" | "run" | "join" => write(ring, name, rest),
        "fill" => fill(ring, rest),
        "size" => size(alloc, ring, rest),
        _ => change(ring, name, rest),
    }
}

fn play(alloc: Global, ring: &mut Ring, acts: &str) -> bool {
    for words in acts.split(", ") {
        if !act(alloc, ring, words) {
            return false;
        }
    }
    true
}

// The effect of operations on blank rows.
const CASES: &str = "\
a wide cell over two narrow ones
2 8: put 0 0 0 abcd, put 0 1 1 \u{4E2D}
|a\u{4E2D}~d    |01100000|
|        |00000000|

a narrow cell over a left half
2 8: put 0 0 1 \u{4E2D}, put 0 0 0 x
|x       |01000000|
|        |00000000|

a narrow cell over a right half
2 8: put 0 0 1 \u{4E2D}, put 0 1 0 y
| y      |10000000|
|        |00000000|

a wide cell over halves of two others
2 8: put 0 0 1 \u{4E2D}\u{4E2D}, put 0 1 0 \u{4E2D}
| \u{4E2D}~     |10010000|
|        |00000000|

a wide cell in the last two columns
2 8: put 1 6 2 \u{4E2D}
|        |00000000|
|      \u{4E2D}~|00000022|

a run over halves at both its ends
2 8: put 0 0 0 \u{4E2D}\u{4E2D}\u{4E2D}\u{4E2D}, run 0 1 3 xyz
| xyz\u{4E2D}~\u{4E2D}~|03330000|
|        |00000000|

a run up to the edge
2 8: run 1 5 1 xyz
|        |00000000|
|     xyz|00000111|

an erasure from half a pair to the end of one
2 8: put 0 0 1 \u{4E2D}\u{4E2D}\u{4E2D}\u{4E2D}, erase 0 1 6
|      \u{4E2D}~|10000011|
|        |00000000|

an erasure from the start of a pair to half of one
2 8: put 0 0 1 \u{4E2D}\u{4E2D}\u{4E2D}\u{4E2D}, erase 0 0 7
|        |00000001|
|        |00000000|

an erasure takes guarded cells
2 8: put 0 0 2 abc, erase 0 1 2
|a c     |20200000|
|        |00000000|

an erasure of a whole row, and of the last column
2 8: put 0 0 0 abcdefgh, put 1 0 1 abcdefgh, erase 0 0 8, erase 1 7 8
|        |00000000|
|abcdefg |11111110|

a selective erasure leaves guarded cells, and cuts the pair at its end
2 8: put 0 0 0 ab, put 0 2 2 \u{4E2D}, put 0 4 1 c\u{4E2D}, erase-unguarded 0 1 6
|a \u{4E2D}~    |00220010|
|        |00000000|

a selective erasure within guarded pairs
2 8: put 0 0 2 \u{4E2D}\u{4E2D}, erase-unguarded 0 1 3
|\u{4E2D}~\u{4E2D}~    |22220000|
|        |00000000|

a selective erasure cuts the pair at its start
2 8: put 0 0 1 \u{4E2D}a, put 0 3 3 b, erase-unguarded 0 1 8
|   b    |10030000|
|        |00000000|

a blank comes in before pairs
2 8: put 0 0 1 \u{4E2D}\u{4E2D}\u{4E2D}\u{4E2D}, insert 0 0 1
| \u{4E2D}~\u{4E2D}~\u{4E2D}~ |01111111|
|        |00000000|

two blanks come in within a pair
2 8: put 0 0 1 \u{4E2D}b, insert 0 1 2
|    b   |10011000|
|        |00000000|

none comes in
2 8: put 0 0 1 \u{4E2D}bcdefg, insert 0 1 0
|\u{4E2D}~bcdefg|11111111|
|        |00000000|

one comes in at the last column
2 8: put 0 0 2 abcdefgh, insert 0 7 1
|abcdefg |22222220|
|        |00000000|

as many come in as the row has
2 8: put 0 0 2 abcdefgh, insert 0 0 8
|        |00000000|
|        |00000000|

one more comes in
2 8: put 0 0 2 abcdefgh, insert 0 0 9
|        |00000000|
|        |00000000|

9,999 come in after a pair's left half
2 8: put 0 0 1 a\u{4E2D}defgh, insert 0 2 9999
|a       |11000000|
|        |00000000|

blanks come in past what is written
2 8: put 0 0 1 ab, insert 0 5 2
|ab      |11000000|
|        |00000000|

the last pair is cut at the edge
2 8: put 0 0 3 abcde\u{4E2D}, insert 0 2 2
|ab  cde |33003333|
|        |00000000|

the right half of a pair goes out
2 8: put 0 0 0 1\u{4E2D}2, delete 0 2 1
|1 2     |00000000|
|        |00000000|

halves of two pairs that come together stay apart
2 8: put 0 0 1 \u{4E2D}\u{4E2D}, delete 0 1 2
|        |11000000|
|        |00000000|

none goes out
2 8: put 0 0 1 \u{4E2D}bcdefg, delete 0 1 0
|\u{4E2D}~bcdefg|11111111|
|        |00000000|

one goes out at the last column
2 8: put 0 0 2 abcdefgh, delete 0 7 1
|abcdefg |22222220|
|        |00000000|

as many go out as the row has
2 8: put 0 0 2 abcdefgh, delete 0 0 8
|        |00000000|
|        |00000000|

one more goes out
2 8: put 0 0 2 abcdefgh, delete 0 0 9
|        |00000000|
|        |00000000|

9,999 go out from a pair's right half on
2 8: put 0 0 1 a\u{4E2D}defgh, delete 0 2 9999
|a       |11000000|
|        |00000000|

a pair moves to the left whole
2 8: put 0 0 3 ab\u{4E2D}, delete 0 0 2
|\u{4E2D}~      |33000000|
|        |00000000|

all rows go up by one
4 8: put 0 0 1 a, put 1 0 0 b\u{4E2D}, put 2 0 2 c, put 3 0 3 d, up 1
|b\u{4E2D}~     |00000000|
|c       |20000000|
|d       |30000000|
|        |00000000|

all rows go up by none
4 8: put 0 0 1 a, put 1 0 0 b\u{4E2D}, put 2 0 2 c, put 3 0 3 d, up 0
|a       |10000000|
|b\u{4E2D}~     |00000000|
|c       |20000000|
|d       |30000000|

all rows go up by as many as there are
4 8: put 0 0 1 a, put 1 0 0 b\u{4E2D}, put 2 0 2 c, put 3 0 3 d, up 4
|        |00000000|
|        |00000000|
|        |00000000|
|        |00000000|

all rows go up by 9,999
4 8: put 0 0 1 a, put 1 0 0 b\u{4E2D}, put 2 0 2 c, put 3 0 3 d, up 9999
|        |00000000|
|        |00000000|
|        |00000000|
|        |00000000|

all rows go down by one
4 8: put 0 0 1 a, put 1 0 0 b\u{4E2D}, put 2 0 2 c, put 3 0 3 d, down 1
|        |00000000|
|a       |10000000|
|b\u{4E2D}~     |00000000|
|c       |20000000|

all rows go down by three, and up by two
4 8: put 0 0 1 a, put 1 0 0 b\u{4E2D}, put 2 0 2 c, put 3 0 3 d, down 3, up 2
|        |00000000|
|a       |10000000|
|        |00000000|
|        |00000000|

all rows go down by 9,999
4 8: put 0 0 1 a, put 1 0 0 b\u{4E2D}, put 2 0 2 c, put 3 0 3 d, down 9999
|        |00000000|
|        |00000000|
|        |00000000|
|        |00000000|

rows between margins go up
4 8: put 0 0 1 a, put 1 0 0 b\u{4E2D}, put 2 0 2 c, put 3 0 3 d, region-up 1 2 1
|a       |10000000|
|c       |20000000|
|        |00000000|
|d       |30000000|

rows between margins go up by none
4 8: put 0 0 1 a, put 1 0 0 b\u{4E2D}, put 2 0 2 c, put 3 0 3 d, region-up 1 2 0
|a       |10000000|
|b\u{4E2D}~     |00000000|
|c       |20000000|
|d       |30000000|

rows between margins go up by 9,999
4 8: put 0 0 1 a, put 1 0 0 b\u{4E2D}, put 2 0 2 c, put 3 0 3 d, region-up 1 3 9999
|a       |10000000|
|        |00000000|
|        |00000000|
|        |00000000|

one row goes up
4 8: put 0 0 1 a, put 1 0 0 b\u{4E2D}, put 2 0 2 c, put 3 0 3 d, region-up 2 2 1
|a       |10000000|
|b\u{4E2D}~     |00000000|
|        |00000000|
|d       |30000000|

rows between margins go down
4 8: put 0 0 1 a, put 1 0 0 b\u{4E2D}, put 2 0 2 c, put 3 0 3 d, region-down 1 2 1
|a       |10000000|
|        |00000000|
|b\u{4E2D}~     |00000000|
|d       |30000000|

rows between margins go down by two
4 8: put 0 0 1 a, put 1 0 0 b\u{4E2D}, put 2 0 2 c, put 3 0 3 d, region-down 0 3 2
|        |00000000|
|        |00000000|
|a       |10000000|
|b\u{4E2D}~     |00000000|

rows between margins go down by 9,999
4 8: put 0 0 1 a, put 1 0 0 b\u{4E2D}, put 2 0 2 c, put 3 0 3 d, region-down 0 2 9999
|        |00000000|
|        |00000000|
|        |00000000|
|d       |30000000|

a short row over a long one
2 8: put 0 0 0 abcdefgh, put 1 0 1 x, region-up 0 1 1
|x       |10000000|
|        |00000000|

rows become blank
4 8: put 0 0 1 a, put 1 0 0 b\u{4E2D}, put 2 0 2 c, put 3 0 3 d, blank 1 3
|a       |10000000|
|        |00000000|
|        |00000000|
|d       |30000000|

no row becomes blank
4 8: put 0 0 1 a, put 1 0 0 b\u{4E2D}, put 2 0 2 c, put 3 0 3 d, blank 4 4
|a       |10000000|
|b\u{4E2D}~     |00000000|
|c       |20000000|
|d       |30000000|

a selective erasure of whole rows
4 8: put 0 0 1 a, put 1 0 0 b\u{4E2D}, put 2 0 2 c, put 3 0 3 d, put 1 4 2 \u{4E2D}, blank-unguarded 0 3
|        |00000000|
|    \u{4E2D}~  |00002200|
|c       |20000000|
|d       |30000000|

every cell is one cell
4 8: put 0 0 1 a, put 1 0 0 b\u{4E2D}, put 2 0 2 c, put 3 0 3 d, fill E, up 2, put 3 7 1 x
|EEEEEEEE|00000000|
|EEEEEEEE|00000000|
|        |00000000|
|       x|00000001|

fewer columns cut a pair
2 8: put 0 0 1 123\u{4E2D}, size 2 4 0
|123 |1111|
|    |0000|

fewer columns leave a pair at the edge
2 8: put 0 0 3 12\u{4E2D}5, size 2 4 0
|12\u{4E2D}~|3333|
|    |0000|

fewer rows, after two have left at the top
4 8: put 0 0 1 a, put 1 0 0 b\u{4E2D}, put 2 0 2 c, put 3 0 3 d, size 2 8 2
|c       |20000000|
|d       |30000000|

fewer rows, cut at the bottom
4 8: put 0 0 1 a, put 1 0 0 b\u{4E2D}, put 2 0 2 c, put 3 0 3 d, size 2 8 0
|a       |10000000|
|b\u{4E2D}~     |00000000|

more rows and columns
2 8: put 1 6 2 \u{4E2D}, size 3 10 0
|          |0000000000|
|      \u{4E2D}~  |0000002200|
|          |0000000000|

all rows have left
4 8: put 0 0 1 a, put 1 0 0 b\u{4E2D}, put 2 0 2 c, put 3 0 3 d, size 2 8 9999
|        |00000000|
|        |00000000|

another size of rows that go round
4 8: put 0 0 1 a, put 1 0 0 b\u{4E2D}, put 2 0 2 c, put 3 0 3 d, up 3, put 3 0 0 e, size 3 5 1
|     |00000|
|     |00000|
|e    |00000|";

// Returns true if a row is that of a line, `|text|pens|`.
fn is_row(cells: &[Cell], line: &str) -> bool {
    let [_, text, pens, ..] = parts_of(line, '|');
    looks(cells, text, pens)
}

fn shows(ring: &Ring, rows: &str) -> bool {
    let mut lines = rows.lines();
    for i in 0..ring.rows() {
        if !is_row(ring.row(i), lines.next().unwrap_or("")) {
            return false;
        }
    }
    lines.next().is_none()
}

// A case on rows that begin so many rows later in the buffer.
fn plays(alloc: Global, ring: &mut Ring, turned: usize, acts: &str, rows: &str) -> bool {
    ring.scroll_up(turned);
    play(alloc, ring, acts) && shows(ring, rows)
}

fn is_played(alloc: Global, size: &str, turned: usize, acts: &str, rows: &str) -> bool {
    let Some((2, height, width, _, _)) = numbers(size) else {
        return false;
    };
    match made(alloc, height, width) {
        Ok(mut ring) => plays(alloc, &mut ring, turned, acts, rows),
        Err(_) => false,
    }
}

// Returns true if a case is true on new rows, and on rows that begin later in the buffer.
fn holds(alloc: Global, case: &str) -> bool {
    let (_, rest) = case.split_once('\n').unwrap_or((case, ""));
    let (line, rows) = rest.split_once('\n').unwrap_or((rest, ""));
    let (size, acts) = line.split_once(": ").unwrap_or((line, ""));
    is_played(alloc, size, 0, acts, rows) && is_played(alloc, size, 1, acts, rows)
}

#[test]
fn acts_leave_their_rows(rt: HostRuntime) {
    for case in CASES.split("\n\n") {
        assert!(rt; holds(rt.alloc(), case), "{case}");
    }
}

// The operations on blank rows of 2 by 8: the number of columns of the first row in use then, and the operations. No contract says this,
// and it decides the cost of scrolls and erasures.
const FRONTS: &str = "\
front 0: up 0
front 2: put 0 0 0 ab
front 5: put 0 3 0 \u{4E2D}
front 4: run 0 1 0 abc, put 0 0 0 x
front 3: run 0 0 0 abcdefgh, erase 0 3 8
front 8: run 0 0 0 abcdefgh, erase 0 3 6
front 3: run 0 0 0 abc, erase-unguarded 0 0 8
front 5: run 0 0 0 abc, insert 0 1 2
front 3: run 0 0 0 abc, insert 0 3 2
front 1: run 0 0 0 abc, delete 0 0 2
front 6: run 0 0 0 abc, join 0 5 \u{301}
front 3: run 1 0 0 abc, up 1
front 0: run 0 0 0 abcdefgh, region-up 0 1 1
front 5: run 0 0 0 abcdefgh, size 3 5 0";

// The text of a row; a column, and code points that join its character; and the row's columns then.
const JOINS: &str = "\
join ab|0|\u{301}|a\u{301}/b
join \u{4E2D}b|1|\u{301}|\u{4E2D}\u{301}//b
join a|0|\u{301}\u{302}\u{303}|a\u{301}\u{302}
join a|0|b|a
join a|7|\u{301}|a/ / / / / / / \u{301}";

fn is_front(alloc: Global, ring: &mut Ring, line: &str) -> bool {
    let (wanted, acts) = line.split_once(": ").unwrap_or((line, ""));
    play(alloc, ring, acts) && 0 < ring.rows() && number(wanted) == Some(ring.front_of_row(0).len())
}

fn is_cell(cell: &Cell, points: &str) -> bool {
    cell.chars().as_slice().iter().copied().eq(points.chars())
}

// Returns true if a row begins with cells of these code points.
fn has_cells(row: &[Cell], wanted: &str) -> bool {
    let mut cells = row.iter();
    for points in wanted.split('/') {
        match cells.next() {
            Some(cell) if is_cell(cell, points) => (),
            _ => return false,
        }
    }
    true
}

// Returns true if code points join so, and all becomes blank after.
fn are_joined(ring: &mut Ring, text: &str, col: usize, points: &str, cells: &str) -> bool {
    put(ring, 1, 0, text, 3)
        && join(ring, 1, col, points)
        && 1 < ring.rows()
        && has_cells(ring.row(1), cells)
        && blank(ring, "blank", 0, 2)
        && reads(ring.buffer(), "                ")
}

fn joins(ring: &mut Ring, line: &str) -> bool {
    let [text, col, points, cells, _] = parts_of(line, '|');
    matches!(number(col), Some(col) if are_joined(ring, text, col, points, cells))
}

fn is_line(alloc: Global, ring: &mut Ring, line: &str) -> bool {
    let (word, rest) = line.split_once(' ').unwrap_or((line, ""));
    match word {
        "front" => is_front(alloc, ring, rest),
        "join" => joins(ring, rest),
        _ => false,
    }
}

fn is_line_on_blank(alloc: Global, line: &str) -> bool {
    match Ring::new(alloc, 2, 8) {
        Ok(mut ring) => is_line(alloc, &mut ring, line),
        Err(_) => false,
    }
}

// The operations on three rows, one after another; the place of the first row then, and the buffer.
const ROUND: &str = "\
put 0 0 0 a, put 1 0 0 b, put 2 0 0 c|0|a       b       c       
up 1|1|        b       c       
put 2 0 0 d|1|d       b       c       
up 1|2|d               c       
region-up 0 2 1|2|                d       
down 2|0|                d       
down 1|2|                        
up 9999|2|                        
size 3 8 0|0|                        ";

fn goes_round(alloc: Global, ring: &mut Ring, line: &str) -> bool {
    let [acts, first, buffer, ..] = parts_of(line, '|');
    play(alloc, ring, acts) && number(first) == Some(ring.first()) && reads(ring.buffer(), buffer)
}

// Returns the first line after which the rows are in other places; empty if there is none.
fn first_astray(alloc: Global, ring: &mut Ring) -> &'static str {
    for line in ROUND.lines() {
        if !goes_round(alloc, ring, line) {
            return line;
        }
    }
    ""
}

fn first_astray_of_three(alloc: Global) -> &'static str {
    match Ring::new(alloc, 3, 8) {
        Ok(mut ring) => first_astray(alloc, &mut ring),
        Err(_) => "no memory",
    }
}

#[test]
fn a_row_is_lent_up_to_where_it_is_written(rt: HostRuntime) {
    for line in FRONTS.lines() {
        assert!(rt; is_line_on_blank(rt.alloc(), line), "{line}");
    }
}

#[test]
fn code_points_join_and_the_first_row_goes_round(rt: HostRuntime) {
    for line in JOINS.lines() {
        assert!(rt; is_line_on_blank(rt.alloc(), line), "{line}");
    }
    let astray = first_astray_of_three(rt.alloc());
    assert!(rt; astray.is_empty(), "{astray}");
}

// Returns true if rows, and memory for rows, are made of a size.
fn is_made(alloc: Global, rows: usize, cols: usize) -> bool {
    let size = (rows, cols);
    matches!(fitted(alloc, rows, cols), Some(fitted) if (fitted.rows(), fitted.cols()) == size)
        && matches!(made(alloc, rows, cols), Ok(ring) if (ring.rows(), ring.cols()) == size)
}

#[test]
fn memory_is_made_for_a_size(rt: HostRuntime) {
    for (rows, cols) in [(2, 4), (24, 80), (200, 500)] {
        assert!(rt; is_made(rt.alloc(), rows, cols), "{rows}");
    }
    laws::rows_of_the_buffer();
    laws::rows_stay_where_all_go_up();
    laws::rows_stay_where_all_go_down();
}
