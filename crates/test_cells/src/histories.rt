//! The rows that left a screen: pushes, refits, refusals.
ghost use Rattle.std.specs.Prelude.{IsTrue};
ghost use Rattle.roam_cells.specs.Place.{IsWholeRow};

use crate::words::{looks, numbers, parts_of};
use roam_cells::{Cell, Fault, Style, is_well_formed};
use roam_history::{History, MOST_LINES, laws};
use std::alloc::{AllocError, Global};
use std::test::*;

// The style and the guard of a pen.
fn ink_of(pen: char) -> (Style, bool) {
    let mut style = Style::default();
    style.bold = pen == '1' || pen == '3';
    (style, pen == '2' || pen == '3')
}

fn add(cells: &mut Vec<Cell>, c: char, pen: char) -> Result<(), AllocError> {
    let (style, guard) = ink_of(pen);
    if let Some(cell) = Cell::of(&[c], style, guard) {
        cells.push(cell)?;
        if cell.is_wide() {
            cells.push(Cell::right_half(cell.style(), cell.guard()))?;
        }
    }
    Ok(())
}

// The pens of eight columns, all plain.
const PLAIN: &str = "00000000";

// The cells of these characters, each with its pen.
fn cells_of(alloc: Global, text: &str, pens: &str) -> Result<Vec<Cell>, AllocError> {
    let mut cells = Vec::new(alloc);
    for (c, pen) in text.chars().zip(pens.chars()) {
        add(&mut cells, c, pen)?;
    }
    Ok(cells)
}

fn is_whole_row(row: &[Cell]) -> bool
    ensures whole { IsTrue result → IsWholeRow row.now }
{
    row.is_empty() || is_well_formed(row, row.len())
}

// Pushes a row, or the front of one; nothing if it doesn't fit or ends in half a wide cell.
fn push(history: &mut History, front: &[Cell]) {
    if front.len() <= history.cols() && is_whole_row(front) {
        if front.len() == history.cols() {
            history.push_row(front);
        } else {
            history.push_front(front);
        }
    }
}

// The cells of a number, in all eight columns or in those that it takes.
fn numbered(alloc: Global, number: usize, is_whole: bool) -> Result<Vec<Cell>, AllocError> {
    let text = format!(in alloc; "{number}")?;
    let mut cells = cells_of(alloc, text.as_str(), PLAIN)?;
    if is_whole {
        cells.resize(8, Cell::blank())?;
    }
    Ok(cells)
}

// Rows of 8 columns with the numbers from 1 on, whole ones and fronts in turn.
fn counted(alloc: Global, lines: usize, rows: usize) -> Result<History, Fault> {
    let mut history = History::new(alloc, lines, 8)?;
    for k in 0..rows {
        let cells = numbered(alloc, k.saturating_add(1), k % 2 == 0)?;
        push(&mut history, &cells);
    }
    Ok(history)
}

// Returns true if a row shows these characters with these pens.
fn shows(history: &History, i: usize, text: &str, pens: &str) -> bool {
    matches!(history.row(i), Some(row) if looks(row, text, pens))
}

// Returns true if the history has so many rows, with the numbers from one on, in 8 columns.
fn counts(alloc: Global, history: &History, first: usize, len: usize) -> Result<bool, AllocError> {
    if history.len() != len || history.row(len).is_some() {
        return Ok(false);
    }
    for i in 0..len {
        let number = first.saturating_add(i);
        let text = format!(in alloc; "{number:<8}")?;
        if !shows(history, i, text.as_str(), PLAIN) {
            return Ok(false);
        }
    }
    Ok(true)
}

// The new columns of a history of one line of 8 columns, the length of its row in use then, and the pushed fronts. No contract says this,
// and it decides the cost of a push and a copy.
const FRONTS: &str = "\
front 8 3|abc
front 8 2|abcdefgh,ab
front 8 8|ab,abcdefgh
front 8 0|abcdefgh,
front 4 4|abcdef
front 250 6|abcdef";

// The kinds of lines. `kept`: of so many lines and pushed rows, the number of the oldest one that is kept, and how many are. `made` and
// `refused`: lines and columns. `stays`: columns that are refused to a history, which stays as it was. `cut`: from how many columns to how
// many; a row's characters and their pens; the row then, each column, a right half as `~`, and its pen. A pen is plain (0), bold (1),
// guarded (2) or both (3).
const ROWS: &str = "\
kept 0 0 1 0
kept 0 3 1 0
kept 1 0 1 0
kept 1 1 1 1
kept 1 3 3 1
kept 2 1 1 1
kept 2 2 1 2
kept 2 3 2 2
kept 2 6 5 2
kept 500 0 1 0
kept 500 499 1 499
kept 500 500 1 500
kept 500 501 2 500
kept 500 502 3 500
made 0 4
made 1 4
made 500 4
made 500 500
refused 500 3
refused 500 501
refused 501 80
refused 0 0
refused 501 3
refused max 80
refused 0 max
stays 0
stays 3
stays 501
stays max
cut 8 4|\u{4E2D}cdefgh|3000000|\u{4E2D}~cd|3300
cut 8 4|a\u{4E2D}defgh|0300000|a\u{4E2D}~d|0330
cut 8 4|ab\u{4E2D}efgh|0030000|ab\u{4E2D}~|0033
cut 8 4|abc\u{4E2D}fgh|0003000|abc |0003
cut 8 4|abcd\u{4E2D}gh|0000300|abcd|0000
cut 8 4|abcde\u{4E2D}h|0000030|abcd|0000
cut 8 4|abcdef\u{4E2D}|0000003|abcd|0000
cut 8 4|abc\u{4E2D}|1111|abc |1111
cut 5 4|abc\u{4E2D}|3332|abc |3332
cut 8 7|abcdef\u{4E2D}|0000001|abcdef |0000001
cut 8 8|abcdef\u{4E2D}|0000001|abcdef\u{4E2D}~|00000011
cut 8 10|abcdef\u{4E2D}|2222221|abcdef\u{4E2D}~  |2222221100
cut 8 5|\u{4E2D}\u{4E2D}\u{4E2D}\u{4E2D}|2222|\u{4E2D}~\u{4E2D}~ |22222
cut 8 5|ab|11|ab   |11000
cut 4 9|ab|11|ab       |110000000
cut 4 5|abcd|3333|abcd |33330
cut 6 4|||    |0000";

fn are_kept(
    alloc: Global,
    lines: usize,
    rows: usize,
    first: usize,
    len: usize,
) -> Result<bool, Fault> {
    let history = counted(alloc, lines, rows)?;
    Ok((history.lines(), history.cols()) == (lines, 8) && counts(alloc, &history, first, len)?)
}

fn is_made(alloc: Global, lines: usize, cols: usize) -> Result<bool, Fault> {
    let history = History::new(alloc, lines, cols)?;
    history.facts();
    Ok(history.lines() == lines && history.cols() == cols)
}

fn refuses(alloc: Global, history: &mut History, cols: usize) -> bool {
    history.refit(alloc, cols) == Err(Fault::BadSize)
        && matches!(history.fit(alloc, cols), Err(Fault::BadSize))
        && counts(alloc, history, 2, 2) == Ok(true)
}

fn stays(alloc: Global, cols: usize) -> bool {
    match counted(alloc, 2, 3) {
        Ok(mut history) => refuses(alloc, &mut history, cols),
        Err(_) => false,
    }
}

// Columns to which a history comes, by `refit`, or by `fit` and `adopt`.
fn refit(alloc: Global, history: &mut History, cols: usize, in_parts: bool) -> Result<(), Fault> {
    if !in_parts {
        return history.refit(alloc, cols);
    }
    let fitted = history.fit(alloc, cols)?;
    if fitted.lines() == history.lines() {
        history.adopt(fitted);
    }
    Ok(())
}

// Full of rows like this one, of which it keeps two.
fn full_of(alloc: Global, cols: usize, row: &[Cell]) -> Result<History, Fault> {
    let mut history = History::new(alloc, 2, cols)?;
    for _ in 0..3 {
        push(&mut history, row);
    }
    Ok(history)
}

// Returns true if both rows show a text with its pens, in so many columns.
fn shows_both(history: &History, cols: usize, text: &str, pens: &str) -> bool {
    let sized = history.len() == 2 && history.cols() == cols && history.lines() == 2;
    sized && shows(history, 0, text, pens) && shows(history, 1, text, pens)
}

fn refitted(
    alloc: Global,
    from: usize,
    to: usize,
    row: &[Cell],
    in_parts: bool,
) -> Result<History, Fault> {
    let mut history = full_of(alloc, from, row)?;
    refit(alloc, &mut history, to, in_parts)?;
    Ok(history)
}

fn is_cut(alloc: Global, line: &str, in_parts: bool) -> bool {
    let [columns, row, row_pens, text, pens] = parts_of(line, '|');
    match (numbers(columns), cells_of(alloc, row, row_pens)) {
        (Some((2, from, to, _, _)), Ok(cells)) =>
            matches!(refitted(alloc, from, to, &cells, in_parts), Ok(history) if shows_both(&history, to, text, pens)),
        _ => false,
    }
}

fn push_fronts(alloc: Global, history: &mut History, fronts: &str) -> Result<(), AllocError> {
    for front in fronts.split(',') {
        let cells = cells_of(alloc, front, PLAIN)?;
        push(history, &cells);
    }
    Ok(())
}

fn fronts_refitted(alloc: Global, fronts: &str, cols: usize) -> Result<History, Fault> {
    let mut history = History::new(alloc, 1, 8)?;
    push_fronts(alloc, &mut history, fronts)?;
    history.refit(alloc, cols)?;
    Ok(history)
}

fn has_front(history: &History, length: usize) -> bool {
    history.len() != 0 && history.front_of_row(0).len() == length
}

fn is_lent(alloc: Global, line: &str) -> bool {
    let (columns, fronts) = line.split_once('|').unwrap_or((line, ""));
    match numbers(columns) {
        Some((2, cols, length, _, _)) =>
            matches!(fronts_refitted(alloc, fronts, cols), Ok(history) if has_front(&history, length)),
        _ => false,
    }
}

fn is_sized(alloc: Global, word: &str, rest: &str) -> bool {
    match (word, numbers(rest)) {
        ("kept", Some((4, lines, rows, first, len))) => are_kept(alloc, lines, rows, first, len)
            == Ok(true),
        ("made", Some((2, lines, cols, _, _))) => is_made(alloc, lines, cols) == Ok(true),
        ("refused", Some((2, lines, cols, _, _))) => is_made(alloc, lines, cols)
            == Err(Fault::BadSize),
        ("stays", Some((1, cols, _, _, _))) => stays(alloc, cols),
        _ => false,
    }
}

fn holds(alloc: Global, line: &str) -> bool {
    let (word, rest) = line.split_once(' ').unwrap_or((line, ""));
    match word {
        "front" => is_lent(alloc, rest),
        "cut" => is_cut(alloc, rest, false) && is_cut(alloc, rest, true),
        _ => is_sized(alloc, word, rest),
    }
}

#[test]
fn a_row_is_lent_up_to_where_it_is_written(rt: HostRuntime) {
    for line in FRONTS.lines() {
        assert!(rt; holds(rt.alloc(), line), "{line}");
    }
}

#[test]
fn rows_of_histories(rt: HostRuntime) {
    for line in ROWS.lines() {
        assert!(rt; holds(rt.alloc(), line), "{line}");
    }
}

fn takes_a_size(alloc: Global, history: &mut History, cols: usize) -> bool {
    matches!(history.fit(alloc, cols), Ok(fitted) if (fitted.lines(), fitted.cols()) == (3, cols))
        && history.refit(alloc, cols) == Ok(())
        && (history.len(), history.lines(), history.cols()) == (3, 3, cols)
}

fn push_number(alloc: Global, history: &mut History, number: usize) -> bool {
    match numbered(alloc, number, false) {
        Ok(cells) => push(history, &cells),
        Err(_) => return false,
    }
    true
}

// Returns true if a history of four rows that takes three sizes goes on with a fifth.
fn goes_on(alloc: Global, history: &mut History) -> bool {
    takes_a_size(alloc, history, 4)
        && takes_a_size(alloc, history, 500)
        && takes_a_size(alloc, history, 8)
        && counts(alloc, history, 2, 3) == Ok(true)
        && push_number(alloc, history, 5)
        && counts(alloc, history, 3, 3) == Ok(true)
}

fn four_go_on(alloc: Global) -> bool {
    match counted(alloc, 3, 4) {
        Ok(mut history) => goes_on(alloc, &mut history),
        Err(_) => false,
    }
}

#[test]
fn rows_go_on_after_a_size(rt: HostRuntime) {
    assert!(rt; four_go_on(rt.alloc()) && MOST_LINES == 500);
    laws::nothing_was_pushed();
    laws::one_more_was_pushed();
    laws::all_were_refitted();
}

// Returns true if a history of two rows takes a size, or is unchanged if memory is refused.
fn is_refitted_or_stays(alloc: Global, history: &mut History) -> bool {
    match history.refit(alloc, 4) {
        Ok(()) => history.cols() == 4 && history.len() == 2,
        Err(fault) => fault == Fault::OutOfMemory && counts(alloc, history, 2, 2) == Ok(true),
    }
}

fn survives(alloc: Global) -> bool {
    match counted(alloc, 2, 3) {
        Ok(mut history) => is_refitted_or_stays(alloc, &mut history),
        Err(fault) => fault == Fault::OutOfMemory,
    }
}

// Each allocation refused in turn: the only fault is want of memory, and the rows stay.
#[test]
fn refused_memory_leaves_a_history(rt: HostRuntime) {
    assert!(rt; survives(rt.alloc()));
}
