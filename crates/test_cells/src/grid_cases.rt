//! The effect of operations on a grid, as text: cases with an empty line between them.
//!
//! A case has a name, and then a line as `2 8 mixed: CUP 1 1, ICH 1`: rows, columns, the operations before, and the operations. Then comes
//! each row with the look of its cells (`.` plain, `b` bold, `g` guarded, `B` both; empty if all are plain), and the cursor, `pending` with
//! a wrap.
use crate::grid_operations::{pair, play};
use crate::grid_trials::{Trial, stands};
use roam_cells::Cell;
use roam_grid::Grid;
use std::alloc::Global;

const MIXED: &str =
    "text ab, bold on, guard on, text \u{4E2D}, guard off, text e\u{301}, bold off, guard on, text fgh, guard off";

const CUT: &str = "text abc, bold on, guard on, text \u{4E2D}, bold off, guard off, text x";

const TWO: &str = "text a, guard on, text b, guard off, NEL, text c, guard on, text d, guard off";

const FOUR: &str = "text a, NEL, text b, NEL, text c, NEL, text d";

// Returns the operations before a case's own: none; a row of narrow, wide and joined cells, up to a pending wrap; a wide character in
// columns 4 and 5; two rows, guarded in part; four rows.
fn operations_before(start: &str) -> Option<&'static str> {
    match start {
        "blank" => Some(""),
        "mixed" => Some(MIXED),
        "cut" => Some(CUT),
        "two" => Some(TWO),
        "four" => Some(FOUR),
        _ => None,
    }
}

/// Returns true if cells have exactly these characters.
pub fn reads(row: &[Cell], wanted: &str) -> bool {
    let mut rest = wanted.chars();
    for cell in row {
        for c in cell.chars().as_slice() {
            if rest.next() != Some(*c) {
                return false;
            }
        }
    }
    rest.next().is_none()
}

fn sign_of(cell: &Cell) -> char {
    match (cell.style().bold, cell.guard()) {
        (false, false) => '.',
        (true, false) => 'b',
        (false, true) => 'g',
        (true, true) => 'B',
    }
}

fn looks(row: &[Cell], wanted: &str) -> bool {
    if wanted.is_empty() {
        return row.iter().all(|cell| sign_of(cell) == '.');
    }
    row.iter().map(|cell| sign_of(cell)).eq(wanted.chars())
}

// Returns true if a row is that of a line, `|text|signs|`.
fn is_row(cells: &[Cell], line: &str) -> bool {
    let mut parts = line.split('|').skip(1);
    reads(cells, parts.next().unwrap_or("?")) && looks(cells, parts.next().unwrap_or("?"))
}

fn is_cursor(grid: &Grid, line: &str) -> bool {
    let place = line.strip_suffix(" pending");
    pair(place.unwrap_or(line)) == Some(grid.cursor()) && grid.pending() == place.is_some()
}

// Returns true if the grid has these rows, and then this cursor.
fn shows(grid: &Grid, text: &str) -> bool {
    let mut lines = text.lines();
    for i in 0..grid.rows() {
        if !is_row(grid.row(i), lines.next().unwrap_or("")) {
            return false;
        }
    }
    is_cursor(grid, lines.next().unwrap_or("")) && lines.next().is_none()
}

/// Returns true if operations, done after those before them, lead to the grid of a text.
pub fn shows_after(
    alloc: Global,
    grid: &mut Grid,
    before: &str,
    operations: &str,
    text: &str,
) -> bool {
    play(alloc, grid, before) && play(alloc, grid, operations) && shows(grid, text)
}

/// Returns true if a case is true, on a new grid and on one whose first row was turned.
pub fn holds(alloc: Global, case: &str) -> bool {
    let (_, rest) = case.split_once('\n').unwrap_or((case, ""));
    let (line, text) = rest.split_once('\n').unwrap_or((rest, ""));
    let (start, operations) = line.split_once(": ").unwrap_or((line, ""));
    let (size, start) = start.rsplit_once(' ').unwrap_or((start, ""));
    let (Some(size), Some(before)) = (pair(size), operations_before(start)) else {
        return false;
    };
    stands(alloc, size, 0, Trial::Case(before, operations, text))
        && stands(alloc, size, 1, Trial::Case(before, operations, text))
}
