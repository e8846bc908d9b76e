//! The columns of a row to write, and the beginning of its erased end: the columns that differ, and gaps that are shorter than a move.
ghost use Rattle.std.specs.Prelude.{◌≡◌, ℕ, ◌+◌, ◌<◌, ◌≤◌, length, slice_index_or, true, false, not};
ghost use Rattle.std.specs.Char.{encode_utf8};
ghost use Rattle.std.specs.List.{flat_map};
ghost use Rattle.roam_scroll_paint.specs.Counting.{digits_of, move_size};
ghost use Rattle.roam_cells.specs.Glyph.{blank};
ghost use Rattle.roam_cells.specs.Place.{glyph_at};
ghost use Rattle.roam_cells.specs.Same.{same};
ghost use Rattle.roam_scroll_paint.specs.Rows.{KeepsMarks};

use crate::doubts::is_doubtful;
use roam_cells::Cell;

/// The most columns of a gap that is written through.
const WIDEST_GAP: usize = 8;
/// The assumed cost of another style in a gap, in bytes.
const STYLE_COST: usize = 6;
/// The bytes of the longest CUP, ESC [ 200 ; 500 H.
const PLACING_COST: usize = 10;

/// Marks the columns in which two rows of one length differ, and no others.
pub fn mark_differences(marks: &mut [bool], over: &[Cell], cells: &[Cell])
    requires len { length marks.old ≡ length cells.now }
    requires same { length over.now ≡ length cells.now }
    ensures covers { (c : ℕ) → c < length cells.now → slice_index_or marks.new c false ≡ false
        → glyph_at over.now c ≡ glyph_at cells.now c }
    ensures differences { (c : ℕ) → c < length cells.now → slice_index_or marks.new c false
        ≡ not (same (glyph_at over.now c) (glyph_at cells.now c)) }
{
    for col in 0..cells.len() {
        marks[col] = is_other(&over[col], &cells[col]);
    }
}

fn is_other(one: &Cell, other: &Cell) -> bool
    ensures same { result ≡ false → one.now ≡ other.now }
    ensures other { result ≡ not (same one.now other.now) }
{
    !one.is_same(other)
}

// All columns from one on and before another are marked.
fn mark_between(marks: &mut [bool], from: usize, to: usize)
    requires inside { to ≤ length marks.old }
    ensures keeps { KeepsMarks marks.old marks.new }
{
    for col in from..to {
        marks[col] = true;
    }
}

/// The bytes of a cell.
pub fn bytes_of(cell: &Cell) -> usize
    ensures least { result ≤ length (flat_map encode_utf8 cell.now.points) }
{
    let mut bytes = 0usize;
    let points = cell.chars();
    for point in points.as_slice() {
        bytes = bytes.saturating_add(point.len_utf8());
    }
    bytes
}

// Returns the cost of another style.
fn style_cost(one: u64, other: u64) -> usize {
    if one == other { 0 } else { STYLE_COST }
}

// Returns the cost of what stands behind a cell: CUP if terminals disagree on its width.
fn doubt_cost(cell: &Cell) -> usize {
    if is_doubtful(cell) { PLACING_COST } else { 0 }
}

// Returns the cost of the columns from one on and before another: their bytes, the styles that only they need, and CUP behind doubtful
// cells.
fn gap_cost(cells: &[Cell], from: usize, to: usize) -> usize
    requires before { 0 < from }
    requires some { from < to }
    requires inside { to < length cells.now }
{
    let mut style = cells[from - 1].style_number();
    let last = cells[to].style_number();
    let without = style_cost(style, last);
    let mut cost = doubt_cost(&cells[from - 1]);
    for col in from..to {
        let next = cells[col].style_number();
        cost = cost.saturating_add(bytes_of(&cells[col]));
        cost = cost.saturating_add(doubt_cost(&cells[col]));
        cost = cost.saturating_add(style_cost(style, next));
        style = next;
    }
    cost.saturating_add(style_cost(style, last))
        .saturating_sub(without)
}

/// The digits of a number, and three of one above 999.
pub fn digits(number: usize) -> usize
    ensures digits { result ≡ digits_of number }
    ensures few { result ≤ 3 }
{
    if number < 10 {
        1
    } else if number < 100 {
        2
    } else {
        3
    }
}

/// Returns the cost of CUP to a row and a column, both from 0.
pub fn move_cost(row: usize, col: usize) -> usize
    requires few { (row < 1000) × (col < 1000) }
    ensures size { result ≡ move_size row col }
{
    4 + digits(row + 1) + digits(col + 1)
}

// Returns true if writing the columns from one on and before another costs less than a move over them, if something is written before.
fn is_gap(cells: &[Cell], row: usize, from: usize, to: usize) -> bool
    requires inside { to < length cells.now }
    requires few { (row < 1000) × (length cells.now < 1000) }
{
    0 < from
        && from < to
        && to - from <= WIDEST_GAP
        && gap_cost(cells, from, to) < move_cost(row, to)
}

// Marks a gap between the marked columns before one and those from another on, if it is one.
fn close_gap(marks: &mut [bool], cells: &[Cell], row: usize, from: usize, to: usize)
    requires len { length marks.old ≡ length cells.now }
    requires inside { to < length cells.now }
    requires few { (row < 1000) × (length cells.now < 1000) }
    ensures keeps { KeepsMarks marks.old marks.new }
{
    if is_gap(cells, row, from, to) {
        mark_between(marks, from, to);
    }
}

// One column, with the one behind the last that is marked; answers that behind it.
fn go_on(marks: &mut [bool], cells: &[Cell], row: usize, end: usize, col: usize) -> usize
    requires len { length marks.old ≡ length cells.now }
    requires inside { col < length cells.now }
    requires few { (row < 1000) × (length cells.now < 1000) }
    ensures keeps { KeepsMarks marks.old marks.new }
{
    if !marks[col] {
        return end;
    }
    close_gap(marks, cells, row, end, col);
    col + 1
}

/// Marks the gaps that are shorter than a move.
pub fn mark_gaps(marks: &mut [bool], cells: &[Cell], row: usize)
    requires len { length marks.old ≡ length cells.now }
    requires few { (row < 1000) × (length cells.now < 1000) }
    ensures keeps { KeepsMarks marks.old marks.new }
{
    let mut end = 0usize;
    for col in 0..cells.len() {
        end = go_on(marks, cells, row, end, col);
    }
}

/// Returns true if a cell is blank.
pub fn is_blank(cell: &Cell) -> bool
    ensures blank { result ≡ true → cell.now ≡ blank }
{
    cell.is_same(&Cell::blank())
}

/// The column from which on a row is blank.
pub fn blank_from(cells: &[Cell]) -> usize
    ensures inside { result ≤ length cells.now }
    ensures blanks { (c : ℕ) → result ≤ c → c < length cells.now → glyph_at cells.now c ≡ blank }
{
    let mut from = cells.len();
    while 0 < from && is_blank(&cells[from - 1]) {
        from -= 1;
    }
    from
}

// The first of three marked columns or more, from one on.
fn first_of_three(marks: &[bool], from: usize) -> Option<usize> {
    let mut first = None;
    let mut count = 0usize;
    for col in from..marks.len() {
        if marks[col] {
            count = count.saturating_add(1);
            if count == 1 {
                first = Some(col);
            }
        }
    }
    if count < 3 { None } else { first }
}

// Returns the column behind the last marked one before a column; 0 if there is none.
fn marked_before(marks: &[bool], to: usize) -> usize
    requires inside { to ≤ length marks.now }
    ensures before { result ≤ to }
{
    let mut end = to;
    while 0 < end && !marks[end - 1] {
        end -= 1;
    }
    end
}

// Returns the column at which the erasure from one column on may begin, if the first that differs is another: at the cursor, behind a gap,
// or at that other one.
fn erased_from(marks: &mut [bool], cells: &[Cell], row: usize, from: usize, first: usize) -> usize
    requires len { length marks.old ≡ length cells.now }
    requires from { from ≤ length cells.now }
    requires few { (row < 1000) × (length cells.now < 1000) }
    ensures keeps { KeepsMarks marks.old marks.new }
    ensures inside { (from ≤ result) × (result ≤ length cells.now) }
{
    let end = marked_before(marks, from);
    if 0 < end && end == from {
        return from;
    }
    if from < cells.len() && is_gap(cells, row, end, from) {
        mark_between(marks, end, from);
        return from;
    }
    first.max(from).min(cells.len())
}

/// Returns the column from which on a row is erased, and the one behind the last if it isn't.
///
/// A row is erased if three columns or more of its blank end are marked.
pub fn end_of(marks: &mut [bool], cells: &[Cell], row: usize) -> usize
    requires len { length marks.old ≡ length cells.now }
    requires few { (row < 1000) × (length cells.now < 1000) }
    ensures keeps { KeepsMarks marks.old marks.new }
    ensures inside { result ≤ length cells.now }
    ensures blanks { (c : ℕ) → result ≤ c → c < length cells.now → glyph_at cells.now c ≡ blank }
{
    let from = blank_from(cells);
    match first_of_three(marks, from) {
        Some(first) => erased_from(marks, cells, row, from, first),
        None => cells.len(),
    }
}
