//! Tests of marks: the rows that each call marks.
//!
//! A line has a name; the operations on a grid of 5 rows and 8 columns before its marks are cleared, and after; and the marked rows, from
//! 1.
use crate::grid_operations::play;
use crate::grid_trials::{Trial, stands};
use crate::words::number;
use roam_grid::Grid;
use std::alloc::Global;
use std::test::*;

// Writing, joining, moves, scrolls, edits, and changes of the whole screen.
const LINES: &str = "\
nothing|||
a character||CUP 3 1, text a|3
the same character again|text a|CUP 1 1, text a|1
a wide character||CUP 4 2, text \u{5168}|4
a wrap|CUP 2 8, text a|text b|3
a wrap on the last row|CUP 5 8, text a|text b|1 2 3 4 5
a wrap on the bottom margin|DECSTBM 2 4, CUP 4 8, text a|text b|2 3 4
a wrap on the last row below the margins|DECSTBM 2 4, CUP 5 8, text a|text b|5
a wide character in the last column|CUP 2 8|text \u{5168}|3
a wide character in the last column of the bottom margin|DECSTBM 3 4, CUP 4 8|text \u{5168}|3 4
a wide character in the last column without DECAWM|wraps off, insert off, CUP 2 8|wraps off, insert off, text \u{5168}|2
a character under IRM|text abc, CUP 1 1|wraps on, insert on, text d|1
a run||CUP 2 3, run abc|2
a run up to the last column||CUP 2 1, run abcdefgh|2
a run over two rows||CUP 2 7, run abc|2 3
a run that scrolls|DECSTBM 1 3|CUP 3 7, run abc|1 2 3
a run under IRM||wraps on, insert on, CUP 4 7, run abc|4 5
a joiner|CUP 2 1, text e|text \u{301}|2
a joiner in the first column||text \u{301}|
a joiner of a wide character|CUP 3 1, text \u{5168}|text \u{301}|3
a fourth code point|text e\u{301}\u{302}|text \u{303}|
a joiner where a wrap pends|CUP 2 8, text e|text \u{301}|2
moves of the cursor|text abc|moves, CUP 9999 9999|
margins and tab stops|text abc|DECSTBM 2 4, HTS, TBC 0, TBC 3|
IND above the bottom margin||IND|
IND on the last row|CUP 5 1|IND|1 2 3 4 5
IND on the bottom margin|DECSTBM 2 4, CUP 4 1|IND|2 3 4
IND on the last row below the margins|DECSTBM 2 4, CUP 5 1|IND|
RI below the top margin|CUP 2 1|RI|
RI on the top margin|DECSTBM 2 4, CUP 2 1|RI|2 3 4
RI on the first row above the margins|DECSTBM 2 4, CUP 1 1|RI|
SU with full margins||SU 1|1 2 3 4 5
SU within margins|DECSTBM 2 3|SU 1|2 3
SU by more rows than there are|DECSTBM 2 4|SU 9999|2 3 4
SU by none||SU 0|
SD within margins|DECSTBM 3 5|SD 2|3 4 5
SD by none||SD 0|
IL between the margins|DECSTBM 2 4, CUP 3 1|IL 1|3 4
IL above the margins|DECSTBM 2 4, CUP 1 1|IL 1|
DL on the bottom margin|DECSTBM 2 4, CUP 4 1|DL 9999|4
DL below the margins|DECSTBM 2 4, CUP 5 1|DL 1|
ICH|CUP 2 8|ICH 1|2
ICH of none|CUP 2 8|ICH 0|
DCH|CUP 3 1|DCH 9999|3
ECH of blank cells|CUP 5 4|ECH 1|5
EL|CUP 4 4|EL start|4
ED to the end|CUP 3 4|ED end|3 4 5
ED to the start|CUP 3 4|ED start|1 2 3
ED of all|CUP 3 4|ED all|1 2 3 4 5
DECSEL where all cells are guarded|text ab, guard on, text cdefgh, guard off, CUP 1 3|DECSEL end|
DECSEL where one isn't|text ab, guard on, text cdefgh, guard off, CUP 1 2|DECSEL end|1
DECSED round a guarded row|CUP 2 1, guard on, text abcdefgh, guard off, CUP 1 8|DECSED end|1 3 4 5
DECSED to the start, of a row guarded up to the cursor|CUP 3 1, guard on, text abcd, guard off, CUP 3 4|DECSED start|1 2
DECALN||DECALN|1 2 3 4 5
every cell blanked||blank|1 2 3 4 5
RIS||restart|1 2 3 4 5
all put on||mark|1 2 3 4 5
marks stay on||text a, CUP 4 1, text b, moves|1 4";

fn is_marked(row: usize, marked: &str) -> bool {
    for word in marked.split(' ') {
        if number(word) == Some(row) {
            return true;
        }
    }
    false
}

fn marks_are(grid: &Grid, marked: &str) -> bool {
    for (i, on) in grid.marks().iter().enumerate() {
        if *on != is_marked(i.saturating_add(1), marked) {
            return false;
        }
    }
    true
}

/// Returns true if operations mark these rows, done after those before them.
pub fn marks_so(
    alloc: Global,
    grid: &mut Grid,
    before: &str,
    operations: &str,
    marked: &str,
) -> bool {
    let played = play(alloc, grid, before);
    grid.clear_marks();
    played && play(alloc, grid, operations) && marks_are(grid, marked)
}

// Returns true if a line is true on a new grid, and on ones whose first row is turned, since marks are of rows of the screen.
fn holds(alloc: Global, line: &str) -> bool {
    let (_, rest) = line.split_once('|').unwrap_or((line, ""));
    let (before, rest) = rest.split_once('|').unwrap_or((rest, ""));
    let (operations, marked) = rest.split_once('|').unwrap_or((rest, "?"));
    for turned in 0..3usize {
        if !stands(
            alloc,
            (5, 8),
            turned,
            Trial::Marks(before, operations, marked),
        ) {
            return false;
        }
    }
    true
}

#[test]
fn operations_mark_their_rows(rt: HostRuntime) {
    for line in LINES.lines() {
        assert!(rt; holds(rt.alloc(), line), "{line}");
    }
    assert!(rt; stands(rt.alloc(), (5, 8), 0, Trial::AllMarks));
}

fn all_are(grid: &Grid, on: bool) -> bool {
    grid.marks().len() == grid.rows() && grid.marks().iter().all(|marked| *marked == on)
}

/// Returns true if all marks of a new grid are on, and off once they are cleared.
pub fn begins_marked(grid: &mut Grid) -> bool {
    let marked = all_are(grid, true);
    grid.clear_marks();
    marked && all_are(grid, false)
}

fn frame_marks(grid: &mut Grid, other: &Grid) -> bool {
    grid.clear_marks();
    if grid.rows() == other.rows() && grid.cols() == other.cols() {
        grid.take_frame(other);
    }
    all_are(grid, true)
}

fn size_marks(alloc: Global, grid: &mut Grid, rows: usize, cols: usize) -> bool {
    grid.clear_marks();
    match Grid::fit(alloc, rows, cols) {
        Ok(fitted) => grid.adopt(fitted, 0),
        Err(_) => return false,
    }
    grid.rows() == rows && all_are(grid, true)
}

/// Returns true if another frame and another size mark all rows of a grid of 5 by 8.
pub fn are_all_after(alloc: Global, grid: &mut Grid) -> bool {
    matches!(Grid::new(alloc, 5, 8), Ok(other) if frame_marks(grid, &other))
        && size_marks(alloc, grid, 3, 8)
        && size_marks(alloc, grid, 7, 8)
        && size_marks(alloc, grid, 5, 4)
}
