//! Writes, moves, erasures and scrolls on a grid, as cases of a text, on new grids and with the first row turned; and new grids.
use crate::grid_cases::{holds, reads};
use crate::grid_operations::play;
use crate::grid_trials::{Trial, stands};
use crate::words::number;
use roam_cells::{Cell, Fault};
use roam_grid::{Grid, Writing};
use std::alloc::Global;
use std::test::*;

const WRITING: &str = "\
two lines
2 8 blank: text abc, NEL, text def
|abc     ||
|def     ||
2 4

the first of three lines is scrolled out
2 8 blank: text a, NEL, text b, NEL, text c
|b       ||
|c       ||
2 2

ED to the cursor
2 8 blank: text abcd, CUP 1 3, ED start
|   d    ||
|        ||
1 3

CUP past the last row
2 8 blank: CUP 99999 1, text x
|        ||
|x       ||
2 2

a full row
2 8 blank: text abcdefgh
|abcdefgh||
|        ||
1 8 pending

one more than a full row
2 8 blank: text abcdefghi
|abcdefgh||
|i       ||
2 2

a wide character past the last column
2 8 blank: text 1234567\u{4E2D}
|1234567 ||
|\u{4E2D}      ||
2 3

the same without DECAWM
2 8 blank: wraps off, text 1234567\u{4E2D}
|123456\u{4E2D}||
|        ||
1 8

a fourth code point is dropped
2 8 blank: text a\u{301}\u{301}\u{301}\u{301}
|a\u{301}\u{301}       ||
|        ||
1 2

a left half is overwritten
2 8 blank: text \u{4E2D}, CUP 1 1, text x
|x       ||
|        ||
1 2

a right half is overwritten
2 8 blank: text \u{4E2D}, CUP 1 2, text y
| y      ||
|        ||
1 3

EL at a pending wrap
2 8 blank: text abcdefgh, EL end, text x
|abcdefgx||
|        ||
1 8 pending

CUD stops at the bottom margin
6 8 blank: DECSTBM 2 4, CUP 1 1, CUD 9999
|        ||
|        ||
|        ||
|        ||
|        ||
|        ||
4 1

CUD below the bottom margin stops at the last row
6 8 blank: DECSTBM 2 4, CUP 5 1, CUD 9999
|        ||
|        ||
|        ||
|        ||
|        ||
|        ||
6 1

CUU stops at the top margin, and above it at the first row
6 8 blank: DECSTBM 3 5, CUP 4 1, CUU 9, text a, CUP 2 1, CUU 9, text b
|b       ||
|        ||
|a       ||
|        ||
|        ||
|        ||
1 2

CUF and CUB stop at the edges
2 8 blank: CUF max, text z, CUB 3, text y, CUB max, text x
|x   y  z||
|        ||
1 2

BS from a pending wrap, and in the first column
2 8 blank: BS, text abcdefgh, BS, text x
|abcdefxh||
|        ||
1 8

LF on the bottom margin scrolls between the margins
6 8 blank: text a, NEL, text b, NEL, text c, NEL, text d, NEL, text e, DECSTBM 2 4, CUP 4 1, NEL
|a       ||
|c       ||
|d       ||
|        ||
|e       ||
|        ||
4 1

LF on the last row below the margins
3 8 blank: DECSTBM 1 2, CUP 3 1, text a, NEL, text b
|        ||
|        ||
|b       ||
3 2

rows go up between the margins, and down again
6 8 blank: text a, NEL, text b, NEL, text c, NEL, text d, NEL, text e, DECSTBM 2 5, SU 2, SU 0, SD 1
|a       ||
|        ||
|d       ||
|e       ||
|        ||
|        ||
5 2

more rows than there are go out
2 8 blank: text a, SD 9999, text b, SU 9999
|        ||
|        ||
1 3

a scroll keeps the pending wrap
2 8 blank: text abcdefgh, SD 1, text i
|        ||
|ibcdefgh||
2 2

ED from the cursor on, in a wide character
3 8 blank: text ab\u{4E2D}, NEL, text cd, NEL, text ef, CUP 1 4, ED end
|ab      ||
|        ||
|        ||
1 4

ED of all takes guarded cells too
2 8 blank: guard on, text ab, guard off, NEL, text c, ED all
|        ||
|        ||
2 2

EL to the cursor and of all
2 8 blank: text abcd, CUP 1 2, EL start, CUP 2 1, text xyz, EL all
|  cd    ||
|        ||
2 4

a run over three rows
2 8 blank: run abcdefghijklmnopqrst
|ijklmnop||
|qrst    ||
2 5

a run to the last column, and one from its pending wrap
2 8 blank: run abcdefgh, run ijklmnop
|abcdefgh||
|ijklmnop||
2 8 pending

a run without DECAWM
2 8 blank: wraps off, run abcdefghij, run 
|abcdefgj||
|        ||
1 8

a run parts the wide characters at its ends
2 8 blank: text \u{4E2D}\u{4E2D}\u{4E2D}, CUP 1 2, run abcd
| abcd   ||
|        ||
1 6

a character of width 0 joins the left half of the pair before it, and at a pending wrap the last
2 4 blank: text \u{301}\u{4E2D}\u{301}ab\u{302}
|\u{4E2D}\u{301}ab\u{302}||
|    ||
1 4 pending

in the last column without DECAWM it joins the column before
2 4 blank: wraps off, text abcd\u{301}
|abc\u{301}d||
|    ||
1 4";

#[test]
fn acts_leave_their_screens(rt: HostRuntime) {
    for case in WRITING.split("\n\n") {
        assert!(rt; holds(rt.alloc(), case), "{case}");
    }
}

// Returns the rows and the columns of a new grid, or its refusal.
fn size_made(alloc: Global, rows: usize, cols: usize) -> Result<(usize, usize), Fault> {
    let grid = Grid::new(alloc, rows, cols)?;
    Ok((grid.rows(), grid.cols()))
}

/// Returns true if a new grid is of this size.
pub fn is_made(grid: &Grid, rows: usize, cols: usize) -> bool {
    (grid.rows(), grid.cols()) == (rows, cols)
        && grid.buffer().len() == rows.saturating_mul(cols)
        && grid.cursor() == (1, 1)
        && grid.margins() == (0, rows.saturating_sub(1))
        && grid.first() == 0
}

#[test]
fn sizes_in_the_limits_alone_are_made(rt: HostRuntime) {
    for (rows, cols) in [
        (1, 8),
        (201, 8),
        (2, 3),
        (2, 501),
        (0, 0),
        (usize::MAX, usize::MAX),
    ] {
        assert_eq!(rt;
            size_made(rt.alloc(), rows, cols),
            Err(Fault::BadSize),
            "{rows} by {cols}"
        );
    }
    for (rows, cols) in [(2, 4), (24, 80), (200, 500)] {
        assert!(rt;
            stands(rt.alloc(), (rows, cols), 0, Trial::Made(rows, cols)),
            "{rows}"
        );
        assert!(rt;
            stands(rt.alloc(), (rows, cols), 0, Trial::BeginsMarked),
            "{rows}"
        );
    }
}

// Ten lines on three rows: seven scroll.
fn write_lines(grid: &mut Grid) {
    let writing = Writing {
        wraps: true,
        inserts: false,
    };
    for k in 0..10u8 {
        grid.put_run(Cell::blank(), &[b'0' + k], writing);
        if k < 9 {
            grid.carriage_return();
            grid.index();
        }
    }
}

// The first rows after five rows that scrolled up, one that scrolled down, and ten lines.
fn first_rows(grid: &mut Grid) -> [usize; 3] {
    for _ in 0..5 {
        grid.scroll_up(1);
    }
    let up = grid.first();
    grid.scroll_down(1);
    let down = grid.first();
    write_lines(grid);
    [up, down, grid.first()]
}

/// Returns true if the first row moves around the buffer; rows that scroll between margins leave it in place.
pub fn goes_round(alloc: Global, grid: &mut Grid) -> bool {
    first_rows(grid) == [2, 1, 2]
        && reads(grid.buffer(), "8       9       7       ")
        && play(alloc, grid, "DECSTBM 1 2, SU 1")
        && grid.first() == 2
}

// The operations on 2 by 8; the columns of the next character, whether it wraps (DECAWM), and whether a row leaves. The cases are the row
// above the bottom margin, one column left, two columns wanted, no DECAWM, and a pending wrap.
const LEAVES: &str = "\
CUP 1 8|2|wraps|stays
CUP 1 8, CUP 2 7, text a|1|wraps|stays
CUP 1 8, CUP 2 7, text a|2|wraps|leaves
CUP 1 8, CUP 2 7, text a|2|stands|stays
CUP 1 8, CUP 2 7, text a, text b|1|wraps|leaves";

/// Returns true if a row leaves as a line says.
pub fn leaves_so(alloc: Global, grid: &mut Grid, line: &str) -> bool {
    let (operations, rest) = line.split_once('|').unwrap_or((line, ""));
    let (columns, rest) = rest.split_once('|').unwrap_or((rest, ""));
    let writing = Writing {
        wraps: rest.starts_with("wraps|"),
        inserts: false,
    };
    play(alloc, grid, operations)
        && matches!(number(columns), Some(columns) if grid.leaves(columns, writing) == rest.ends_with("|leaves"))
}

#[test]
fn the_first_row_goes_round_and_a_row_leaves(rt: HostRuntime) {
    assert!(rt; stands(rt.alloc(), (3, 8), 0, Trial::FirstRow), "first row");
    for line in LEAVES.lines() {
        assert!(rt;
            stands(rt.alloc(), (2, 8), 0, Trial::Leaves(line)),
            "{line}"
        );
    }
}
