//! Each operation of a grid at the edges, at the margins and outside them, for counts from none to the largest, on rows of narrow, wide and
//! joined cells in two styles and guards. Cells are compared with style and guard.
use crate::grid_cases::holds;
use crate::grid_trials::{Trial, stands};
use roam_cells::Fault;
use roam_grid::Grid;
use std::alloc::Global;
use std::test::*;

// ICH and DCH; ECH, EL, ED and their selective forms; IL and DL; SU, SD, IND and RI; IRM, joining, whole screens and other sizes; HT, CHT,
// CBT, HTS and TBC.
const CASES: &str = "\
ICH of no cell
2 8 mixed: CUP 1 1, ICH 0
|ab\u{4E2D}e\u{301}fgh|..BBbggg|
|        |........|
1 1

ICH in the first column
2 8 mixed: CUP 1 1, ICH 1
| ab\u{4E2D}e\u{301}fg|...BBbgg|
|        |........|
1 1

ICH at a right half
2 8 mixed: CUP 1 4, ICH 1
|ab   e\u{301}fg|..B.Bbgg|
|        |........|
1 4

ICH in the last column
2 8 mixed: CUP 1 8, ICH 1
|ab\u{4E2D}e\u{301}fg |..BBbgg.|
|        |........|
1 8

ICH of 8 cells
2 8 mixed: CUP 1 1, ICH 8
|        |........|
|        |........|
1 1

ICH of 9 cells
2 8 mixed: CUP 1 1, ICH 9
|        |........|
|        |........|
1 1

ICH of 9999 cells
2 8 mixed: CUP 1 1, ICH 9999
|        |........|
|        |........|
1 1

ICH of usize::MAX cells
2 8 mixed: CUP 1 1, ICH max
|        |........|
|        |........|
1 1

ICH that moves the last half off the row
2 8 mixed: CUP 1 1, ICH 5
|     ab |.......B|
|        |........|
1 1

ICH clears a pending wrap
2 8 mixed: ICH 0
|ab\u{4E2D}e\u{301}fgh|..BBbggg|
|        |........|
1 8

DCH of no cell
2 8 mixed: CUP 1 1, DCH 0
|ab\u{4E2D}e\u{301}fgh|..BBbggg|
|        |........|
1 1

DCH in the first column
2 8 mixed: CUP 1 1, DCH 1
|b\u{4E2D}e\u{301}fgh |.BBbggg.|
|        |........|
1 1

DCH of a left half
2 8 mixed: CUP 1 3, DCH 1
|ab e\u{301}fgh |..Bbggg.|
|        |........|
1 3

DCH of a right half
2 8 mixed: CUP 1 4, DCH 1
|ab e\u{301}fgh |..Bbggg.|
|        |........|
1 4

DCH of a whole character
2 8 mixed: CUP 1 3, DCH 2
|abe\u{301}fgh  |..bggg..|
|        |........|
1 3

DCH in the last column
2 8 mixed: CUP 1 8, DCH 9999
|ab\u{4E2D}e\u{301}fg |..BBbgg.|
|        |........|
1 8

DCH of 8 cells
2 8 mixed: CUP 1 1, DCH 8
|        |........|
|        |........|
1 1

DCH of 9 cells
2 8 mixed: CUP 1 1, DCH 9
|        |........|
|        |........|
1 1

DCH of 9999 cells
2 8 mixed: CUP 1 1, DCH 9999
|        |........|
|        |........|
1 1

DCH of usize::MAX cells
2 8 mixed: CUP 1 1, DCH max
|        |........|
|        |........|
1 1

DCH clears a pending wrap
2 8 mixed: DCH 0
|ab\u{4E2D}e\u{301}fgh|..BBbggg|
|        |........|
1 8

ECH in the first column
2 8 mixed: CUP 1 1, ECH 1
| b\u{4E2D}e\u{301}fgh|..BBbggg|
|        |........|
1 1

ECH of a left half
2 8 mixed: CUP 1 3, ECH 1
|ab  e\u{301}fgh|...Bbggg|
|        |........|
1 3

ECH of a right half
2 8 mixed: CUP 1 4, ECH 1
|ab  e\u{301}fgh|..B.bggg|
|        |........|
1 4

ECH at a pending wrap
2 8 mixed: ECH 9999
|ab\u{4E2D}e\u{301}fg |..BBbgg.|
|        |........|
1 8

ECH of 8 cells
2 8 mixed: CUP 1 1, ECH 8
|        |........|
|        |........|
1 1

ECH of 9 cells
2 8 mixed: CUP 1 1, ECH 9
|        |........|
|        |........|
1 1

ECH of 9999 cells
2 8 mixed: CUP 1 1, ECH 9999
|        |........|
|        |........|
1 1

ECH of usize::MAX cells
2 8 mixed: CUP 1 1, ECH max
|        |........|
|        |........|
1 1

EL to the end from a left half
2 8 mixed: CUP 1 3, EL end
|ab      |........|
|        |........|
1 3

EL to the end from a right half
2 8 mixed: CUP 1 4, EL end
|ab      |..B.....|
|        |........|
1 4

EL to the start up to a left half
2 8 mixed: CUP 1 3, EL start
|    e\u{301}fgh|...Bbggg|
|        |........|
1 3

EL of the row takes guarded cells too
2 8 mixed: CUP 1 5, EL all
|        |........|
|        |........|
1 5

DECSEL to the end leaves guarded cells
2 8 mixed: CUP 1 1, DECSEL end
|  \u{4E2D} fgh|..BB.ggg|
|        |........|
1 1

DECSEL to the start leaves guarded cells
2 8 mixed: CUP 1 5, DECSEL start
|  \u{4E2D} fgh|..BB.ggg|
|        |........|
1 5

DECSEL to the end from behind
2 8 mixed: CUP 1 6, DECSEL end
|ab\u{4E2D}e\u{301}fgh|..BBbggg|
|        |........|
1 6

DECSEL of the row at a pending wrap
2 8 mixed: DECSEL all
|  \u{4E2D} fgh|..BB.ggg|
|        |........|
1 8

ED to the end
2 8 two: CUP 1 2, ED end
|a       |........|
|        |........|
1 2

ED to the start
2 8 two: CUP 2 1, ED start
|        |........|
| d      |.g......|
2 1

ED of the page takes guarded cells too
2 8 two: CUP 2 1, ED all
|        |........|
|        |........|
2 1

DECSED of the page leaves guarded cells
2 8 two: CUP 1 1, DECSED all
| b      |.g......|
| d      |.g......|
1 1

DECSED to the end leaves what stands before
2 8 two: CUP 2 1, DECSED end
|ab      |.g......|
| d      |.g......|
2 1

DECSED to the start leaves what stands behind
2 8 two: CUP 1 1, DECSED start
| b      |.g......|
|cd      |.g......|
1 1

IL of no line
4 8 four: CUP 2 3, IL 0
|a       |........|
|b       |........|
|c       |........|
|d       |........|
2 1

IL
4 8 four: CUP 2 3, IL 1
|a       |........|
|        |........|
|b       |........|
|c       |........|
2 1

IL of 3 lines
4 8 four: CUP 2 1, IL 3
|a       |........|
|        |........|
|        |........|
|        |........|
2 1

IL of 4 lines
4 8 four: CUP 2 1, IL 4
|a       |........|
|        |........|
|        |........|
|        |........|
2 1

IL of 9999 lines
4 8 four: CUP 2 1, IL 9999
|a       |........|
|        |........|
|        |........|
|        |........|
2 1

IL of usize::MAX lines
4 8 four: CUP 2 1, IL max
|a       |........|
|        |........|
|        |........|
|        |........|
2 1

IL in the last row
4 8 four: CUP 4 1, IL 1
|a       |........|
|b       |........|
|c       |........|
|        |........|
4 1

IL between margins
4 8 four: DECSTBM 2 3, CUP 2 1, IL 1
|a       |........|
|        |........|
|b       |........|
|d       |........|
2 1

IL on the bottom margin
4 8 four: DECSTBM 2 3, CUP 3 1, IL 5
|a       |........|
|b       |........|
|        |........|
|d       |........|
3 1

IL above the margins
4 8 four: DECSTBM 2 3, CUP 1 1, IL 1
|a       |........|
|b       |........|
|c       |........|
|d       |........|
1 1

IL below the margins
4 8 four: DECSTBM 2 3, CUP 4 1, IL 1
|a       |........|
|b       |........|
|c       |........|
|d       |........|
4 1

DL of no line
4 8 four: CUP 2 3, DL 0
|a       |........|
|b       |........|
|c       |........|
|d       |........|
2 1

DL
4 8 four: CUP 2 3, DL 1
|a       |........|
|c       |........|
|d       |........|
|        |........|
2 1

DL of 3 lines
4 8 four: CUP 2 1, DL 3
|a       |........|
|        |........|
|        |........|
|        |........|
2 1

DL of 4 lines
4 8 four: CUP 2 1, DL 4
|a       |........|
|        |........|
|        |........|
|        |........|
2 1

DL of 9999 lines
4 8 four: CUP 2 1, DL 9999
|a       |........|
|        |........|
|        |........|
|        |........|
2 1

DL of usize::MAX lines
4 8 four: CUP 2 1, DL max
|a       |........|
|        |........|
|        |........|
|        |........|
2 1

DL between margins
4 8 four: DECSTBM 2 3, CUP 2 1, DL 1
|a       |........|
|c       |........|
|        |........|
|d       |........|
2 1

DL on the bottom margin
4 8 four: DECSTBM 2 3, CUP 3 1, DL 5
|a       |........|
|b       |........|
|        |........|
|d       |........|
3 1

DL above the margins
4 8 four: DECSTBM 2 3, CUP 1 1, DL 1
|a       |........|
|b       |........|
|c       |........|
|d       |........|
1 1

DL below the margins
4 8 four: DECSTBM 2 3, CUP 4 1, DL 1
|a       |........|
|b       |........|
|c       |........|
|d       |........|
4 1

IL outside the margins clears a pending wrap
4 8 four: DECSTBM 2 3, CUP 1 8, text z, IL 1
|a      z|........|
|b       |........|
|c       |........|
|d       |........|
1 8

DL outside the margins clears a pending wrap
4 8 four: DECSTBM 2 3, CUP 4 8, text z, DL 1
|a       |........|
|b       |........|
|c       |........|
|d      z|........|
4 8

SU by 0
4 8 four: CUP 2 2, SU 0
|a       |........|
|b       |........|
|c       |........|
|d       |........|
2 2

SU by 1
4 8 four: CUP 2 2, SU 1
|b       |........|
|c       |........|
|d       |........|
|        |........|
2 2

SU by 3
4 8 four: CUP 2 2, SU 3
|d       |........|
|        |........|
|        |........|
|        |........|
2 2

SU by 4
4 8 four: CUP 2 2, SU 4
|        |........|
|        |........|
|        |........|
|        |........|
2 2

SU by 5
4 8 four: CUP 2 2, SU 5
|        |........|
|        |........|
|        |........|
|        |........|
2 2

SU by usize::MAX
4 8 four: CUP 2 2, SU max
|        |........|
|        |........|
|        |........|
|        |........|
2 2

SD by 0
4 8 four: CUP 2 2, SD 0
|a       |........|
|b       |........|
|c       |........|
|d       |........|
2 2

SD by 1
4 8 four: CUP 2 2, SD 1
|        |........|
|a       |........|
|b       |........|
|c       |........|
2 2

SD by 3
4 8 four: CUP 2 2, SD 3
|        |........|
|        |........|
|        |........|
|a       |........|
2 2

SD by 4
4 8 four: CUP 2 2, SD 4
|        |........|
|        |........|
|        |........|
|        |........|
2 2

SD by 5
4 8 four: CUP 2 2, SD 5
|        |........|
|        |........|
|        |........|
|        |........|
2 2

SD by usize::MAX
4 8 four: CUP 2 2, SD max
|        |........|
|        |........|
|        |........|
|        |........|
2 2

SU between margins
4 8 four: DECSTBM 2 3, CUP 1 1, SU 1
|a       |........|
|c       |........|
|        |........|
|d       |........|
1 1

SD between margins
4 8 four: DECSTBM 2 3, CUP 1 1, SD 9999
|a       |........|
|        |........|
|        |........|
|d       |........|
1 1

RI on the top margin
4 8 four: DECSTBM 2 3, CUP 2 4, RI
|a       |........|
|        |........|
|b       |........|
|d       |........|
2 4

RI below the top margin
4 8 four: DECSTBM 2 3, CUP 4 4, RI
|a       |........|
|b       |........|
|c       |........|
|d       |........|
3 4

RI in the first row above the margin
4 8 four: DECSTBM 2 3, CUP 1 4, RI
|a       |........|
|b       |........|
|c       |........|
|d       |........|
1 4

IND on the bottom margin
4 8 four: DECSTBM 2 3, CUP 3 4, IND
|a       |........|
|c       |........|
|        |........|
|d       |........|
3 4

IND in the last row below the margin
4 8 four: DECSTBM 2 3, CUP 4 4, IND
|a       |........|
|b       |........|
|c       |........|
|d       |........|
4 4

IRM: a narrow character
2 8 mixed: insert on, CUP 1 1, text x
|xab\u{4E2D}e\u{301}fg|...BBbgg|
|        |........|
1 2

IRM: a wide character at a right half
2 8 mixed: insert on, CUP 1 4, text \u{4E2D}
|ab \u{4E2D} e\u{301}f|..B..Bbg|
|        |........|
1 6

IRM: a character in the last column
2 8 mixed: insert on, CUP 1 8, text x
|ab\u{4E2D}e\u{301}fgx|..BBbgg.|
|        |........|
1 8 pending

IRM: a character at a pending wrap goes on in the next row
2 8 mixed: insert on, text x
|ab\u{4E2D}e\u{301}fgh|..BBbggg|
|x       |........|
2 2

a joining character at a wide one
2 8 mixed: CUP 1 5, text \u{301}
|ab\u{4E2D}\u{301}e\u{301}fgh|..BBbggg|
|        |........|
1 5

a joining character in the first column is dropped
2 8 mixed: CUP 1 1, text \u{301}
|ab\u{4E2D}e\u{301}fgh|..BBbggg|
|        |........|
1 1

DECALN
2 8 mixed: DECSTBM 1 2, CUP 2 5, DECALN
|EEEEEEEE|........|
|EEEEEEEE|........|
1 1

every cell blank
2 8 mixed: blank
|        |........|
|        |........|
1 8 pending

as at the start
2 8 mixed: restart
|        |........|
|        |........|
1 1

fewer columns cut a wide character
2 8 mixed: size 2 4 0
|ab\u{4E2D}|..BB|
|    |....|
1 4

fewer columns cut between the halves
2 8 cut: size 2 4 0
|abc |...B|
|    |....|
1 4

and back again
2 8 cut: size 2 4 0, size 2 8 0
|abc     |...B....|
|        |........|
1 4

more rows and columns
4 8 four: CUP 4 8, size 5 9 0
|a        |.........|
|b        |.........|
|c        |.........|
|d        |.........|
|         |.........|
4 8

fewer rows, with those above the cursor gone
4 8 four: DECSTBM 1 2, CUP 4 2, size 2 8 2, IND
|d       |........|
|        |........|
2 2

fewer rows, cut at the bottom
4 8 four: CUP 1 2, size 2 8 0
|a       |........|
|b       |........|
1 2

HT
2 20 blank: CHT 1
|                    |....................|
|                    |....................|
1 9

CHT
2 20 blank: CHT 2
|                    |....................|
|                    |....................|
1 17

CHT past the last stop
2 20 blank: CHT 3
|                    |....................|
|                    |....................|
1 20

CHT by the largest number
2 20 blank: CHT max
|                    |....................|
|                    |....................|
1 20

CHT by none
2 20 blank: CUP 1 3, CHT 0
|                    |....................|
|                    |....................|
1 3

CBT
2 20 blank: CUP 1 20, CBT 1
|                    |....................|
|                    |....................|
1 17

CBT from a stop
2 20 blank: CUP 1 17, CBT 1
|                    |....................|
|                    |....................|
1 9

CBT past the first stop
2 20 blank: CUP 1 10, CBT 5
|                    |....................|
|                    |....................|
1 1

CBT by the largest number
2 20 blank: CUP 1 20, CBT max
|                    |....................|
|                    |....................|
1 1

CBT by none
2 20 blank: CUP 1 9, CBT 0
|                    |....................|
|                    |....................|
1 9

a stop that was set
2 20 blank: CUP 1 5, HTS, CUP 1 1, CHT 1
|                    |....................|
|                    |....................|
1 5

a stop that was cleared
2 20 blank: CUP 1 9, TBC 0, CUP 1 1, CHT 1
|                    |....................|
|                    |....................|
1 17

no stop is left
2 20 blank: TBC 3, CHT 1
|                    |....................|
|                    |....................|
1 20

no stop is left to go back to
2 20 blank: TBC 3, CUP 1 15, CBT 1
|                    |....................|
|                    |....................|
1 1

a stop beside the cursor
2 20 blank: CUP 1 8, CHT 1
|                    |....................|
|                    |....................|
1 9

a cleared stop that is none
2 20 blank: CUP 1 8, TBC 0, CUP 1 1, CHT 1
|                    |....................|
|                    |....................|
1 9

stops are kept for columns that are not there
2 20 blank: CUP 1 17, TBC 0, size 2 8 0, size 2 20 0, CUP 1 10, CHT 1
|                    |....................|
|                    |....................|
1 20";

#[test]
fn operations_at_the_edges(rt: HostRuntime) {
    for case in CASES.split("\n\n") {
        assert!(rt; holds(rt.alloc(), case), "{case}");
    }
}

/// Returns true if the buffer of three rows, scrolled up by one five times, begins with the third.
pub fn goes_round_by_fives(grid: &mut Grid) -> bool {
    for _ in 0..5 {
        grid.scroll_up(1);
    }
    grid.first() == 2
}

fn is_refused(alloc: Global, grid: &mut Grid, rows: usize, cols: usize) -> bool {
    grid.resize(alloc, rows, cols) == Err(Fault::BadSize)
}

fn is_at(grid: &Grid, size: (usize, usize), cursor: (usize, usize)) -> bool {
    (grid.rows(), grid.cols()) == size && grid.cursor() == cursor
}

/// Returns true if sizes out of the limits are refused, and another is taken. With the cursor in the last row of four, two rows leave at
/// the top, and its column is pushed into the screen.
pub fn takes_or_refuses(alloc: Global, grid: &mut Grid) -> bool {
    grid.move_to(3, 5);
    is_refused(alloc, grid, 1, 8)
        && is_refused(alloc, grid, 2, 501)
        && is_at(grid, (4, 8), (4, 6))
        && grid.resize(alloc, 2, 4) == Ok(())
        && is_at(grid, (2, 4), (2, 4))
}

#[test]
fn the_first_row_goes_round_and_a_size_is_taken_or_refused(rt: HostRuntime) {
    assert!(rt;
        stands(rt.alloc(), (3, 8), 0, Trial::FirstRowByFives),
        "first row"
    );
    assert!(rt; stands(rt.alloc(), (4, 8), 0, Trial::Sizes), "sizes");
}
