//! The repeated work on a grid.
use roam_cells::{Cell, Extent, Style};
use roam_grid::{Grid, Writing};

const WRITING: Writing = Writing {
    wraps: true,
    inserts: false,
};

/// Bytes of a run: more than a row of either size.
const RUN: usize = 1000;

/// The work on the grid.
#[derive(Clone, Copy)]
pub enum Way {
    /// Characters one by one, with a scroll at each row's end.
    Singly,
    /// The same by runs.
    Runs,
    /// Lines of so many columns on the last row, each with or without a line feed after it, which scrolls.
    Lines(usize, bool),
    /// Screens full of characters, each erased or not.
    Pages(bool),
    /// IL and then DL of one line in the first row.
    ShiftLines,
    /// ICH and then DCH of one cell in the first column.
    ShiftCells,
    /// Lines of all columns on the bottom margin, each with a line feed, between margins one row from the edges.
    ScrollBetween,
}

fn write_singly(grid: &mut Grid, count: u64) {
    let cell = Cell::ascii(b'a', Style::default(), false);
    for _ in 0..count {
        grid.put(cell, WRITING);
    }
}

fn write_runs(grid: &mut Grid, count: u64) {
    let bytes = [b'a'; RUN];
    let pen = Cell::blank();
    for _ in 0..count / RUN as u64 {
        grid.put_run(pen, &bytes, WRITING);
    }
}

fn write_lines(grid: &mut Grid, row: usize, len: usize, feeds: bool, times: u64) {
    let bytes = [b'a'; RUN];
    let line = &bytes[0..len.min(RUN)];
    let pen = Cell::blank();
    grid.move_to(row, 0);
    for _ in 0..times {
        grid.carriage_return();
        grid.put_run(pen, line, WRITING);
        if feeds {
            grid.index();
        }
    }
}

fn write_pages(grid: &mut Grid, erases: bool, times: u64) {
    let bytes = [b'a'; RUN];
    let line = &bytes[0..grid.cols().min(RUN)];
    let pen = Cell::blank();
    for _ in 0..times {
        for row in 0..grid.rows() {
            grid.move_to(row, 0);
            grid.put_run(pen, line, WRITING);
        }
        if erases {
            grid.erase_in_page(Extent::All);
        }
    }
}

fn shift_lines(grid: &mut Grid, times: u64) {
    write_pages(grid, false, 1);
    grid.move_to(0, 0);
    for _ in 0..times {
        grid.insert_lines(1);
        grid.delete_lines(1);
    }
}

fn shift_cells(grid: &mut Grid, times: u64) {
    write_pages(grid, false, 1);
    grid.move_to(0, 0);
    for _ in 0..times {
        grid.insert_cells(1);
        grid.delete_cells(1);
    }
}

// Writes lines of all columns at the bottom margin, with the buffer's first row in the middle of the screen.
fn scroll_between(grid: &mut Grid, times: u64) {
    write_pages(grid, false, 1);
    grid.scroll_up(grid.rows() / 2);
    let bottom = grid.rows().saturating_sub(2);
    if 1 < bottom && bottom < grid.rows() {
        grid.set_margins(1, bottom);
    }
    write_lines(grid, bottom, grid.cols(), true, times);
    grid.restart();
}

/// Does it so often.
pub fn work(grid: &mut Grid, way: Way, times: u64) {
    match way {
        Way::Singly => write_singly(grid, times),
        Way::Runs => write_runs(grid, times),
        Way::Lines(len, feeds) => write_lines(grid, grid.rows(), len, feeds, times),
        Way::Pages(erases) => write_pages(grid, erases, times),
        Way::ShiftLines => shift_lines(grid, times),
        Way::ShiftCells => shift_cells(grid, times),
        Way::ScrollBetween => scroll_between(grid, times),
    }
}
