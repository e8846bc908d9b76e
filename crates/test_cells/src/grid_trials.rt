//! The trials of a grid. It is made only here: a function that owns one is expensive to prove.
use crate::grid_cases::shows_after;
use crate::grid_edges::{goes_round_by_fives, takes_or_refuses};
use crate::grid_marks::{are_all_after, begins_marked, marks_so};
use crate::grids::{goes_round, is_made, leaves_so};
use roam_grid::Grid;
use std::alloc::Global;

#[derive(Clone, Copy)]
pub enum Trial<'a> {
    /// The operations before, the operations, and the result.
    Case(&'a str, &'a str, &'a str),
    /// The operations before, the operations, and the rows that they mark.
    Marks(&'a str, &'a str, &'a str),
    /// A new grid of this size, by its rows, columns, cursor, margins and buffer.
    Made(usize, usize),
    BeginsMarked,
    AllMarks,
    FirstRow,
    FirstRowByFives,
    /// The operations, the next character, and whether a row leaves.
    Leaves(&'a str),
    Sizes,
}

fn tries(alloc: Global, grid: &mut Grid, trial: Trial<'_>) -> bool {
    match trial {
        Trial::Case(before, operations, text) => shows_after(alloc, grid, before, operations, text),
        Trial::Marks(before, operations, marked) => marks_so(
            alloc, grid, before, operations, marked,
        ),
        Trial::Made(rows, cols) => is_made(grid, rows, cols),
        Trial::BeginsMarked => begins_marked(grid),
        Trial::AllMarks => are_all_after(alloc, grid),
        Trial::FirstRow => goes_round(alloc, grid),
        Trial::FirstRowByFives => goes_round_by_fives(grid),
        Trial::Leaves(line) => leaves_so(alloc, grid, line),
        Trial::Sizes => takes_or_refuses(alloc, grid),
    }
}

/// Returns true if a blank grid of a size passes the trial. Its buffer begins with a later row of the screen, as many rows later as were
/// turned.
pub fn stands(alloc: Global, size: (usize, usize), turned: usize, trial: Trial<'_>) -> bool {
    match Grid::new(alloc, size.0, size.1) {
        Ok(mut grid) => {
            grid.scroll_up(turned);
            tries(alloc, &mut grid, trial)
        }
        Err(_) => false,
    }
}
