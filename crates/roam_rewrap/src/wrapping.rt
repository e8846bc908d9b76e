//! Rows of text at another width.
ghost use Rattle.std.specs.Prelude.{◌≡◌, ◌<◌, ◌≤◌, ◌∷◌, ◌++◌, [], length, IfOk, OnOk};
ghost use Rattle.roam_rewrap.specs.Wrapping.{fitting, rewrapped, rows_of_line};

use crate::rows::Row;
use roam_cells::Cell;
use std::alloc::{AllocError, Global};

// How many cells of a line that is longer than a row are in its first row.
#[tactic(auto, unfolding(crate::specs::Wrapping::fitting))]
fn fitting(line: &[Cell], cols: usize) -> usize
    requires longer { cols < length line.now }
    requires cols { 2 ≤ cols }
    ensures fitting { result ≡ fitting cols line.now }
    ensures some { 0 < result }
    ensures few { result ≤ cols }
{
    if line[cols - 1].is_wide() {
        cols - 1
    } else {
        cols
    }
}

// Adds a row.
fn push_row(
    rows: &mut Vec<Row>,
    alloc: Global,
    goes_on: bool,
    cells: &[Cell],
) -> Result<(), AllocError>
    ensures row { OnOk result (rows.new.items ≡ rows.old.items ++ record { goes_on = goes_on; cells = cells.now } ∷ []) }
{
    rows.push(Row::new(alloc, goes_on, cells)?)?;
    Ok(())
}

// Adds the rows of a line.
fn push_line(
    rows: &mut Vec<Row>,
    alloc: Global,
    line: &[Cell],
    cols: usize,
) -> Result<(), AllocError>
    requires cols { 2 ≤ cols }
    ensures rows { OnOk result (rows.new.items ≡ rows.old.items ++ rows_of_line cols line.now) }
{
    let mut at = 0;
    while cols < line.len() - at {
        let count = fitting(&line[at..], cols);
        push_row(rows, alloc, true, &line[at..at + count])?;
        at += count;
    }
    push_row(rows, alloc, false, &line[at..])?;
    Ok(())
}

/// Rows at a width of 2 columns or more.
#[tactic(auto, unfolding(crate::specs::Wrapping::rewrapped))]
pub fn rewrap(alloc: Global, rows: &[Row], cols: usize) -> Result<Vec<Row>, AllocError>
    requires cols { 2 ≤ cols }
    ensures rows { IfOk result (λ made. made.items ≡ rewrapped cols rows.now) }
{
    let mut made = Vec::new(alloc);
    let mut line = Vec::new(alloc);
    for row in rows {
        line.extend_from_slice(row.cells())?;
        if !row.goes_on() {
            push_line(&mut made, alloc, &line, cols)?;
            line.clear();
        }
    }
    if !line.is_empty() {
        push_line(&mut made, alloc, &line, cols)?;
    }
    Ok(made)
}
