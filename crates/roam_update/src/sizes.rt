//! Screens brought to another size.

ghost use Rattle.std.specs.Prelude.{◌≡◌, ◌≤◌, ◌<◌, ◌++◌, ◌*◌, map, IfOk, OnOk};
ghost use Rattle.std.specs.List.{range_with_len};
ghost use Rattle.roam_cells.specs.Place.{cell_at};
ghost use Rattle.roam_update.specs.Sizes.{sized_cells, sized_at};

use roam_cells::Cell;
use roam_screens::Seen;
use std::alloc::{AllocError, Global};

/// Returns the cells of a screen brought to a size: those that stay keep their row and column, new ones are blank, and a wide cell that is
/// cut in two becomes a space in its style.
#[tactic(auto, using(crate::proofs::Sizing::table_none, crate::proofs::Sizing::table_more))]
pub fn sized<B: Seen>(
    alloc: Global,
    base: &B,
    rows: u16,
    cols: u16,
) -> Result<Vec<Cell>, AllocError>
    requires few { (rows ≤ 200) × (cols ≤ 500) }
    ensures cells { IfOk result (λ cells. cells.items ≡ sized_cells rows cols (B.screen base.now)) }
{
    let mut cells = Vec::with_capacity(alloc, rows as usize * cols as usize)?;
    for row in 0..rows {
        add_row(&mut cells, base, cols, row)?;
    }
    Ok(cells)
}

/// Adds the cells of a row of a screen brought to a number of columns.
#[tactic(auto, using(crate::proofs::Sizing::row_more, crate::proofs::Sizing::row_none))]
pub fn add_row<B: Seen>(
    cells: &mut Vec<Cell>,
    base: &B,
    cols: u16,
    row: u16,
) -> Result<(), AllocError>
    requires few { (row < 200) × (cols ≤ 500) }
    ensures row { OnOk result (cells.new.items ≡ cells.old.items
        ++ map (sized_at cols (B.screen base.now) row) (range_with_len 0 cols)) }
{
    for col in 0..cols {
        cells.push(sized_at(base, cols, row, col))?;
    }
    Ok(())
}

fn sized_at<B: Seen>(base: &B, cols: u16, row: u16, col: u16) -> Cell
    requires few { (row < 200) × (col < 500) }
    ensures cell { result ≡ sized_at cols (B.screen base.now) row col }
{
    if base.rows() <= row || base.cols() <= col {
        return Cell::blank();
    }
    let cell = cell_of(base, row, col);
    if col + 1 == cols && cell.is_wide() {
        cell.space_in()
    } else {
        cell
    }
}

#[tactic(auto, using(crate::proofs::Sizing::row_cell))]
fn cell_of<B: Seen>(base: &B, row: u16, col: u16) -> Cell
    requires there { (row < (B.screen base.now).rows) × (col < (B.screen base.now).cols) }
    ensures cell { result ≡ cell_at (B.screen base.now).cols (B.screen base.now).cells row col }
{
    base.row(row)[col as usize]
}
