//! A screen with predictions over it.
ghost use Rattle.std.specs.Prelude.{◌≡◌, IfOk, IsOkUnless};
ghost use Rattle.roam_prediction.specs.Overlay.{column_in, has_place, last_column, overlay, with_predictions, with_place};

use crate::predictions::{Place, Prediction, Predictions};
use roam_cells::{Cell, Fault};
use roam_screens::{RowShot, Seen};
use std::alloc::Global;

// Returns true if a row has a column, from 1, with a cell of one column.
pub(crate) fn has_place(row: &[Cell], col: u16) -> bool
    ensures place { result ≡ has_place row.now col }
{
    1 <= col && col as usize <= row.len() && row[col as usize - 1].is_narrow()
}

// Puts a predicted cell into a row, if it has its place.
fn put(row: &mut [Cell], place: Option<Place>)
    ensures put { row.new ≡ with_place row.old place }
{
    if let Some(place) = place
        && has_place(row, place.col)
    {
        row[place.col as usize - 1] = place.cell;
    }
}

// A row with all predicted cells.
fn row_with(alloc: Global, row: &[Cell], predictions: &[Prediction]) -> Result<Vec<Cell>, Fault>
    ensures row { IfOk result (λ cells. cells.items ≡ with_predictions row.now predictions.now) }
    ensures fault { IsOkUnless result Fault.OutOfMemory }
{
    let mut cells = Vec::from_slice(alloc, row)?;
    for prediction in predictions {
        put(&mut cells, prediction.place);
    }
    Ok(cells)
}

// The cursor's column after all predictions.
pub(crate) fn last_column(col: u16, predictions: &[Prediction]) -> u16
    ensures column { result ≡ last_column col predictions.now }
{
    if predictions.is_empty() {
        return col;
    }
    last_column(predictions[0].after, &predictions[1..])
}

// Returns a column if a row has it, else the cursor's.
fn column_in(cols: u16, here: u16, col: u16) -> u16
    ensures column { result ≡ column_in cols here col }
{
    if 1 <= col && col <= cols { col } else { here }
}

impl Predictions {
    /// Returns the screen with the shown predictions; the screen itself if there are none. `OutOfMemory`.
    pub fn over(&self, alloc: Global, shown: &RowShot) -> Result<RowShot, Fault>
        ensures overlay { IfOk result (λ over. over ≡ overlay self.now shown.now) }
        ensures fault { IsOkUnless result Fault.OutOfMemory }
    {
        let mut over = shown.copy(alloc)?;
        if !self.are_shown() {
            return Ok(over);
        }
        shown.facts();
        let (row, col) = shown.cursor();
        let cells = row_with(alloc, shown.row(row - 1), &self.list)?;
        over.set_row(alloc, row - 1, &cells)?;
        let after = column_in(shown.cols(), col, last_column(col, &self.list));
        over.set_cursor((row, after), shown.visible());
        Ok(over)
    }
}
