//! Predictions with underlined cells, so that a user sees that nothing has confirmed them.
ghost use Rattle.std.specs.Prelude.{◌≡◌, IfOk, IsOkUnless, map};
ghost use Rattle.std.specs.Vec.{vec_capacity};
ghost use Rattle.roam_prediction.specs.Underlined.{underlined, underlined_cell, underlined_prediction, underlined_place};

use crate::predictions::{MOST_PREDICTIONS, Place, Prediction, Predictions};
use roam_cells::{Cell, Fault};
use std::alloc::Global;

// A cell, underlined.
fn underlined_cell(cell: Cell) -> Cell
    ensures cell { result ≡ underlined_cell cell }
{
    let mut style = cell.style();
    style.underline = true;
    match Cell::of(cell.chars().as_slice(), style, cell.guard()) {
        Some(underlined) => underlined,
        None => cell,
    }
}

// The cell of a place, underlined.
fn underlined_place(place: Option<Place>) -> Option<Place>
    ensures place { result ≡ underlined_place place }
{
    match place {
        None => None,
        Some(place) => Some(Place {
            col: place.col,
            cell: underlined_cell(place.cell),
        }),
    }
}

// A prediction whose cell is underlined.
fn underlined_prediction(prediction: Prediction) -> Prediction
    ensures guess { result ≡ underlined_prediction prediction }
{
    Prediction {
        number: prediction.number,
        place: underlined_place(prediction.place),
        after: prediction.after,
        credit: prediction.credit,
        since: prediction.since,
        told: prediction.told,
    }
}

// Underlines the cell of each prediction.
fn underline_each(predictions: &mut [Prediction])
    ensures underlined { predictions.new ≡ map underlined_prediction predictions.old }
{
    for prediction in predictions.iter_mut() {
        *prediction = underlined_prediction(*prediction);
    }
}

// The same of all that are kept.
fn underline_all(list: &mut Vec<Prediction>)
    ensures underlined { list.new.items ≡ map underlined_prediction list.old.items }
    ensures capacity { vec_capacity list.new ≡ vec_capacity list.old }
{
    underline_each(list);
}

impl Predictions {
    /// The same predictions, whose cells are underlined. Refuses want of memory.
    pub fn underlined(&self, alloc: Global) -> Result<Predictions, Fault>
        ensures underlined { IfOk result (λ predictions. predictions ≡ underlined self.now) }
        ensures fault { IsOkUnless result Fault.OutOfMemory }
    {
        let mut list = Vec::with_capacity(alloc, MOST_PREDICTIONS)?;
        list.extend_from_slice(&self.list)?;
        underline_all(&mut list);
        Ok(Predictions {
            list,
            trusted: self.trusted,
            ends_with: self.ends_with,
        })
    }
}
