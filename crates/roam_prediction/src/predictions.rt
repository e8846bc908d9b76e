//! Predictions, and the facts about them.
ghost use Rattle.std.specs.Prelude.{◌≡◌, IfOk, IsOkUnless, length};
ghost use Rattle.roam_prediction.specs.Predictions.{are_shown, none, waited, waited_in};

use roam_cells::{Cell, Fault};
use std::alloc::Global;
use std::marker::Model;

/// How many predictions there are at most.
pub(crate) const MOST_PREDICTIONS: usize = 64;

/// When a screen is shown.
#[derive(Clone, Copy)]
pub struct Moment {
    /// The moment, in milliseconds.
    pub at: u64,
    /// How many acts are acknowledged then.
    pub acknowledged: u64,
    /// The milliseconds that keys took to be shown of late.
    pub delay: u64,
}

/// A cell that is predicted in a column.
#[derive(Clone, Copy)]
pub struct Place {
    /// The column, from 1.
    pub col: u16,
    /// The cell.
    pub cell: Cell,
}

/// The predicted effect of a key in the row of the cursor.
#[derive(Clone, Copy)]
pub struct Prediction {
    /// The number of its act.
    pub number: u64,
    /// The predicted cell with its column; if there is none, only the cursor moves.
    pub place: Option<Place>,
    /// The cursor's column after it, from 1.
    pub after: u16,
    /// True if another cell was there when it was made, so that the screen shows its arrival.
    pub credit: bool,
    /// The moment, in milliseconds, since which it waits: that of the first screen that was seen after it was made.
    pub since: Option<u64>,
    /// The moment, in milliseconds, at which its acknowledgement counted.
    pub told: Option<u64>,
}

/// The predictions for one outer terminal: at most 64, in the order of their acts.
#[derive(Drop)]
pub struct Predictions {
    pub(crate) list: Vec<Prediction>,
    // True if a prediction of this epoch was confirmed with credit.
    pub(crate) trusted: bool,
    // The last act that wasn't predicted: with it another epoch begins once it is acknowledged.
    pub(crate) ends_with: Option<u64>,
}

impl Model for Predictions {
    ghost use Rattle.roam_prediction.specs.Predictions.{PredictionsOf, IsKept};

    ghost Value = { PredictionsOf };

    ghost view = { λ g. record { list = g.list.items; trusted = g.trusted; ends_with = g.ends_with } };

    ghost invariant = { λ g. IsKept g.list };
}

// For how many milliseconds a prediction has waited at a moment.
pub(crate) fn waited(prediction: &Prediction, now: u64) -> u64
    ensures waited { result ≡ waited now prediction.now }
{
    match prediction.since {
        None => 0,
        Some(since) => now.saturating_sub(since),
    }
}

// Returns the same for a prediction, from 0 on, if there are so many.
fn waited_in(predictions: &[Prediction], now: u64, place: usize) -> Option<u64>
    ensures waited { result ≡ waited_in now predictions.now place }
{
    if predictions.is_empty() {
        return None;
    }
    if place == 0 {
        return Some(waited(&predictions[0], now));
    }
    waited_in(&predictions[1..], now, place - 1)
}

impl Predictions {
    /// No prediction, in an epoch that is hidden; refuses want of memory. No later call but `over` takes any.
    pub fn new(alloc: Global) -> Result<Predictions, Fault>
        ensures none { IfOk result (λ predictions. predictions ≡ none) }
        ensures fault { IsOkUnless result Fault.OutOfMemory }
    {
        let list = Vec::with_capacity(alloc, MOST_PREDICTIONS)?;
        Ok(Predictions {
            list,
            trusted: false,
            ends_with: None,
        })
    }

    /// How many predictions there are.
    pub fn len(&self) -> usize
        ensures len { result ≡ length self.now.list }
    {
        self.list.len()
    }

    /// Returns for how many milliseconds a prediction, from 0 on in their order, has waited at a moment, if there are so many.
    pub fn waited(&self, now: u64, place: usize) -> Option<u64>
        ensures waited { result ≡ waited_in now self.now.list place }
    {
        waited_in(&self.list, now, place)
    }

    /// Returns true if anything is shown over a screen.
    pub fn are_shown(&self) -> bool
        ensures shown { result ≡ are_shown self.now }
    {
        self.trusted && !self.list.is_empty()
    }
}
