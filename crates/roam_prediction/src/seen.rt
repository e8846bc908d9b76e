//! Which predictions are right, wrong or over.
ghost use Rattle.std.specs.Prelude.{◌≡◌, ◌↔◌, ◌⊎◌, ◌<◌, ◌≤◌, true, length, map, drop};
ghost use Rattle.std.specs.Vec.{vec_capacity};
ghost use Rattle.roam_prediction.specs.Predictions.{dropped, last_act, last_of};
ghost use Rattle.roam_prediction.specs.Overlay.{cursor_line};
ghost use Rattle.roam_prediction.specs.Verdicts.{Follows, begun, confirmed, count_right, counts, expired, has_credit, is_any_over, is_over, is_right, is_way, is_written, judged, shows, waiting, with_since, with_told};

use crate::over::has_place;
use crate::predictions::{Moment, Prediction, Predictions, waited};
use crate::typed::latest;
use roam_cells::{Cell, are_same_cells};
use roam_screens::Seen;

/// How many milliseconds a prediction stays after its acknowledgement counted.
const GRACE: u64 = 100;

/// The milliseconds after which an acknowledgement counts at the latest, so that no prediction stays above a quarter of a second after its
/// acknowledgement came, however long the last ones took.
const LONGEST: u64 = 150;

// Returns true if a row shows a predicted cell's code points at its place.
fn shows(row: &[Cell], prediction: &Prediction) -> bool
    ensures shows { result ≡ shows row.now prediction.now }
{
    match prediction.place {
        None => false,
        Some(place) => has_place(row, place.col)
            && row[place.col as usize - 1].chars() == place.cell.chars(),
    }
}

// Returns true if a later prediction writes in the column of a prediction, or it writes nothing.
fn is_written(later: &[Prediction], prediction: &Prediction) -> bool
    ensures written { result ≡ is_written later.now prediction.now }
{
    match prediction.place {
        None => true,
        Some(place) => latest(later, place.col).is_some(),
    }
}

// Returns true if the cursor goes to a column by these predictions.
fn is_way(predictions: &[Prediction], col: u16) -> bool
    ensures way { result ≡ is_way predictions.now col }
{
    if predictions.is_empty() {
        return false;
    }
    predictions[0].after == col || is_way(&predictions[1..], col)
}

// Returns true if the first of these predictions is right: its cell is shown, unless a later one writes there, and the cursor is on its
// way.
fn is_right(row: &[Cell], col: u16, predictions: &[Prediction]) -> bool
    requires some { 0 < length predictions.now }
    ensures right { result ≡ is_right row.now col predictions.now }
{
    (shows(row, &predictions[0]) || is_written(&predictions[1..], &predictions[0]))
        && is_way(predictions, col)
}

// How many predictions from the first on are right.
fn count_right(row: &[Cell], col: u16, predictions: &[Prediction]) -> usize
    ensures count { result ≡ count_right row.now col predictions.now }
    ensures most { result ≤ length predictions.now }
{
    if predictions.is_empty() || !is_right(row, col, predictions) {
        return 0;
    }
    1 + count_right(row, col, &predictions[1..])
}

// Returns true if one of the predictions is confirmed with credit: the screen shows its cell, and didn't before.
fn has_credit(row: &[Cell], predictions: &[Prediction]) -> bool
    ensures credit { result ≡ has_credit row.now predictions.now }
{
    if predictions.is_empty() {
        return false;
    }
    (predictions[0].credit && shows(row, &predictions[0])) || has_credit(row, &predictions[1..])
}

// Returns a prediction that waits since a moment, if it didn't before.
fn with_since(prediction: Prediction, now: u64) -> Prediction
    ensures since { result ≡ with_since now prediction }
{
    if prediction.since.is_some() {
        return prediction;
    }
    let mut prediction = prediction;
    prediction.since = Some(now);
    prediction
}

// Makes each wait since a moment, if it didn't before.
fn wait_each(predictions: &mut [Prediction], now: u64)
    ensures since { predictions.new ≡ map (with_since now) predictions.old }
{
    for prediction in predictions.iter_mut() {
        *prediction = with_since(*prediction, now);
    }
}

// The same of all that are kept.
fn wait_all(list: &mut Vec<Prediction>, now: u64)
    ensures since { list.new.items ≡ map (with_since now) list.old.items }
    ensures capacity { vec_capacity list.new ≡ vec_capacity list.old }
{
    wait_each(list, now);
}

// Returns true if the acknowledgement of a prediction counts: it came, and the prediction has waited as long as others took, up to a limit.
fn counts(prediction: &Prediction, moment: Moment) -> bool
    ensures counts { result ≡ counts moment prediction.now }
{
    prediction.number <= moment.acknowledged
        && waited(prediction, moment.at) >= moment.delay.min(LONGEST)
}

// A prediction of which it is noted when its acknowledgement counted first.
fn with_told(prediction: Prediction, moment: Moment) -> Prediction
    ensures told { result ≡ with_told moment prediction }
{
    if prediction.told.is_some() || !counts(&prediction, moment) {
        return prediction;
    }
    let mut prediction = prediction;
    prediction.told = Some(moment.at);
    prediction
}

// Notes of each prediction when its acknowledgement counted first.
fn tell_each(predictions: &mut [Prediction], moment: Moment)
    ensures told { predictions.new ≡ map (with_told moment) predictions.old }
{
    for prediction in predictions.iter_mut() {
        *prediction = with_told(*prediction, moment);
    }
}

// The same of all that are kept.
fn tell_all(list: &mut Vec<Prediction>, moment: Moment)
    ensures told { list.new.items ≡ map (with_told moment) list.old.items }
    ensures capacity { vec_capacity list.new ≡ vec_capacity list.old }
{
    tell_each(list, moment);
}

// Returns true if the time of a prediction is over.
fn is_over(prediction: &Prediction, now: u64) -> bool
    ensures over { result ≡ is_over now prediction.now }
{
    match prediction.told {
        None => false,
        Some(told) => now.saturating_sub(told) >= GRACE,
    }
}

// Returns true if the time of one of the predictions is over.
fn is_any_over(predictions: &[Prediction], now: u64) -> bool
    ensures over { result ≡ is_any_over now predictions.now }
{
    if predictions.is_empty() {
        return false;
    }
    is_over(&predictions[0], now) || is_any_over(&predictions[1..], now)
}

// Returns the number of the last of these predictions, or another one if there is none.
fn last_of(before: Option<u64>, predictions: &[Prediction]) -> Option<u64>
    ensures last { result ≡ last_of before predictions.now }
{
    if predictions.is_empty() {
        return before;
    }
    last_of(Some(predictions[0].number), &predictions[1..])
}

// The act with which an epoch ends whose predictions all go: the one that wasn't predicted, else the last one that was.
fn last_act(ends_with: Option<u64>, predictions: &[Prediction]) -> Option<u64>
    ensures last { result ≡ last_act ends_with predictions.now }
{
    match ends_with {
        None => last_of(None, predictions),
        Some(number) => Some(number),
    }
}

// Returns true if a screen follows another by itself or by predictions: its size, its status row and the cursor's row are the same. The
// cursor is visible, and is at its old place or at one that a prediction brings it to.
fn follows<S: Seen>(before: &S, shown: &S, predictions: &[Prediction]) -> bool
    ensures follows { result ≡ true ↔ Follows (S.screen before.now) (S.screen shown.now) predictions.now }
{
    before.facts();
    shown.facts();
    let rows = shown.rows();
    let (row, col) = shown.cursor();
    let (row_before, col_before) = before.cursor();
    if before.rows() != rows
        || before.cols() != shown.cols()
        || row_before != row
        || !shown.visible()
    {
        return false;
    }
    if col_before != col && !is_way(predictions, col) {
        return false;
    }
    are_same_cells(before.row(rows - 1), shown.row(rows - 1))
}

impl Predictions {
    // Drops all predictions; the epoch isn't trusted any more, and ends once the typed acts are acknowledged.
    fn drop_all(&mut self)
        ensures dropped { self.new ≡ dropped self.old }
    {
        self.ends_with = last_act(self.ends_with, &self.list);
        self.list.clear();
        self.trusted = false;
    }

    // The first predictions go.
    fn drop_first(&mut self, count: usize)
        requires count { count ≤ length self.old.list }
        ensures dropped { self.new ≡ record self.old { list = drop count self.old.list } }
    {
        drop(self.list.drain(..count));
    }

    // Those that were made since wait from a moment on.
    fn wait(&mut self, now: u64)
        ensures waiting { self.new ≡ waiting now self.old }
    {
        wait_all(&mut self.list, now);
    }

    // It is noted which acknowledgements count.
    fn tell(&mut self, moment: Moment)
        ensures told { self.new ≡ record self.old { list = map (with_told moment) self.old.list } }
    {
        tell_all(&mut self.list, moment);
    }

    // Drops the right predictions; their epoch is trusted if one of them had credit.
    fn confirm(&mut self, row: &[Cell], col: u16)
        ensures confirmed { self.new ≡ confirmed row.now col self.old }
    {
        let count = count_right(row, col, &self.list);
        let has_credit = has_credit(row, &self.list[..count]);
        self.trusted = self.trusted || has_credit;
        self.drop_first(count);
    }

    // Drops all if the time of a prediction is over, since those behind it depend on its place.
    fn expire(&mut self, now: u64)
        ensures expired { self.new ≡ expired now self.old }
    {
        if is_any_over(&self.list, now) {
            self.drop_all();
        }
    }

    // Begins another epoch if the act with which this one ends is acknowledged, and no prediction is left.
    fn begin(&mut self, acknowledged: u64)
        ensures begun { self.new ≡ begun acknowledged self.old }
    {
        if !self.list.is_empty() {
            return;
        }
        if let Some(number) = self.ends_with
            && number <= acknowledged
        {
            self.trusted = false;
            self.ends_with = None;
        }
    }

    /// How many predictions, from the first on, a screen shows to be right. It takes no memory.
    pub fn count_right<S: Seen>(&self, shown: &S) -> usize
        ensures count { result ≡ count_right (cursor_line (S.screen shown.now)) (S.screen shown.now).cursor_col self.now.list }
        ensures most { result ≤ length self.now.list }
    {
        shown.facts();
        let (row, col) = shown.cursor();
        count_right(shown.row(row - 1), col, &self.list)
    }

    // Judges the predictions by the shown screen.
    fn judge<S: Seen>(&mut self, moment: Moment, shown: &S)
        ensures judged { self.new ≡ judged moment (S.screen shown.now) self.old }
    {
        shown.facts();
        let (row, col) = shown.cursor();
        self.wait(moment.at);
        self.confirm(shown.row(row - 1), col);
        self.tell(moment);
        self.expire(moment.at);
    }

    /// Takes a screen that is shown at a moment, after another one. Right predictions go; all go if the time of one is over, or if the
    /// screen doesn't follow the one before. It takes no memory.
    pub fn seen<S: Seen>(&mut self, moment: Moment, before: &S, shown: &S)
        ensures goes_on { Follows (S.screen before.now) (S.screen shown.now) self.old.list
            → self.new ≡ begun moment.acknowledged (judged moment (S.screen shown.now) self.old) }
        ensures ends { (¬ (Follows (S.screen before.now) (S.screen shown.now) self.old.list))
            → self.new ≡ begun moment.acknowledged (dropped self.old) }
        // It is one or the other.
        ensures either { Follows (S.screen before.now) (S.screen shown.now) self.old.list
            ⊎ (Follows (S.screen before.now) (S.screen shown.now) self.old.list → ⊥) }
    {
        if follows(before, shown, &self.list) {
            self.judge(moment, shown);
        } else {
            self.drop_all();
        }
        self.begin(moment.acknowledged);
    }

    /// Drops all predictions, since the shown screen is unknown; so many acts are acknowledged, and those typed since begin an epoch.
    pub fn end(&mut self, acknowledged: u64)
        ensures ends { self.new ≡ begun acknowledged (dropped self.old) }
    {
        self.drop_all();
        self.begin(acknowledged);
    }
}
