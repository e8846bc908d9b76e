//! The predictions of the keys of an outer terminal, over the screen noted of it.
ghost use Rattle.std.specs.Prelude.{◌≡◌, IfOk, IsOkUnless, OnErr, OnOk, length, true, false, None};
ghost use Rattle.std.specs.List.{fold};
ghost use Rattle.roam_prediction.specs.Predictions.{none};
ghost use Rattle.roam_prediction.specs.Laws.{Step, Ended, after};
ghost use Rattle.roam_overlay.specs.Delays.{no_delay};
ghost use Rattle.roam_screens.specs.Shown.{shown_by};
ghost use Rattle.roam_overlay.specs.Overlays.{Judges, Keeps, Loses, Sees, is_number, is_shown, last_number, line_steps, screen_or, shown_over, typed_steps};

use crate::delays::Delays;
use roam_acts::Act;
use roam_cells::Fault;
use roam_prediction::{Moment, Predictions};
use roam_screens::{RowShot, Seen, Shown};
use std::alloc::Global;
use std::marker::Model;

/// A line of more acts isn't predicted.
const MOST_PREDICTED: usize = 8;

// A screen by which predictions were judged, and its number.
#[derive(Drop)]
struct Judged {
    number: u64,
    screen: RowShot,
}

impl Model for Judged {
    ghost use Rattle.roam_overlay.specs.Overlays.{JudgedOf};

    ghost Value = { JudgedOf };

    ghost view = { λ j. record { number = j.number; screen = j.screen } };
}

/// The predictions of an outer terminal, how long they take, and the screen by which they were judged last.
#[derive(Drop)]
pub struct Overlay {
    predictions: Predictions,
    adaptive: bool,
    delays: Delays,
    seen: Option<Judged>,
}

impl Model for Overlay {
    ghost use Rattle.roam_overlay.specs.Overlays.{OverlayOf};

    ghost Value = { OverlayOf };

    ghost view = { λ o. record { predictions = o.predictions; adaptive = o.adaptive; delays = o.delays; seen = o.seen } };
}

// Passes acts to predictions, from a number on, over the shown screen.
fn type_each<S: Seen>(predictions: &mut Predictions, first: u64, acts: &[Act], shown: &S)
    ensures typed { predictions.new ≡ fold after predictions.old (typed_steps first acts.now (S.screen shown.now)) }
{
    if acts.is_empty() {
        return;
    }
    predictions.typed(first, &acts[0], shown);
    type_each(predictions, first.saturating_add(1), &acts[1..], shown);
}

// The number of the last of so many acts.
fn last_number(first: u64, count: usize) -> u64
    ensures last { result ≡ last_number first count }
{
    first.saturating_add(count as u64).saturating_sub(1)
}

// Passes the acts of a line to predictions over the shown screen; a paste, and more than eight acts, isn't predicted.
fn type_line<S: Seen>(
    predictions: &mut Predictions,
    is_pasted: bool,
    first: u64,
    acts: &[Act],
    shown: &S,
)
    ensures typed { predictions.new ≡ fold after predictions.old (line_steps is_pasted first acts.now (S.screen shown.now)) }
{
    if is_pasted || acts.len() > MOST_PREDICTED {
        predictions.end_with(last_number(first, acts.len()));
    } else {
        type_each(predictions, first, acts, shown);
    }
}

// Does the same over the screen of the last judgement, or over the one that is shown.
fn type_over<S: Seen>(
    predictions: &mut Predictions,
    seen: &Option<Judged>,
    is_pasted: bool,
    first: u64,
    acts: &[Act],
    shown: &S,
)
    ensures typed { predictions.new ≡ fold after predictions.old
        (line_steps is_pasted first acts.now (screen_or seen.now (S.screen shown.now))) }
{
    match seen {
        Some(judged) => type_line(predictions, is_pasted, first, acts, &judged.screen),
        None => type_line(predictions, is_pasted, first, acts, shown),
    }
}

// Judges predictions by the screen that is noted, after the one that was.
fn judge(predictions: &mut Predictions, seen: &Option<Judged>, screen: &Shown<'_>, moment: Moment)
    ensures sees { (step : Step) × Sees (screen_or seen.now (shown_by screen.now)) (shown_by screen.now) moment predictions.old step
        × (predictions.new ≡ after predictions.old step) }
{
    match seen {
        Some(judged) => predictions.seen(moment, &Shown::New(&judged.screen), screen),
        None => predictions.seen(moment, screen, screen),
    }
}

// Returns true if the screen of the last judgement has a number.
fn is_number(seen: &Option<Judged>, number: u64) -> bool
    ensures number { result ≡ is_number number seen.now }
{
    match seen {
        Some(judged) => judged.number == number,
        None => false,
    }
}

// Returns a copy of a screen of either version. One of version 2 shares its rows with the copy.
fn copy_of(alloc: Global, screen: &Shown<'_>) -> Result<RowShot, Fault>
    ensures same { IfOk result (λ copy. copy ≡ shown_by screen.now) }
    ensures fault { IsOkUnless result Fault.OutOfMemory }
{
    match screen {
        Shown::New(shot) => shot.copy(alloc),
        Shown::Old(shot) => RowShot::of(alloc, *shot),
    }
}

// Judges predictions by a screen, and keeps it as that of the last judgement. `OutOfMemory` if it can't be kept; then all predictions end.
fn see(
    alloc: Global,
    predictions: &mut Predictions,
    seen: &mut Option<Judged>,
    number: u64,
    screen: &Shown<'_>,
    moment: Moment,
) -> Result<(), Fault>
    ensures sees { OnOk result ((step : Step) × Keeps number (shown_by screen.now) moment predictions.old step seen.old seen.new
        × (predictions.new ≡ after predictions.old step)) }
    ensures ends { OnErr result ((is_number number seen.old ≡ false) × (seen.new ≡ seen.old)
        × (predictions.new ≡ after predictions.old (Ended moment.acknowledged))) }
    ensures fault { IsOkUnless result Fault.OutOfMemory }
{
    if is_number(seen, number) {
        judge(predictions, seen, screen, moment);
        return Ok(());
    }
    match copy_of(alloc, screen) {
        Ok(kept) => {
            judge(predictions, seen, screen, moment);
            *seen = Some(Judged {
                number,
                screen: kept,
            });
            Ok(())
        }
        Err(fault) => {
            predictions.end(moment.acknowledged);
            Err(fault)
        }
    }
}

impl Overlay {
    /// Returns an overlay without predictions; they are shown always, or on slow links only. `OutOfMemory`.
    pub fn new(alloc: Global, adaptive: bool) -> Result<Overlay, Fault>
        ensures none { IfOk result (λ o. o ≡ record { predictions = none; adaptive = adaptive; delays = no_delay; seen = None }) }
        ensures fault { IsOkUnless result Fault.OutOfMemory }
    {
        Ok(Overlay {
            predictions: Predictions::new(alloc)?,
            adaptive,
            delays: Delays::new(alloc)?,
            seen: None,
        })
    }

    /// How many predictions there are.
    pub fn len(&self) -> usize
        ensures len { result ≡ length self.now.predictions.list }
    {
        self.predictions.len()
    }

    /// Predicts the acts of a line, the first under a number, over the screen of the last judgement, or over the one that is shown if there
    /// was none. A paste, and a line of more than eight acts, isn't predicted, and ends the epoch. It takes no memory.
    pub fn typed<S: Seen>(&mut self, is_pasted: bool, first: u64, acts: &[Act], shown: &S)
        ensures typed { self.new ≡ record self.old {
          predictions =
              fold after self.old.predictions (line_steps is_pasted first acts.now (screen_or self.old.seen (S.screen shown.now)));
        } }
    {
        type_over(
            &mut self.predictions,
            &self.seen,
            is_pasted,
            first,
            acts,
            shown,
        );
    }

    /// Judges the predictions by a screen of a number that is noted at a moment in milliseconds, with so many acts acknowledged.
    /// `OutOfMemory` if the screen can't be kept; then all predictions end, since no later screen would be known to follow it.
    pub fn judge(
        &mut self,
        alloc: Global,
        number: u64,
        screen: &Shown<'_>,
        acknowledged: u64,
        now: u64,
    ) -> Result<(), Fault>
        ensures judged { OnOk result (Judges number (shown_by screen.now) acknowledged now self.old self.new) }
        ensures ended { OnErr result (Loses number (shown_by screen.now) acknowledged now self.old self.new) }
        ensures fault { IsOkUnless result Fault.OutOfMemory }
    {
        let right = self.predictions.count_right(screen);
        self.delays.right(&self.predictions, right, now);
        let moment = Moment {
            at: now,
            acknowledged,
            delay: self.delays.longest(),
        };
        see(
            alloc,
            &mut self.predictions,
            &mut self.seen,
            number,
            screen,
            moment,
        )
    }

    // Returns true if predictions are shown.
    fn is_shown(&self) -> bool
        ensures shown { result ≡ is_shown self.now }
    {
        self.predictions.are_shown() && (!self.adaptive || self.delays.is_slow())
    }

    /// Returns a screen with the predictions over it at a moment; `None` exactly if none are shown. `OutOfMemory`.
    pub fn over(
        &self,
        alloc: Global,
        screen: &Shown<'_>,
        now: u64,
    ) -> Result<Option<RowShot>, Fault>
        ensures over { IfOk result (λ over. over ≡ shown_over self.now (shown_by screen.now) now) }
        ensures fault { IsOkUnless result Fault.OutOfMemory }
    {
        if !self.is_shown() {
            return Ok(None);
        }
        let copy = copy_of(alloc, screen)?;
        if self.delays.is_long(&self.predictions, now) {
            let underlined = self.predictions.underlined(alloc)?;
            return Ok(Some(underlined.over(alloc, &copy)?));
        }
        Ok(Some(self.predictions.over(alloc, &copy)?))
    }
}
