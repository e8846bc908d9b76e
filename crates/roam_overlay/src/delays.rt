//! The time until typed keys are shown, by the last ten predictions that were right.
ghost use Rattle.std.specs.Prelude.{◌≡◌, ◌+◌, ◌^◌, ◌<◌, ◌≤◌, ◌++◌, ◌∷◌, [], IfOk, IsOkUnless, length};
ghost use Rattle.std.specs.Vec.{vec_capacity};
ghost use Rattle.roam_overlay.specs.Delays.{AreKept, after_right, are_most_above, are_most_within, count_above, is_long, is_slow, longest, no_delay, waits_long, with_delay, with_right, with_waited};

use roam_cells::Fault;
use roam_prediction::Predictions;
use std::alloc::Global;
use std::marker::Model;

/// Of so many delays each is kept.
const MOST_KEPT: usize = 10;

/// So many of them are most.
const MOST: usize = 6;

/// Where most delays are above so many milliseconds, predictions are shown.
const SLOW: u64 = 10;

/// Where most are at most so many again, they aren't any more.
const FAST: u64 = 4;

/// Where most are above so many, predicted cells are underlined.
const LONG: u64 = 80;

/// They are underlined if one waits so many milliseconds to be shown.
const LONGEST: u64 = 250;

/// How long the last predictions that were right had waited, and whether that is slow.
#[derive(Drop)]
pub(crate) struct Delays {
    last: Vec<u64>,
    slow: bool,
}

impl Model for Delays {
    ghost use Rattle.roam_overlay.specs.Delays.{DelaysOf, AreKept};

    ghost Value = { DelaysOf };

    ghost view = { λ d. record { last = d.last.items; slow = d.slow } };

    ghost invariant = { λ d. AreKept d.last };
}

// How many delays are above a limit.
fn count_above(delays: &[u64], limit: u64) -> usize
    ensures count { result ≡ count_above delays.now limit }
    ensures most { result ≤ length delays.now }
{
    if delays.is_empty() {
        return 0;
    }
    let more = count_above(&delays[1..], limit);
    if delays[0] > limit { 1 + more } else { more }
}

// Returns true if most of the last delays are above a limit.
fn are_most_above(last: &[u64], limit: u64) -> bool
    ensures above { result ≡ are_most_above last.now limit }
{
    count_above(last, limit) >= MOST
}

// Returns true if most of the last delays are within a limit.
fn are_most_within(last: &[u64], limit: u64) -> bool
    ensures within { result ≡ are_most_within last.now limit }
{
    last.len() - count_above(last, limit) >= MOST
}

// Returns true if the link is slow after these delays, by whether it was before.
fn is_slow(last: &[u64], was_slow: bool) -> bool
    ensures slow { result ≡ is_slow last.now was_slow }
{
    are_most_above(last, SLOW) || (was_slow && !are_most_within(last, FAST))
}

// Returns true if a prediction, if there is one, has waited for long.
fn waits_long(waited: Option<u64>) -> bool
    ensures long { result ≡ waits_long waited }
{
    match waited {
        None => false,
        Some(waited) => waited >= LONGEST,
    }
}

// The longest of the last delays.
fn longest(delays: &[u64]) -> u64
    ensures longest { result ≡ longest delays.now }
{
    if delays.is_empty() {
        return 0;
    }
    longest(&delays[1..]).max(delays[0])
}

// Adds a delay, and drops the oldest of ten.
fn push_delay(last: &mut Vec<u64>, delay: u64)
    requires kept { AreKept last.old }
    ensures pushed { last.new.items ≡ with_delay delay last.old.items }
    ensures kept { AreKept last.new }
{
    if last.len() >= MOST_KEPT {
        drop(last.drain(..1));
    }
    // It was made with room for ten.
    let _ = last.extend_from_slice(&[delay]);
}

// Adds the time that a prediction had waited, if there is one.
fn push_waited(last: &mut Vec<u64>, waited: Option<u64>)
    requires kept { AreKept last.old }
    ensures pushed { last.new.items ≡ with_waited waited last.old.items }
    ensures kept { AreKept last.new }
{
    if let Some(delay) = waited {
        push_delay(last, delay);
    }
}

// Adds how long the predictions from a place on, so many, had waited at a moment.
fn push_right(last: &mut Vec<u64>, predictions: &Predictions, now: u64, place: usize, count: usize)
    requires kept { AreKept last.old }
    requires fits { place + count < 2 ^ 64 }
    ensures pushed { last.new.items ≡ with_right predictions.now.list now place count last.old.items }
    ensures kept { AreKept last.new }
{
    if count == 0 {
        return;
    }
    push_waited(last, predictions.waited(now, place));
    push_right(last, predictions, now, place + 1, count - 1);
}

impl Delays {
    /// Nothing was shown yet, and nothing is slow. Refuses want of memory; no later call takes any.
    pub(crate) fn new(alloc: Global) -> Result<Delays, Fault>
        ensures none { IfOk result (λ delays. delays ≡ no_delay) }
        ensures fault { IsOkUnless result Fault.OutOfMemory }
    {
        Ok(Delays {
            last: Vec::with_capacity(alloc, MOST_KEPT)?,
            slow: false,
        })
    }

    /// The first so many predictions are shown to be right at a moment.
    pub(crate) fn right(&mut self, predictions: &Predictions, count: usize, now: u64)
        ensures right { self.new ≡ after_right predictions.now.list now count self.old }
    {
        push_right(&mut self.last, predictions, now, 0, count);
        self.slow = is_slow(&self.last, self.slow);
    }

    /// How long the slowest of the last ten took.
    pub(crate) fn longest(&self) -> u64
        ensures longest { result ≡ longest self.now.last }
    {
        longest(&self.last)
    }

    /// Returns true if keys take long enough to be shown that predictions are.
    pub(crate) fn is_slow(&self) -> bool
        ensures slow { result ≡ self.now.slow }
    {
        self.slow
    }

    /// Returns true if they take so long at a moment that predicted cells are underlined.
    pub(crate) fn is_long(&self, predictions: &Predictions, now: u64) -> bool
        ensures long { result ≡ is_long self.now.last predictions.now.list now }
    {
        are_most_above(&self.last, LONG) || waits_long(predictions.waited(now, 0))
    }
}
