//! Which lines of a terminal are taken, with all their acts acknowledged.
ghost use Rattle.std.specs.Prelude.{◌≡◌};
ghost use Rattle.roam_display_records.specs.Taken.{acknowledged_of, done, done_after, nothing_taken, risen, still_waiting, took, waits_for};

use arrayvec::ArrayVec;
use std::marker::Model;

/// How many lines with acts are kept apart at most: as many acts as a start has unacknowledged.
const MOST_WAITING: usize = 64;

/// The lines of a terminal that were taken, and which of them have acts that aren't acknowledged yet.
#[derive(Drop)]
pub struct TakenLines {
    lines: u64,
    // A line's number, from 1, and the number of its last act.
    waiting: ArrayVec<(u64, u64), MOST_WAITING>,
    told: u64,
}

impl Model for TakenLines {
    ghost use Rattle.roam_display_records.specs.Taken.{TakenView};

    ghost Value = { TakenView };

    ghost view = { λ t. record { lines = t.lines; waiting = t.waiting.items; told = t.told } };
}

// A line waits for its last act, behind the others.
fn push_waiting(waiting: &mut ArrayVec<(u64, u64), MOST_WAITING>, line: u64, act: u64)
    ensures waits { waiting.new.items ≡ waits_for line act waiting.old.items }
{
    if waiting.len() < MOST_WAITING {
        waiting.push((line, act));
        return;
    }
    if let Some((last, before)) = waiting.pop() {
        waiting.push((last, before.max(act)));
    }
}

// Those go whose acts are all among the first so many.
fn drop_done(waiting: &mut ArrayVec<(u64, u64), MOST_WAITING>, acts: u64)
    ensures waiting { waiting.new.items ≡ still_waiting acts waiting.old.items }
{
    waiting.retain(|entry| entry.1 > acts);
}

// How many of the first lines wait for nothing.
fn done_of(lines: u64, waiting: &[(u64, u64)]) -> u64
    ensures done { result ≡ done lines waiting.now }
{
    match waiting.first() {
        None => lines,
        Some((line, _)) => line.saturating_sub(1),
    }
}

// How many of the first lines wait for none of the acts behind the first so many.
fn done_among(lines: u64, waiting: &[(u64, u64)], acts: u64) -> u64
    ensures done { result ≡ done lines (still_waiting acts waiting.now) }
{
    let Some((first, others)) = waiting.split_first() else {
        return lines;
    };
    if first.1 > acts {
        first.0.saturating_sub(1)
    } else {
        done_among(lines, others, acts)
    }
}

impl TakenLines {
    /// Returns a value with no line taken, and none reported.
    pub fn new() -> TakenLines
        ensures none { result ≡ nothing_taken }
    {
        TakenLines {
            lines: 0,
            waiting: ArrayVec::new(),
            told: 0,
        }
    }

    /// Notes that one line more was taken; the last of its acts has this number, if it has acts.
    pub fn took(&mut self, last: Option<u64>)
        ensures took { self.new ≡ took last self.old }
    {
        self.lines = self.lines.saturating_add(1);
        if let Some(act) = last {
            push_waiting(&mut self.waiting, self.lines, act);
        }
    }

    /// Returns how many of the first lines are taken, with all their acts acknowledged, if so many acts are; `None` if no more than were
    /// reported.
    pub fn risen(&self, acts: u64) -> Option<u64>
        ensures risen { result ≡ risen self.now.told (done_after acts self.now) }
    {
        let done = done_among(self.lines, &self.waiting, acts);
        if done <= self.told { None } else { Some(done) }
    }

    /// Notes that so many acts are acknowledged; returns how many of the first lines are taken, with all their acts acknowledged, if that
    /// rose.
    pub fn acknowledged(&mut self, acts: u64) -> Option<u64>
        ensures acknowledged { self.new ≡ acknowledged_of acts self.old }
        ensures risen { result ≡ risen self.old.told (done_after acts self.old) }
    {
        drop_done(&mut self.waiting, acts);
        let done = done_of(self.lines, &self.waiting);
        if done <= self.told {
            return None;
        }
        self.told = done;
        Some(done)
    }
}
