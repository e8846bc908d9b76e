//! Moments in milliseconds.
ghost use Rattle.std.specs.Prelude.{◌≡◌, ◌≤◌, ℕ, Option, None, true, false};

use std::time::{Clock, Instant};

/// The source of moments: a clock, or a caller who sets them.
#[derive(Drop)]
pub enum Moments<R> {
    Real {
        clock: R,
        start: Option<Instant>,
        last: u64,
    },
    Set(u64),
}

impl<R: Clock + Drop> Moments<R> {
    /// Returns the moments of a clock, from 0 at its first use.
    pub fn real(clock: R) -> Moments<R>
        ensures real { result ≡ Moments.Real clock None 0 }
    {
        Moments::Real {
            clock,
            start: None,
            last: 0,
        }
    }

    /// Returns true if a clock gives the moments, false if a caller sets them.
    pub fn is_real(&self) -> bool
        ensures set { (moment : ℕ) → self.now ≡ Moments.Set moment → result ≡ false }
        ensures real { (clock : R) (start : Option Instant) (last : ℕ) → self.now ≡ Moments.Real clock start last → result ≡ true }
    {
        match self {
            Moments::Set(_) => false,
            Moments::Real { .. } => true,
        }
    }

    /// Returns the moment now, or the one before if the clock fails. Moments never fall.
    pub fn now(&mut self) -> u64
        ensures set { (moment : ℕ) → self.old ≡ Moments.Set moment → result ≡ moment }
        ensures stays { (moment : ℕ) → self.old ≡ Moments.Set moment → self.new ≡ self.old }
        ensures last { (clock : R) (start : Option Instant) (last : ℕ) → self.new ≡ Moments.Real clock start last → result ≡ last }
        ensures rises { (clock : R) (start : Option Instant) (last : ℕ) → self.old ≡ Moments.Real clock start last → last ≤ result }
        ensures kind { (moment : ℕ) → self.new ≡ Moments.Set moment → self.old ≡ self.new }
    {
        match self {
            Moments::Set(moment) => *moment,
            Moments::Real { clock, start, last } => {
                if start.is_none() {
                    *start = Instant::now(clock).ok();
                } else if let Some(moment) = passed(clock, start) {
                    *last = moment.max(*last);
                }
                *last
            }
        }
    }
}

// Returns the milliseconds since the instance; `None` if the clock fails.
fn passed<R: Clock>(clock: &R, start: &Option<Instant>) -> Option<u64> {
    let passed = start.as_ref()?.elapsed(clock).ok()?;
    u64::try_from(passed.as_millis()).ok()
}
