//! Moments and the time between them.
ghost use Rattle.std.specs.Prelude.{◌≡◌};
ghost use Rattle.roam_pane_sockets.specs.Moments.{after, is_time, sooner, standing};

/// A moment is kept for at most this many milliseconds while an update goes on.
const LONGEST_STAND: u64 = 50;

/// Returns true if so many milliseconds have passed since a moment, or there was none.
pub fn is_time(last: Option<u64>, now: u64, pace: u64) -> bool
    ensures time { result ≡ is_time last now pace }
{
    match last {
        None => true,
        Some(last) => now.saturating_sub(last) >= pace,
    }
}

/// So many milliseconds after a moment, if there was one.
pub fn after(last: Option<u64>, pace: u64) -> Option<u64>
    ensures after { result ≡ after last pace }
{
    match last {
        None => None,
        Some(last) => Some(last.saturating_add(pace)),
    }
}

/// The sooner of two moments, if there is any.
pub fn sooner(one: Option<u64>, other: Option<u64>) -> Option<u64>
    ensures sooner { result ≡ sooner one other }
{
    match (one, other) {
        (None, other) => other,
        (one, None) => one,
        (Some(one), Some(other)) => Some(one.min(other)),
    }
}

/// Returns the moment, given the clock's and the moment before. While an update goes on it is the one before, for a limited time, so that
/// no tick makes a screen within the update.
pub fn standing(goes_on: bool, before: u64, now: u64) -> u64
    ensures standing { result ≡ standing goes_on before now }
{
    if goes_on && now.saturating_sub(before) < LONGEST_STAND {
        before
    } else {
        now
    }
}
