//! Moments, in milliseconds, at which something is due, and owed answers.
ghost use Rattle.std.specs.Prelude.{◌≡◌, ◌+◌, ◌<◌, ◌^◌, ◌⊎◌, ◌||◌, ℕ, max, nat_lt, if◌then◌else◌, Some, None, IfSome};
ghost use Rattle.roam_model.specs.Moments.{forget_after, has_passed, is_overdue, owed_from};
ghost use Rattle.roam_hub.specs.Waits.{has_come, PassesFrom};

/// The least time from one number to the next.
pub(crate) const FRAME_INTERVAL: u64 = 20;

/// An answer that is owed is given after so long.
const ANSWER_DELAY: u64 = 100;

/// An instance from which nothing came for so long is sent nothing.
const FORGET_AFTER: u64 = 60_000;

/// Returns true if so many milliseconds have passed since a moment.
pub(crate) fn has_passed(long: u64, since: u64, now: u64) -> bool
    ensures passed { result ≡ has_passed long since now }
{
    since <= now && now - since >= long
}

/// Returns true if an answer has been owed for as long as it may be.
pub(crate) fn is_overdue(owed: Option<u64>, now: u64) -> bool
    ensures overdue { result ≡ is_overdue owed now }
{
    match owed {
        None => false,
        Some(since) => has_passed(ANSWER_DELAY, since, now),
    }
}

/// The moment from which on so many milliseconds have passed since another one; none past the last moment.
pub(crate) fn moment_after(long: u64, since: u64) -> Option<u64>
    ensures from { PassesFrom result (has_passed long since) }
{
    since.checked_add(long)
}

/// The moment from which on an answer has been owed for as long as it may be.
pub(crate) fn answer_from(owed: Option<u64>) -> Option<u64>
    ensures from { PassesFrom result (is_overdue owed) }
{
    moment_after(ANSWER_DELAY, owed?)
}

/// The earlier of two moments, either of which may be none.
pub(crate) fn earlier(one: Option<u64>, other: Option<u64>) -> Option<u64>
    ensures come { (now : ℕ) → has_come result now ≡ (has_come one now || has_come other now) }
    ensures one_of { (result ≡ one) ⊎ (result ≡ other) }
{
    match (one, other) {
        (Some(first), Some(second)) if first <= second => one,
        (Some(_), None) => one,
        _ => other,
    }
}

/// Returns a moment for ticks that go by a clock if they come before it: 0 if it has come at the clock.
pub(crate) fn by_clock(due: Option<u64>, clock: u64) -> Option<u64>
    ensures come { (now : ℕ) → has_come result now ≡ has_come due (max now clock) }
    ensures none { due ≡ None → result ≡ None }
    ensures same { (moment : ℕ) → due ≡ Some moment → IfSome result (λ d. max d clock ≡ max moment clock) }
    ensures low { clock < 2 ^ 64 }
{
    match due {
        Some(moment) if moment <= clock => Some(0),
        _ => due,
    }
}

/// Returns since when an answer is owed, if one may be owed from now on.
pub(crate) fn owed_after(owed: Option<u64>, owes: bool, now: u64) -> Option<u64>
    ensures owed { result ≡ (if owes then owed_from owed now else owed) }
{
    match owed {
        None if owes => Some(now),
        _ => owed,
    }
}

/// Returns true if a datagram of an instance came of late.
pub(crate) fn is_heard(heard_at: u64, now: u64) -> bool
    ensures heard { result ≡ nat_lt now (heard_at + forget_after) }
{
    now < heard_at || now - heard_at < FORGET_AFTER
}
