//! Until when a tick does nothing to any record.
ghost use Rattle.std.specs.Prelude.{◌≡◌, ◌≤◌, ◌<◌, ◌^◌, ℕ, max, true, false, IfSome};
ghost use Rattle.std.specs.List.{list_any};
ghost use Rattle.roam_hub.specs.Waits.{has_come, is_entry_due};

use crate::moments::earlier;
use crate::records::Record;
use indexmap::IndexMap;

/// Returns the first moment at which a tick offers one of these records a number or sends something to it, if nothing comes before and no
/// tick goes by a moment before the clock.
pub fn next_due_of(records: &IndexMap<u64, Record>, number: u64, clock: u64) -> Option<u64>
    ensures before { (now : ℕ) → clock ≤ now → now < 2 ^ 64 → has_come result now ≡ false
        → list_any (is_entry_due number now) records.now.entries ≡ false }
    ensures at { IfSome result (λ due. list_any (is_entry_due number (max due clock)) records.now.entries ≡ true) }
{
    let mut due = None;
    for at in 0..records.len() {
        let (_, record) = records.get_index(at).unwrap();
        due = earlier(due, record.next_due(number, clock));
    }
    due
}
