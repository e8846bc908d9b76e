//! The parts that a tick makes once, and lends to each record that needs them.
ghost use Rattle.std.specs.Prelude.{◌≡◌, ◌<◌, ◌≤◌, [], None, length, IsTrue, IfOk, IfSome, OnOk, IsOkUnless};
ghost use Rattle.roam_acts.specs.Limits.{number_limit};
ghost use Rattle.roam_sync.specs.Senders.{newest};
ghost use Rattle.roam_wire.specs.Instructions.{IsDown, down_value, down_text};
ghost use Rattle.roam_wire.specs.Versions.{most_bytes};
ghost use Rattle.roam_model.specs.Ticks.{down_from};
ghost use Rattle.roam_hub.specs.Ends.{version_of, sending_of};
ghost use Rattle.roam_hub.specs.Shared.{Agree, StayBetween, IsFromTo, HasChange, IsChangeFor, with_acked};

use crate::ends::AnySender;
use crate::records::is_same_version;
use roam_cells::Fault;
use roam_screens::RowShot1;
use roam_wire::{Down, Version, write_down};
use std::alloc::Global;

/// The diff between two numbers in a version, as in an instruction; the number of acknowledged acts is each record's own.
#[derive(Drop)]
pub struct SharedChange {
    pub version: Version,
    pub down: Down,
}

/// The parts that a tick made so far: the version 1 form of its screen, and the diffs.
#[derive(Drop)]
pub struct Shared {
    pub narrow: Option<RowShot1>,
    pub changes: Vec<SharedChange>,
}

impl Shared {
    /// Nothing was made yet.
    pub fn new(alloc: Global) -> Shared
        ensures narrow { result.narrow ≡ None }
        ensures changes { result.changes.items ≡ [] }
    {
        Shared {
            narrow: None,
            changes: Vec::new(alloc),
        }
    }
}

// Returns true if a diff is of a version and leads from one number to another.
fn is_between(change: &SharedChange, version: Version, old: u64, new: u64) -> bool
    ensures from_to { IsTrue result → IsFromTo version old new change.now }
{
    change.down.old == old && change.down.new == new && is_same_version(change.version, version)
}

// Returns the place of the diff of a version from one number to another, if it was made.
fn place_of(changes: &[SharedChange], version: Version, old: u64, new: u64) -> Option<usize>
    ensures has { IfSome result (λ at. HasChange changes.now at version old new) }
{
    for at in 0..changes.len() {
        if is_between(&changes[at], version, old, new) {
            return Some(at);
        }
    }
    None
}

// Returns the place of the diff from a sender's base to its newest, which is made if it isn't there. `OutOfMemory`.
fn made_at(
    alloc: Global,
    sender: &AnySender,
    base: u64,
    changes: &mut Vec<SharedChange>,
) -> Result<usize, Fault>
    requires base { base ≡ (sending_of sender.now).base.number }
    requires agree { Agree (version_of sender.now) (sending_of sender.now) changes.old.items }
    ensures at { IfOk result (λ at. IsChangeFor changes.new.items at (version_of sender.now) (sending_of sender.now)) }
    ensures stay { OnOk result (StayBetween (version_of sender.now) (sending_of sender.now) changes.old.items changes.new.items) }
    ensures fault { IsOkUnless result Fault.OutOfMemory }
{
    let version = sender.version();
    let newest = sender.newest_number();
    if let Some(at) = place_of(changes.as_slice(), version, base, newest) {
        return Ok(at);
    }
    let made = sender.instruction(alloc)?;
    let down = Down {
        old: made.old,
        new: made.new,
        floor: made.floor,
        acked: 0,
        change: made.change,
    };
    changes.push(SharedChange { version, down })?;
    Ok(changes.len() - 1)
}

// The text of an instruction with a diff, which acknowledges so many acts. Refuses want of memory.
fn text_with(alloc: Global, change: &mut SharedChange, acked: u64) -> Result<Vec<u8>, Fault>
    requires limits { IsDown (down_value (with_acked change.old acked).down) }
    ensures same { change.new ≡ with_acked change.old acked }
    ensures written { IfOk result (λ text. text.items ≡ down_text (down_value (with_acked change.old acked).down)) }
    ensures fault { IsOkUnless result Fault.OutOfMemory }
{
    change.down.acked = acked;
    write_down(alloc, &change.down)
}

/// Returns the text of the instruction from a sender's base to its newest, which acknowledges so many acts. The diff is made if there is
/// none of this version between these numbers, and kept for the next. `OutOfMemory`.
pub fn text_of(
    alloc: Global,
    sender: &AnySender,
    base: u64,
    acked: u64,
    changes: &mut Vec<SharedChange>,
) -> Result<Vec<u8>, Fault>
    requires base { base ≡ (sending_of sender.now).base.number }
    requires newest { (newest (sending_of sender.now)).number < number_limit }
    requires acked { acked < number_limit }
    requires agree { Agree (version_of sender.now) (sending_of sender.now) changes.old.items }
    ensures written { IfOk result (λ text. text.items ≡ down_text (down_from (version_of sender.now) (sending_of sender.now) acked)) }
    ensures short { IfOk result (λ text. length text.items ≤ most_bytes (version_of sender.now)) }
    ensures stay { OnOk result (StayBetween (version_of sender.now) (sending_of sender.now) changes.old.items changes.new.items) }
    ensures fault { IsOkUnless result Fault.OutOfMemory }
{
    let at = made_at(alloc, sender, base, changes)?;
    text_with(alloc, &mut changes[at], acked)
}
