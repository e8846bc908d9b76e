//! The effect of a tick on all records, or on none.
ghost use Rattle.std.specs.Prelude.{◌≡◌, ◌⊎◌, ◌++◌, ◌≤◌, ◌<◌, ◌^◌, length, map, take, drop, true, false, IfErr, IfSome, OnOk, OnErr};
ghost use Rattle.std.specs.List.{flat_map, list_any};
ghost use Rattle.roam_screens.specs.Narrow.{narrow};
ghost use Rattle.roam_hub.specs.Servers.{parcels_of};
ghost use Rattle.roam_hub.specs.Records.{texts_for, is_entry_spent, settled_entry};
ghost use Rattle.roam_hub.specs.Waits.{is_entry_due};
ghost use Rattle.roam_hub.specs.Shared.{GoTogether};
ghost use Rattle.roam_acts.specs.Limits.{number_limit};

use crate::records::{News, Record};
use crate::shared::Shared;
use indexmap::IndexMap;
use roam_cells::{Addr, Fault};
use roam_screens::RowShot;
use std::alloc::Global;

/// Offers the newest number with its screen to the records from a place on, each if it may need it and as its version shows it. Appends the
/// texts of the datagrams to those that are sent to, each with its address, and notes that they are sent. The version 1 form of the screen
/// is made once, when it is needed, and so is the diff of a version between two numbers; both are kept for later records. `Spent` exactly
/// if a number that one of them needs would be 2^62; `OutOfMemory`. An error leaves all records as they were: each is settled once all
/// after it are prepared.
pub fn send_from(
    alloc: Global,
    news: News,
    screen: &RowShot,
    shared: &mut Shared,
    records: &mut IndexMap<u64, Record>,
    at: usize,
    parcels: &mut Vec<(Addr, Vec<u8>)>,
) -> Result<(), Fault>
    requires within { at ≤ length records.old.entries }
    requires number { news.number < number_limit }
    requires session { news.session < 2 ^ 64 }
    requires narrow { IfSome shared.old.narrow (λ old. old ≡ narrow screen.now) }
    requires together { GoTogether news.number screen.now (drop at records.old.entries) shared.old.changes.items }
    ensures settled { OnOk result (records.new.entries ≡ take at records.old.entries
        ++ map (settled_entry news.number screen.now news.now) (drop at records.old.entries)) }
    ensures parcels { OnOk result (parcels_of parcels.new.items ≡ parcels_of parcels.old.items
        ++ flat_map (texts_for news.session news.number screen.now news.now) (drop at records.old.entries)) }
    ensures fit { OnOk result (list_any (is_entry_spent news.number screen.now news.now) (drop at records.old.entries) ≡ false) }
    ensures fault { IfErr result (λ fault. (fault ≡ Fault.OutOfMemory) ⊎ ((fault ≡ Fault.Spent)
        × (list_any (is_entry_spent news.number screen.now news.now) (drop at records.old.entries) ≡ true))) }
    ensures memory { OnErr result (list_any (is_entry_due news.number news.now) (drop at records.old.entries) ≡ true) }
    ensures err { OnErr result (records.new.entries ≡ records.old.entries) }
    ensures narrow { IfSome shared.new.narrow (λ old. old ≡ narrow screen.now) }
{
    if at == records.len() {
        return Ok(());
    }
    let (id, record) = records.pair_mut(at);
    let prepared = record.prepare(alloc, news, *id, screen, shared, parcels)?;
    match send_from(alloc, news, screen, shared, records, at + 1, parcels) {
        Ok(()) => {
            let (_, record) = records.pair_mut(at);
            record.settle(prepared, news.now);
            Ok(())
        }
        Err(fault) => {
            let (_, record) = records.pair_mut(at);
            record.undo(prepared);
            Err(fault)
        }
    }
}
