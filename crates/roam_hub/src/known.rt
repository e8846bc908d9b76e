//! The records of client instances, by their ids, in the order of arrival.
ghost use Rattle.std.specs.Prelude.{◌≡◌, ◌⊎◌, ◌+◌, ◌<◌, ◌^◌, nat_eq, length, if◌then◌else◌, IfOk, IfErr, IfSome, OnErr};
ghost use Rattle.std.specs.List.{IsDistinct};
ghost use Rattle.std.specs.Map.{keys_of};
ghost use Rattle.roam_wire.specs.Datagrams.{datagram_value};
ghost use Rattle.roam_model.specs.ServerArrivals.{most_of};
ghost use Rattle.roam_hub.specs.Servers.{address_of};
ghost use Rattle.roam_hub.specs.Records.{acts_after, alike_entries, NotesIn, NotNotedIn};

use crate::limits::{MOST_EDITING, MOST_WATCHING};
use crate::records::{Record, is_same, is_watching};
use crate::taking::Taking;
use indexmap::IndexMap;
use roam_cells::{Addr, Fault};
use roam_session::Session;
use roam_wire::Datagram;
use std::alloc::Global;

// How many instances that only watch may be known, or how many others.
fn most(watches: bool) -> usize
    ensures most { result ≡ most_of watches }
{
    if watches { MOST_WATCHING } else { MOST_EDITING }
}

// Returns so many, and one more if it is one of those that are counted.
fn counted(count: usize, is_one: bool) -> usize
    requires few { count < 2 ^ 63 }
    ensures count { result ≡ (if is_one then count + 1 else count) }
{
    if is_one { count + 1 } else { count }
}

/// How many of the records are of instances that only watch, or of others.
pub fn alike(records: &IndexMap<u64, Record>, watches: bool) -> usize
    ensures count { result ≡ length (alike_entries watches records.now.entries) }
{
    let mut count = 0;
    for at in 0..records.len() {
        let (_, record) = records.get_index(at).unwrap();
        count = counted(count, is_same(record.watches(), watches));
    }
    count
}

/// How many acts were taken of all instances, modulo 2^64.
pub fn acts_taken(records: &IndexMap<u64, Record>) -> u64
    ensures taken { result ≡ acts_after 0 records.now.entries }
{
    let mut taken: u64 = 0;
    for at in 0..records.len() {
        let (_, record) = records.get_index(at).unwrap();
        taken = taken.wrapping_add(record.taken());
    }
    taken
}

/// Notes a datagram in the record of its client instance, which may be new, and does the new acts of an instruction that it completes. An
/// error leaves the records and the session as they were. 64 instances that type and 16 read-only ones may be known.
pub fn hear_in(
    alloc: Global,
    session: &mut Session,
    records: &mut IndexMap<u64, Record>,
    from: Addr,
    datagram: &Datagram,
    now: u64,
) -> Result<Taking, Fault>
    ensures noted { IfOk result (λ t. NotesIn records.old.entries session.old (datagram_value datagram.now) (address_of from) now t
        records.new.entries session.new) }
    ensures stops { IfOk result (λ t. IfSome t.stopped (λ fault. (fault ≡ Fault.OutOfMemory) ⊎ (fault ≡ Fault.Busy))) }
    ensures fault { IfErr result (λ fault. NotNotedIn records.old.entries (datagram_value datagram.now) fault) }
    ensures records { OnErr result (records.new.entries ≡ records.old.entries) }
    ensures session { OnErr result (session.new ≡ session.old) }
    ensures unique { IsDistinct nat_eq (keys_of records.old.entries) }
{
    if let Some(record) = records.get_mut(&datagram.client) {
        return record.hear(alloc, session, from, datagram, now);
    }
    let watches = is_watching(datagram.kind);
    if alike(records, watches) >= most(watches) {
        return Err(Fault::ClientsFull);
    }
    records.reserve(1)?;
    let mut record = Record::new(alloc, datagram.version, watches)?;
    let taking = record.hear(alloc, session, from, datagram, now)?;
    records.insert(datagram.client, record).unwrap();
    Ok(taking)
}
