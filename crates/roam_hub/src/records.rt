//! The server's record of a client instance.
ghost use Rattle.std.specs.Prelude.{◌≡◌, ◌==◌, ◌⊎◌, ◌+◌, ◌++◌, ◌∷◌, [], ◌<◌, ◌≤◌, ◌^◌, ◌&&◌, ◌||◌, ℕ, List, length, map, max, nat_lt, true, false, is_some, if◌then◌else◌, IfOk, IfErr, IfSome, OnOk, OnErr, IsTrue, IsOkUnless};
ghost use Rattle.roam_screens.specs.Narrow.{narrow};
ghost use Rattle.roam_sync.specs.Senders.{newest, count, acked, is_due};
ghost use Rattle.roam_wire.specs.Cutting.{texts_of};
ghost use Rattle.roam_wire.specs.Datagrams.{datagram_text, datagram_value};
ghost use Rattle.roam_wire.specs.Gatherers.{untaken};
ghost use Rattle.roam_model.specs.Moments.{is_overdue, owed_from, forget_after};
ghost use Rattle.roam_model.specs.Texts.{is_watching as is_watching_kind};
ghost use Rattle.roam_model.specs.ServerArrivals.{is_same as are_same};
ghost use Rattle.roam_model.specs.Versions.{is_same_version as are_same_version};
ghost use Rattle.roam_hub.specs.Ends.{version_of, sending_of};
ghost use Rattle.roam_hub.specs.Servers.{address_of, parcels_of};
ghost use Rattle.roam_hub.specs.Records.{first_record, Fits, IsOther, Notes, NotHeard, is_instruction_spent, is_sent_to, fragments_sent, datagrams_for, parcels_for, settled_with, HasNumbersFor, back_from, held_record, is_entry_spent};
ghost use Rattle.roam_hub.specs.Waits.{has_come, PassesFrom, is_active, is_record_due};
ghost use Rattle.roam_hub.specs.Shared.{Agree, StayBetween, GoTogether, StayTogether};
ghost use Rattle.roam_acts.specs.Limits.{number_limit};
ghost use Rattle.roam_sync.specs.Limits.{most_held};

use crate::ends::AnySender;
use crate::moments::{answer_from, earlier, is_heard, is_overdue, owed_after};
use crate::packing::{Heading, packed};
use crate::shared::{Shared, SharedChange, text_of};
use crate::taking::{Taking, take_acts};
use roam_acts::limits::NUMBER_LIMIT;
use roam_acts::{Act, ActTaker};
use roam_cells::{Addr, Fault, Reason};
use roam_screens::{RowShot, RowShot1};
use roam_session::Session;
use roam_sync::limits::MOST_HELD;
use roam_wire::{Datagram, Gathered, Gatherer, Kind, Version, read_up};
use std::alloc::Global;
use std::marker::Model;

/// The server's record of a client instance.
#[derive(Drop)]
pub struct Record {
    watches: bool,
    gatherer: Gatherer,
    taker: ActTaker,
    sender: AnySender,
    /// The number of the sender's base.
    base: u64,
    heard_at: u64,
    latest: u64,
    address: Addr,
    owed: Option<u64>,
    /// When something was last sent to the instance, 0 before the first.
    sent_at: u64,
    datagrams: u64,
    instructions: u64,
}

/// The contents of a tick's datagrams: the session's id, the newest number, and the moment.
#[derive(Clone, Copy)]
pub struct News {
    pub session: u64,
    pub number: u64,
    pub now: u64,
}

/// The result of preparing a record at a tick: whether the newest number was offered, and how many datagrams go to its client instance.
#[derive(Clone, Copy)]
pub struct Prepared {
    offered: bool,
    fragments: Option<u64>,
}

impl Model for Record {
    ghost use Rattle.roam_acts.specs.Limits.{number_limit, most_acts};
    ghost use Rattle.std.specs.Prelude.{◌≡◌, ◌+◌, ◌<◌, ◌^◌};
    ghost use Rattle.roam_sync.specs.Senders.{newest};
    ghost use Rattle.roam_hub.specs.Ends.{version_of, sending_of};
    ghost use Rattle.roam_hub.specs.Servers.{RecordView, address_of};

    ghost Value = { RecordView };

    ghost view = { λ r. record {
      version = version_of r.sender;
      watches = r.watches;
      gathering = r.gatherer.current;
      taken = r.taker;
      sender = sending_of r.sender;
      heard_at = r.heard_at;
      latest = r.latest;
      address = address_of r.address;
      owed = r.owed;
      datagrams = r.datagrams;
      instructions = r.instructions;
    } };

    ghost invariant = { λ r. (r.taker < number_limit + most_acts) × ((newest (sending_of r.sender)).number < number_limit)
        × (r.datagrams < number_limit) × (r.instructions < number_limit) × (r.sent_at ≡ (sending_of r.sender).last)
        × (r.base ≡ (sending_of r.sender).base.number) };
}

// Returns the source of the greatest-numbered datagram, if one of this number came from there.
fn source(latest: u64, address: Addr, number: u64, from: Addr) -> Addr
    ensures source { address_of result ≡ (if nat_lt latest number then address_of from else address_of address) }
{
    if latest < number { from } else { address }
}

// Takes the last fragment back, if its instruction's acts stopped.
fn keep_unless(gatherer: &mut Gatherer, stopped: bool)
    ensures kept { gatherer.new.current ≡ (if stopped then (untaken gatherer.old).current else gatherer.old.current) }
{
    if stopped {
        gatherer.untake();
    }
}

// Returns the number of a sender's base, once it dropped the states before this number, if it is there: then fewer are left.
fn base_after(base: u64, before: usize, after: usize, number: u64) -> u64
    ensures base { result ≡ (if nat_lt after before then number else base) }
{
    if after < before { number } else { base }
}

// Drops a sender's states before this number, if it is there, and notes its base's number.
fn acknowledge(sender: &mut AnySender, base: &mut u64, number: u64)
    requires base { base.old ≡ (sending_of sender.old).base.number }
    ensures acked { sending_of sender.new ≡ acked (sending_of sender.old) number }
    ensures base { base.new ≡ (sending_of sender.new).base.number }
    ensures version { version_of sender.new ≡ version_of sender.old }
{
    let held = sender.len();
    sender.acked(number);
    *base = base_after(*base, held, sender.len(), number);
}

// Returns true if a number may be offered to an instance: it is new to its sender, and there are fewer than eight.
fn has_room_for(sender: &AnySender, number: u64) -> bool
    ensures room { result ≡ (nat_lt (newest (sending_of sender.now)).number number
        && nat_lt (count (sending_of sender.now)) most_held) }
{
    sender.newest_number() < number && sender.len() < MOST_HELD
}

// Returns true if a number is offered to an instance: a datagram of it came of late, the number is new to its sender, and there are fewer
// than eight.
fn may_be_offered(sender: &AnySender, heard_at: u64, number: u64, now: u64) -> bool
    ensures offered { result ≡ (nat_lt now (heard_at + forget_after) && nat_lt (newest (sending_of sender.now)).number number
        && nat_lt (count (sending_of sender.now)) most_held) }
{
    is_heard(heard_at, now) && has_room_for(sender, number)
}

// Returns true if an instance is sent to: a datagram of it came of late, and its sender is due or an answer is overdue.
fn is_sent_to(sender: &AnySender, heard_at: u64, owed: Option<u64>, now: u64) -> bool
    ensures sent_to { result ≡ (nat_lt now (heard_at + forget_after) && (is_due (sending_of sender.now) now || is_overdue owed now)) }
{
    is_heard(heard_at, now) && (sender.due(now) || is_overdue(owed, now))
}

// Adds texts, each with the address that it goes to. Refuses want of memory.
fn address(to: Addr, texts: Vec<Vec<u8>>, parcels: &mut Vec<(Addr, Vec<u8>)>) -> Result<(), Fault>
    ensures parcels { OnOk result (parcels_of parcels.new.items ≡ parcels_of parcels.old.items
        ++ map (λ (text : List ℕ). (address_of to, text)) (texts_of texts.items)) }
    ensures fault { IsOkUnless result Fault.OutOfMemory }
{
    for text in texts {
        parcels.push((to, text))?;
    }
    Ok(())
}

// Since when an answer is owed, once an instruction with these acts came.
fn owed_for(owed: Option<u64>, acts: &[Act], now: u64) -> Option<u64>
    ensures owed { result ≡ (if length acts.now == 0 then owed else owed_from owed now) }
{
    if acts.is_empty() {
        return owed;
    }
    owed_after(owed, true, now)
}

/// Returns true if a datagram of this kind comes from a read-only instance.
pub fn is_watching(kind: Kind) -> bool
    ensures watching { result ≡ is_watching_kind kind }
{
    match kind {
        Kind::ToClient | Kind::ToServer => false,
        Kind::FromWatcher => true,
    }
}

/// Returns true if two instances are both read-only, or neither is.
pub fn is_same(one: bool, other: bool) -> bool
    ensures same { result ≡ are_same one other }
{
    one == other
}

/// Returns true if two versions are equal.
pub fn is_same_version(one: Version, other: Version) -> bool
    ensures same { result ≡ are_same_version one other }
{
    one == other
}

// Returns Ok if a datagram is of the version and the kind of its instance's first one.
fn admit(version: Version, watches: bool, datagram: &Datagram) -> Result<(), Fault>
    ensures fits { OnOk result (Fits version watches (datagram_value datagram.now)) }
    ensures fault { IfErr result (λ fault. IsOther version watches (datagram_value datagram.now) fault) }
{
    if !is_same_version(version, datagram.version) {
        return Err(Fault::BadDatagram(Reason::Version));
    }
    if !is_same(watches, is_watching(datagram.kind)) {
        return Err(Fault::BadDatagram(Reason::Kind));
    }
    Ok(())
}

impl Record {
    /// The record of a client instance of a version, which may only watch, and from which nothing has come. Refuses want of memory.
    pub fn new(alloc: Global, version: Version, watches: bool) -> Result<Record, Fault>
        ensures new { IfOk result (λ r. r ≡ first_record version watches) }
        ensures fault { IsOkUnless result Fault.OutOfMemory }
    {
        let sender = AnySender::new(alloc, version)?;
        Ok(Record {
            watches,
            gatherer: Gatherer::new(alloc),
            taker: ActTaker::new(),
            sender,
            base: 0,
            heard_at: 0,
            latest: 0,
            address: Addr {
                host: [0; 4],
                port: 0,
            },
            owed: None,
            sent_at: 0,
            datagrams: 0,
            instructions: 0,
        })
    }

    /// How many acts of the instance were taken.
    pub fn taken(&self) -> u64
        ensures taken { result ≡ self.now.taken }
    {
        self.taker.taken()
    }

    /// Returns true if the instance is read-only.
    pub fn watches(&self) -> bool
        ensures watches { result ≡ self.now.watches }
    {
        self.watches
    }

    // Notes that a datagram of this number came from there.
    fn note(&mut self, number: u64, from: Addr, now: u64)
        ensures noted { self.new ≡ record self.old {
          heard_at = now;
          latest = max self.old.latest number;
          address = if nat_lt self.old.latest number then address_of from else self.old.address;
        } }
    {
        self.address = source(self.latest, self.address, number, from);
        self.latest = self.latest.max(number);
        self.heard_at = now;
    }

    /// Takes a datagram that came from an address at a moment, and does the new acts of an instruction that it completes. It refuses one of
    /// another version, then one of another kind, then an invalid fragment or instruction. `OutOfMemory` before an act. After an error the
    /// record and the session are as before.
    pub fn hear(
        &mut self,
        alloc: Global,
        session: &mut Session,
        from: Addr,
        datagram: &Datagram,
        now: u64,
    ) -> Result<Taking, Fault>
        ensures noted { IfOk result (λ t. Notes self.old session.old (datagram_value datagram.now) (address_of from) now t self.new
            session.new) }
        ensures fits { OnOk result (Fits self.old.version self.old.watches (datagram_value datagram.now)) }
        ensures stops { IfOk result (λ t. IfSome t.stopped (λ fault. (fault ≡ Fault.OutOfMemory) ⊎ (fault ≡ Fault.Busy))) }
        ensures fault { IfErr result (λ fault. NotHeard self.old (datagram_value datagram.now) fault) }
        ensures err { OnErr result (self.new ≡ self.old) }
        ensures session { OnErr result (session.new ≡ session.old) }
    {
        admit(self.sender.version(), self.watches, datagram)?;
        let Gathered::Whole(text) = self.gatherer.take(alloc, datagram)? else {
            self.note(datagram.number, from, now);
            return Ok(Taking {
                taken: 0,
                stopped: None,
            });
        };
        let up = match read_up(alloc, text.as_slice(), self.watches) {
            Ok(up) => up,
            Err(fault) => {
                self.gatherer.untake();
                return Err(fault);
            }
        };
        let fresh = self.taker.fresh(up.first, up.acts.as_slice());
        let taking = take_acts(alloc, session, &mut self.taker, datagram.client, fresh);
        keep_unless(&mut self.gatherer, taking.stopped.is_some());
        acknowledge(&mut self.sender, &mut self.base, up.acked);
        self.owed = owed_for(self.owed, up.acts.as_slice(), now);
        self.note(datagram.number, from, now);
        Ok(taking)
    }

    // Offers the newest number with its screen if it may be needed, and returns true if it did. `OutOfMemory`.
    fn offer(
        &mut self,
        alloc: Global,
        number: u64,
        screen: &RowShot,
        kept: &mut Option<RowShot1>,
        now: u64,
    ) -> Result<bool, Fault>
        requires number { number < number_limit }
        requires kept { IfSome kept.old (λ old. old ≡ narrow screen.now) }
        ensures held { OnOk result (self.new ≡ held_record self.old number screen.now now) }
        ensures several { IfOk result (λ offered. IsTrue offered → 2 ≤ count self.new.sender) }
        ensures back { IfOk result (λ offered. back_from self.new offered ≡ self.old) }
        ensures kept { IfSome kept.new (λ old. old ≡ narrow screen.now) }
        ensures fault { IsOkUnless result Fault.OutOfMemory }
        ensures memory { OnErr result (is_record_due self.old number now ≡ true) }
        ensures err { OnErr result (self.new ≡ self.old) }
    {
        if !may_be_offered(&self.sender, self.heard_at, number, now) {
            return Ok(false);
        }
        self.sender.offer(alloc, number, screen, kept)?;
        Ok(true)
    }

    // Takes an offer back, if there was one.
    fn take_back(&mut self, offered: bool)
        requires several { IsTrue offered → 2 ≤ count self.old.sender }
        requires low { (newest (back_from self.old offered).sender).number < number_limit }
        ensures back { self.new ≡ back_from self.old offered }
    {
        if offered {
            self.sender.withdraw();
        }
    }

    // Returns the texts of the datagrams of the instruction to it. `Spent` exactly if a number that it needs would be 2^62; `OutOfMemory`.
    fn instruction(
        &self,
        alloc: Global,
        session: u64,
        client: u64,
        changes: &mut Vec<SharedChange>,
    ) -> Result<Vec<Vec<u8>>, Fault>
        requires session { session < 2 ^ 64 }
        requires client { client < 2 ^ 64 }
        requires agree { Agree self.now.version self.now.sender changes.old.items }
        ensures written { IfOk result (λ all. texts_of all.items ≡ map datagram_text (datagrams_for session (client, self.now))) }
        ensures fit { OnOk result (is_instruction_spent self.now ≡ false) }
        ensures fault { IfErr result (λ fault. (fault ≡ Fault.OutOfMemory)
            ⊎ ((fault ≡ Fault.Spent) × (is_instruction_spent self.now ≡ true))) }
        ensures stay { OnOk result (StayBetween self.now.version self.now.sender changes.old.items changes.new.items) }
    {
        let acked = self.taker.taken();
        if acked >= NUMBER_LIMIT {
            return Err(Fault::Spent);
        }
        let text = text_of(alloc, &self.sender, self.base, acked, changes)?;
        let heading = Heading {
            version: self.sender.version(),
            kind: Kind::ToClient,
            session,
            client,
            before: self.datagrams,
            id: self.instructions + 1,
        };
        packed(alloc, heading, text.as_slice())
    }

    // Appends the texts of the datagrams to it, each with its address, if it is sent to, and returns their number.
    fn send(
        &self,
        alloc: Global,
        news: News,
        client: u64,
        changes: &mut Vec<SharedChange>,
        parcels: &mut Vec<(Addr, Vec<u8>)>,
    ) -> Result<Option<u64>, Fault>
        requires session { news.session < 2 ^ 64 }
        requires client { client < 2 ^ 64 }
        requires agree { Agree self.now.version self.now.sender changes.old.items }
        ensures fragments { IfOk result (λ fragments. fragments ≡ fragments_sent self.now news.now) }
        ensures parcels { OnOk result (parcels_of parcels.new.items ≡ parcels_of parcels.old.items
            ++ parcels_for news.session news.now (client, self.now)) }
        ensures fit { OnOk result ((is_sent_to self.now news.now && is_instruction_spent self.now) ≡ false) }
        ensures fault { IfErr result (λ fault. (fault ≡ Fault.OutOfMemory)
            ⊎ ((fault ≡ Fault.Spent) × ((is_sent_to self.now news.now && is_instruction_spent self.now) ≡ true))) }
        ensures memory { OnErr result (is_sent_to self.now news.now ≡ true) }
        ensures stay { OnOk result (StayBetween self.now.version self.now.sender changes.old.items changes.new.items) }
    {
        if !is_sent_to(&self.sender, self.heard_at, self.owed, news.now) {
            return Ok(None);
        }
        let texts = self.instruction(alloc, news.session, client, changes)?;
        let fragments = texts.len() as u64;
        address(self.address, texts, parcels)?;
        Ok(Some(fragments))
    }

    /// Offers the newest number with its screen if it may be needed, and appends the texts of the datagrams to the client instance, each
    /// with its address, if it is sent to. `Spent` exactly if a number that this needs would be 2^62; `OutOfMemory`. An error leaves the
    /// record as it was.
    pub fn prepare(
        &mut self,
        alloc: Global,
        news: News,
        client: u64,
        screen: &RowShot,
        shared: &mut Shared,
        parcels: &mut Vec<(Addr, Vec<u8>)>,
    ) -> Result<Prepared, Fault>
        requires number { news.number < number_limit }
        requires session { news.session < 2 ^ 64 }
        requires client { client < 2 ^ 64 }
        requires narrow { IfSome shared.old.narrow (λ old. old ≡ narrow screen.now) }
        requires together { GoTogether news.number screen.now ((client, self.old) ∷ []) shared.old.changes.items }
        ensures held { OnOk result (self.new ≡ held_record self.old news.number screen.now news.now) }
        ensures fragments { IfOk result (λ p. p.fragments ≡ fragments_sent self.new news.now) }
        ensures parcels { OnOk result (parcels_of parcels.new.items ≡ parcels_of parcels.old.items
            ++ parcels_for news.session news.now (client, self.new)) }
        ensures several { IfOk result (λ p. IsTrue p.offered → 2 ≤ count self.new.sender) }
        ensures back { IfOk result (λ p. back_from self.new p.offered ≡ self.old) }
        ensures low { (newest self.old.sender).number < number_limit }
        ensures fit { OnOk result (is_entry_spent news.number screen.now news.now (client, self.old) ≡ false) }
        ensures fault { IfErr result (λ fault. (fault ≡ Fault.OutOfMemory)
            ⊎ ((fault ≡ Fault.Spent) × (is_entry_spent news.number screen.now news.now (client, self.old) ≡ true))) }
        ensures memory { OnErr result (is_record_due self.old news.number news.now ≡ true) }
        ensures narrow { IfSome shared.new.narrow (λ old. old ≡ narrow screen.now) }
        ensures stay { OnOk result (StayTogether news.number screen.now self.old shared.old.changes.items shared.new.changes.items) }
        ensures err { OnErr result (self.new ≡ self.old) }
    {
        let _invariant = &self.heard_at;
        let offered = self.offer(alloc, news.number, screen, &mut shared.narrow, news.now)?;
        match self.send(alloc, news, client, &mut shared.changes, parcels) {
            Ok(fragments) => Ok(Prepared { offered, fragments }),
            Err(fault) => {
                self.take_back(offered);
                Err(fault)
            }
        }
    }

    // Returns the moment from which on a number is offered to the instance, or something sent to it, if a datagram of it came of late.
    fn active_from(&self, number: u64) -> Option<u64>
        ensures from { PassesFrom result (is_active self.now number) }
    {
        if has_room_for(&self.sender, number) {
            return Some(0);
        }
        earlier(self.sender.due_from(self.sent_at), answer_from(self.owed))
    }

    /// Returns the first moment at which a tick offers the instance a number or sends something to it, if nothing comes before and no tick
    /// goes by a moment before the clock. `None` if no datagram of it came so late.
    pub fn next_due(&self, number: u64, clock: u64) -> Option<u64>
        ensures before { (now : ℕ) → clock ≤ now → now < 2 ^ 64 → has_come result now ≡ false
            → is_record_due self.now number now ≡ false }
        ensures at { IfSome result (λ due. is_record_due self.now number (max due clock) ≡ true) }
    {
        let due = self.active_from(number)?;
        if is_heard(self.heard_at, due.max(clock)) {
            Some(due)
        } else {
            None
        }
    }

    /// Undoes what `prepare` did.
    pub fn undo(&mut self, prepared: Prepared)
        requires several { IsTrue prepared.offered → 2 ≤ count self.old.sender }
        requires low { (newest (back_from self.old prepared.offered).sender).number < number_limit }
        ensures back { self.new ≡ back_from self.old prepared.offered }
    {
        self.take_back(prepared.offered);
    }

    /// Notes that what `prepare` added is sent at a moment.
    pub fn settle(&mut self, prepared: Prepared, now: u64)
        requires numbers { HasNumbersFor self.old prepared.fragments }
        ensures settled { self.new ≡ settled_with self.old prepared.fragments now }
    {
        let Some(fragments) = prepared.fragments else {
            return;
        };
        self.sender.sent(now);
        self.sent_at = now;
        self.owed = None;
        self.datagrams += fragments;
        self.instructions += 1;
    }
}
