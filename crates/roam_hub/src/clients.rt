//! A client instance: the acts typed there, the datagrams it takes, and those it sends.
ghost use Rattle.std.specs.Prelude.{◌≡◌, ◌+◌, ◌⊎◌, ◌↔◌, ◌<◌, ◌≤◌, ◌^◌, true, false, not, length, map, ℕ, List, [], IsTrue, IfOk, IfErr, IfSome, OnOk, OnErr, IsErrOf, IsOkUnless, if◌then◌else◌};
ghost use Rattle.std.specs.List.{All};
ghost use Rattle.roam_acts.specs.Acts.{HasKey, IsInRange};
ghost use Rattle.roam_acts.specs.Limits.{most_unacknowledged};
ghost use Rattle.roam_acts.specs.Senders.{last_number};
ghost use Rattle.roam_wire.specs.Datagrams.{datagram_text, datagram_value};
ghost use Rattle.roam_wire.specs.Cutting.{texts_of};
ghost use Rattle.roam_screens.specs.Shown.{shown_by};
ghost use Rattle.roam_wire.specs.Gatherers.{gather, fragment_of};
ghost use Rattle.roam_wire.specs.declared.versions.Version.TheVariants.{One, Two};
ghost use Rattle.roam_model.specs.Moments.{is_spent};
ghost use Rattle.roam_model.specs.Sendings.{is_client_due, is_client_spent, last_waiting, datagrams_from};
ghost use Rattle.roam_model.specs.Clients.{Kept, moment_of, new_client};
ghost use Rattle.roam_model.specs.Texts.{kind_from, is_to_server};
ghost use Rattle.roam_model.specs.ClientArrivals.{arriving, arriving_gathered, hearing_of};
ghost use Rattle.roam_model.specs.Arrival.{turned_away};
ghost use Rattle.roam_hub.specs.Ends.{version_in, receiving_in};
ghost use Rattle.roam_hub.specs.Waits.{has_come, PassesFrom};
ghost use Rattle.roam_hub.specs.Clients.{Stands, Types, TypesAll, Delivered, NotDelivered, Hears, Sends, hearing_in};

use crate::ends::AnyReceiver;
use crate::moments::{
    answer_from, by_clock, earlier, has_passed, is_overdue, moment_after, owed_after,
};
use crate::packing::{Heading, packed};
use crate::records::is_same_version;
use roam_acts::limits::NUMBER_LIMIT;
use roam_acts::{Act, ActSender, Key};
use roam_cells::{Fault, Reason};
use roam_screens::Shown;
use roam_sync::Step;
use roam_sync::limits::{HEARTBEAT, RESEND_AFTER};
use roam_wire::{
    Datagram, Gathered, Gatherer, Kind, Up, Version, read_datagram, read_down, write_up,
};
use std::alloc::Global;
use std::marker::Model;

/// The kind of a datagram to a client instance.
#[derive(Clone, Copy, Debug, PartialEq, Eq)]
pub enum Heard {
    /// A fragment of an instruction of which others are missing.
    Part,

    /// Nothing that isn't known: the fragment was there, or a higher instruction has come since, or the screen isn't newer.
    Old,

    /// Its diff starts at a screen that isn't here.
    Gap,

    /// The screen is newer, and shown from now on.
    New,
}

/// One instance of a client of a session.
#[derive(Drop)]
pub struct Client {
    session: u64,
    id: u64,
    watches: bool,
    acts: ActSender,
    gatherer: Gatherer,
    receiver: AnyReceiver,
    sent_at: Option<u64>,
    sent_act: u64,
    owed: Option<u64>,
    clock: u64,
    datagrams: u64,
    instructions: u64,
}

impl Model for Client {
    ghost use Rattle.roam_acts.specs.Limits.{number_limit};
    ghost use Rattle.std.specs.Prelude.{◌≡◌, ◌<◌, ◌^◌, true};
    ghost use Rattle.std.specs.List.{All};
    ghost use Rattle.roam_acts.specs.Acts.{IsAct};
    ghost use Rattle.roam_wire.specs.declared.versions.Version.TheVariants.{Two};
    ghost use Rattle.roam_hub.specs.Ends.{version_in, receiving_in};
    ghost use Rattle.roam_hub.specs.Clients.{ClientView};

    ghost Value = { ClientView };

    ghost view = { λ c. record {
      session = c.session;
      id = c.id;
      kept = record {
        version = version_in c.receiver;
        watches = c.watches;
        acts = c.acts;
        gathering = c.gatherer.current;
        receiver = receiving_in c.receiver;
        sent_at = c.sent_at;
        sent_act = c.sent_act;
        owed = c.owed;
        clock = c.clock;
        datagrams = c.datagrams;
        instructions = c.instructions;
      };
    } };

    ghost invariant = { λ c. All IsAct c.acts.acts × (c.datagrams < number_limit) × (c.instructions < number_limit)
        × ((receiving_in c.receiver).newest.number < number_limit) × (c.session < 2 ^ 64) × (c.id < 2 ^ 64)
        × (c.watches ≡ true → version_in c.receiver ≡ Two) };
}

// A fact from the type of an act: its character is a Unicode scalar value.
fn facts(act: Act)
    ensures key { HasKey act }
{
    match act {
        Act::Key(Key::Char(c)) => {
            let _scalar = c as u32;
        }
        _ => {}
    }
}

// The same of several acts.
fn all_facts(acts: &[Act])
    ensures keys { All HasKey acts.now }
{
    for act in acts {
        facts(*act);
    }
}

// Returns the result for a datagram, by the receiver's result for its update.
fn heard_of(step: Step) -> Heard
    ensures heard { hearing_in result ≡ hearing_of step }
{
    match step {
        Step::Old => Heard::Old,
        Step::Gap => Heard::Gap,
        Step::New => Heard::New,
    }
}

// Returns true if a datagram goes to a client.
fn is_to_client(kind: Kind) -> bool
    ensures kind { result ≡ not (is_to_server kind) }
{
    match kind {
        Kind::ToClient => true,
        Kind::ToServer | Kind::FromWatcher => false,
    }
}

// Returns Ok if a datagram is for an instance of this id in this session, and of its version.
fn admit(session: u64, id: u64, version: Version, datagram: &Datagram) -> Result<(), Fault>
    ensures ok { OnOk result ((k : Kept) → k.version ≡ version → arriving session id k (datagram_value datagram.now)
        ≡ arriving_gathered (gather k.gathering (fragment_of (datagram_value datagram.now)))) }
    ensures err { IfErr result (λ fault. (k : Kept) → k.version ≡ version
        → arriving session id k (datagram_value datagram.now) ≡ turned_away fault) }
{
    if !is_to_client(datagram.kind) {
        return Err(Fault::BadDatagram(Reason::Kind));
    }
    if datagram.session != session {
        return Err(Fault::OtherSession);
    }
    if datagram.client != id {
        return Err(Fault::OtherClient);
    }
    if !is_same_version(version, datagram.version) {
        return Err(Fault::BadDatagram(Reason::Version));
    }
    Ok(())
}

// Delivers an instruction's text to the receiver; returns the result, and true if its new number is above its old one. The acknowledged
// number goes to the acts.
fn deliver(
    alloc: Global,
    acts: &mut ActSender,
    receiver: &mut AnyReceiver,
    text: &[u8],
) -> Result<(Step, bool), Fault>
    ensures delivered { IfOk result (λ t. Delivered (version_in receiver.old) text.now acts.old (receiving_in receiver.old) t.0 t.1 acts.new
        (receiving_in receiver.new)) }
    ensures version { version_in receiver.new ≡ version_in receiver.old }
    ensures fault { IfErr result (λ fault. NotDelivered (version_in receiver.old) text.now (receiving_in receiver.old) fault) }
    ensures acts { OnErr result (acts.new ≡ acts.old) }
    ensures receiver { OnErr result (receiver.new ≡ receiver.old) }
{
    let down = read_down(alloc, text)?;
    let step = receiver.take(
        alloc,
        down.old,
        down.new,
        down.floor,
        down.change.as_slice(),
    )?;
    acts.acked(down.acked);
    Ok((step, down.old < down.new))
}

// The kind of the datagrams that an instance sends.
fn kind_of(watches: bool) -> Kind
    ensures kind { result ≡ kind_from watches }
{
    if watches {
        Kind::FromWatcher
    } else {
        Kind::ToServer
    }
}

impl Client {
    // An instance of this id in this session, of a version, which may only watch in version 2.
    fn begun(
        alloc: Global,
        session: u64,
        id: u64,
        version: Version,
        watches: bool,
    ) -> Result<Client, Fault>
        requires fit { watches ≡ true → version ≡ Two }
        ensures stands { IfOk result (λ client. Stands client session id (new_client version watches)) }
        ensures fault { IsOkUnless result Fault.OutOfMemory }
    {
        let receiver = AnyReceiver::new(alloc, version)?;
        Ok(Client {
            session,
            id,
            watches,
            acts: ActSender::new(alloc),
            gatherer: Gatherer::new(alloc),
            receiver,
            sent_at: None,
            sent_act: 0,
            owed: None,
            clock: 0,
            datagrams: 0,
            instructions: 0,
        })
    }

    /// Returns an instance of this id in this session, of version 2: nothing was typed, and it shows the blank screen of 24 by 80 under the
    /// number 0. `OutOfMemory`.
    pub fn new(alloc: Global, session: u64, id: u64) -> Result<Client, Fault>
        ensures stands { IfOk result (λ client. Stands client session id (new_client Two false)) }
        ensures fault { IsOkUnless result Fault.OutOfMemory }
    {
        Client::begun(alloc, session, id, Version::Two, false)
    }

    /// The same of version 1.
    pub fn old(alloc: Global, session: u64, id: u64) -> Result<Client, Fault>
        ensures stands { IfOk result (λ client. Stands client session id (new_client One false)) }
        ensures fault { IsOkUnless result Fault.OutOfMemory }
    {
        Client::begun(alloc, session, id, Version::One, false)
    }

    /// The same of version 2, which only watches: it is shown screens, and no act is typed at it.
    pub fn watching(alloc: Global, session: u64, id: u64) -> Result<Client, Fault>
        ensures stands { IfOk result (λ client. Stands client session id (new_client Two true)) }
        ensures fault { IsOkUnless result Fault.OutOfMemory }
    {
        Client::begun(alloc, session, id, Version::Two, true)
    }

    /// Takes an act that was typed here. `Watching` if the instance is read-only, `Busy` if 1,024 acts are unacknowledged, `Spent` if its
    /// number would be 2^62, `OutOfMemory`; an error leaves the instance as it was.
    pub fn typed(&mut self, act: Act) -> Result<(), Fault>
        requires in_range { IsInRange act }
        ensures typed { Types self.old act result self.new }
        ensures err { OnErr result (self.new ≡ self.old) }
    {
        if self.watches {
            return Err(Fault::Watching);
        }
        facts(act);
        self.acts.typed(act)
    }

    /// Takes acts that were typed here, in their order: all of them, or none. `Watching` if the instance is read-only, `Busy` if more than
    /// 1,024 acts would be unacknowledged, `Spent` if a number that they need would be 2^62, `OutOfMemory`; an error leaves the instance as
    /// it was.
    pub fn typed_all(&mut self, acts: &[Act]) -> Result<(), Fault>
        requires in_range { All IsInRange acts.now }
        ensures typed { TypesAll self.old acts.now result self.new }
        // The screen stays.
        ensures receiver { self.new.kept.receiver ≡ self.old.kept.receiver }
        ensures err { OnErr result (self.new ≡ self.old) }
    {
        if self.watches {
            return Err(Fault::Watching);
        }
        all_facts(acts);
        self.acts.typed_all(acts)
    }

    /// How many acts that were typed here aren't acknowledged, at most 1,024. It takes no memory.
    pub fn unacknowledged(&self) -> usize
        ensures count { result ≡ length self.now.kept.acts.acts }
        ensures most { result ≤ most_unacknowledged }
    {
        self.acts.unacknowledged()
    }

    /// How many acts that were typed here are acknowledged: the number of the last of them. It takes no memory.
    pub fn acknowledged(&self) -> u64
        ensures acknowledged { result ≡ self.now.kept.acts.acked }
    {
        self.acts.waiting().0 - 1
    }

    /// How many acts were typed here in all: the number of the last of them. It takes no memory.
    pub fn typed_count(&self) -> u64
        ensures count { result ≡ last_number self.now.kept.acts }
    {
        self.acts.waiting().0 - 1 + self.acts.unacknowledged() as u64
    }

    /// Takes the bytes of a datagram that came at a moment. `BadDatagram` for bytes that are no datagram to a client; then `OtherSession`;
    /// `OtherClient`; `BadDatagram` for one of the other version, and for an invalid fragment or instruction; `BadChange`; `OutOfMemory`.
    /// An error leaves the instance as it was.
    pub fn datagram(&mut self, alloc: Global, bytes: &[u8], now: u64) -> Result<Heard, Fault>
        ensures heard { Hears self.old bytes.now now result self.new }
        ensures err { OnErr result (self.new ≡ self.old) }
    {
        let datagram = read_datagram(alloc, bytes)?;
        admit(self.session, self.id, self.receiver.version(), &datagram)?;
        let moment = now.max(self.clock);
        match self.gatherer.take(alloc, &datagram)? {
            Gathered::Part => {
                self.clock = moment;
                Ok(Heard::Part)
            }
            Gathered::Old => {
                self.clock = moment;
                Ok(Heard::Old)
            }
            Gathered::Whole(text) => {
                match deliver(alloc, &mut self.acts, &mut self.receiver, text.as_slice()) {
                    Err(fault) => {
                        self.gatherer.untake();
                        Err(fault)
                    }
                    Ok((step, newer)) => {
                        self.owed = owed_after(self.owed, newer, moment);
                        self.clock = moment;
                        Ok(heard_of(step))
                    }
                }
            }
        }
    }

    // The number of the last act that would be sent.
    fn last_waiting(&self) -> u64
        ensures last { result ≡ last_waiting self.now.kept }
    {
        let (first, acts) = self.acts.waiting();
        first - 1 + acts.len() as u64
    }

    // Returns true if a datagram should be sent.
    fn is_due(&self, now: u64) -> bool
        ensures due { result ≡ is_client_due self.now.kept now }
    {
        let Some(since) = self.sent_at else {
            return true;
        };
        let unacknowledged = !self.acts.waiting().1.is_empty();
        (unacknowledged && self.sent_act < self.last_waiting())
            || (unacknowledged && has_passed(RESEND_AFTER, since, now))
            || is_overdue(self.owed, now)
            || has_passed(HEARTBEAT, since, now)
    }

    // Returns the moment from which on a datagram should be sent.
    fn due_from(&self) -> Option<u64>
        ensures from { PassesFrom result (is_client_due self.now.kept) }
    {
        let Some(since) = self.sent_at else {
            return Some(0);
        };
        let unacknowledged = !self.acts.waiting().1.is_empty();
        if unacknowledged && self.sent_act < self.last_waiting() {
            return Some(0);
        }
        let again = if unacknowledged {
            RESEND_AFTER
        } else {
            HEARTBEAT
        };
        earlier(moment_after(again, since), answer_from(self.owed))
    }

    /// Returns the moment at which a tick next sends something if nothing is typed and nothing comes before: 0 for at once and `None` for
    /// never. Before it, or before the greatest moment so far if that is earlier, nothing is due; at it something is. It takes no memory.
    pub fn next_due(&self) -> Option<u64>
        ensures before { (now : ℕ) → now < 2 ^ 64 → has_come result now ≡ false
            → is_client_due self.now.kept (moment_of self.now.kept now) ≡ false }
        ensures at { IfSome result (λ due. is_client_due self.now.kept (moment_of self.now.kept due) ≡ true) }
    {
        by_clock(self.due_from(), self.clock)
    }

    // The texts of the datagrams of the instruction that would be sent.
    fn instruction(&self, alloc: Global) -> Result<Vec<Vec<u8>>, Fault>
        ensures written { IfOk result (λ all. texts_of all.items
            ≡ map datagram_text (datagrams_from self.now.session self.now.id self.now.kept)) }
        ensures fit { OnOk result (is_client_spent self.now.kept ≡ false) }
        ensures fault { IfErr result (λ fault. (fault ≡ Fault.OutOfMemory)
            ⊎ ((fault ≡ Fault.Spent) × (is_client_spent self.now.kept ≡ true))) }
        ensures memory { IsErrOf result Fault.OutOfMemory → is_spent (self.now.kept.acts.acked + 1) ≡ false }
    {
        let (first, acts) = self.acts.waiting();
        if first >= NUMBER_LIMIT {
            return Err(Fault::Spent);
        }
        let up = Up {
            acked: self.receiver.newest_number(),
            first,
            acts: Vec::from_slice(alloc, acts)?,
        };
        let text = write_up(alloc, &up)?;
        let heading = Heading {
            version: self.receiver.version(),
            kind: kind_of(self.watches),
            session: self.session,
            client: self.id,
            before: self.datagrams,
            id: self.instructions + 1,
        };
        packed(alloc, heading, text.as_slice())
    }

    /// Returns the texts of the datagrams to send at a moment, in their order; none if nothing is due. `Spent` exactly if something is due
    /// and a number that it needs would be 2^62; `OutOfMemory`. An error leaves the instance as it was.
    pub fn tick(&mut self, alloc: Global, now: u64) -> Result<Vec<Vec<u8>>, Fault>
        ensures sent { Sends self.old now result self.new }
        ensures err { OnErr result (self.new ≡ self.old) }
    {
        let moment = now.max(self.clock);
        if !self.is_due(moment) {
            self.clock = moment;
            return Ok(Vec::new(alloc));
        }
        let datagrams = self.instruction(alloc)?;
        self.sent_act = self.sent_act.max(self.last_waiting());
        self.sent_at = Some(moment);
        self.owed = None;
        self.clock = moment;
        self.datagrams += datagrams.len() as u64;
        self.instructions += 1;
        Ok(datagrams)
    }

    /// Returns true if every act that was typed here is acknowledged. It takes no memory.
    pub fn is_settled(&self) -> bool
        ensures settled { IsTrue result ↔ (self.now.kept.acts.acts ≡ []) }
    {
        self.acts.waiting().1.is_empty()
    }

    /// The number and the screen that the instance shows. It takes no memory.
    pub fn shown(&self) -> (u64, Shown<'_>)
        ensures shown { (result.0 ≡ self.now.kept.receiver.newest.number) × (shown_by result.1 ≡ self.now.kept.receiver.newest.state) }
    {
        self.receiver.newest()
    }
}
