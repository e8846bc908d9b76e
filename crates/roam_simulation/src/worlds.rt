//! The world: one server and its client instances, over a network that keeps every datagram.
ghost use Rattle.std.specs.Prelude.{◌≡◌, ◌⊎◌, ◌↔◌, ◌++◌, ◌<◌, [], ◌∷◌, ℕ, List, length, map, slice_index_or, None, false, IsOkUnless, IfOk, IfErr, OnOk, IsErrOf};
ghost use Rattle.std.specs.List.{All};
ghost use Rattle.std.specs.Option.{option_copied};
ghost use Rattle.roam_acts.specs.Acts.{IsInRange};
ghost use Rattle.roam_layout.specs.Layouts.{IsSessionSize};
ghost use Rattle.roam_session.specs.Sessions.{SessionSize};
ghost use Rattle.roam_model.specs.Laws.{HoldAtMostEight, OffersNewest, OneRoundSuffices, RepliesToLatest};
ghost use Rattle.roam_model.specs.Worlds.{World as WorldOf, Event as EventOf, PaneBytes, Typed, ServerTick, ClientTick, ToServer, ToClient, Start, Drain, Reply as ReplyOf};
ghost use Rattle.roam_model.specs.Clients.{new_client};
ghost use Rattle.roam_model.specs.Steps.{is_unfit as is_unfit_for};
ghost use Rattle.roam_hub.specs.Clients.{Stands as ClientStands};
ghost use Rattle.roam_hub.specs.Servers.{address_of};
ghost use Rattle.roam_simulation.specs.Events.{IsHandedIn, event_of, reply_of, reply_in};
ghost use Rattle.roam_simulation.specs.Worlds.{start_in, IsNoGap, IsReached, IsRefusal, ShowsSession, Stands, StandsFor, Steps};

use crate::events::{Event, Reply};
use crate::networks::{Batch, Network};
use roam_acts::Act;
use roam_cells::Fault;
use roam_hub::{Addr, Client, Server};
use roam_model::laws;
use roam_wire::{Version, laws as texts};
use std::alloc::Global;
use std::marker::Model;

/// How many slots there are.
const SLOTS: usize = 8;

/// One server, a client instance or none in each of eight slots, the ids that were used, and all datagrams ever sent.
#[derive(Drop)]
pub struct World {
    session: u64,
    server: Server,
    slots: Vec<Option<Client>>,
    used: Vec<u64>,
    network: Network,
}

impl Model for World {
    ghost use Rattle.std.specs.Prelude.{◌≡◌, length};
    ghost use Rattle.std.specs.Coded.{codes};
    ghost use Rattle.roam_layout.specs.Coding.{plan_code};
    ghost use Rattle.roam_simulation.specs.Worlds.{WorldView};

    ghost Value = { WorldView };

    ghost coded = { Prim.hlevel (codes, plan_code) };

    ghost view = { λ w. record {
      session = w.session;
      server = w.server;
      slots = w.slots.items;
      used = w.used.items;
      sent = w.network.texts;
    } };

    ghost invariant = { λ w. length w.slots.items ≡ 8 };
}

// Slots with no client instance.
fn no_clients(alloc: Global) -> Result<Vec<Option<Client>>, Fault>
    ensures eight { IfOk result (λ slots. length slots.items ≡ 8) }
    ensures none { IfOk result (λ slots. (slot : ℕ) → slice_index_or slots.items slot None ≡ None) }
    ensures fault { IsOkUnless result Fault.OutOfMemory }
{
    let mut slots = Vec::with_capacity(alloc, SLOTS)?;
    for _ in 0..SLOTS {
        slots.push(None)?;
    }
    Ok(slots)
}

// Returns true if an instance would be read-only in version 1, which none can be.
fn is_unfit(version: Version, watches: bool) -> bool
    ensures unfit { result ≡ is_unfit_for version watches }
{
    match version {
        Version::One => watches,
        Version::Two => false,
    }
}

// A client instance of a version, which only watches or not.
fn begun(
    alloc: Global,
    session: u64,
    id: u64,
    version: Version,
    watches: bool,
) -> Result<Client, Fault>
    requires fit { is_unfit_for version watches ≡ false }
    ensures stands { IfOk result (λ client. ClientStands client session id (new_client version watches)) }
    ensures fault { IsOkUnless result Fault.OutOfMemory }
{
    match version {
        Version::One => Client::old(alloc, session, id),
        Version::Two if watches => Client::watching(alloc, session, id),
        Version::Two => Client::new(alloc, session, id),
    }
}

impl World {
    /// The world of a new server, with no client instance and no datagram. `BadSize` outside 4 to 200 rows or 8 to 500 columns,
    /// `OutOfMemory`.
    pub fn new(alloc: Global, session: u64, rows: u16, cols: u16) -> Result<World, Fault>
        ensures stands { IfOk result (λ world. StandsFor world session (record { rows = rows; cols = cols }) [] []) }
        ensures size { OnOk result (IsSessionSize rows cols) }
        ensures bad_size { IsErrOf result Fault.BadSize ↔ (¬ IsSessionSize rows cols) }
        ensures faults { IfErr result (λ fault. (fault ≡ Fault.BadSize) ⊎ (fault ≡ Fault.OutOfMemory)) }
    {
        let server = Server::new(alloc, session, rows, cols)?;
        let slots = no_clients(alloc)?;
        Ok(World {
            session,
            server,
            slots,
            used: Vec::new(alloc),
            network: Network::new(alloc),
        })
    }

    /// The server. It takes no memory.
    pub fn server(&self) -> &Server
        ensures server { result.now ≡ self.now.server }
    {
        &self.server
    }

    /// Returns the client instance in a slot, `None` if the slot is empty or there is no such slot. It takes no memory.
    pub fn client(&self, slot: usize) -> Option<&Client>
        ensures client { option_copied result ≡ start_in self.now.slots slot }
    {
        if slot < SLOTS {
            self.slots[slot].as_ref()
        } else {
            None
        }
    }

    // Bytes come from the program of a pane.
    fn pane_bytes(&mut self, pane: u8, bytes: &[u8]) -> Result<Reply, Fault>
        ensures steps { (w : WorldOf) → Stands self.old w → Steps w (PaneBytes pane bytes.now) (reply_in result) self.new }
    {
        self.server.pane_bytes(pane, bytes)?;
        Ok(Reply::Done)
    }

    // So many bytes go to the program of a pane.
    fn drained(&mut self, pane: u8, count: u64) -> Result<Reply, Fault>
        ensures steps { (w : WorldOf) → Stands self.old w → Steps w (Drain pane count) (reply_in result) self.new }
    {
        let Some(waiting) = self.server.output_len(pane) else {
            return Err(Fault::NoPane);
        };
        if count > waiting as u64 {
            return Ok(Reply::Refused);
        }
        self.server.drain(pane, count as usize)?;
        Ok(Reply::Done)
    }

    // An act is typed at the instance in a slot.
    fn typed(&mut self, slot: u8, act: Act) -> Result<Reply, Fault>
        requires in_range { IsInRange act }
        ensures steps { (w : WorldOf) → Stands self.old w → Steps w (Typed slot act) (reply_in result) self.new }
    {
        let slot = slot as usize;
        if slot >= self.slots.len() {
            return Ok(Reply::Refused);
        }
        let Some(client) = &mut self.slots[slot] else {
            return Ok(Reply::Refused);
        };
        client.typed(act)?;
        Ok(Reply::Done)
    }

    // The server ticks.
    fn server_tick(&mut self, alloc: Global, now: u64) -> Result<Reply, Fault>
        ensures steps { (w : WorldOf) → IsReached w → Stands self.old w → Steps w (ServerTick now) (reply_in result) self.new }
    {
        laws::clients_show_the_session();
        laws::datagrams_keep_their_rules();
        self.network.make_room()?;
        let parcels = self.server.tick(alloc, now)?;
        let (first, count) = self.network.add(Batch::FromServer(parcels));
        Ok(Reply::Sent(first, count))
    }

    // The instance in a slot ticks.
    fn client_tick(&mut self, alloc: Global, slot: u8, now: u64) -> Result<Reply, Fault>
        ensures steps { (w : WorldOf) → Stands self.old w → Steps w (ClientTick slot now) (reply_in result) self.new }
    {
        let slot = slot as usize;
        if slot >= self.slots.len() {
            return Ok(Reply::Refused);
        }
        let Some(client) = &mut self.slots[slot] else {
            return Ok(Reply::Refused);
        };
        self.network.make_room()?;
        let datagrams = client.tick(alloc, now)?;
        let (first, count) = self.network.add(Batch::FromClient(datagrams));
        Ok(Reply::Sent(first, count))
    }

    // The datagram of a number comes to the server.
    fn to_server(&mut self, alloc: Global, number: u64, from: Addr, now: u64) -> Reply
        ensures steps { (w : WorldOf) → IsReached w → Stands self.old w
            → Steps w (ToServer number (address_of from) now) (reply_of result) self.new }
    {
        laws::datagrams_keep_their_rules();
        texts::one_datagram_a_text();
        let Some(bytes) = self.network.text(number) else {
            return Reply::Refused;
        };
        match self.server.datagram(alloc, from, bytes, now) {
            Ok(taken) => Reply::Taken(taken),
            Err(stop) => Reply::Stopped(stop),
        }
    }

    // The datagram of a number comes to the instance in a slot.
    fn to_client(&mut self, alloc: Global, slot: u8, number: u64, now: u64) -> Result<Reply, Fault>
        ensures steps { (w : WorldOf) → IsReached w → Stands self.old w
            → Steps w (ToClient slot number now) (reply_in result) self.new }
    {
        laws::datagrams_keep_their_rules();
        texts::one_datagram_a_text();
        let slot = slot as usize;
        if slot >= self.slots.len() {
            return Ok(Reply::Refused);
        }
        let Some(bytes) = self.network.text(number) else {
            return Ok(Reply::Refused);
        };
        let Some(client) = &mut self.slots[slot] else {
            return Ok(Reply::Refused);
        };
        let heard = client.datagram(alloc, bytes, now)?;
        Ok(Reply::Heard(heard))
    }

    // A client of a version starts in a slot, and only watches or not.
    fn start(
        &mut self,
        alloc: Global,
        slot: u8,
        id: u64,
        version: Version,
        watches: bool,
    ) -> Result<Reply, Fault>
        requires slot { slot < 8 }
        ensures steps { (w : WorldOf) → Stands self.old w → Steps w (Start slot id version watches) (reply_in result) self.new }
    {
        if is_unfit(version, watches) {
            return Ok(Reply::Refused);
        }
        if self.used.as_slice().contains(&id) {
            return Ok(Reply::Refused);
        }
        let client = begun(alloc, self.session, id, version, watches)?;
        self.used.push(id)?;
        self.slots[slot as usize] = Some(client);
        Ok(Reply::Done)
    }

    // Lets an event happen, by its kind.
    fn perform(&mut self, alloc: Global, event: &Event) -> Result<Reply, Fault>
        requires handed_in { IsHandedIn event.now }
        ensures steps { (w : WorldOf) → IsReached w → Stands self.old w
            → Steps w (event_of event.now) (reply_in result) self.new }
    {
        match event {
            Event::PaneBytes(pane, bytes) => self.pane_bytes(*pane, bytes.as_slice()),
            Event::Typed(slot, act) => self.typed(*slot, *act),
            Event::ServerTick(now) => self.server_tick(alloc, *now),
            Event::ClientTick(slot, now) => self.client_tick(alloc, *slot, *now),
            Event::ToServer(number, from, now) => Ok(self.to_server(alloc, *number, *from, *now)),
            Event::ToClient(slot, number, now) => self.to_client(alloc, *slot, *number, *now),
            Event::Start(slot, id, version, watches) => {
                self.start(alloc, *slot, *id, *version, *watches)
            }
            Event::Drained(pane, count) => self.drained(*pane, *count),
        }
    }

    /// Does one event, and returns its reply. The caller's conditions: the numbers of an act are in their ranges, and a client instances in
    /// a slot of 0 to 7. `Refused` and `Fault` leave everything as it was. `Stopped` at a full queue or at want of memory keeps the acts
    /// that were taken before, and the moment of the instance's datagram. From each world that it modelled, the event with its reply leads
    /// to one that it models afterwards. No datagram that comes to an instance leaves a gap or has a bad diff.
    pub fn step(&mut self, alloc: Global, event: &Event) -> Reply
        requires handed_in { IsHandedIn event.now }
        ensures stands { (session : ℕ) (size : SessionSize) (es : List EventOf) (rs : List ReplyOf)
            → StandsFor self.old session size es rs
            → StandsFor self.new session size (es ++ event_of event.now ∷ []) (rs ++ reply_of result ∷ []) }
        ensures steps { (w : WorldOf) → IsReached w → Stands self.old w
            → Steps w (event_of event.now) (reply_of result) self.new }
        ensures refused { (session : ℕ) (size : SessionSize) (es : List EventOf) (rs : List ReplyOf)
            → StandsFor self.old session size es rs → IsRefusal (reply_of result) → StandsFor self.new session size es rs }
        ensures no_gap { (session : ℕ) (size : SessionSize) (es : List EventOf) (rs : List ReplyOf)
            → StandsFor self.old session size es rs → IsNoGap (event_of event.now) (reply_of result) }
    {
        laws::links_stay_true();
        event.facts();
        match self.perform(alloc, event) {
            Ok(reply) => reply,
            Err(fault) => Reply::Fault(fault),
        }
    }

    /// Returns the world of a new server, after these events. `BadSize` outside 4 to 200 rows or 8 to 500 columns, `OutOfMemory` if there
    /// is no memory for the world before the first event. Want of memory at an event is a reply to that event.
    pub fn run(
        alloc: Global,
        session: u64,
        rows: u16,
        cols: u16,
        events: &[Event],
    ) -> Result<World, Fault>
        requires handed_in { All IsHandedIn events.now }
        ensures stands { IfOk result (λ world. (rs : List ReplyOf)
            × StandsFor world session (record { rows = rows; cols = cols }) (map event_of events.now) rs) }
        ensures bad_size { IsErrOf result Fault.BadSize ↔ (¬ IsSessionSize rows cols) }
        ensures faults { IfErr result (λ fault. (fault ≡ Fault.BadSize) ⊎ (fault ≡ Fault.OutOfMemory)) }
    {
        let mut world = World::new(alloc, session, rows, cols)?;
        for event in events {
            let _reply = world.step(alloc, event);
        }
        Ok(world)
    }

    /// The headline, of this world: each client instance in a slot shows exactly the screen of its number, and the acts taken from each
    /// instance are the first of those typed there.
    pub fn shows_the_session(&self)
        ensures shown { (session : ℕ) (size : SessionSize) (es : List EventOf) (rs : List ReplyOf)
            → (stands : StandsFor self.now session size es rs) → ShowsSession self.now stands.world }
    {
        laws::clients_show_the_session();
    }

    /// One round suffices, from this world on. A server tick sends to a client instance that is in a slot, and just those datagrams come to
    /// that slot, each at least once, in any order. Then that instance shows the newest number of its sender, which is the newest number
    /// wherever the tick could offer it.
    pub fn one_round_suffices(&self)
        ensures round { (session : ℕ) (size : SessionSize) (es : List EventOf) (rs : List ReplyOf)
            → (stands : StandsFor self.now session size es rs) → OneRoundSuffices stands.world }
        ensures newest { (session : ℕ) (size : SessionSize) (es : List EventOf) (rs : List ReplyOf)
            → (stands : StandsFor self.now session size es rs) → OffersNewest stands.world }
    {
        laws::one_round_suffices();
    }

    /// No client instance and no sender of a record of this world has a ninth screen, and each datagram of a tick goes to the source of the
    /// greatest-numbered datagram that came from its client instance.
    pub fn keeps_its_links(&self)
        ensures eight { (session : ℕ) (size : SessionSize) (es : List EventOf) (rs : List ReplyOf)
            → (stands : StandsFor self.now session size es rs) → HoldAtMostEight stands.world }
        ensures address { (session : ℕ) (size : SessionSize) (es : List EventOf) (rs : List ReplyOf)
            → (stands : StandsFor self.now session size es rs) → RepliesToLatest stands.world }
    {
        laws::links_stay_true();
        laws::datagrams_keep_their_rules();
    }
}
