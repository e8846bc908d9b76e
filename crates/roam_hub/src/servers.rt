//! The server: the session, its numbered screens, and the record of each client instance.
ghost use Rattle.std.specs.Prelude.{◌≡◌, ◌↔◌, ◌⊎◌, ◌≤◌, ◌<◌, ◌^◌, ◌-◌, ◌+◌, ◌||◌, ℕ, List, length, nat_eq, true, false, IfOk, IfErr, IfSome, OnOk, OnErr, IsErrOf, IsOkUnless};
ghost use Rattle.std.specs.Option.{option_map};
ghost use Rattle.roam_layout.specs.Layouts.{IsSessionSize};
ghost use Rattle.roam_session.specs.Faces.{face};
ghost use Rattle.roam_session.specs.Generations.{generation_of};
ghost use Rattle.roam_session.specs.Places.{focus_at, rect_at};
ghost use Rattle.roam_session.specs.Stands.{waiting_at};
ghost use Rattle.roam_session.specs.Queues.{IsWithin, IsCopied};
ghost use Rattle.roam_session.specs.Refusals.{fault_of, none_refused, output_at};
ghost use Rattle.std.specs.List.{list_any};
ghost use Rattle.roam_model.specs.Moments.{is_spent};
ghost use Rattle.roam_model.specs.Servers.{Server as ServerOf, moment, new_server};
ghost use Rattle.roam_wire.specs.Datagrams.{datagram_value};
ghost use Rattle.roam_model.specs.Texts.{is_to_server as is_to_server_kind};
ghost use Rattle.roam_model.specs.ServerArrivals.{alike as alike_of, coming};
ghost use Rattle.roam_model.specs.Arrival.{turned_away};
ghost use Rattle.roam_hub.specs.Servers.{Stands, Feeds, Drains, Comes, Ticks, ComesFromWatcher, TakesNothing, IsStopAtAct, is_server_due, address_of, parcels_of};
ghost use Rattle.roam_hub.specs.Records.{acts_after, answer_to_datagram, makes_at, sent_by_tick, ticked_by, is_any_spent, Numbers, is_numbering_spent};
ghost use Rattle.roam_hub.specs.Waits.{has_come, PassesFrom, is_entry_due, IsQuiet};
ghost use Rattle.roam_term.specs.Limits.{most_output};

use crate::addresses::Stop;
use crate::known::{acts_taken, alike, hear_in};
use crate::moments::{FRAME_INTERVAL, by_clock, earlier, has_passed, moment_after};
use crate::records::{News, Record};
use crate::sending::send_from;
use crate::shared::Shared;
use crate::taking::Taking;
use crate::waits::next_due_of;
use indexmap::IndexMap;
use roam_acts::limits::NUMBER_LIMIT;
use roam_cells::{Addr, Fault, Reason};
use roam_layout::Rect;
use roam_screens::{RowShot, Seen};
use roam_session::Session;
use roam_wire::{Datagram, Kind, read_datagram};
use std::alloc::Global;
use std::marker::Model;

/// The server of a session.
#[derive(Drop)]
pub struct Server {
    id: u64,
    session: Session,
    made: u64,
    screen: RowShot,
    made_at: u64,
    input: bool,
    clock: u64,
    records: IndexMap<u64, Record>,
}

impl Model for Server {
    ghost use Rattle.roam_acts.specs.Limits.{number_limit};
    ghost use Rattle.std.specs.Prelude.{◌<◌, ◌^◌};
    ghost use Rattle.std.specs.Coded.{codes};
    ghost use Rattle.roam_layout.specs.Coding.{plan_code};
    ghost use Rattle.roam_hub.specs.Servers.{ServerView};
    ghost use Rattle.roam_hub.specs.Shared.{HaveScreens};

    ghost Value = { ServerView };

    ghost coded = { Prim.hlevel (codes, plan_code) };

    ghost view = { λ s. record {
      session = s.id;
      state = s.session;
      made = s.made;
      screen = s.screen;
      made_at = s.made_at;
      input = s.input;
      clock = s.clock;
      records = s.records.entries;
    } };

    ghost invariant = { λ s. (s.made < number_limit) × (s.id < 2 ^ 64) × HaveScreens s.made s.screen s.records.entries };
}

// Returns true if a datagram goes to a server.
fn is_to_server(kind: Kind) -> bool
    ensures kind { result ≡ is_to_server_kind kind }
{
    match kind {
        Kind::ToClient => false,
        Kind::ToServer | Kind::FromWatcher => true,
    }
}

// Returns Ok if a datagram is for the server of this session.
fn admit(session: u64, datagram: &Datagram) -> Result<(), Fault>
    ensures kind { OnOk result (is_to_server_kind datagram.now.kind ≡ true) }
    ensures session { OnOk result (nat_eq datagram.now.session session ≡ true) }
    ensures err { IfErr result (λ fault. (s : ServerOf) → s.session ≡ session
        → coming s (datagram_value datagram.now) ≡ turned_away fault) }
{
    if !is_to_server(datagram.kind) {
        return Err(Fault::BadDatagram(Reason::Kind));
    }
    if datagram.session != session {
        return Err(Fault::OtherSession);
    }
    Ok(())
}

// Returns the result for a datagram of which so many acts were taken.
fn answer(taking: Result<Taking, Fault>) -> Result<usize, Stop>
    ensures answer { result ≡ answer_to_datagram taking }
{
    match taking {
        Err(fault) => Err(Stop { fault, taken: 0 }),
        Ok(taking) => match taking.stopped {
            None => Ok(taking.taken),
            Some(fault) => Err(Stop {
                fault,
                taken: taking.taken,
            }),
        },
    }
}

impl Server {
    /// The server of a new session of this id, of one pane that fills all rows but the last. No number was made and nothing has come.
    /// `BadSize` outside 4 to 200 rows or 8 to 500 columns, `OutOfMemory`.
    pub fn new(alloc: Global, session: u64, rows: u16, cols: u16) -> Result<Server, Fault>
        ensures stands { IfOk result (λ server. Stands server (new_server session (record { rows = rows; cols = cols }))) }
        ensures size { OnOk result (IsSessionSize rows cols) }
        ensures bad_size { IsErrOf result Fault.BadSize ↔ (¬ IsSessionSize rows cols) }
        ensures faults { IfErr result (λ fault. (fault ≡ Fault.BadSize) ⊎ (fault ≡ Fault.OutOfMemory)) }
    {
        let panes = Session::new(alloc, rows, cols)?;
        let screen = RowShot::blank(alloc, 24, 80)?;
        Ok(Server {
            id: session,
            session: panes,
            made: 0,
            screen,
            made_at: 0,
            input: false,
            clock: 0,
            records: IndexMap::new(alloc),
        })
    }

    /// Takes bytes that a pane's program sent. `NoPane`, then `TooLong` above 1,024 bytes, then `Busy` if the pane's queue hasn't 12 free
    /// bytes for each; an error changes nothing. It takes no memory.
    pub fn pane_bytes(&mut self, pane: u8, piece: &[u8]) -> Result<(), Fault>
        ensures fed { (s : ServerOf) → Stands self.old s → Feeds s pane piece.now result self.new }
        ensures err { OnErr result (self.new ≡ self.old) }
    {
        self.session.pane_bytes(pane, piece)?;
        self.input = true;
        Ok(())
    }

    // Takes the bytes of a datagram, as `datagram` does.
    fn hear(&mut self, alloc: Global, from: Addr, bytes: &[u8], now: u64) -> Result<Taking, Fault>
        ensures heard { (s : ServerOf) → Stands self.old s → Comes s (address_of from) bytes.now now (answer_to_datagram result) self.new }
        ensures stops { IfOk result (λ t. IfSome t.stopped (λ fault. (fault ≡ Fault.OutOfMemory) ⊎ (fault ≡ Fault.Busy))) }
        ensures err { OnErr result (self.new ≡ self.old) }
    {
        let datagram = read_datagram(alloc, bytes)?;
        admit(self.id, &datagram)?;
        let moment = now.max(self.clock);
        let taking = hear_in(
            alloc,
            &mut self.session,
            &mut self.records,
            from,
            &datagram,
            moment,
        )?;
        self.clock = moment;
        self.input = self.input || taking.taken > 0;
        Ok(taking)
    }

    /// Takes the bytes of a datagram that came from an address at a moment, does the new acts of an instruction that it completes, in their
    /// order, and returns their number.
    ///
    /// Errors that change nothing: `BadDatagram` for bytes that are no datagram to a server; `OtherSession`; `ClientsFull` for a new client
    /// instance if 64 are known, or 16 for a read-only one; `BadDatagram` for another version or kind than its first datagram had, and for
    /// an invalid fragment or instruction; `OutOfMemory`.
    ///
    /// An act that finds its queue full (`Busy`) or no memory (`OutOfMemory`) stops there: this act and later ones aren't taken, earlier
    /// ones are, and the same datagram can bring the rest. Whatever its bytes, a datagram of a read-only instance takes no act, and leaves
    /// the session and the record of every other instance as they were.
    pub fn datagram(
        &mut self,
        alloc: Global,
        from: Addr,
        bytes: &[u8],
        now: u64,
    ) -> Result<usize, Stop>
        ensures comes { (s : ServerOf) → Stands self.old s → Comes s (address_of from) bytes.now now result self.new }
        ensures watched { ComesFromWatcher bytes.now → (s : ServerOf) → Stands self.old s → TakesNothing s bytes.now result self.new }
        ensures err { IfErr result (λ stop. IsStopAtAct stop ⊎ (self.new ≡ self.old)) }
    {
        answer(self.hear(alloc, from, bytes, now))
    }

    /// Copies the first bytes queued for a pane's program, as many as fit, and returns their number. `NoPane`. It takes no memory.
    pub fn output(&self, pane: u8, out: &mut [u8]) -> Result<usize, Fault>
        ensures fault { (s : ServerOf) → Stands self.now s → fault_of result ≡ none_refused (output_at s.size s.log pane) }
        ensures bytes { IfOk result (λ n. (s : ServerOf) → Stands self.now s
            → IsCopied n out.old out.new (output_at s.size s.log pane)) }
        ensures within { IfOk result (λ n. n ≤ length out.old) }
        ensures waiting { IfOk result (λ n. IsWithin n (waiting_at self.now.state.terms pane)) }
        ensures err { OnErr result (out.new ≡ out.old) }
    {
        self.session.output(pane, out)
    }

    /// Takes the first n bytes that wait for a pane's program, at most all of them. Refuses `NoPane`. It takes no memory.
    pub fn drain(&mut self, pane: u8, n: usize) -> Result<(), Fault>
        requires within { IsWithin n (waiting_at self.old.state.terms pane) }
        ensures drained { (s : ServerOf) → Stands self.old s → Drains s pane n result self.new }
        ensures err { OnErr result (self.new ≡ self.old) }
    {
        self.session.drain(pane, n)?;
        self.input = true;
        Ok(())
    }

    /// How many bytes wait for the program of a pane that is there.
    pub fn output_len(&self, pane: u8) -> Option<usize>
        ensures len { (s : ServerOf) → Stands self.now s
            → result ≡ option_map (λ (waiting : List ℕ). length waiting) (output_at s.size s.log pane) }
        ensures waiting { result ≡ option_map (λ (waiting : List ℕ). length waiting) (waiting_at self.now.state.terms pane) }
    {
        self.session.output_len(pane)
    }

    /// How many more of 65,536 bytes may wait for the program of a pane that is there.
    pub fn room(&self, pane: u8) -> Option<usize>
        ensures room { (s : ServerOf) → Stands self.now s
            → result ≡ option_map (λ (waiting : List ℕ). most_output - length waiting) (output_at s.size s.log pane) }
    {
        self.session.room(pane)
    }

    /// Returns the generation of the pane with this number, counted from 1 modulo 2^64; `None` if there is no such pane. It takes no
    /// memory.
    pub fn generation(&self, pane: u8) -> Option<u64>
        ensures life { (s : ServerOf) → Stands self.now s → result ≡ generation_of s.size s.log pane }
    {
        self.session.generation(pane)
    }

    /// Returns the rectangle of a pane, rows and columns from 1; `None` if there is no pane with this number. It takes no memory.
    pub fn rect(&self, pane: u8) -> Option<Rect>
        ensures rect { (s : ServerOf) → Stands self.now s → result ≡ rect_at s.size s.log pane }
    {
        self.session.rect(pane)
    }

    /// The number of the pane in focus. It takes no memory.
    pub fn focus(&self) -> u8
        ensures focus { (s : ServerOf) → Stands self.now s → result ≡ focus_at s.size s.log }
    {
        self.session.focus()
    }

    /// How many client instances that don't only watch are known, of 64 that may be. It takes no memory.
    pub fn starts(&self) -> usize
        ensures count { (s : ServerOf) → Stands self.now s → result ≡ length (alike_of s false) }
    {
        alike(&self.records, false)
    }

    /// How many client instances that only watch are known, of 16 that may be. It takes no memory.
    pub fn watchers(&self) -> usize
        ensures count { (s : ServerOf) → Stands self.now s → result ≡ length (alike_of s true) }
    {
        alike(&self.records, true)
    }

    /// How many acts were taken of all client instances that are known, modulo 2^64. It takes no memory.
    pub fn acts_taken(&self) -> u64
        ensures taken { result ≡ acts_after 0 self.now.records }
    {
        acts_taken(&self.records)
    }

    /// The screen that the session shows now. Refuses want of memory.
    pub fn face(&self, alloc: Global) -> Result<RowShot, Fault>
        ensures face { IfOk result (λ shot. (s : ServerOf) → Stands self.now s → shot ≡ face s.size s.log) }
        ensures fault { IsOkUnless result Fault.OutOfMemory }
    {
        self.session.face(alloc)
    }

    // Returns true if a number is made at a moment.
    fn makes(&self, now: u64) -> bool
        ensures makes { result ≡ makes_at self.now now }
    {
        self.made == 0 || (self.input && has_passed(FRAME_INTERVAL, self.made_at, now))
    }

    /// Returns the moment from which on a tick makes a number if nothing comes before: 0 for at once, `None` if nothing came since the last
    /// number was made. It takes no memory.
    pub fn number_due(&self) -> Option<u64>
        ensures from { PassesFrom result (makes_at self.now) }
    {
        if self.made == 0 {
            return Some(0);
        }
        if !self.input {
            return None;
        }
        moment_after(FRAME_INTERVAL, self.made_at)
    }

    /// Returns the moment at which a tick next does something if nothing comes before: 0 for at once and `None` for never. Before it, or
    /// before the greatest moment so far if that is earlier, a tick changes nothing but the clock and sends nothing. At it a number is
    /// made, or an instance is offered a screen or sent something. It takes no memory.
    pub fn next_due(&self) -> Option<u64>
        ensures before { (s : ServerOf) → Stands self.now s → (now : ℕ) → now < 2 ^ 64 → has_come result now ≡ false
            → IsQuiet s (moment s now) }
        ensures at { (s : ServerOf) → Stands self.now s → IfSome result (λ due. is_server_due s (moment s due) ≡ true) }
    {
        let number = self.number_due();
        let records = next_due_of(&self.records, self.made, self.clock);
        by_clock(earlier(number, records), self.clock)
    }

    // A tick that makes no number.
    fn send_newest(&mut self, alloc: Global, now: u64) -> Result<Vec<(Addr, Vec<u8>)>, Fault>
        ensures sent { IfOk result (λ all. parcels_of all.items ≡ sent_by_tick self.old self.old.made self.old.screen now) }
        ensures ticked { OnOk result (self.new ≡ record (ticked_by self.old self.old.made self.old.screen now) { clock = now }) }
        ensures fit { OnOk result (is_any_spent self.old self.old.made self.old.screen now ≡ false) }
        ensures fault { IfErr result (λ fault. (fault ≡ Fault.OutOfMemory) ⊎ ((fault ≡ Fault.Spent)
            × (is_any_spent self.old self.old.made self.old.screen now ≡ true))) }
        ensures memory { OnErr result (list_any (is_entry_due self.old.made now) self.old.records ≡ true) }
        ensures err { OnErr result (self.new ≡ self.old) }
    {
        let news = News {
            session: self.id,
            number: self.made,
            now,
        };
        let mut parcels = Vec::new(alloc);
        let mut shared = Shared::new(alloc);
        send_from(
            alloc,
            news,
            &self.screen,
            &mut shared,
            &mut self.records,
            0,
            &mut parcels,
        )?;
        self.clock = now;
        Ok(parcels)
    }

    // A tick that makes a number of the session's face.
    fn number_face(&mut self, alloc: Global, now: u64) -> Result<Vec<(Addr, Vec<u8>)>, Fault>
        ensures made { IfOk result (λ all. (s : ServerOf) → Stands self.old s
            → Numbers self.old (face s.size s.log) now (parcels_of all.items) self.new) }
        ensures fault { (s : ServerOf) → Stands self.old s → IfErr result (λ fault. (fault ≡ Fault.OutOfMemory)
            ⊎ ((fault ≡ Fault.Spent) × (is_numbering_spent self.old (face s.size s.log) now ≡ true))) }
        ensures memory { IsErrOf result Fault.OutOfMemory → is_spent (self.old.made + 1) ≡ false }
        ensures err { OnErr result (self.new ≡ self.old) }
    {
        let number = self.made + 1;
        if number >= NUMBER_LIMIT {
            return Err(Fault::Spent);
        }
        let screen = self.session.face(alloc)?;
        screen.facts();
        let shown = screen.copy(alloc)?;
        let news = News {
            session: self.id,
            number,
            now,
        };
        let mut parcels = Vec::new(alloc);
        let mut shared = Shared::new(alloc);
        send_from(
            alloc,
            news,
            &screen,
            &mut shared,
            &mut self.records,
            0,
            &mut parcels,
        )?;
        self.session.keep(shown);
        self.made = number;
        self.screen = screen;
        self.made_at = now;
        self.input = false;
        self.clock = now;
        Ok(parcels)
    }

    /// Makes a number of the session's face if none was made yet, or if an input came since the last was made and 20 ms passed. Offers the
    /// newest number, as its version shows it, to each client instance whose last datagram came less than 60,000 ms ago and that has room
    /// for it. Returns the datagrams to those that are due one, in the order of arrival, each with its address. `Spent` exactly if a number
    /// that it needs would be 2^62; `OutOfMemory`. An error changes nothing.
    pub fn tick(&mut self, alloc: Global, now: u64) -> Result<Vec<(Addr, Vec<u8>)>, Fault>
        ensures ticked { (s : ServerOf) → Stands self.old s → Ticks s now result self.new }
        ensures err { OnErr result (self.new ≡ self.old) }
    {
        let moment = now.max(self.clock);
        if self.makes(moment) {
            self.number_face(alloc, moment)
        } else {
            self.send_newest(alloc, moment)
        }
    }
}
