//! The ports of a server over sockets. They don't record their calls.
ghost use Rattle.std.specs.Prelude.{Bool, ◌≡◌, ◌≢◌, ◌⊎◌, ◌<◌, ◌≤◌, ◌+◌, ◌-◌, ◌&&◌, ◌||◌, ◌==◌, if◌then◌else◌, [], ℕ, List, Option, slice_get, true, false, not, length, map, string_bytes, is_some, nat_lt, None, Some, IfOk, IfSome, IfErr};
ghost use Rattle.std.specs.List.{All};
ghost use Rattle.std.specs.Option.{option_map};
ghost use Rattle.roam_sockets.specs.Addresses.{number_of};
ghost use Rattle.roam_sockets.specs.Clients.{Accepts, IsOf, IsQueuedFor};
ghost use Rattle.roam_sockets.specs.declared.udp.Udp.{Udp as UdpOf};
ghost use Rattle.roam_sockets.specs.Waits.{wait_for};
ghost use Rattle.roam_pane_subscribers.specs.Asking.{HaveAsked, IsAsked, Settles};
ghost use Rattle.roam_serve.specs.Echoes.{before_by, is_echo, is_full, leading, most_ahead, most_pieces, typed_after, typed_in, wish_outside};
ghost use Rattle.roam_hub.specs.Waits.{has_come};
ghost use Rattle.roam_serve.specs.Tellings.{count_asked, AreToldClips, AreToldMetadata, AreToldQueries};
ghost use Rattle.roam_pane_sockets.specs.Queries.{pane_asked};
ghost use Rattle.roam_pane_subscribers.specs.Closing.{GivesOwn, HearsAnswer, own_address};
ghost use Rattle.roam_pane_subscribers.specs.Subscribing.{AreAllTold, HaveCome, most_taken, panes_path};
ghost use Rattle.roam_serve.specs.Rests.{Flushes, GoesBy, SendsBy, is_paced};
ghost use Rattle.roam_pane_subscribers.specs.declared.closing.Closer.{Closer as CloserOf};
ghost use Rattle.roam_pane_sockets.specs.Moments.{sooner, standing};
ghost use Rattle.roam_serve.specs.Mending.{AreMended};
ghost use Rattle.roam_serve.specs.Ports.{IsPortOf, clients_path, is_looked};
ghost use Rattle.roam_pane_sockets.specs.Panes.{paths_of};
ghost use Rattle.roam_pane_sockets.specs.PaneInputs.{HandsOn, IsFreshPaneInput};
ghost use Rattle.roam_pane_sockets.specs.Peers.{Asks, Changes, HasFreeIn, Hears, IsStill, Generations, any_goes_on, frames_until};
ghost use Rattle.roam_pane_sockets.specs.FilterStages.{CountsSome, bytes_given};

use crate::echoes::Echoes;
use crate::tellings::{ClipTimes, MetadataEventTimes};
use mio::net::UnixStream;
use roam_cells::Fault;
use roam_faults::RunFault;
use roam_hub::Addr;
use roam_pane_protocol::{PaneList, QueryPane};
use roam_pane_sockets::{Panes, is_time, sooner, standing};
use roam_pane_subscribers::{Closer, OWN, Subscribers};
use roam_sockets::{Clients, Moments, Udp, Waits, next_by_turns, wait_for};
use roam_stream_framing::Stream;
use roam_turns::Ports;
use std::alloc::Global;
use std::fs;
use std::fs::Files;
use std::net::Net;
use std::time::{Clock, Instant};

/// The milliseconds between looks for new connections without a wait.
const LOOKS: u64 = 20;

/// It is looked once in so many milliseconds whether the files of the sockets are still there.
const MENDS: u64 = 60_000;

/// The session and the id of the instance by which a server closes the panes that programs ask for.
#[derive(Clone, Copy, Debug, PartialEq, Eq)]
pub struct OwnStart {
    /// The session's id.
    pub session: u64,
    /// The id of the instance. An instance made anew gets the next id.
    pub id: u64,
}

/// The ports of a server: the streams of its client instances, UDP on loopback if a port was asked for, the sockets of its panes, a clock.
#[derive(Drop)]
pub struct ServerPorts<R> {
    moments: Moments<R>,
    // The moment that the turn was given: at most 20 milliseconds ahead of the clock.
    moment: u64,
    // The last moment of the source of moments.
    clock: u64,
    echoes: Echoes,
    waits: Waits,
    udp: Option<Udp>,
    clients: Clients,
    panes: Panes,
    subscribers: Subscribers,
    telling: MetadataEventTimes,
    clipping: ClipTimes,
    closer: Closer,
    alloc: Global,
    is_udp_next: bool,
    looked: u64,
    // True if a program may have connected to the socket `panes` since the last look.
    may_come: bool,
    // When it was looked last whether the files of the sockets are still there.
    mended: u64,
}

// Binds the sockets other than the panes'. `Bind` if one can't be bound, `OutOfMemory`; then none stays.
fn bind_others<R: Files + Net>(
    rt: &R,
    alloc: Global,
    waits: &Waits,
    folder: &str,
) -> Result<(Subscribers, Clients), RunFault>
    ensures followers { IfOk result (λ bound. (bound.0.all.items ≡ []) × (string_bytes bound.0.path ≡ panes_path folder.now)) }
    ensures clients { IfOk result (λ bound. (string_bytes bound.1.path ≡ clients_path folder.now) × (bound.1.last ≡ 0)) }
    ensures faults { IfErr result (λ fault. (fault ≡ RunFault.Bind) ⊎ (fault ≡ RunFault.Core Fault.OutOfMemory)) }
{
    let Ok(path) = format!(in alloc; "{folder}/clients") else {
        return Err(RunFault::Core(Fault::OutOfMemory));
    };
    let subscribers = Subscribers::bind(rt, alloc, waits.registry(), folder)?;
    match Clients::bind(rt, alloc, waits, path) {
        Ok(clients) => Ok((subscribers, clients)),
        Err(fault) => {
            subscribers.remove(rt);
            Err(fault)
        }
    }
}

// Binds a UDP port if one is asked for.
fn bind_udp(
    net: &impl Net,
    alloc: Global,
    waits: &Waits,
    port: Option<u16>,
) -> Result<Option<Udp>, RunFault>
    ensures port { IfOk result (λ udp. IsPortOf port udp) }
    ensures faults { IfErr result (λ fault. fault ≡ RunFault.Bind) }
{
    match port {
        None => Ok(None),
        Some(port) => {
            let udp = Udp::bind(net, alloc, waits, port)?;
            Ok(Some(udp))
        }
    }
}

// Sends a datagram over UDP, if there is a port for it.
fn send_udp(udp: &mut Option<Udp>, to: Addr, bytes: &[u8], now: u64) -> bool
    ensures sends { SendsBy now to udp.old udp.new bytes.now result }
{
    match udp {
        None => false,
        Some(udp) => udp.send(to, bytes, now),
    }
}

// Sends datagrams queued for UDP, as many as may go at this moment, and returns true if that was all.
fn flush_udp(udp: &mut Option<Udp>, now: u64) -> bool
    ensures goes { GoesBy now udp.old udp.new result }
    ensures all { result ≡ not (is_paced udp.new) }
{
    match udp {
        None => true,
        Some(udp) => udp.flush(now),
    }
}

// The next datagram that came to the streams or to the port, each asked first in its turn.
fn next_arrival(
    udp: &mut Option<Udp>,
    clients: &mut Clients,
    is_udp_next: &mut bool,
    buf: &mut [u8],
) -> Option<(Addr, usize)>
    ensures within { IfSome result (λ r. r.1 ≤ length buf.new) }
    ensures from { IfSome result (λ r. IsOf clients.old r.0 ⊎ (number_of r.0 ≡ None)) }
    ensures turn { is_udp_next.new ≡ not is_udp_next.old }
{
    match udp {
        None => {
            *is_udp_next = !*is_udp_next;
            clients.receive(buf)
        }
        Some(udp) => next_by_turns(clients, udp, is_udp_next, buf),
    }
}

// Sends new metadata to the subscribers that asked, if that is due.
fn tell_metadata(
    alloc: Global,
    telling: &mut MetadataEventTimes,
    subscribers: &mut Subscribers,
    panes: &Panes,
    moment: u64,
)
    ensures told { AreToldMetadata ⟦<UnixStream as Stream>⟧.contents telling.old telling.new moment panes.now.all.items
        subscribers.old.all.items subscribers.new.all.items }
    ensures noted { subscribers.new.may_ask ≡ subscribers.old.may_ask }
{
    if !subscribers.is_metadata_asked() {
        telling.rest();
        return;
    }
    if !telling.is_time(moment) {
        telling.wait();
        return;
    }
    let now = panes.metadata_lists(telling.may_ring(moment), telling.shown());
    subscribers.tell_metadata(alloc, &now, panes);
    telling.tells(&now, moment);
}

// Sends new clips to the subscribers that want them, if that is due.
fn tell_clips(
    alloc: Global,
    clipping: &mut ClipTimes,
    subscribers: &mut Subscribers,
    panes: &Panes,
    moment: u64,
)
    ensures told { AreToldClips ⟦<UnixStream as Stream>⟧.contents clipping.old clipping.new moment panes.now.all.items
        subscribers.old.all.items subscribers.new.all.items }
    ensures noted { subscribers.new.may_ask ≡ subscribers.old.may_ask }
{
    if !subscribers.want_clips() {
        clipping.rest();
        return;
    }
    let now = panes.clip_counts();
    let any = subscribers.tell_clips(alloc, &now, clipping.is_time(moment), panes);
    clipping.tells(any, moment);
}

// Sends new questions of panes' programs to the subscribers that asked for them.
fn tell_queries(alloc: Global, subscribers: &mut Subscribers, panes: &Panes)
    ensures told { AreToldQueries ⟦<UnixStream as Stream>⟧.contents panes.now.all.items subscribers.old.all.items
        subscribers.new.all.items }
    ensures noted { subscribers.new.may_ask ≡ subscribers.old.may_ask }
{
    let now = panes.query_counts();
    subscribers.tell_queries(alloc, &now, panes);
}

// How many questions a pane's program has asked, as far as is known.
fn count_asked(asks: Option<QueryPane>) -> u64
    ensures count { result ≡ count_asked asks }
{
    match asks {
        None => 0,
        Some(asks) => asks.asked,
    }
}

// Does the same if a piece may have asked more.
fn tell_new_queries(
    alloc: Global,
    subscribers: &mut Subscribers,
    panes: &Panes,
    before: Option<QueryPane>,
    after: Option<QueryPane>,
)
    ensures told { (count_asked before ≡ count_asked after → ⊥)
        → AreToldQueries ⟦<UnixStream as Stream>⟧.contents panes.now.all.items subscribers.old.all.items subscribers.new.all.items }
    ensures none { count_asked before ≡ count_asked after → subscribers.new ≡ subscribers.old }
    ensures noted { subscribers.new.may_ask ≡ subscribers.old.may_ask }
{
    if count_asked(before) != count_asked(after) {
        tell_queries(alloc, subscribers, panes);
    }
}

impl<R: Clock + Drop> ServerPorts<R> {
    /// Binds the sockets of a folder: `p1` to `p9` for panes, which aren't open yet, `panes` for subscribers, and `clients` for client
    /// instances. It also binds a port of this machine if one is asked for, any free one for 0. `Bind` if one can't be bound, or the folder
    /// has no name; `OutOfMemory`; then none stays. The bytes of panes' programs go on as they are, or normalized.
    pub fn bind<N: Files + Net>(
        rt: &N,
        alloc: Global,
        folder: &str,
        port: Option<u16>,
        moments: Moments<R>,
        own: OwnStart,
        normalize: bool,
    ) -> Result<ServerPorts<R>, RunFault>
        ensures moments { IfOk result (λ ports. ports.moments ≡ moments) }
        ensures port { IfOk result (λ ports. IsPortOf port ports.udp) }
        ensures nine { IfOk result (λ ports. length ports.panes.all.items ≡ 9) }
        ensures none { IfOk result (λ ports. All (λ pane. pane.making ≡ None) ports.panes.all.items) }
        ensures fresh { IfOk result (λ ports. All (λ pane. IsFreshPaneInput pane.pane_input normalize) ports.panes.all.items) }
        ensures named { IfOk result (λ _. folder.now ≢ []) }
        ensures paths { IfOk result (λ ports. map (λ pane. string_bytes pane.path) ports.panes.all.items ≡ paths_of folder.now 9) }
        ensures followers { IfOk result (λ ports. (ports.subscribers.all.items ≡ [])
            × (string_bytes ports.subscribers.path ≡ panes_path folder.now)) }
        ensures clients { IfOk result (λ ports. (string_bytes ports.clients.path ≡ clients_path folder.now) × (ports.clients.last ≡ 0)) }
        ensures own { IfOk result (λ ports. (ports.closer.session ≡ own.session) × (ports.closer.client ≡ None)) }
        ensures faults { IfErr result (λ fault. (fault ≡ RunFault.Bind) ⊎ (fault ≡ RunFault.Core Fault.OutOfMemory)) }
    {
        let waits = Waits::new(rt, alloc)?;
        let udp = bind_udp(rt, alloc, &waits, port)?;
        let panes = Panes::bind(rt, alloc, waits.registry(), folder, normalize)?;
        match bind_others(rt, alloc, &waits, folder) {
            Ok((subscribers, clients)) => Ok(ServerPorts {
                moments,
                moment: 0,
                clock: 0,
                echoes: Echoes::new(),
                waits,
                udp,
                clients,
                panes,
                subscribers,
                telling: MetadataEventTimes::new(),
                clipping: ClipTimes::new(),
                closer: Closer::new(own.session, own.id),
                alloc,
                is_udp_next: false,
                looked: 0,
                may_come: true,
                mended: 0,
            }),
            Err(fault) => {
                panes.remove(rt);
                Err(fault)
            }
        }
    }

    /// Returns the bound UDP port; `None` if there is none.
    pub fn port(&self) -> Option<u16>
        ensures port { result ≡ option_map (λ (udp : UdpOf). udp.port) self.now.udp }
    {
        match &self.udp {
            None => None,
            Some(udp) => Some(udp.port()),
        }
    }

    /// Sets the moment, in milliseconds.
    pub fn set_moment(&mut self, moment: u64)
        ensures moment { self.new ≡ record self.old { moments = Moments.Set moment } }
    {
        self.moments = Moments::Set(moment);
    }

    // Accepts client instances and subscribers, once in 20 milliseconds and after each wait.
    fn look(&mut self, alloc: Global, has_waited: bool)
        ensures clients { Accepts self.old.clients self.new.clients }
        ensures flushed { self.new.clients.is_flushed ≡ self.old.clients.is_flushed }
        ensures others { self.new ≡ record self.old { clients = self.new.clients; looked = self.new.looked; may_come = self.new.may_come } }
        ensures looked { is_looked has_waited self.old.clock self.old.looked ≡ true
            → (self.new.looked ≡ self.old.clock) × (self.new.may_come ≡ true) }
        ensures rests { is_looked has_waited self.old.clock self.old.looked ≡ false → self.new ≡ self.old }
    {
        if has_waited || self.clock < self.looked || is_time(Some(self.looked), self.clock, LOOKS) {
            self.clients.accept(alloc, &self.waits);
            self.looked = self.clock;
            self.may_come = true;
        }
    }

    /// Writes the queued bytes of client instances, accepts new ones, and waits. A wait ends with input, at a due moment, or if metadata is
    /// due. It also ends if the moment may run ahead to an echo, or an update isn't kept back any more. It doesn't wait if input arrived
    /// since the last call, or a datagram of its own instance is ready. The clock counts the wait.
    pub fn rest(&mut self, due: Option<u64>)
        ensures quiet { self.new.waits.quiet ≡ true }
        // A wait leaves no queued bytes of a client instance whose stream would take more.
        ensures waited { IfSome self.new.waits.longest (λ longest. (self.old.waits.quiet ≡ true) × (self.old.closer.closing ≡ None)
            × (self.new.clients.is_flushed ≡ true)
            × (longest ≡ wait_for (sooner (before_by most_ahead self.old.echoes.wish)
            (sooner due (sooner (sooner self.old.telling.due self.old.clipping.due)
            (frames_until self.old.panes.all.items)))) self.old.clock
            (is_paced self.new.udp))) }
        ensures flushed { Flushes ⟦<UnixStream as Stream>⟧.answers self.old.clients self.new.clients }
        // Datagrams queued for UDP are sent, as far as the pace of each address allows at this clock.
        ensures lanes { (all : Bool) × GoesBy self.old.clock self.old.udp self.new.udp all }
        // It looks for new connections after each wait, and once in 20 milliseconds.
        ensures looked { is_looked (is_some self.new.waits.longest) self.old.clock self.old.looked ≡ true
            → (self.new.looked ≡ self.old.clock) × (self.new.may_come ≡ true) }
        ensures telling { self.new.telling ≡ self.old.telling }
        ensures clipping { self.new.clipping ≡ self.old.clipping }
        ensures panes { self.new.panes ≡ self.old.panes }
        ensures followers { self.new.subscribers ≡ self.old.subscribers }
        ensures moment { self.new.moment ≡ self.old.moment }
        ensures clock { self.new.clock ≡ self.old.clock }
        ensures echoes { self.new.echoes ≡ self.old.echoes }
        ensures turn { self.new.is_udp_next ≡ self.old.is_udp_next }
    {
        if !self.clients.flush() || !self.closer.is_free() {
            self.waits.stir();
        }
        let is_paced = !flush_udp(&mut self.udp, self.clock);
        let waits = self.waits.is_quiet();
        let telling = sooner(self.telling.due(), self.clipping.due());
        let held = self.panes.frames_until();
        let due = sooner(due, sooner(telling, held));
        let due = sooner(self.echoes.due(), due);
        self.waits.rest(wait_for(due, self.clock, is_paced));
        self.look(self.alloc, waits);
    }

    /// Notes how many acts the server took and which pane is in focus: if there are more than before, that pane was typed in.
    pub fn note_acts(&mut self, acts: u64, focus: u8)
        ensures typed { self.new.echoes ≡ record self.old.echoes {
          acts = acts;
          left = if acts == self.old.echoes.acts then self.old.echoes.left else most_pieces;
          typed = typed_after (not (acts == self.old.echoes.acts)) focus self.old.clock self.old.echoes.typed;
        } }
        ensures others { self.new ≡ record self.old { echoes = self.new.echoes } }
    {
        self.echoes.note_acts(acts, focus, self.clock);
    }

    /// Lets the moment run ahead to that of the server's next number, if a program has answered input.
    pub fn aim(&mut self, number: Option<u64>)
        ensures aims { self.new.echoes ≡ record self.old.echoes {
          wish = if self.old.echoes.echoed then number else self.old.echoes.wish;
          echoed = false;
        } }
        ensures others { self.new ≡ record self.old { echoes = self.new.echoes } }
    {
        self.echoes.aim(number);
    }

    // Accepts programs at the socket `panes`, if any may be there.
    fn take_subscribers(&mut self)
        ensures came { HaveCome self.old.subscribers.all.items self.new.subscribers.all.items }
        ensures few { length self.old.subscribers.all.items ≤ most_taken → length self.new.subscribers.all.items ≤ most_taken }
        ensures looked { self.new.may_come ≡ false }
        ensures rests { self.old.may_come ≡ false → self.new ≡ self.old }
        ensures others { self.new ≡ record self.old { subscribers = self.new.subscribers; may_come = self.new.may_come } }
    {
        if self.may_come {
            self.subscribers.accept(self.alloc, self.waits.registry());
            self.may_come = false;
        }
    }

    /// Sends the subscribers the news of the session's panes; a new one gets everything. Has its own instance close the panes that they ask
    /// for.
    pub fn tell_panes(&mut self, now: &PaneList)
        ensures panes { self.new.panes ≡ self.old.panes }
        ensures told { AreAllTold ⟦<UnixStream as Stream>⟧.contents now.now self.old.subscribers.all.items self.new.subscribers.all.items }
        ensures asked { (settled : CloserOf) × Settles now.now self.old.closer settled
            × IsAsked now.now self.old.moment settled self.new.closer }
        ensures done { self.new.subscribers.may_ask ≡ false → HaveAsked self.new.closer self.new.subscribers.all.items }
        ensures stirs { self.new.subscribers.may_ask ≡ true → self.new.waits.quiet ≡ false }
        ensures moment { self.new.moment ≡ self.old.moment }
        ensures clock { self.new.clock ≡ self.old.clock }
        ensures echoes { self.new.echoes ≡ self.old.echoes }
        ensures telling { self.new.telling ≡ self.old.telling }
        ensures clipping { self.new.clipping ≡ self.old.clipping }
        ensures turn { self.new.is_udp_next ≡ self.old.is_udp_next }
    {
        self.take_subscribers();
        let may_ask = self
            .subscribers
            .tell(self.alloc, now, &mut self.closer, self.moment);
        if may_ask {
            self.waits.stir();
        }
    }

    /// Sends new metadata to the subscribers that asked, at most once in 20 milliseconds.
    pub fn tell_metadata(&mut self)
        ensures panes { self.new.panes ≡ self.old.panes }
        ensures told { AreToldMetadata ⟦<UnixStream as Stream>⟧.contents self.old.telling self.new.telling self.old.moment
            self.old.panes.all.items self.old.subscribers.all.items self.new.subscribers.all.items }
        ensures noted { self.new.subscribers.may_ask ≡ self.old.subscribers.may_ask }
        ensures waits { self.new.waits ≡ self.old.waits }
        ensures moment { self.new.moment ≡ self.old.moment }
        ensures clock { self.new.clock ≡ self.old.clock }
        ensures echoes { self.new.echoes ≡ self.old.echoes }
        ensures clipping { self.new.clipping ≡ self.old.clipping }
        ensures turn { self.new.is_udp_next ≡ self.old.is_udp_next }
    {
        tell_metadata(
            self.alloc,
            &mut self.telling,
            &mut self.subscribers,
            &self.panes,
            self.moment,
        );
    }

    /// Tells the programs that asked for the texts for the clipboard which are new, once a second at most; the pty host none.
    pub fn tell_clips(&mut self)
        ensures panes { self.new.panes ≡ self.old.panes }
        ensures told { AreToldClips ⟦<UnixStream as Stream>⟧.contents self.old.clipping self.new.clipping self.old.moment
            self.old.panes.all.items self.old.subscribers.all.items self.new.subscribers.all.items }
        ensures noted { self.new.subscribers.may_ask ≡ self.old.subscribers.may_ask }
        ensures waits { self.new.waits ≡ self.old.waits }
        ensures moment { self.new.moment ≡ self.old.moment }
        ensures clock { self.new.clock ≡ self.old.clock }
        ensures echoes { self.new.echoes ≡ self.old.echoes }
        ensures telling { self.new.telling ≡ self.old.telling }
        ensures turn { self.new.is_udp_next ≡ self.old.is_udp_next }
    {
        tell_clips(
            self.alloc,
            &mut self.clipping,
            &mut self.subscribers,
            &self.panes,
            self.moment,
        );
    }

    /// Sends new questions of panes' programs to the subscribers that asked for them; one that asks now gets no earlier question.
    pub fn tell_queries(&mut self)
        ensures panes { self.new.panes ≡ self.old.panes }
        ensures told { AreToldQueries ⟦<UnixStream as Stream>⟧.contents self.old.panes.all.items self.old.subscribers.all.items
            self.new.subscribers.all.items }
        ensures noted { self.new.subscribers.may_ask ≡ self.old.subscribers.may_ask }
        ensures waits { self.new.waits ≡ self.old.waits }
        ensures moment { self.new.moment ≡ self.old.moment }
        ensures clock { self.new.clock ≡ self.old.clock }
        ensures echoes { self.new.echoes ≡ self.old.echoes }
        ensures telling { self.new.telling ≡ self.old.telling }
        ensures clipping { self.new.clipping ≡ self.old.clipping }
        ensures turn { self.new.is_udp_next ≡ self.old.is_udp_next }
    {
        tell_queries(self.alloc, &mut self.subscribers, &self.panes);
    }

    /// Binds sockets anew whose files are gone, as a cleaner of old files leaves them. It does so once a minute, and only if the folder's
    /// file `session` has this id, since another session may use the folder by then. Connected panes, subscribers and client instances
    /// stay.
    pub fn mend_sockets<N: Files + Net + AllocGlobal>(&mut self, rt: &N, folder: &str, session: u64)
        ensures mends { AreMended self.old self.new }
    {
        if !is_time(Some(self.mended), self.clock, MENDS) {
            return;
        }
        self.mended = self.clock;
        if !is_session(rt, folder, session) {
            return;
        }
        self.panes.mend(rt, self.waits.registry());
        self.subscribers.mend(rt, self.waits.registry());
        self.clients.mend(rt, &self.waits);
    }

    /// Removes the files of the sockets.
    pub fn remove(&self, files: &impl Files) {
        self.panes.remove(files);
        self.subscribers.remove(files);
        self.clients.remove(files);
    }
}

// Returns true if the file `session` of a folder has this id.
fn is_session<N: Files + AllocGlobal>(rt: &N, folder: &str, session: u64) -> bool {
    let (Ok(path), Ok(id)) = (
        format!(in rt.alloc(); "{folder}/session"),
        format!(in rt.alloc(); "{session:x}\n"),
    ) else {
        return false;
    };
    match fs::read(rt, path.as_str()) {
        Ok(text) => text.as_slice() == id.as_bytes(),
        Err(_) => false,
    }
}

// Returns a count of bytes; `None` if it is 0.
fn some_bytes(count: Option<usize>) -> Option<usize>
    ensures some { IfSome result (λ n. (0 < n) × (count ≡ Some n)) }
    ensures same { (buf : List ℕ) → bytes_given result buf ≡ bytes_given count buf }
    ensures stays { CountsSome count → CountsSome result }
{
    match count {
        Some(0) => None,
        other => other,
    }
}

impl<R: Clock + Drop> Ports for ServerPorts<R> {
    // The moment runs ahead of the clock to the number that shows an echo, so that input is seen at once. It is kept while an update goes
    // on whose beginning went on, so that no number is made within an update.
    fn now(&mut self) -> u64
        ensures set { (moment : ℕ) → self.old.moments ≡ Moments.Set moment
            → result ≡ standing (any_goes_on self.old.panes.all.items) self.old.moment moment }
        ensures real { (clock : R) (start : Option Instant) (last : ℕ) → self.new.moments ≡ Moments.Real clock start last
            → result ≡ standing (any_goes_on self.old.panes.all.items) self.old.moment
            (leading (wish_outside (any_goes_on self.old.panes.all.items) self.old.echoes.wish) self.old.moment last) }
        ensures rises { (clock : R) (start : Option Instant) (last : ℕ) → self.new.moments ≡ Moments.Real clock start last
            → self.old.moment ≤ result }
        ensures ahead { (clock : R) (start : Option Instant) (last : ℕ) → self.new.moments ≡ Moments.Real clock start last
            → self.old.moment ≤ last + most_ahead → result ≤ last + most_ahead }
        ensures clock { (clock : R) (start : Option Instant) (last : ℕ) → self.new.moments ≡ Moments.Real clock start last
            → self.new.clock ≡ last }
        ensures spent { self.new.echoes ≡ record self.old.echoes {
          wish = if has_come self.old.echoes.wish result then None else self.old.echoes.wish;
        } }
        ensures moment { self.new.moment ≡ result }
        ensures panes { self.new.panes ≡ self.old.panes }
        ensures turn { self.new.is_udp_next ≡ self.old.is_udp_next }
    {
        self.clock = self.moments.now();
        let goes_on = self.panes.any_goes_on();
        let is_real = self.moments.is_real();
        let led = self.echoes.leading(goes_on, self.moment, self.clock);
        let now = if is_real { led } else { self.clock };
        self.moment = standing(goes_on, self.moment, now);
        self.echoes.pass(self.moment);
        self.moment
    }

    // That of the server's own instance comes first; then streams and the port bring one each in their turn.
    fn receive(&mut self, buf: &mut [u8]) -> Option<(Addr, usize)>
        ensures within { IfSome result (λ r. r.1 ≤ length buf.new) }
        ensures own { IfSome self.old.closer.datagram (λ datagram. GivesOwn datagram.items buf.new result) }
        ensures others { self.old.closer.datagram ≡ None → IfSome result (λ r. IsOf self.old.clients r.0 ⊎ (number_of r.0 ≡ None)) }
        ensures closer { self.new.closer ≡ record self.old.closer { datagram = None } }
        ensures turn { self.old.closer.datagram ≡ None → self.new.is_udp_next ≡ not self.old.is_udp_next }
        ensures own_turn { IfSome self.old.closer.datagram (λ _. self.new.is_udp_next ≡ self.old.is_udp_next) }
        ensures stirs { IfSome result (λ _. self.new.waits.quiet ≡ false) }
        ensures panes { self.new.panes ≡ self.old.panes }
    {
        if let Some(len) = self.closer.receive(buf) {
            self.waits.stir();
            return Some((OWN, len));
        }
        let came = next_arrival(&mut self.udp, &mut self.clients, &mut self.is_udp_next, buf)?;
        self.waits.stir();
        Some(came)
    }

    fn send(&mut self, to: Addr, bytes: &[u8]) -> bool
        ensures own { to ≡ own_address → HearsAnswer self.old.closer.client self.old.closer self.new.closer bytes.now self.old.moment }
        ensures others { to ≢ own_address → self.new.closer ≡ self.old.closer }
        ensures near { to ≢ own_address → result ≡ true → IfSome (number_of to) (λ _.
            IsQueuedFor self.old.clients.all.items self.new.clients.all.items (number_of to) bytes.now) }
        ensures far { number_of to ≡ None → SendsBy self.old.clock to self.old.udp self.new.udp bytes.now result }
        ensures panes { self.new.panes ≡ self.old.panes }
        ensures turn { self.new.is_udp_next ≡ self.old.is_udp_next }
    {
        if to == OWN {
            self.closer.hear(self.alloc, bytes, self.moment);
            return true;
        }
        if to.host[0] == 0 {
            self.clients.send(to, bytes)
        } else {
            send_udp(&mut self.udp, to, bytes, self.clock)
        }
    }

    fn pane_generations(&mut self, pane: u8, generation: Option<u64>)
        ensures lives { Changes (Generations generation) pane self.old.panes.all.items self.new.panes.all.items }
        ensures waits { self.new.waits ≡ self.old.waits }
        ensures turn { self.new.is_udp_next ≡ self.old.is_udp_next }
    {
        self.panes.live(pane, generation);
    }

    fn pane_in(&mut self, pane: u8, buf: &mut [u8]) -> Option<usize>
        ensures some { IfSome result (λ n. 0 < n) }
        ensures within { IfSome result (λ n. n ≤ length buf.new) }
        // The bytes of this generation of the pane go on piece by piece, as they are or normalized, and its metadata reads them.
        ensures hears { Changes (Hears (is_some result) (bytes_given result buf.new)) pane self.old.panes.all.items
            self.new.panes.all.items }
        ensures free { 1 ≤ pane → HasFreeIn self.old.moment (slice_get self.old.panes.all.items (pane - 1)) → 0 < length buf.old
            → CountsSome result }
        ensures hands { Changes (λ p q. IfSome result (λ n. HandsOn self.old.moment p.pane_input q.pane_input n)) pane
            self.old.panes.all.items self.new.panes.all.items }
        ensures stirs { IfSome result (λ _. self.new.waits.quiet ≡ false) }
        ensures still { self.new.waits.quiet ≡ true → 1 ≤ pane → IsStill pane self.old.panes.all.items self.new.panes.all.items }
        // Questions of its program are sent at once, before the terminal's answers to later bytes.
        ensures asks { 1 ≤ pane → (count_asked (pane_asked (slice_get self.old.panes.all.items (pane - 1)))
            ≡ count_asked (pane_asked (slice_get self.new.panes.all.items (pane - 1))) → ⊥)
            → AreToldQueries ⟦<UnixStream as Stream>⟧.contents self.new.panes.all.items self.old.subscribers.all.items
            self.new.subscribers.all.items }
        // Only a pane that was typed in echoes.
        ensures echoed { self.new.echoes ≡ record self.old.echoes {
          echoed = self.old.echoes.echoed || (is_echo (typed_in self.old.echoes.typed pane) result (length buf.old) self.old.clock
              && nat_lt 0 self.old.echoes.left);
          left = if is_full (typed_in self.old.echoes.typed pane) result (length buf.old) self.old.clock
              then self.old.echoes.left - 1 else self.old.echoes.left;
        } }
        ensures turn { self.new.is_udp_next ≡ self.old.is_udp_next }
    {
        let had_peer = self.panes.has_peer(pane);
        let asks = self.panes.queries_at(pane);
        let count = self
            .panes
            .read(self.waits.registry(), pane, buf, self.moment);
        let now = self.panes.queries_at(pane);
        tell_new_queries(self.alloc, &mut self.subscribers, &self.panes, asks, now);
        // If a peer has left, the next may be there; and while all bytes are kept back, more may have arrived.
        if count.is_some() || had_peer != self.panes.has_peer(pane) {
            self.waits.stir();
        }
        let given = some_bytes(count);
        self.echoes.hear(pane, given, buf.len(), self.clock);
        given
    }

    fn pane_out(&mut self, pane: u8, bytes: &[u8]) -> usize
        ensures within { result ≤ length bytes.now }
        ensures asks { Changes (Asks (nat_lt 0 result)) pane self.old.panes.all.items self.new.panes.all.items }
        ensures stirs { 0 < result → self.new.waits.quiet ≡ false }
        ensures echoes { self.new.echoes ≡ self.old.echoes }
        ensures still { self.new.waits.quiet ≡ true → 1 ≤ pane → IsStill pane self.old.panes.all.items self.new.panes.all.items }
        ensures turn { self.new.is_udp_next ≡ self.old.is_udp_next }
    {
        let had_peer = self.panes.has_peer(pane);
        let count = self.panes.write(self.waits.registry(), pane, bytes);
        // Where a peer is gone the next may wait.
        if count > 0 || had_peer != self.panes.has_peer(pane) {
            self.waits.stir();
        }
        count
    }

    fn show(&mut self, _bytes: &[u8]) -> bool
        ensures none { result ≡ false }
        ensures panes { self.new.panes ≡ self.old.panes }
        ensures turn { self.new.is_udp_next ≡ self.old.is_udp_next }
    {
        false
    }
}
