//! The socket `panes`. Programs follow the panes there, their sizes and the focus, and ask for a pane to be closed.
ghost use Rattle.std.specs.Prelude.{◌≡◌, ◌≢◌, ◌⊎◌, ◌++◌, ◌∷◌, ◌≤◌, ◌<◌, ℕ, List, [], length, is_some, take, drop, true, false, string_bytes, None, IfOk, IfErr, OnOk, IfSome, IsOkUnless, IsTrue, ◌↔◌};
ghost use Rattle.std.specs.List.{AllZip, filter};
ghost use Rattle.roam_terminal_input.specs.Lines.{IsFirst};
ghost use Rattle.roam_pane_subscribers.specs.Asking.{DoesLine, HasNoLine, HaveAsked, HaveNoLine, IsAsked, Settles, TakesLine};
ghost use Rattle.roam_pane_subscribers.specs.Clipping.{TellsEachClips, any_wants};
ghost use Rattle.roam_pane_subscribers.specs.Subscribing.{AreTold, GoesOn, HandsMetadataEvent, HaveCome, IsFresh, IsReply, IsTold, MayHear, RenewsMetadata, Replies, Tells, TellsMetadata, is_there, most_taken, news, panes_path, room, turned, any_asked};
ghost use Rattle.roam_pane_subscribers.specs.Programs.{Heard, Wrote};
ghost use Rattle.roam_pane_subscribers.specs.Querying.{TellsQueries};
ghost use Rattle.roam_pane_subscribers.specs.Seats.{any_new, kept_place, seated};
ghost use Rattle.roam_pane_subscribers.specs.declared.closing.Closer.{Closer as CloserOf};
ghost use Rattle.roam_pane_subscribers.specs.declared.subscribing.Subscriber.{Subscriber as SubscriberOf};

use crate::clipping::{any_wants, tell_each_clips};
use crate::clips::{ClipsTold, is_clips};
use crate::closing::Closer;
use crate::metadata_events::{MetadataEvent, is_metadata};
use crate::programs::Program;
use crate::queries::{QueriesTold, is_queries};
use crate::querying::tell_each_queries;
use crate::seats::{Role, is_host, role_after, seat_host};
use mio::net::{UnixListener, UnixStream};
use mio::{Interest, Registry, Token};
use roam_cells::Fault;
use roam_faults::RunFault;
use roam_pane_protocol::{
    ClipList, Closing, MetadataList, PaneList, QueryList, acts_for, lines_between, read_close,
};
use roam_pane_sockets::Panes;
use roam_sockets::{listen, listen_again};
use roam_stream_framing::Stream;
use roam_terminal_input::{Front, Lines};
use std::alloc::Global;
use std::fs::{Files, remove_file};
use std::net::Net;

/// How many bytes may wait for a program.
const ROOM: usize = 65_536;

/// How many programs may follow the panes at once.
pub(crate) const MOST_SUBSCRIBERS: usize = 64;

/// How many there may be until the next turn: one more than these may say that it is the pty host.
const MOST_TAKEN: usize = 65;

/// So many pieces are more than a line.
const MOST_READS: u32 = 4;

/// How many lines of a program are taken after a turn at most.
const MOST_LINES: u32 = 16;

/// A subscriber of the session's panes: its news, its queued bytes, and its lines. It is outside the turn, so the clauses of turns don't
/// depend on it.
#[derive(Drop)]
pub(crate) struct Subscriber<S> {
    pub(crate) program: Program<S>,
    told: PaneList,
    pub(crate) waiting: Vec<u8>,
    lines: Lines,
    pub(crate) role: Role,
    pub(crate) metadata_event: MetadataEvent,
    pub(crate) clips: ClipsTold,
    pub(crate) queries: QueriesTold,
}

// Does the request of a line, and returns the reply: empty if its pane is gone, or is being closed.
fn do_line(
    alloc: Global,
    line: &[u8],
    now: &PaneList,
    closer: &mut Closer,
    moment: u64,
) -> &'static [u8]
    requires free { closer.old.closing ≡ None }
    ensures does { DoesLine now.now line.now moment closer.old closer.new result.now }
{
    if is_host(line) || is_metadata(line) || is_clips(line) || is_queries(line) {
        return b"";
    }
    let Some(close) = read_close(line) else {
        return b"bad line\n";
    };
    match acts_for(now, &close) {
        Closing::Gone => b"",
        Closing::LastPane => b"last pane\n",
        Closing::Acts { after } => match closer.close(alloc, &close, after, moment) {
            Ok(()) => b"",
            Err(_) => b"out of memory\n",
        },
    }
}

impl<S: Stream + Drop> Subscriber<S> {
    // Returns a new subscriber, which got nothing yet.
    fn new(alloc: Global, program: Program<S>) -> Subscriber<S>
        ensures fresh { IsFresh result }
    {
        Subscriber {
            program,
            told: PaneList::unknown(),
            waiting: Vec::new(alloc),
            lines: Lines::new(alloc),
            role: Role::Other,
            metadata_event: MetadataEvent::new(alloc),
            clips: ClipsTold::new(),
            queries: QueriesTold::new(),
        }
    }

    // Queues the news for the subscriber.
    fn add(&mut self, alloc: Global, now: &PaneList) -> Result<(), Fault>
        ensures added { OnOk result (self.new.waiting.items ≡ self.old.waiting.items ++ news self.old.told now.now) }
        ensures told { OnOk result (self.new.told ≡ now.now) }
        ensures program { self.new.program ≡ self.old.program }
        ensures lines { self.new.lines ≡ self.old.lines }
        ensures metadata { self.new.metadata_event ≡ self.old.metadata_event }
        ensures fault { IsOkUnless result Fault.OutOfMemory }
    {
        let text = lines_between(alloc, &self.told, now)?;
        self.waiting.extend_from_slice(text.as_bytes())?;
        self.told = *now;
        Ok(())
    }

    // A text of ours waits for the program; one for which there is no memory for it is let go.
    fn say(&mut self, text: &[u8])
        requires reply { IsReply text.now }
        ensures replies { Replies self.old self.new }
        ensures said { (self.new.program.stream ≡ None) ⊎ (self.new.waiting.items ≡ self.old.waiting.items ++ text.now) }
        ensures others { self.new ≡ record self.old { program = self.new.program; waiting = self.new.waiting } }
    {
        if self.waiting.extend_from_slice(text).is_err() {
            self.program.let_go();
        }
    }

    // Writes queued bytes to the program, and removes the written ones.
    fn hand_over(&mut self)
        ensures took { (n : ℕ) × (self.new.waiting.items ≡ drop n self.old.waiting.items)
            × Wrote S.contents self.old.program.stream self.new.program.stream (take n self.old.waiting.items) }
        ensures others { self.new ≡ record self.old { program = self.new.program; waiting = self.new.waiting } }
    {
        let count = self.program.tell(&self.waiting);
        drop(self.waiting.drain(..count));
    }

    // Does the same if the queued metadata is finished, so that no line begins inside a record.
    fn hand_over_whole(&mut self)
        ensures took { (n : ℕ) × ((n ≡ 0) ⊎ (self.old.metadata_event.text.items ≡ []))
            × (self.new.waiting.items ≡ drop n self.old.waiting.items)
            × Wrote S.contents self.old.program.stream self.new.program.stream (take n self.old.waiting.items) }
        ensures told { self.new.told ≡ self.old.told }
        ensures lines { self.new.lines ≡ self.old.lines }
    {
        if self.metadata_event.is_clear() {
            self.hand_over();
        }
    }

    // Reads until a line is whole or no more bytes are available. Disconnects a program whose line is too long. Every byte that was read
    // stays until its line is done, also those behind the first line.
    fn read_line(&mut self)
        ensures came { (bytes : List ℕ) × (self.new.lines.kept ≡ self.old.lines.kept ++ bytes)
            × Heard S.remaining self.old.program.stream self.new.program.stream bytes }
        ensures told { self.new.told ≡ self.old.told }
        ensures metadata { self.new.metadata_event ≡ self.old.metadata_event }
        ensures waiting { self.new.waiting ≡ self.old.waiting }
    {
        let mut piece = [0u8; 1024];
        for _ in 0..MOST_READS {
            match self.lines.front() {
                Front::Line(_) => return,
                Front::TooLong => return self.program.let_go(),
                Front::Part => {
                    let Some(count) = self.program.hear(&mut piece) else {
                        return;
                    };
                    if self.lines.came(&piece[..count]).is_err() {
                        return self.program.let_go();
                    }
                }
            }
        }
    }

    // Does the request of the first line, if there is one.
    fn do_first(&mut self, alloc: Global, now: &PaneList, closer: &mut Closer, moment: u64) -> bool
        requires free { closer.old.closing ≡ None }
        ensures takes { result ≡ true → TakesLine now.now moment closer.old closer.new self.old self.new }
        ensures none { result ≡ false → (closer.new ≡ closer.old) × (self.new ≡ self.old) }
        ensures done { result ≡ false → HasNoLine self.new }
        ensures replies { Replies self.old self.new }
    {
        let Some(line) = self.lines.first() else {
            return false;
        };
        let said = do_line(alloc, line, now, closer, moment);
        let role = role_after(line, self.role);
        self.metadata_event.heard(line);
        self.clips.ask(line);
        self.queries.ask(line);
        self.say(said);
        self.lines.took();
        self.role = role;
        true
    }

    // Does the request of the next line, and returns true if there was one.
    fn take_line(&mut self, alloc: Global, now: &PaneList, closer: &mut Closer, moment: u64) -> bool
        requires free { closer.old.closing ≡ None }
        ensures takes { result ≡ true → (mid : SubscriberOf S) × (bytes : List ℕ) × (mid.lines.kept ≡ self.old.lines.kept ++ bytes)
            × Heard S.remaining self.old.program.stream mid.program.stream bytes × (mid.waiting ≡ self.old.waiting)
            × TakesLine now.now moment closer.old closer.new mid self.new }
        ensures none { result ≡ false → closer.new ≡ closer.old }
        ensures done { result ≡ false → HasNoLine self.new }
        ensures asked { IsAsked now.now moment closer.old closer.new }
        ensures replies { Replies self.old self.new }
    {
        self.read_line();
        self.do_first(alloc, now, closer, moment)
    }

    // Does the requests of the lines until a close begins, and returns true if more lines may be there.
    fn take_lines(
        &mut self,
        alloc: Global,
        now: &PaneList,
        closer: &mut Closer,
        moment: u64,
    ) -> bool
        ensures asked { IsAsked now.now moment closer.old closer.new }
        ensures replies { Replies self.old self.new }
        ensures done { result ≡ false → closer.new.closing ≡ None → HasNoLine self.new }
    {
        for _ in 0..MOST_LINES {
            if !closer.is_free() || !self.take_line(alloc, now, closer, moment) {
                return false;
            }
        }
        true
    }

    // Returns true if more than 65,536 bytes are queued.
    fn is_over_room(&self) -> bool
        ensures over { IsTrue result ↔ (room < length self.now.waiting.items) }
    {
        self.waiting.len() > ROOM
    }

    // Sends the subscriber the news of the panes. Disconnects it if more than 65,536 bytes are queued or memory is refused. It may connect
    // again, and gets everything then.
    fn tell(&mut self, alloc: Global, now: &PaneList)
        ensures tells { IfSome self.new.program.stream (λ _. Tells S.contents now.now self.old self.new) }
        ensures room { length self.new.waiting.items ≤ room }
        ensures lines { self.new.lines ≡ self.old.lines }
    {
        let is_added = self.add(alloc, now).is_ok();
        self.hand_over_whole();
        if !is_added || self.is_over_room() {
            self.program.let_go();
            self.waiting.clear();
        }
    }

    // Returns true if the subscriber can get metadata now: it asked, and no bytes are queued.
    fn may_hear(&self) -> bool
        ensures may { result ≡ true → MayHear self.now }
        ensures busy { result ≡ false → MayHear self.now → ⊥ }
    {
        self.metadata_event.is_asked() && self.metadata_event.is_clear() && self.waiting.is_empty()
    }

    // Queues new metadata for the subscriber, if it can get some.
    fn renew_metadata(&mut self, alloc: Global, now: &MetadataList, panes: &Panes)
        ensures renews { RenewsMetadata now.now panes.now.all.items self.old self.new }
    {
        if self.may_hear() {
            self.metadata_event.renew(alloc, now, panes);
        }
    }

    // Writes the other queued bytes once the metadata is finished.
    fn go_on(&mut self, had_more: bool)
        ensures goes { GoesOn S.contents self.old self.new }
    {
        if had_more && self.metadata_event.is_clear() {
            self.hand_over();
        }
    }

    // Writes queued metadata, and then the other queued bytes.
    pub(crate) fn hand_metadata_event(&mut self)
        ensures hands { HandsMetadataEvent S.contents self.old self.new }
    {
        let had_more = !self.metadata_event.is_clear();
        self.metadata_event.hand(&mut self.program);
        self.go_on(had_more);
    }

    // Queues new metadata for the subscriber, if it can get some, and writes queued bytes.
    fn tell_metadata(&mut self, alloc: Global, now: &MetadataList, panes: &Panes)
        ensures tells { TellsMetadata S.contents now.now panes.now.all.items self.old self.new }
    {
        self.renew_metadata(alloc, now, panes);
        self.hand_metadata_event();
    }

    // Returns true if the subscriber is connected.
    fn is_there(&self) -> bool
        ensures there { result ≡ is_there self.now }
    {
        self.program.is_there()
    }
}

// Adds a program if fewer than 65 are there. If memory is refused, it may connect again.
fn add(alloc: Global, all: &mut Vec<Subscriber<UnixStream>>, program: Program<UnixStream>)
    ensures came { HaveCome all.old.items all.new.items }
    ensures few { length all.old.items ≤ most_taken → length all.new.items ≤ most_taken }
{
    if all.len() < MOST_TAKEN {
        let _ = all.push(Subscriber::new(alloc, program));
    }
}

// Takes those that wait at the socket; those above 65, and those for which there is no memory, are closed.
fn accept_all(
    alloc: Global,
    listener: &UnixListener,
    registry: &Registry,
    all: &mut Vec<Subscriber<UnixStream>>,
)
    ensures came { HaveCome all.old.items all.new.items }
    ensures few { length all.old.items ≤ most_taken → length all.new.items ≤ most_taken }
{
    for _ in 0..2 * MOST_SUBSCRIBERS {
        let program = Program::next(listener, registry);
        if !program.is_there() {
            return;
        }
        add(alloc, all, program);
    }
}

// Does the requests of each subscriber, and sends it the news of the panes. Returns true if more requests may be there.
fn tell_each<S: Stream + Drop>(
    alloc: Global,
    all: &mut [Subscriber<S>],
    now: &PaneList,
    closer: &mut Closer,
    moment: u64,
) -> bool
    ensures told { AllZip (λ old new. IsTold S.contents now.now old new) all.old all.new }
    ensures asked { IsAsked now.now moment closer.old closer.new }
    ensures done { result ≡ false → closer.new.closing ≡ None → HaveNoLine all.new }
{
    let Some((first, others)) = all.split_first_mut() else {
        return false;
    };
    let may_ask = first.take_lines(alloc, now, closer, moment);
    first.tell(alloc, now);
    tell_each(alloc, others, now, closer, moment) || may_ask
}

// Does the requests of each subscriber, and sends it the news of the panes; then seats the pty host. Returns true if more requests may be
// there.
fn tell_seated<S: Stream + Drop>(
    alloc: Global,
    all: &mut [Subscriber<S>],
    now: &PaneList,
    closer: &mut Closer,
    moment: u64,
) -> bool
    ensures told { AllZip (λ old new. IsTold S.contents now.now old new) all.old all.new }
    ensures seated { (told : List (SubscriberOf S)) × (all.new ≡ kept_place (seated (any_new told) told))
        × (result ≡ false → closer.new.closing ≡ None → HaveNoLine told) }
    ensures asked { IsAsked now.now moment closer.old closer.new }
{
    let may_ask = tell_each(alloc, all, now, closer, moment);
    seat_host(all);
    may_ask
}

// Lets those go that left, and has the first of the others asked last another time.
fn turn<S: Stream + Drop>(all: &mut Vec<Subscriber<S>>)
    ensures turned { all.new.items ≡ turned (filter is_there all.old.items) }
{
    all.retain(|subscriber| subscriber.is_there());
    if all.len() > 1 {
        all.rotate_left(1);
    }
}

// Does the requests of the subscribers, sends each the news of the panes, and removes those that left. The next call begins with the next
// one. Returns true if more requests may be there.
fn tell_all<S: Stream + Drop>(
    alloc: Global,
    all: &mut Vec<Subscriber<S>>,
    now: &PaneList,
    closer: &mut Closer,
    moment: u64,
) -> bool
    ensures told { AreTold S.contents now.now all.old.items all.new.items }
    ensures asked { IsAsked now.now moment closer.old closer.new }
    ensures done { result ≡ false → HaveAsked closer.new all.new.items }
{
    let may_ask = tell_seated(alloc, all, now, closer, moment);
    turn(all);
    may_ask
}

// Sends each subscriber that asked for metadata the new one.
fn tell_each_metadata<S: Stream + Drop>(
    alloc: Global,
    all: &mut [Subscriber<S>],
    now: &MetadataList,
    panes: &Panes,
)
    ensures told { AllZip (λ old new. TellsMetadata S.contents now.now panes.now.all.items old new) all.old all.new }
{
    let Some((first, others)) = all.split_first_mut() else {
        return;
    };
    first.tell_metadata(alloc, now, panes);
    tell_each_metadata(alloc, others, now, panes);
}

// Returns true if one of these asked for metadata.
fn any_asked<S: Stream + Drop>(all: &[Subscriber<S>]) -> bool
    ensures any { result ≡ any_asked all.now }
{
    let Some((first, others)) = all.split_first() else {
        return false;
    };
    first.metadata_event.is_asked() || any_asked(others)
}

/// The socket `panes` of a folder, and the programs that follow the session's panes there.
#[derive(Drop)]
pub struct Subscribers {
    path: String,
    listener: UnixListener,
    all: Vec<Subscriber<UnixStream>>,
    // True if more requests may be there than were done after the last turn.
    may_ask: bool,
}

impl Subscribers {
    /// Binds the socket of a folder. `Bind` if it can't be bound, `OutOfMemory`.
    pub fn bind<R: Files + Net>(
        rt: &R,
        alloc: Global,
        registry: &Registry,
        folder: &str,
    ) -> Result<Subscribers, RunFault>
        ensures path { IfOk result (λ subscribers. string_bytes subscribers.path ≡ panes_path folder.now) }
        ensures none { IfOk result (λ subscribers. subscribers.all.items ≡ []) }
        ensures noted { IfOk result (λ subscribers. subscribers.may_ask ≡ false) }
        ensures faults { IfErr result (λ fault. (fault ≡ RunFault.Bind) ⊎ (fault ≡ RunFault.Core Fault.OutOfMemory)) }
    {
        let Ok(path) = format!(in alloc; "{folder}/panes") else {
            return Err(RunFault::Core(Fault::OutOfMemory));
        };
        let Some(mut listener) = listen(rt, path.as_str()) else {
            return Err(RunFault::Bind);
        };
        // Where it isn't reported, a wait ends by its time alone.
        let _ = registry.register(&mut listener, Token(0), Interest::READABLE);
        Ok(Subscribers {
            path,
            listener,
            all: Vec::new(alloc),
            may_ask: false,
        })
    }

    /// Binds the socket anew if its file is gone.
    pub fn mend<R: Files + Net>(&mut self, rt: &R, registry: &Registry)
        ensures others { self.new ≡ record self.old { listener = self.new.listener } }
    {
        if listen_again(rt, self.path.as_str(), &mut self.listener) {
            // If it isn't reported, a wait ends by its time alone.
            let _ = registry.register(&mut self.listener, Token(0), Interest::READABLE);
        }
    }

    /// Takes the programs that wait at the socket.
    pub fn accept(&mut self, alloc: Global, registry: &Registry)
        ensures path { self.new.path ≡ self.old.path }
        ensures others { self.new ≡ record self.old { all = self.new.all } }
        ensures came { HaveCome self.old.all.items self.new.all.items }
        ensures few { length self.old.all.items ≤ most_taken → length self.new.all.items ≤ most_taken }
    {
        accept_all(alloc, &self.listener, registry, &mut self.all);
    }

    /// Does the requests of the subscribers, at most one close a call, and sends them the news of the panes. A new subscriber gets
    /// everything. Removes those that left. Returns true if more requests may be there.
    pub fn tell(&mut self, alloc: Global, now: &PaneList, closer: &mut Closer, moment: u64) -> bool
        ensures path { self.new.path ≡ self.old.path }
        ensures others { self.new ≡ record self.old { all = self.new.all; may_ask = self.new.may_ask } }
        ensures told { AreTold ⟦<UnixStream as Stream>⟧.contents now.now self.old.all.items self.new.all.items }
        ensures asked { (settled : CloserOf) × Settles now.now closer.old settled × IsAsked now.now moment settled closer.new }
        ensures done { result ≡ false → HaveAsked closer.new self.new.all.items }
        ensures noted { self.new.may_ask ≡ result }
    {
        closer.settle(now);
        self.may_ask = tell_all(alloc, &mut self.all, now, closer, moment);
        self.may_ask
    }

    /// Sends the subscribers that asked for metadata the new one.
    pub fn tell_metadata(&mut self, alloc: Global, now: &MetadataList, panes: &Panes)
        ensures path { self.new.path ≡ self.old.path }
        ensures noted { self.new.may_ask ≡ self.old.may_ask }
        ensures others { self.new ≡ record self.old { all = self.new.all } }
        ensures told { AllZip (λ old new. TellsMetadata ⟦<UnixStream as Stream>⟧.contents now.now panes.now.all.items old new)
            self.old.all.items self.new.all.items }
    {
        tell_each_metadata(alloc, &mut self.all, now, panes);
    }

    /// Sends the subscribers that want clips the new ones, if that is allowed now. Returns true if one of them got some.
    pub fn tell_clips(&mut self, alloc: Global, now: &ClipList, may: bool, panes: &Panes) -> bool
        ensures path { self.new.path ≡ self.old.path }
        ensures noted { self.new.may_ask ≡ self.old.may_ask }
        ensures others { self.new ≡ record self.old { all = self.new.all } }
        ensures told { TellsEachClips ⟦<UnixStream as Stream>⟧.contents may now.now panes.now.all.items result self.old.all.items
            self.new.all.items }
    {
        tell_each_clips(alloc, &mut self.all, now, may, panes)
    }

    /// Sends the subscribers that asked for questions the new ones.
    pub fn tell_queries(&mut self, alloc: Global, now: &QueryList, panes: &Panes)
        ensures path { self.new.path ≡ self.old.path }
        ensures noted { self.new.may_ask ≡ self.old.may_ask }
        ensures others { self.new ≡ record self.old { all = self.new.all } }
        ensures told { AllZip (λ old new. TellsQueries ⟦<UnixStream as Stream>⟧.contents now.now panes.now.all.items old new)
            self.old.all.items self.new.all.items }
    {
        tell_each_queries(alloc, &mut self.all, now, panes);
    }

    /// Returns true if a subscriber wants clips.
    pub fn want_clips(&self) -> bool
        ensures wants { result ≡ any_wants self.now.all.items }
    {
        any_wants(&self.all)
    }

    /// Returns true if a subscriber asked for metadata.
    pub fn is_metadata_asked(&self) -> bool
        ensures asked { result ≡ any_asked self.now.all.items }
    {
        any_asked(&self.all)
    }

    /// Removes the socket's file.
    pub fn remove(&self, files: &impl Files) {
        // A file that somebody removed before is no matter.
        let _ = remove_file(files, self.path.as_str());
    }
}
