//! `roam serve`: a server round its sockets.
ghost use Rattle.std.specs.Prelude.{◌≡◌, ◌⊎◌, ℕ, min, Some, Ok, IfOk, OnOk, IfErr, IsOkUnless};
ghost use Rattle.roam_session.specs.Generations.{generation_of};
ghost use Rattle.roam_session.specs.Places.{rect_at};
ghost use Rattle.roam_model.specs.Servers.{Server as ServerOf};
ghost use Rattle.roam_hub.specs.Servers.{ServerView, Stands};
ghost use Rattle.roam_serve.specs.Echoes.{AimsAt};
ghost use Rattle.roam_serve.specs.Listed.{ArePanesOf, pane_of};
ghost use Rattle.roam_pane_sockets.specs.Peers.{frames_until};
ghost use Rattle.roam_serve.specs.Mending.{AreMended};
ghost use Rattle.roam_serve.specs.Rests.{HasRested, HasToldAll};
ghost use Rattle.roam_serve.specs.Runs.{RunsTurns, ServesTurns};
ghost use Rattle.roam_pane_sockets.specs.Moments.{sooner};

use crate::server_ports::{OwnStart, ServerPorts};
use mio::net::UnixStream;
use roam_acts::limits::PANES_END;
use roam_cells::Fault;
use roam_faults::RunFault;
use roam_hub::Server;
use roam_pane_protocol::{ListedPane, PaneList};
use roam_sockets::{Moments, own_folder, random_id, write_alone};
use roam_stream_framing::Stream;
use roam_turns::{Ports, serve_turn};
use std::alloc::Global;
use std::fs::{Files, remove_file};
use std::net::Net;
use std::random::RandomSource;
use std::time::Clock;

/// So many turns end with the machine.
const FOR_GOOD: u64 = u64::MAX;

/// The arguments of `roam serve`.
#[derive(Clone, Copy, Debug, PartialEq, Eq)]
pub struct Serve<'a> {
    /// The folder of its sockets; one without a name is none.
    pub folder: &'a str,
    /// The UDP port on loopback, if one is wanted; 0 asks for any free one.
    pub port: Option<u16>,
    /// The session's id; `None` asks for a random one.
    pub session: Option<u64>,
    /// How many turns the run takes.
    pub turns: u64,
    /// True if the bytes of panes' programs are normalized on the way to their terminals (`roam_normalize`).
    pub normalize: bool,
}

// Returns a pane of a server; `None` if it isn't open.
fn pane_of(server: &Server, pane: u8) -> Option<ListedPane>
    ensures pane { (s : ServerOf) → Stands server.now s → result ≡ pane_of (generation_of s.size s.log pane) (rect_at s.size s.log pane) }
{
    match (server.generation(pane), server.rect(pane)) {
        (Some(generation), Some(rect)) => Some(ListedPane {
            generation,
            row: rect.row,
            col: rect.col,
            rows: rect.rows,
            cols: rect.cols,
        }),
        _ => None,
    }
}

// Returns a count as it is sent; it never grows too large to fit.
fn count(many: usize) -> u16
    ensures count { result ≡ min many 65535 }
{
    many.min(65_535) as u16
}

// The panes of a server, the one in focus, and how many client instances it knows.
fn panes_of(server: &Server) -> PaneList
    ensures panes { (s : ServerOf) → Stands server.now s → ArePanesOf s result }
{
    let mut panes = PaneList::unknown();
    for pane in 1..PANES_END {
        panes.set(pane, pane_of(server, pane));
    }
    panes.set_focus(server.focus());
    panes.set_clients(count(server.starts()));
    panes.set_watchers(count(server.watchers()));
    panes
}

// Does the work after a turn: subscribers get the news, and the moment may run ahead to the next number if a program has answered input. It
// waits if the turn had no input: until work is due if the turns go on for good, else a short while, so that they end.
fn tell_and_rest<C: Clock + Drop>(turns: u64, server: &Server, ports: &mut ServerPorts<C>)
    ensures told { HasToldAll ⟦<UnixStream as Stream>⟧.contents server.now ports.new.moment ports.new.panes.all.items ports.old.telling
        ports.new.telling ports.old.clipping ports.new.clipping ports.old.subscribers.all.items ports.new.subscribers.all.items }
    ensures rested { HasRested turns server.now ports.new.clock ports.new.clients ports.new.subscribers.may_ask ports.new.udp
        (sooner (sooner ports.new.telling.due ports.new.clipping.due) (frames_until ports.new.panes.all.items))
        ports.new.echoes.wish ports.new.waits.longest }
    ensures aims { AimsAt server.now ports.old.echoes.echoed ports.old.echoes.wish ports.new.echoes.wish }
{
    ports.tell_panes(&panes_of(server));
    ports.tell_metadata();
    ports.tell_clips();
    ports.tell_queries();
    ports.note_acts(server.acts_taken(), server.focus());
    ports.aim(server.number_due());
    ports.rest(if turns == FOR_GOOD {
        server.next_due()
    } else {
        Some(0)
    });
}

/// The calls of a run to a server's ports before and after each turn. The turn makes neither of them.
pub trait RunPorts: Ports {
    // The changes that `mend` may make.
    ghost mends: { Self → Self → Type 0 };

    // The work after a turn of a server, in a run of so many turns.
    ghost follows: { ℕ → ServerView → Self → Self → Type 0 };

    /// Binds sockets anew whose files are gone, in a folder that is still the session's.
    fn mend<N: Files + Net + AllocGlobal>(&mut self, rt: &N, folder: &str, session: u64)
        ensures mends { mends self.old self.new }
        ensures told { Self.told self.new ≡ Self.told self.old };

    /// Sends the news of a server to its subscribers, and waits if the turn had no input.
    fn follow(&mut self, turns: u64, server: &Server)
        ensures follows { follows turns server.now self.old self.new }
        ensures told { Self.told self.new ≡ Self.told self.old };
}

impl<C: Clock + Drop> RunPorts for ServerPorts<C> {
    ghost mends = { λ old new. AreMended old new };

    ghost follows = { λ turns server old new. HasToldAll ⟦<UnixStream as Stream>⟧.contents server new.moment new.panes.all.items
        old.telling new.telling old.clipping new.clipping old.subscribers.all.items new.subscribers.all.items
        × HasRested turns server new.clock new.clients new.subscribers.may_ask new.udp
        (sooner (sooner new.telling.due new.clipping.due) (frames_until new.panes.all.items)) new.echoes.wish new.waits.longest
        × AimsAt server old.echoes.echoed old.echoes.wish new.echoes.wish };

    fn mend<N: Files + Net + AllocGlobal>(&mut self, rt: &N, folder: &str, session: u64) {
        self.mend_sockets(rt, folder, session);
    }

    fn follow(&mut self, turns: u64, server: &Server) {
        tell_and_rest(turns, server, self);
    }
}

/// Takes the turns of a run. Before each it mends the ports; after each it sends the news and waits.
pub fn serve_turns<R: Files + Net + AllocGlobal, P: RunPorts>(
    rt: &R,
    serve: &Serve<'_>,
    session: u64,
    server: &mut Server,
    ports: &mut P,
)
    ensures turns { ServesTurns serve.now.turns server.old server.new }
    // The server and the ports are called for these turns, one after the other, and for nothing else.
    ensures runs { RunsTurns P.told P.mends P.follows serve.now.turns serve.now.turns ports.old ports.new server.old server.new }
{
    for _ in 0..serve.turns {
        ports.mend(rt, serve.folder, session);
        serve_turn(rt.alloc(), server, ports);
        ports.follow(serve.turns, server);
    }
}

// Prints the port to standard error if any free one was asked for.
fn tell_port(rt: &impl Eprint, asked: Option<u16>, port: Option<u16>) {
    if let (Some(0), Some(port)) = (asked, port) {
        // There is nowhere else to say it.
        let _ = eprintln!(rt; "roam: port {port}");
    }
}

// Writes the session's id to the file `session` of the folder, which only the user can read. `Bind` if it can't be written, `OutOfMemory`.
fn write_session<R: Files + AllocGlobal>(rt: &R, folder: &str, session: u64) -> Result<(), RunFault>
    ensures faults { IfErr result (λ fault. (fault ≡ RunFault.Bind) ⊎ (fault ≡ RunFault.Core Fault.OutOfMemory)) }
{
    let (Ok(metadata), Ok(path), Ok(text)) = (
        format!(in rt.alloc(); "{folder}/session.new"),
        format!(in rt.alloc(); "{folder}/session"),
        format!(in rt.alloc(); "{session:x}\n"),
    ) else {
        return Err(RunFault::Core(Fault::OutOfMemory));
    };
    match write_alone(rt, metadata.as_str(), path.as_str(), text.as_bytes()) {
        Ok(()) => Ok(()),
        Err(_) => Err(RunFault::Bind),
    }
}

// Removes that file.
fn remove_session<R: Files + AllocGlobal>(rt: &R, folder: &str) {
    if let Ok(path) = format!(in rt.alloc(); "{folder}/session") {
        // A file that somebody removed before is no matter.
        let _ = remove_file(rt, path.as_str());
    }
}

// The instance of a session by which its server closes panes.
fn own_start(chance: &impl RandomSource, session: u64) -> Result<OwnStart, RunFault>
    ensures session { IfOk result (λ own. own.session ≡ session) }
    ensures fault { IsOkUnless result RunFault.Read }
{
    Ok(OwnStart {
        session,
        id: random_id(chance)?,
    })
}

// Takes the turns of a session round ports that are bound, and removes the sockets' files.
fn serve_bound<R: Files + Net + Clock + RandomSource + Eprint + AllocGlobal>(
    rt: &R,
    serve: &Serve<'_>,
    session: u64,
    server: &mut Server,
) -> Result<(), RunFault>
    ensures turns { OnOk result (ServesTurns serve.now.turns server.old server.new) }
    ensures faults { IfErr result (λ fault. (fault ≡ RunFault.Bind) ⊎ (fault ≡ RunFault.Core Fault.OutOfMemory) ⊎ (fault ≡ RunFault.Read)) }
{
    let alloc = rt.alloc();
    let own = own_start(rt, session)?;
    let moments = Moments::real(rt);
    let mut ports = ServerPorts::bind(
        rt,
        alloc,
        serve.folder,
        serve.port,
        moments,
        own,
        serve.normalize,
    )?;
    let written = write_session(rt, serve.folder, session);
    if written.is_ok() {
        tell_port(rt, serve.port, ports.port());
        serve_turns(rt, serve, session, server, &mut ports);
        remove_session(rt, serve.folder);
    }
    ports.remove(rt);
    written
}

// The session's id.
fn session_for(chance: &impl RandomSource, serve: &Serve<'_>) -> Result<u64, RunFault>
    ensures given { (id : ℕ) → serve.now.session ≡ Some id → result ≡ Ok id }
    ensures fault { IsOkUnless result RunFault.Read }
{
    match serve.session {
        Some(session) => Ok(session),
        None => random_id(chance),
    }
}

/// Serves a session of 24 rows and 80 columns. It binds the sockets `p1` to `p9`, `panes` and `clients` of the folder, and a UDP port if
/// one is asked for. It writes the session's id to the file `session` there, which only the user can read. Then it takes the turns, waits
/// after one without input, and removes these files. It first removes socket files without a listener, and prints the port to standard
/// error if any free one was asked for. The folder has to be the user's own, and private if there is no port. `Bind` for another folder, or
/// a name that can't be bound; then no file stays. `Read` if the system has no randomness to give; `OutOfMemory`.
pub fn run_serve<R: Files + Net + Clock + RandomSource + Eprint + AllocGlobal>(
    rt: &R,
    serve: &Serve<'_>,
) -> Result<(), RunFault>
    ensures faults { IfErr result (λ fault. (fault ≡ RunFault.Bind) ⊎ (fault ≡ RunFault.Core Fault.OutOfMemory) ⊎ (fault ≡ RunFault.Read)) }
{
    if own_folder(rt, serve.folder, serve.port.is_none()).is_err() {
        return Err(RunFault::Bind);
    }
    let session = session_for(rt, serve)?;
    let mut server = Server::new(rt.alloc(), session, 24, 80)?;
    serve_bound(rt, serve, session, &mut server)?;
    Ok(())
}
