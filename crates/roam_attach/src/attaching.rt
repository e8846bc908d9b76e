//! `roam attach`: a client instance round its socket and the outer terminal.
ghost use Rattle.std.specs.Prelude.{◌≡◌, ◌⊎◌, ◌+◌, ◌-◌, ◌<◌, [], ◌&&◌, ℕ, true, false, Option, None, Some, Ok, Err, All, is_some, IfErr, IfOk, OnOk, IsOkUnless};
ghost use Rattle.roam_acts.specs.Acts.{IsInRange};
ghost use Rattle.roam_turns.specs.Painting.{IsBehind};
ghost use Rattle.roam_attach.specs.Notices.{end_by};
ghost use Rattle.roam_attach.specs.Runs.{IsHanded, IsOver, IsPending, IsSettled, Painted, RunsOn, TakesTurn, Tells, Turn, home_of, is_two, longest_end, painted_by, seen_at};
ghost use Rattle.roam_turns.specs.declared.outer.Noted.{Noted};
ghost use Rattle.roam_attach.specs.Ways.{IsWayTo, has_ended};
ghost use Rattle.roam_terminal_input.specs.Typing.{refused_at};
ghost use Rattle.roam_terminal_input.specs.declared.typing.Stream.TheVariants.{Ended};

use crate::client_ports::ClientPorts;
use crate::connecting::{Connection, OTHER_END};
use crate::hosting::host;
use mio::net::UnixStream;
use roam_acts::Act;
use roam_cells::Fault;
use roam_faults::RunFault;
use roam_hub::{Addr, Client};
use roam_outer_terminal::End;
use roam_sockets::{Moments, loopback, random_id};
use roam_terminal_input::{Typist, acts_of};
use roam_tokens::id;
use roam_turns::{Outer, attach_turn};
use roam_wire::Version;
use std::alloc::Global;
use std::fs;
use std::fs::Files;
use std::io::{ErrorKind, Read, Write};
use std::net::Net;
use std::os::fd::RawFd;
use std::random::RandomSource;
use std::time::Clock;

/// How many milliseconds a run goes on at most after the end of the stream of its acts was seen.
const SECOND: u64 = 1000;

/// Where the acts to type come from.
#[derive(Clone, Copy, Debug, PartialEq, Eq)]
pub enum Typed<'a> {
    /// From nowhere: nobody types.
    Nothing,

    /// From a file, one a line.
    File(&'a str),

    /// From the Unix socket at this path, to which the instance connects at its beginning: one a line, as they come.
    Socket(&'a str),

    /// From the outer terminals that connect to the Unix socket at this path, which the instance binds. Each is painted with the instance's
    /// screen.
    Terminals(&'a str),
}

/// Where a server is reached.
#[derive(Clone, Copy, Debug, PartialEq, Eq)]
pub enum Home<'a> {
    /// At a port on loopback.
    Port(u16),

    /// At the socket for client instances in its folder.
    Folder(&'a str),
}

/// The arguments of `roam attach`.
#[derive(Clone, Copy, Debug, PartialEq, Eq)]
pub struct Attach<'a> {
    /// Where the server is reached.
    pub home: Home<'a>,
    /// The session's id; `None` asks for the id in the file `session` of the server's folder.
    pub session: Option<u64>,
    /// The id of this client instance; `None` asks for a random one.
    pub client: Option<u64>,
    /// Where the acts to type come from.
    pub typed: Typed<'a>,
    /// The version that this client instance speaks.
    pub version: Version,
    /// True if the instance is read-only, in version 2. It then types no act, whatever `typed` says.
    pub watches: bool,
    /// How many turns the run takes.
    pub turns: u64,
    /// The descriptor for the painted bytes, if there is one. The run ends if nobody reads there any more.
    pub painted_to: Option<RawFd>,
}

// The acts of a file, one a line.
fn acts_in<R: Files + AllocGlobal>(rt: &R, path: &str) -> Result<Vec<Act>, RunFault>
    ensures faults { IfErr result (λ fault. (fault ≡ RunFault.Core Fault.OutOfMemory) ⊎ (fault ≡ RunFault.Read)
        ⊎ ((k : ℕ) × (fault ≡ RunFault.Act (k + 1)))) }
    ensures in_range { IfOk result (λ acts. All IsInRange acts.items) }
{
    match fs::read(rt, path) {
        Ok(text) => acts_of(rt.alloc(), &text),
        Err(error) if error.kind() == ErrorKind::OutOfMemory => {
            Err(RunFault::Core(Fault::OutOfMemory))
        }
        Err(_) => Err(RunFault::Read),
    }
}

// Returns the acts that are there from the beginning: none if the instance is read-only, or there is no file.
fn acts_for<R: Files + AllocGlobal>(rt: &R, attach: &Attach<'_>) -> Result<Vec<Act>, RunFault>
    ensures faults { IfErr result (λ fault. (fault ≡ RunFault.Core Fault.OutOfMemory) ⊎ (fault ≡ RunFault.Read)
        ⊎ ((k : ℕ) × (fault ≡ RunFault.Act (k + 1)))) }
    ensures in_range { IfOk result (λ acts. All IsInRange acts.items) }
    ensures watches { attach.now.watches ≡ true → IfOk result (λ acts. acts.items ≡ []) }
{
    match attach.typed {
        Typed::File(path) if !attach.watches => acts_in(rt, path),
        _ => Ok(Vec::new(rt.alloc())),
    }
}

// The address of the server that is asked for.
fn home_of(home: Home<'_>) -> Addr
    ensures home { result ≡ home_of home.entry }
{
    match home {
        Home::Port(port) => loopback(port),
        Home::Folder(_) => OTHER_END,
    }
}

// The id that the file `session` in a server's folder has.
fn session_in<R: Files + AllocGlobal>(rt: &R, folder: &str) -> Result<u64, RunFault>
    ensures faults { IfErr result (λ fault. (fault ≡ RunFault.Core Fault.OutOfMemory) ⊎ (fault ≡ RunFault.Read)) }
{
    let Ok(path) = format!(in rt.alloc(); "{folder}/session") else {
        return Err(RunFault::Core(Fault::OutOfMemory));
    };
    let Ok(text) = fs::read(rt, path.as_str()) else {
        return Err(RunFault::Read);
    };
    id(text.trim_ascii_end()).ok_or(RunFault::Read)
}

// The session that is asked for.
fn session_for<R: Files + AllocGlobal>(rt: &R, attach: &Attach<'_>) -> Result<u64, RunFault>
    ensures given { (id : ℕ) → attach.now.session ≡ Some id → result ≡ Ok id }
    ensures faults { IfErr result (λ fault. (fault ≡ RunFault.Core Fault.OutOfMemory) ⊎ (fault ≡ RunFault.Read)) }
{
    match (attach.session, attach.home) {
        (Some(session), _) => Ok(session),
        (None, Home::Folder(folder)) => session_in(rt, folder),
        (None, Home::Port(_)) => Err(RunFault::Read),
    }
}

// The id of the client instance that is asked for.
fn id_for(chance: &impl RandomSource, attach: &Attach<'_>) -> Result<u64, RunFault>
    ensures given { (id : ℕ) → attach.now.client ≡ Some id → result ≡ Ok id }
    ensures fault { IsOkUnless result RunFault.Read }
{
    match attach.client {
        Some(id) => Ok(id),
        None => random_id(chance),
    }
}

/// Returns a client instance with its session and id as given, else with the folder's session and a random id. It has the version asked
/// for, and is read-only if that is asked for in version 2. `Read` if the session's file has no id, `OutOfMemory`.
pub fn client_for<R: Files + RandomSource + AllocGlobal>(
    rt: &R,
    attach: &Attach<'_>,
) -> Result<Client, RunFault>
    ensures session { IfOk result (λ client. (id : ℕ) → attach.now.session ≡ Some id → client.session ≡ id) }
    ensures id { IfOk result (λ client. (id : ℕ) → attach.now.client ≡ Some id → client.id ≡ id) }
    ensures version { IfOk result (λ client. client.kept.version ≡ attach.now.version) }
    ensures watches { IfOk result (λ client. client.kept.watches ≡ (attach.now.watches && is_two attach.now.version)) }
    ensures read { result ≡ Err RunFault.Read → (attach.now.session ≡ None) ⊎ (attach.now.client ≡ None) }
    ensures faults { IfErr result (λ fault. (fault ≡ RunFault.Core Fault.OutOfMemory) ⊎ (fault ≡ RunFault.Read)) }
{
    let session = session_for(rt, attach)?;
    let id = id_for(rt, attach)?;
    let client = match attach.version {
        Version::One => Client::old(rt.alloc(), session, id)?,
        Version::Two if attach.watches => Client::watching(rt.alloc(), session, id)?,
        Version::Two => Client::new(rt.alloc(), session, id)?,
    };
    Ok(client)
}

// Shows a silence if that is due. If the outer terminal's screen is unknown then, none is noted any more.
fn tell<C: Clock + Drop, W: Write + Drop>(
    alloc: Global,
    shown: &mut Outer,
    ports: &mut ClientPorts<C, W>,
)
    ensures tells { Tells (painted_by W.contents shown.old ports.old) (painted_by W.contents shown.new ports.new) }
    ensures shown { (shown.new ≡ shown.old) ⊎ (shown.new ≡ None) }
{
    if ports.tell_silence(alloc) {
        *shown = Outer::new();
    }
}

// Offers the next act to a turn of an instance, if one waits; rests if none is taken; and shows a silence. `Act` if no act waits and the
// next line is no act, `OutOfMemory`.
fn type_turn<C: Clock + Drop, W: Write + Drop, T: Read>(
    alloc: Global,
    typist: &mut Typist<T>,
    client: &mut Client,
    shown: &mut Outer,
    ports: &mut ClientPorts<C, W>,
    to: Addr,
) -> Result<(), RunFault>
    requires in_range { All IsInRange typist.old.lines.waiting.items }
    requires behind { IsBehind shown.old client.old.kept.receiver.newest.number client.old.kept.receiver.newest.state }
    ensures in_range { OnOk result (All IsInRange typist.new.lines.waiting.items) }
    ensures behind { OnOk result (IsBehind shown.new client.new.kept.receiver.newest.number client.new.kept.receiver.newest.state) }
    ensures typed { OnOk result (RunsOn to (T.remaining typist.old.reader) (T.remaining typist.new.reader)
        typist.old.lines typist.new.lines (painted_by W.contents shown.old ports.old) (painted_by W.contents shown.new ports.new)
        client.old client.new 1) }
    ensures handed { OnOk result ((turn : Turn) × (painted : Painted)
        × TakesTurn to turn (painted_by W.contents shown.old ports.old) painted client.old client.new
        × IsHanded turn.next turn.took typist.new.lines.waiting.items) }
    ensures refused { IfErr result (λ fault. (fault ≡ RunFault.Core Fault.OutOfMemory) ⊎ ((k : ℕ) × (fault ≡ RunFault.Act k)
        × (refused_at typist.new.lines.stream typist.new.lines.waiting.items ≡ Some k)
        × RunsOn to (T.remaining typist.old.reader) (T.remaining typist.new.reader) typist.old.lines typist.new.lines
        (painted_by W.contents shown.old ports.old) (painted_by W.contents shown.new ports.new) client.old client.new 0)) }
{
    typist.read_more()?;
    if let Some(number) = typist.refused() {
        return Err(RunFault::Act(number));
    }
    if attach_turn(alloc, client, shown, ports, to, typist.next()) {
        typist.took();
        ports.flush();
        tell(alloc, shown, ports);
        return Ok(());
    }
    ports.rest();
    tell(alloc, shown, ports);
    Ok(())
}

// Returns true if no act waits and each act that was taken is acknowledged.
fn is_done<T: Read>(typist: &Typist<T>, client: &Client) -> bool
    ensures done { result ≡ true → (typist.now.lines.waiting.items ≡ []) × IsSettled client.now }
    ensures pending { result ≡ false → IsPending typist.now.lines client.now }
{
    match typist.next() {
        Some(_) => false,
        None => client.is_settled(),
    }
}

// Returns true if a run whose stream has ended is over; `since` notes the time at which the end was seen.
fn is_over<C: Clock + Drop, W: Write + Drop, T: Read>(
    typist: &Typist<T>,
    client: &Client,
    ports: &ClientPorts<C, W>,
    since: &mut Option<u64>,
) -> bool
    ensures since { since.new ≡ seen_at typist.now.lines.stream since.old ports.now.silence.moment }
    ensures over { result ≡ true → (moment : ℕ) × (since.new ≡ Some moment)
        × IsOver typist.now.lines client.now moment ports.now.silence.moment }
    ensures goes { result ≡ false → typist.now.lines.stream ≡ Ended → (moment : ℕ) × (since.new ≡ Some moment)
        × (ports.now.silence.moment - moment < longest_end) × IsPending typist.now.lines client.now }
{
    if !typist.has_ended() {
        return false;
    }
    let seen = since.unwrap_or(ports.moment());
    *since = Some(seen);
    is_done(typist, client) || ports.has_passed(seen, SECOND)
}

// How a run ends that was not broken off.
fn ended<C: Clock + Drop, W: Write + Drop>(ports: &ClientPorts<C, W>) -> Result<End, RunFault>
    ensures fault { IsOkUnless result RunFault.Write }
    ensures failed { IfErr result (λ _. (is_some ports.now.failing ≡ true) ⊎ (ports.now.connection.waits.unread ≡ true)) }
    ensures well { IfOk result (λ _. (ports.now.failing ≡ None) × (ports.now.connection.waits.unread ≡ false)) }
    ensures heard { IfOk result (λ end. end ≡ end_by (has_ended ports.now.connection.way) ports.now.silence) }
{
    if ports.is_unread() || ports.has_failed() {
        return Err(RunFault::Write);
    }
    if ports.has_ended() {
        return Ok(End::Gone);
    }
    Ok(ports.end())
}

/// Takes the turns of an instance that types the acts of a stream, and waits after a turn without input. Returns what was heard of the
/// server at the end. `Write` if nobody reads the painted bytes any more, if showing them has failed for half a second, or if the outer
/// terminal didn't take the last screen. `Act` at a line of the stream that is no act, once all acts before it were taken; `OutOfMemory`.
pub fn follow<C: Clock + Drop, W: Write + Drop, T: Read>(
    alloc: Global,
    attach: &Attach<'_>,
    typist: &mut Typist<T>,
    client: &mut Client,
    ports: &mut ClientPorts<C, W>,
) -> Result<End, RunFault>
    requires in_range { All IsInRange typist.old.lines.waiting.items }
    ensures well { IfOk result (λ _. (ports.new.failing ≡ None) × (ports.new.connection.waits.unread ≡ false)) }
    ensures heard { IfOk result (λ end. end ≡ end_by (has_ended ports.new.connection.way) ports.new.silence) }
    // All turns were taken, or the stream's acts are over, or the server has ended.
    ensures typed { IfOk result (λ _. (turns : ℕ) × (noted : Option Noted) × RunsOn (home_of attach.now.home)
        (T.remaining typist.old.reader) (T.remaining typist.new.reader) typist.old.lines typist.new.lines
        (painted_by W.contents None ports.old) (painted_by W.contents noted ports.new) client.old client.new turns
        × ((turns ≡ attach.now.turns) ⊎ ((since : ℕ) × IsOver typist.new.lines client.new since ports.new.silence.moment)
        ⊎ (has_ended ports.new.connection.way ≡ true))) }
    ensures faults { IfErr result (λ fault. (fault ≡ RunFault.Core Fault.OutOfMemory) ⊎ (fault ≡ RunFault.Write)
        ⊎ ((k : ℕ) × (fault ≡ RunFault.Act k)
        × (refused_at typist.new.lines.stream typist.new.lines.waiting.items ≡ Some k))) }
    // Failed painting ends the run only if the last one failed, or nobody reads it any more.
    ensures written { result ≡ Err RunFault.Write
        → (is_some ports.new.failing ≡ true) ⊎ (ports.new.connection.waits.unread ≡ true) }
    ensures broken_off { IfErr result (λ fault. (fault ≡ RunFault.Core Fault.OutOfMemory) ⊎ ((turns : ℕ) × (noted : Option Noted)
        × RunsOn (home_of attach.now.home) (T.remaining typist.old.reader) (T.remaining typist.new.reader)
        typist.old.lines typist.new.lines (painted_by W.contents None ports.old) (painted_by W.contents noted ports.new)
        client.old client.new turns)) }
{
    let mut shown = Outer::new();
    let mut since = None;
    let to = home_of(attach.home);
    for _ in 0..attach.turns {
        type_turn(alloc, typist, client, &mut shown, ports, to)?;
        if ports.is_unread() || ports.has_given_up() {
            return Err(RunFault::Write);
        }
        if ports.has_ended() {
            return ended(ports);
        }
        if is_over(typist, client, ports, &mut since) {
            return ended(ports);
        }
    }
    ended(ports)
}

// The connection of an instance to its server.
fn connection_for<'r, R: Net + Clock + AllocGlobal>(
    rt: &'r R,
    attach: &Attach<'_>,
) -> Result<Connection<&'r R>, RunFault>
    ensures way { IfOk result (λ connection. IsWayTo attach.now.home connection.way) }
    ensures faults { IfErr result (λ fault. (fault ≡ RunFault.Core Fault.OutOfMemory) ⊎ (fault ≡ RunFault.Bind)
        ⊎ (fault ≡ RunFault.Connect)) }
{
    let moments = Moments::real(rt);
    match attach.home {
        Home::Port(_) => Connection::bind(rt, rt.alloc(), moments),
        Home::Folder(folder) => Connection::connect(rt, rt.alloc(), folder, moments),
    }
}

// The ports of an instance that paints to a writer.
fn ports_for<'r, R: Net + Clock + AllocGlobal, W: Write + Drop>(
    rt: &'r R,
    attach: &Attach<'_>,
    outer: W,
) -> Result<ClientPorts<&'r R, W>, RunFault>
    ensures way { IfOk result (λ ports. IsWayTo attach.now.home ports.connection.way) }
    ensures faults { IfErr result (λ fault. (fault ≡ RunFault.Core Fault.OutOfMemory) ⊎ (fault ≡ RunFault.Bind)
        ⊎ (fault ≡ RunFault.Connect)) }
{
    let mut connection = connection_for(rt, attach)?;
    if let Some(descriptor) = attach.painted_to {
        connection.watch(descriptor);
    }
    Ok(ClientPorts::new(connection, outer))
}

// Types the acts of a file, or none.
fn follow_file<R: Files + Net + Clock + RandomSource + AllocGlobal, W: Write + Drop>(
    rt: &R,
    attach: &Attach<'_>,
    outer: W,
) -> Result<End, RunFault>
    ensures faults { IfErr result (λ fault. (fault ≡ RunFault.Core Fault.OutOfMemory) ⊎ (fault ≡ RunFault.Read)
        ⊎ ((k : ℕ) × (fault ≡ RunFault.Act (k + 1))) ⊎ (fault ≡ RunFault.Bind) ⊎ (fault ≡ RunFault.Write)
        ⊎ (fault ≡ RunFault.Connect)) }
{
    let acts = acts_for(rt, attach)?;
    let mut client = client_for(rt, attach)?;
    let mut ports = ports_for(rt, attach, outer)?;
    let mut typist = Typist::holding(rt.alloc(), acts);
    follow(rt.alloc(), attach, &mut typist, &mut client, &mut ports)
}

// Types the acts that come over a Unix socket.
fn follow_socket<R: Files + Net + Clock + RandomSource + AllocGlobal, W: Write + Drop>(
    rt: &R,
    attach: &Attach<'_>,
    path: &str,
    outer: W,
) -> Result<End, RunFault>
    ensures faults { IfErr result (λ fault. (fault ≡ RunFault.Core Fault.OutOfMemory) ⊎ (fault ≡ RunFault.Read)
        ⊎ ((k : ℕ) × (fault ≡ RunFault.Act (k + 1))) ⊎ (fault ≡ RunFault.Bind) ⊎ (fault ≡ RunFault.Write)
        ⊎ (fault ≡ RunFault.Connect)) }
{
    let Ok(mut stream) = UnixStream::connect(rt, path) else {
        return Err(RunFault::Read);
    };
    let mut client = client_for(rt, attach)?;
    let mut ports = ports_for(rt, attach, outer)?;
    ports.watch_stream(&mut stream);
    let mut typist = Typist::of(rt.alloc(), stream);
    follow(rt.alloc(), attach, &mut typist, &mut client, &mut ports)
}

// Is the instance of all outer terminals that connect to a socket.
fn follow_terminals<R: Files + Net + Clock + RandomSource + AllocGlobal>(
    rt: &R,
    attach: &Attach<'_>,
    path: &str,
) -> Result<End, RunFault>
    ensures faults { IfErr result (λ fault. (fault ≡ RunFault.Core Fault.OutOfMemory) ⊎ (fault ≡ RunFault.Read)
        ⊎ ((k : ℕ) × (fault ≡ RunFault.Act (k + 1))) ⊎ (fault ≡ RunFault.Bind) ⊎ (fault ≡ RunFault.Write)
        ⊎ (fault ≡ RunFault.Connect)) }
{
    let client = client_for(rt, attach)?;
    let connection = connection_for(rt, attach)?;
    host(
        rt,
        rt.alloc(),
        path,
        attach.turns,
        client,
        connection,
        rt,
        home_of(attach.home),
    )
}

/// Follows a session and types acts, at most one a turn. It takes the turns, waits after one without input, and paints the instance's
/// screen. It shows a silence of ten seconds or more over the last row of the outer terminal. Returns what was heard of the server at the
/// end.
///
/// It reads the acts of a file first: `Read` if it can't, `Act` if a line of it is no act. It connects to a socket first: `Read` if it
/// can't. It then reads lines as they arrive, cut in any way, and stops reading while an act waits. LF ends each line but perhaps the last.
/// A line that is no act, or has more than 64 bytes, is `Act` once all acts before it were taken. After the stream ends or fails, the run
/// ends once all acts were taken and acknowledged, or after a second.
///
/// For outer terminals it binds the socket, and removes its file at the end. The run goes on until the server has ended, a terminal asks
/// for the end, or all turns are taken. `roam_shared_client` has the lines of a terminal and the bytes that it gets.
///
/// `Bind` if no port or socket can be bound, `Connect` if nobody listens in the server's folder. `Read` if its file `session` has no id and
/// none was given. `Write` if nobody reads the painted bytes any more, if showing them has failed for half a second, or if the outer
/// terminal didn't take the last screen. `OutOfMemory`.
pub fn run_attach<R: Files + Net + Clock + RandomSource + AllocGlobal, W: Write + Drop>(
    rt: &R,
    attach: &Attach<'_>,
    outer: W,
) -> Result<End, RunFault>
    ensures faults { IfErr result (λ fault. (fault ≡ RunFault.Core Fault.OutOfMemory) ⊎ (fault ≡ RunFault.Read)
        ⊎ ((k : ℕ) × (fault ≡ RunFault.Act (k + 1))) ⊎ (fault ≡ RunFault.Bind) ⊎ (fault ≡ RunFault.Write)
        ⊎ (fault ≡ RunFault.Connect)) }
{
    match attach.typed {
        Typed::Socket(path) if !attach.watches => follow_socket(rt, attach, path, outer),
        Typed::Terminals(path) if !attach.watches => follow_terminals(rt, attach, path),
        _ => follow_file(rt, attach, outer),
    }
}
