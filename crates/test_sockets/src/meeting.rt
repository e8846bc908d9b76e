//! Both programs in one process: a server with panes' programs at Unix sockets, and a client instance, over UDP on loopback or over a
//! stream.
//!
//! The events are text. `first` or `second` is a pane's program, with its action. `turns MOMENT` is one turn of each end. `types MOMENT
//! ACT, ACT`: both are typed, and the server takes them in one turn. `pane N` checks that it is open. `meets`: within a thousand turns the
//! instance shows the `a` of the first program, and that program reads a typed `b`. `closes`: forty times a second pane is split off, and
//! closed for the first program, a subscriber.
ghost use Rattle.std.specs.Prelude.{◌<◌, IfOk, IfSome};
ghost use Rattle.roam_acts.specs.Acts.{IsInRange};
ghost use Rattle.roam_turns.specs.Painting.{IsBehind};

use crate::programs::Programs;
use roam_acts::{Act, Key, read_act};
use roam_attach::{ClientPorts, Connection};
use roam_hub::{Addr, Client, Server};
use roam_pane_protocol::{ListedPane, PaneList};
use roam_screens::Seen;
use roam_serve::{OwnStart, ServerPorts};
use roam_sockets::{Moments, loopback};
use roam_turns::{Outer, attach_turn, serve_turn};
use std::alloc::Global;
use std::fs::create_dir;
use std::test::*;

/// A server with its ports.
#[derive(Drop)]
struct ServerEnd<'a> {
    server: Server,
    ports: ServerPorts<&'a HostRuntime>,
}

/// A client instance with its ports, its server's address, and the screen of its terminal.
#[derive(Drop)]
struct StartEnd<'a> {
    client: Client,
    ports: ClientPorts<&'a HostRuntime, Vec<u8>>,
    home: Addr,
    outer: Outer,
}

/// Both ends. Each is made by a function of its own, since one that owns a server pays for it at each of its ways out.
#[derive(Drop)]
struct Meeting<'a> {
    home: ServerEnd<'a>,
    start: StartEnd<'a>,
}

/// The first cell that an instance shows is this character.
fn shows(client: &Client, c: char) -> bool {
    match client.shown().1.at(1, 1) {
        Some(cell) => cell.chars().as_slice() == [c].as_slice(),
        None => false,
    }
}

/// The first program asks for pane 2 of a generation to be closed.
fn asks(alloc: Global, programs: &mut Programs, generation: u64) -> bool {
    match format!(in alloc; "close 2 {generation}\n") {
        Ok(line) => programs.first_writes(line.as_str()),
        Err(_) => false,
    }
}

impl<'a> ServerEnd<'a> {
    /// The port at which it is reached.
    fn port(&self) -> u16 {
        self.ports.port().unwrap_or(0)
    }

    /// One turn of the server at a moment.
    fn serves(&mut self, alloc: Global, moment: u64) {
        self.ports.set_moment(moment);
        serve_turn(alloc, &mut self.server, &mut self.ports);
        self.ports.rest(Some(0));
    }

    // A pane that is there.
    fn listed(&self, pane: u8) -> Option<ListedPane> {
        let rect = self.server.rect(pane)?;
        Some(ListedPane {
            generation: self.server.generation(pane)?,
            row: rect.row,
            col: rect.col,
            rows: rect.rows,
            cols: rect.cols,
        })
    }

    // Sends the subscribers the open panes, and does their requests.
    fn tells(&mut self) {
        let mut panes = PaneList::unknown();
        for pane in 1..10u8 {
            panes.set(pane, self.listed(pane));
        }
        panes.set_focus(self.server.focus());
        self.ports.tell_panes(&panes);
    }
}

impl<'a> StartEnd<'a> {
    // One turn of the client instance at a moment, and whether the act was taken.
    fn attaches(&mut self, alloc: Global, moment: u64, next: Option<&Act>) -> bool
        requires in_range { IfSome next (λ act. IsInRange act.now) }
        requires behind { IsBehind self.old.outer self.old.client.kept.receiver.newest.number self.old.client.kept.receiver.newest.state }
        ensures behind { IsBehind self.new.outer self.new.client.kept.receiver.newest.number self.new.client.kept.receiver.newest.state }
    {
        self.ports.set_moment(moment);
        let home = self.home;
        let taken = attach_turn(
            alloc,
            &mut self.client,
            &mut self.outer,
            &mut self.ports,
            home,
            next,
        );
        self.ports.flush();
        taken
    }
}

impl<'a> Meeting<'a> {
    // One turn of each end.
    fn turns(&mut self, alloc: Global, moment: u64, next: Option<&Act>) -> bool
        requires in_range { IfSome next (λ act. IsInRange act.now) }
        requires behind { IsBehind self.old.start.outer self.old.start.client.kept.receiver.newest.number
            self.old.start.client.kept.receiver.newest.state }
        ensures behind { IsBehind self.new.start.outer self.new.start.client.kept.receiver.newest.number
            self.new.start.client.kept.receiver.newest.state }
    {
        let is_taken = self.start.attaches(alloc, moment, next);
        self.home.serves(alloc, moment);
        is_taken
    }

    // Two acts are typed at a moment, and the server takes both in one turn.
    fn types(&mut self, alloc: Global, moment: u64, first: &Act, second: &Act) -> bool
        requires first { IsInRange first.now }
        requires second { IsInRange second.now }
        requires behind { IsBehind self.old.start.outer self.old.start.client.kept.receiver.newest.number
            self.old.start.client.kept.receiver.newest.state }
        ensures behind { IsBehind self.new.start.outer self.new.start.client.kept.receiver.newest.number
            self.new.start.client.kept.receiver.newest.state }
    {
        let is_taken = self.start.attaches(alloc, moment, Some(first));
        self.turns(alloc, moment, Some(second)) && is_taken
    }

    // Returns true if, within a thousand turns of 10 ms, the instance shows the first program's output, and that program reads the typed
    // input.
    fn meets(&mut self, alloc: Global, programs: &mut Programs) -> bool
        requires behind { IsBehind self.old.start.outer self.old.start.client.kept.receiver.newest.number
            self.old.start.client.kept.receiver.newest.state }
        ensures behind { IsBehind self.new.start.outer self.new.start.client.kept.receiver.newest.number
            self.new.start.client.kept.receiver.newest.state }
    {
        let key = Act::Key(Key::Char('b'));
        let mut is_read = false;
        if !self.turns(alloc, 0, Some(&key)) {
            return false;
        }
        for turn in 1..1000u64 {
            self.turns(alloc, turn * 10, None);
            is_read = programs.first_reads(b'b') || is_read;
            if is_read && shows(&self.start.client, 'a') {
                return !self.start.ports.has_failed();
            }
        }
        false
    }

    // Pane 2 is split off, and closed for the first program, which follows the panes.
    fn closes_one(&mut self, alloc: Global, programs: &mut Programs, moment: u64) -> bool
        requires early { moment < 10000 }
        requires behind { IsBehind self.old.start.outer self.old.start.client.kept.receiver.newest.number
            self.old.start.client.kept.receiver.newest.state }
        ensures behind { IsBehind self.new.start.outer self.new.start.client.kept.receiver.newest.number
            self.new.start.client.kept.receiver.newest.state }
    {
        let (Ok(next), Ok(split)) = (read_act(b"next"), read_act(b"split right")) else {
            return false;
        };
        let is_typed = self.types(alloc, moment, &next, &split);
        self.turns(alloc, moment + 10, None);
        let Some(generation) = self.home.server.generation(2) else {
            return false;
        };
        self.home.tells();
        let is_asked = asks(alloc, programs, generation);
        self.home.tells();
        self.turns(alloc, moment + 20, None);
        is_typed && is_asked && self.home.server.generation(2).is_none()
    }

    fn closes(&mut self, alloc: Global, programs: &mut Programs) -> bool
        requires behind { IsBehind self.old.start.outer self.old.start.client.kept.receiver.newest.number
            self.old.start.client.kept.receiver.newest.state }
        ensures behind { IsBehind self.new.start.outer self.new.start.client.kept.receiver.newest.number
            self.new.start.client.kept.receiver.newest.state }
    {
        // Two acts each, more than the 64 that may be unacknowledged.
        for turn in 0..40u64 {
            if !self.closes_one(alloc, programs, turn * 40) {
                return false;
            }
        }
        true
    }

    fn types_both(&mut self, alloc: Global, words: &str) -> bool
        requires behind { IsBehind self.old.start.outer self.old.start.client.kept.receiver.newest.number
            self.old.start.client.kept.receiver.newest.state }
        ensures behind { IsBehind self.new.start.outer self.new.start.client.kept.receiver.newest.number
            self.new.start.client.kept.receiver.newest.state }
    {
        if let Some((moment, acts)) = words.split_once(' ')
            && let Some((first, second)) = acts.split_once(", ")
            && let Ok(moment) = moment.parse::<u64>()
            && let Ok(first) = read_act(first.as_bytes())
            && let Ok(second) = read_act(second.as_bytes())
        {
            return self.types(alloc, moment, &first, &second);
        }
        false
    }

    fn turns_at(&mut self, alloc: Global, moment: &str) -> bool
        requires behind { IsBehind self.old.start.outer self.old.start.client.kept.receiver.newest.number
            self.old.start.client.kept.receiver.newest.state }
        ensures behind { IsBehind self.new.start.outer self.new.start.client.kept.receiver.newest.number
            self.new.start.client.kept.receiver.newest.state }
    {
        match moment.parse::<u64>() {
            Ok(moment) => {
                self.turns(alloc, moment, None);
                true
            }
            Err(_) => false,
        }
    }

    fn has_pane(&self, pane: &str) -> bool {
        match pane.parse::<u8>() {
            Ok(pane) => self.home.server.room(pane).is_some(),
            Err(_) => false,
        }
    }

    fn does(&mut self, rt: &HostRuntime, programs: &mut Programs, line: &str) -> Result<bool, Fail>
        requires behind { IsBehind self.old.start.outer self.old.start.client.kept.receiver.newest.number
            self.old.start.client.kept.receiver.newest.state }
        ensures behind { IsBehind self.new.start.outer self.new.start.client.kept.receiver.newest.number
            self.new.start.client.kept.receiver.newest.state }
    {
        let (verb, rest) = line.split_once(' ').unwrap_or((line, ""));
        match verb {
            "turns" => Ok(self.turns_at(rt.alloc(), rest)),
            "types" => Ok(self.types_both(rt.alloc(), rest)),
            "pane" => Ok(self.has_pane(rest)),
            "meets" => Ok(self.meets(rt.alloc(), programs)),
            "closes" => Ok(self.closes(rt.alloc(), programs)),
            _ => Ok(programs.does(rt, verb, rest)),
        }
    }

    // The first line that isn't so.
    fn first_undone<'t>(
        &mut self,
        rt: &HostRuntime,
        programs: &mut Programs,
        lines: &'t str,
    ) -> Result<Option<&'t str>, Fail>
        requires behind { IsBehind self.old.start.outer self.old.start.client.kept.receiver.newest.number
            self.old.start.client.kept.receiver.newest.state }
        ensures behind { IsBehind self.new.start.outer self.new.start.client.kept.receiver.newest.number
            self.new.start.client.kept.receiver.newest.state }
    {
        for line in lines.lines() {
            if !self.does(rt, programs, line)? {
                return Ok(Some(line));
            }
        }
        Ok(None)
    }
}

// The ports of a client instance that reaches a server at its UDP port, or at its socket in a folder.
fn client_ports<'a>(
    rt: &'a HostRuntime,
    folder: &str,
    is_stream: bool,
) -> Result<ClientPorts<&'a HostRuntime, Vec<u8>>, Fail> {
    let painted = Vec::new(rt.alloc());
    if is_stream {
        let connection = Connection::connect(rt, rt.alloc(), folder, Moments::Set(0))?;
        return Ok(ClientPorts::new(connection, painted));
    }
    let connection = Connection::bind(rt, rt.alloc(), Moments::Set(0))?;
    Ok(ClientPorts::new(connection, painted))
}

/// A server whose panes are in a folder.
fn server_end<'a>(rt: &'a HostRuntime, folder: &str) -> Result<ServerEnd<'a>, Fail> {
    let own = OwnStart {
        session: 0x5E55,
        id: 0xFF,
    };
    let ports = ServerPorts::bind(rt, rt.alloc(), folder, Some(0), Moments::Set(0), own, false)?;
    Ok(ServerEnd {
        server: Server::new(rt.alloc(), 0x5E55, 24, 80)?,
        ports,
    })
}

/// A client instance that reaches a server at its UDP port, or at its socket in a folder.
fn start_end<'a>(
    rt: &'a HostRuntime,
    folder: &str,
    is_stream: bool,
    port: u16,
) -> Result<StartEnd<'a>, Fail>
    ensures behind { IfOk result (λ s. IsBehind s.outer s.client.kept.receiver.newest.number s.client.kept.receiver.newest.state) }
{
    let ports = client_ports(rt, folder, is_stream)?;
    Ok(StartEnd {
        client: Client::new(rt.alloc(), 0x5E55, 0xC1)?,
        ports,
        home: loopback(port),
        outer: Outer::new(),
    })
}

/// A server whose panes are in a folder, and a client instance, which reaches it by UDP or over a stream.
fn meeting_of<'a>(rt: &'a HostRuntime, folder: &str, is_stream: bool) -> Result<Meeting<'a>, Fail>
    ensures behind { IfOk result (λ m. IsBehind m.start.outer m.start.client.kept.receiver.newest.number
        m.start.client.kept.receiver.newest.state) }
{
    let home = server_end(rt, folder)?;
    let port = home.port();
    Ok(Meeting {
        home,
        start: start_end(rt, folder, is_stream, port)?,
    })
}

// Returns the first failing line of both ends in a new folder, over UDP or over a stream.
fn first_wrong<'t>(
    rt: &HostRuntime,
    folder: &str,
    is_stream: bool,
    lines: &'t str,
) -> Result<Option<&'t str>, Fail> {
    create_dir(rt, folder)?;
    let mut meeting = meeting_of(rt, folder, is_stream)?;
    let mut programs = Programs::new(rt.alloc());
    let undone = meeting.first_undone(rt, &mut programs, lines);
    drop(meeting);
    undone
}

/// Over UDP, or over a stream, the first program fills a screen of 97 fragments by DECALN. That is more than go over UDP at one moment, or
/// than fit into a loopback socket.
const BY_UDP: &str = "\
types 0 size 60 240, next
first connects udp/p1
first writes \x1b#8a
meets";

const OVER_A_STREAM: &str = "\
types 0 size 60 240, next
first connects stream/p1
first writes \x1b#8a
meets";

/// The first program writes on, and in one turn its pane closes and another of its number is there: nothing of that is read.
const ANEW: &str = "\
types 0 next, split right
turns 10
first connects anew/p2
first writes a
turns 20
first waits
first writes b
types 30 close, split right
pane 2
first is let go unread
second connects anew/p2
second writes c
turns 40
second waits";

/// The most closes that a program asks for, one after another: each answer is heard, so no close waits for the one before.
const CLOSES: &str = "\
first connects closes/panes
closes";

#[test]
fn two_ends_meet(rt: HostRuntime) -> Result<(), Fail> {
    assert_eq!(rt; first_wrong(&rt, "udp", false, BY_UDP)?, None);
    assert_eq!(rt; first_wrong(&rt, "stream", true, OVER_A_STREAM)?, None);
    assert_eq!(rt; first_wrong(&rt, "anew", false, ANEW)?, None);
    assert_eq!(rt; first_wrong(&rt, "closes", true, CLOSES)?, None);
    Ok(())
}
