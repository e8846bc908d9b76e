//! The calls of a turn, in order, and the shown and sent bytes.
ghost use Rattle.std.specs.Prelude.{◌≡◌};
ghost use Rattle.roam_turns.specs.Painting.{IsBehind};

use crate::texts::reads_numbers;
use crate::turns_plays::{Play, is_played};
use crate::turns_stage::{End, SERVER, Stage, carry_down, carry_up, serve_at};
use roam_cells::Fault;
use roam_hub::Server;
use roam_turns::memory::RecordedCall;
use roam_turns::{MemoryPorts, serve_turn};
use std::alloc::Global;
use std::test::*;

// A call as a letter; a capital brought or took something.
fn letter(call: &RecordedCall) -> char {
    match call {
        RecordedCall::Now(_) => 'N',
        RecordedCall::Received(_, _, _) => 'R',
        RecordedCall::NothingReceived(_) => 'r',
        RecordedCall::Sent(_, _, true) => 'S',
        RecordedCall::Sent(_, _, false) => 's',
        RecordedCall::PaneGenerations(_, Some(_)) => 'L',
        RecordedCall::PaneGenerations(_, None) => 'l',
        RecordedCall::PaneGave(_, _, _) => 'G',
        RecordedCall::PaneGaveNothing(_, _) => 'g',
        RecordedCall::PaneTook(_, _, 0) => 't',
        RecordedCall::PaneTook(_, _, _) => 'T',
        RecordedCall::Showed(_, true) => 'W',
        RecordedCall::Showed(_, false) => 'w',
    }
}

/// Returns true if these are the calls, a letter each.
pub fn are_letters(calls: &[RecordedCall], told: &str) -> bool {
    let mut letters = told.chars();
    for call in calls {
        if letters.next() != Some(letter(call)) {
            return false;
        }
    }
    letters.next().is_none()
}

/// One turn of a new server, a line each: the number of datagrams, the call that fails, the number of bytes that the program of pane 1
/// takes, and the number queued for it after the turn; the calls; and behind a bar the program's output before it. Of 33 datagrams the last
/// waits for the next turn. DA (`\x1B[c`) has an answer of 8 bytes. A call that fails brings nothing, or takes nothing.
const TURNS: &str = "\
0 0 9 0: NrLllllllllg|
2 0 9 0: NRRrLllllllllg|
31 0 9 0: NRRRRRRRRRRRRRRRRRRRRRRRRRRRRRRRrLllllllllg|
33 0 9 0: NRRRRRRRRRRRRRRRRRRRRRRRRRRRRRRRRLllllllllg|
0 0 9 0: NrLllllllllG|a
0 0 9 0: NrLllllllllGT|\x1B[c
0 0 4 4: NrLllllllllGT|\x1B[c
0 0 0 8: NrLllllllllGt|\x1B[c
2 2 9 0: NrLllllllllGT|\x1B[c
2 5 9 0: NRRrLllllllllg|\x1B[c
2 6 9 8: NRRrLllllllllGt|\x1B[c";

/// The input of a turn, and its expected result.
#[derive(Clone, Copy)]
struct Row<'a> {
    datagrams: u64,
    fails: u64,
    takes: usize,
    waits: usize,
    calls: &'a str,
    piece: &'a str,
}

fn row_of(line: &str) -> Option<Row<'_>> {
    let (numbers, rest) = line.split_once(": ")?;
    let (calls, piece) = rest.split_once('|')?;
    let mut row = [0; 4];
    if !reads_numbers(numbers, &mut row) {
        return None;
    }
    let [datagrams, fails, takes, waits] = row;
    Some(Row {
        datagrams,
        fails,
        takes: takes as usize,
        waits: waits as usize,
        calls,
        piece,
    })
}

// Prepares the input of ports, and the call of theirs that fails.
fn prepare(ports: &mut MemoryPorts, row: Row<'_>) -> Result<(), Fault> {
    for _ in 0..row.datagrams {
        ports.deliver(SERVER, b"no datagram")?;
    }
    if !row.piece.is_empty() {
        ports.write(1, row.piece.as_bytes())?;
    }
    ports.take_at_most(row.takes);
    ports.fail_at(row.fails);
    Ok(())
}

fn is_turned(alloc: Global, server: &mut Server, ports: &mut MemoryPorts, row: Row<'_>) -> bool {
    let is_prepared = prepare(ports, row).is_ok();
    serve_turn(alloc, server, ports);
    is_prepared && are_letters(ports.told(), row.calls) && server.output_len(1) == Some(row.waits)
}

fn turns(alloc: Global, row: Row<'_>) -> bool {
    match Server::new(alloc, 1, 24, 80) {
        Ok(mut server) => is_turned(alloc, &mut server, &mut MemoryPorts::new(alloc), row),
        Err(_) => false,
    }
}

fn is_met(alloc: Global, line: &str) -> bool {
    match row_of(line) {
        Some(row) => turns(alloc, row),
        None => false,
    }
}

#[test]
fn a_turn_makes_its_calls_in_order(rt: HostRuntime) {
    for line in TURNS.lines() {
        assert!(rt; is_met(rt.alloc(), line), "{line}");
    }
}

// Returns true if the last shown screen is this text.
fn showed(ports: &MemoryPorts, text: &str) -> bool {
    let mut is_shown = false;
    for call in ports.told() {
        if let RecordedCall::Showed(bytes, true) = call {
            is_shown = bytes.as_slice() == text.as_bytes();
        }
    }
    is_shown
}

// How many datagrams were sent, and how many bytes the last has.
fn sent(ports: &MemoryPorts) -> (usize, usize) {
    let mut count: usize = 0;
    let mut len = 0;
    for call in ports.told() {
        if let RecordedCall::Sent(_, bytes, true) = call {
            count = count.saturating_add(1);
            len = bytes.len();
        }
    }
    (count, len)
}

static OPENED: &str = "\x1Bc\x1B[?25l\x1B[0m\x1B[1;1H\x1B[?25h";

static STATUS: &str =
    "\x1B[?25l\x1B[24;1H\x1B[0;7m[1]                                                                             \x1B[0m\x1B[1;1H\x1B[?25h";

// The first turn of an instance opens its terminal, and sends one datagram of 60 bytes.
fn opens(alloc: Global, end: &mut End) -> bool
    requires behind { IsBehind end.old.outer end.old.client.kept.receiver.newest.number end.old.client.kept.receiver.newest.state }
    ensures behind { IsBehind end.new.outer end.new.client.kept.receiver.newest.number end.new.client.kept.receiver.newest.state }
{
    end.turn(alloc, 0, 0, None);
    showed(end.ports(), OPENED) && sent(end.ports()) == (1, 60)
}

// Gives the server the datagrams of an instance, and the instance those of the server.
fn carry(alloc: Global, stage: &mut Stage) -> Result<(), Fault>
    ensures client { stage.new.first.client ≡ stage.old.first.client }
    ensures outer { stage.new.first.outer ≡ stage.old.first.outer }
{
    carry_up(&mut stage.first, &mut stage.ports)?;
    serve_at(alloc, &mut stage.server, &mut stage.ports, 0, 0);
    carry_down(&stage.ports, &mut stage.first)
}

/// Which step of a session's first three turns isn't as it is worked by hand, if any.
pub fn first_fault(alloc: Global, stage: &mut Stage) -> Option<u8>
    requires behind { IsBehind stage.old.first.outer stage.old.first.client.kept.receiver.newest.number
        stage.old.first.client.kept.receiver.newest.state }
{
    if !opens(alloc, &mut stage.first) {
        return Some(1);
    }
    if carry(alloc, stage).is_err() || sent(&stage.ports).0 != 1 {
        return Some(2);
    }
    stage.first.turn(alloc, 0, 0, None);
    if !showed(stage.first.ports(), STATUS) {
        return Some(3);
    }
    None
}

#[test]
fn a_session_is_painted(rt: HostRuntime) {
    assert!(rt; is_played(rt.alloc(), Play::Opening) == Ok(true));
}
