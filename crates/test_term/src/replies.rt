//! Events, each with its reply, and the screens at the end.
ghost use Rattle.std.specs.Prelude.{◌≤◌, IfOk, OnOk};
ghost use Rattle.std.specs.List.{All};
ghost use Rattle.roam_simulation.specs.Events.{IsHandedIn};

use crate::session_words::{halves, reads_numbers, short, word_of};
use crate::term_rows::bytes_of;
use roam_acts::{Act, read_act};
use roam_cells::Fault;
use roam_hub::{Addr, Heard};
use roam_screens::{Seen, row_text};
use roam_simulation::{Event, Reply, World};
use roam_wire::Version;
use std::alloc::Global;
use std::test::*;

/// Each event done, and each refused, in a session of 4 by 8, with its bytes and its act spelled out. Datagrams reach the server from ports
/// of one host. Those that it sends at 20 go to the earlier instance in slot 0 and to the later one. Then a read-only instance joins them,
/// and one of version 1 is refused.
const EVENTS: &str = "\
start 0 161: done
start 1 161: refused
type 0 char 61: done
type 1 char 61: refused
type 8 char 61: refused
ctick 1 0: refused
ctick 0 0: sent 1 1
ctick 0 0: sent 2 0
up 0 5001 0: refused
up 2 5001 0: refused
up 1 5001 0: taken 1
up 1 5001 0: taken 0
stick 0: sent 2 1
up 2 5001 0: stopped kind
down 1 2 0: refused
down 0 3 0: refused
down 0 1 0: kind
down 0 2 0: new
down 0 2 0: old
drain 1 2: refused
drain 1 1: done
drain 2 0: no pane
pane 1 x: done
pane 2 x: no pane
start 0 162: done
ctick 0 10: sent 3 1
up 3 5002 10: taken 0
stick 20: sent 4 2
down 0 4 20: other client
down 0 5 20: new
old-watch 1 163: refused
watch 1 163: done
type 1 char 61: watching
ctick 1 20: sent 6 1
up 6 5003 20: taken 0
stick 20: sent 7 1
down 1 7 20: new
type 0 char 62: done
ctick 0 40: sent 8 1
type 0 char 62: done
ctick 0 60: sent 9 1
type 0 char 62: done
ctick 0 80: sent 10 1
type 0 char 62: done
ctick 0 100: sent 11 1
type 0 char 62: done
ctick 0 120: sent 12 1
type 0 char 62: done
ctick 0 140: sent 13 1
type 0 char 62: done
ctick 0 160: sent 14 1
type 0 char 62: done
ctick 0 180: sent 15 1
type 0 char 62: done
ctick 0 200: sent 16 1
type 0 char 62: done
ctick 0 220: sent 17 1
up 17 5002 240: taken 10";

/// A letter is written before each of three ticks; the newest datagram comes, and then the one before it.
const LETTERS: &str = "\
start 0 161
ctick 0 0
up 1 5001 0
stick 0
pane 1 a
stick 20
pane 1 b
stick 40
pane 1 c
stick 60
down 0 5 60
down 0 4 70";

// Where datagrams come from.
fn from(port: u64) -> Addr {
    Addr {
        host: [127, 0, 0, 1],
        port: short(port),
    }
}

// An instance in a slot; there are eight.
fn start_of(verb: &str, slot: u8, id: u64) -> Result<Event, Fault>
    ensures handed_in { IfOk result IsHandedIn }
{
    if slot >= 8 {
        return Err(Fault::BadAct);
    }
    match verb {
        "start" => Ok(Event::Start(slot, id, Version::One, false)),
        "watch" => Ok(Event::Start(slot, id, Version::Two, true)),
        "old-watch" => Ok(Event::Start(slot, id, Version::One, true)),
        _ => Err(Fault::BadAct),
    }
}

// An event of numbers alone.
fn numbers_event(verb: &str, row: [u64; 3]) -> Result<Event, Fault>
    ensures handed_in { IfOk result IsHandedIn }
{
    let first = row[0].min(255) as u8;
    match verb {
        "stick" => Ok(Event::ServerTick(row[0])),
        "ctick" => Ok(Event::ClientTick(first, row[1])),
        "up" => Ok(Event::ToServer(row[0], from(row[1]), row[2])),
        "down" => Ok(Event::ToClient(first, row[1], row[2])),
        "drain" => Ok(Event::Drained(first, row[1])),
        _ => start_of(verb, first, row[1]),
    }
}

// Returns how many numbers follow a verb.
fn count_of(verb: &str) -> usize
    ensures most { result ≤ 3 }
{
    match verb {
        "stick" => 1,
        "up" | "down" => 3,
        _ => 2,
    }
}

fn piece_event(alloc: Global, pane: &str, spelled: &str) -> Result<Event, Fault>
    ensures handed_in { IfOk result IsHandedIn }
{
    let Ok(pane) = pane.parse::<u8>() else {
        return Err(Fault::BadAct);
    };
    let bytes = bytes_of(alloc, spelled)?;
    Ok(Event::PaneBytes(pane, Vec::from_slice(alloc, bytes.as_bytes())?))
}

fn typed_event(slot: &str, line: &str) -> Result<Event, Fault>
    ensures handed_in { IfOk result IsHandedIn }
{
    let Ok(slot) = slot.parse::<u8>() else {
        return Err(Fault::BadAct);
    };
    Ok(Event::Typed(slot, read_act(line.as_bytes())?))
}

fn event_of(alloc: Global, words: &str) -> Result<Event, Fault>
    ensures handed_in { IfOk result IsHandedIn }
{
    let (verb, rest) = halves(words, " ");
    let (number, text) = halves(rest, " ");
    let mut row = [0; 3];
    match verb {
        "pane" => piece_event(alloc, number, text),
        "type" => typed_event(number, text),
        _ if reads_numbers(rest, &mut row[..count_of(verb)]) => numbers_event(verb, row),
        _ => Err(Fault::BadAct),
    }
}

// Returns true if a reply is a word with these numbers.
fn has_numbers(told: &str, word: &str, numbers: &[u64]) -> bool {
    let (verb, rest) = halves(told, " ");
    let mut row = [0; 2];
    let places = &mut row[..numbers.len().min(2)];
    verb == word && reads_numbers(rest, places) && &*places == numbers
}

fn is_told(reply: Reply, told: &str) -> bool {
    match reply {
        Reply::Done => told == "done",
        Reply::Refused => told == "refused",
        Reply::Sent(first, count) => has_numbers(told, "sent", &[first, count]),
        Reply::Taken(count) => has_numbers(told, "taken", &[count as u64]),
        Reply::Heard(Heard::New) => told == "new",
        Reply::Heard(Heard::Old) => told == "old",
        Reply::Heard(_) => false,
        Reply::Fault(fault) => told == word_of(fault),
        Reply::Stopped(stop) => stop.taken == 0
            && told.strip_prefix("stopped ") == Some(word_of(stop.fault)),
    }
}

// Returns true if an event has this reply.
fn is_answered(alloc: Global, world: &mut World, line: &str) -> bool {
    let (words, told) = halves(line, ": ");
    match event_of(alloc, words) {
        Ok(event) => is_told(world.step(alloc, &event), told),
        Err(_) => false,
    }
}

fn first_unanswered(alloc: Global, world: &mut World) -> Option<&'static str> {
    for line in EVENTS.lines() {
        if !is_answered(alloc, world, line) {
            return Some(line);
        }
    }
    None
}

fn first_wrong(alloc: Global) -> Option<&'static str> {
    match World::new(alloc, 1, 4, 8) {
        Ok(mut world) => first_unanswered(alloc, &mut world),
        Err(_) => Some("no world"),
    }
}

fn add_event(alloc: Global, events: &mut Vec<Event>, words: &str) -> Result<(), Fault>
    requires handed_in { All IsHandedIn events.old.items }
    ensures handed_in { OnOk result (All IsHandedIn events.new.items) }
{
    events.push(event_of(alloc, words)?)?;
    Ok(())
}

// Returns the events of lines, each with an optional reply behind `: `.
fn events_of(alloc: Global, lines: &str) -> Result<Vec<Event>, Fault>
    ensures handed_in { IfOk result (λ events. All IsHandedIn events.items) }
{
    let mut events = Vec::new(alloc);
    for line in lines.lines() {
        add_event(alloc, &mut events, halves(line, ": ").0)?;
    }
    Ok(events)
}

fn is_row<S: Seen>(alloc: Global, shot: &S, row: u16, text: &str) -> bool {
    if row >= shot.rows() {
        return false;
    }
    matches!(row_text(alloc, shot, row), Ok(points) if points.iter().copied().eq(text.chars()))
}

// Returns true if a screen has these rows, and its cursor is visible in the first row at this column, from 1.
fn is_shown<S: Seen>(alloc: Global, shot: &S, rows: &str, col: u16) -> bool {
    let mut row = 0;
    for text in rows.lines() {
        if row >= shot.rows() || !is_row(alloc, shot, row, text) {
            return false;
        }
        row += 1;
    }
    row == shot.rows() && shot.cursor() == (1, col) && shot.visible()
}

/// The screen at the end: its number, its rows, and the cursor's column in the first of them, from 1.
struct Ending {
    number: u64,
    rows: &'static str,
    col: u16,
}

const OF_EACH: Ending = Ending {
    number: 2,
    rows: "x       \n        \n        \n[1]     ",
    col: 2,
};

const OF_LETTERS: Ending = Ending {
    number: 4,
    rows: "abc     \n        \n        \n[1]     ",
    col: 4,
};

// Returns true if the instance in slot 0 shows this ending, as the server does, and no slot from 2 on has an instance.
fn shows(alloc: Global, world: &World, ending: &Ending) -> bool {
    let Some(client) = world.client(0) else {
        return false;
    };
    let (number, shot) = client.shown();
    let is_alone = world.client(2).is_none() && world.client(8).is_none();
    is_alone
        && number == ending.number
        && is_shown(alloc, &shot, ending.rows, ending.col)
        && matches!(world.server().face(alloc), Ok(face) if is_shown(alloc, &face, ending.rows, ending.col))
}

// Returns the result of a world of so many rows after all events, or the reason for none.
fn run_word(alloc: Global, rows: u16, events: &[Event], ending: &Ending) -> &'static str
    requires handed_in { All IsHandedIn events.now }
{
    match World::run(alloc, 1, rows, 8, events) {
        Ok(world) => if shows(alloc, &world, ending) {
            "what it should"
        } else {
            "something else"
        },
        Err(fault) => word_of(fault),
    }
}

fn runs_all(alloc: Global, lines: &str, ending: &Ending) -> bool {
    match events_of(alloc, lines) {
        Ok(events) => run_word(alloc, 4, events.as_slice(), ending) == "what it should",
        Err(_) => false,
    }
}

#[test]
fn each_event_is_answered(rt: HostRuntime) {
    assert_eq!(rt; first_wrong(rt.alloc()), None);
}

#[test]
fn a_run_is_every_event(rt: HostRuntime) {
    assert!(rt; runs_all(rt.alloc(), EVENTS, &OF_EACH));
    assert!(rt; runs_all(rt.alloc(), LETTERS, &OF_LETTERS));
}

#[test]
fn a_bad_size_makes_no_world(rt: HostRuntime) {
    assert_eq!(rt; run_word(rt.alloc(), 3, &[], &OF_EACH), "bad size");
}
