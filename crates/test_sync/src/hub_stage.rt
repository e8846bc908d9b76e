//! A server, client instances and the datagrams between them, played by texts.
//!
//! A case is a name, `session ROWS COLS`, and a line for each action with its expected result. Instances are numbered from 0 and datagrams
//! from 1; T is a moment in milliseconds. `start KIND ID` makes an instance, and `tick START T` has it send its only datagram. `forge
//! BYTES` adds a datagram in hexadecimal digits, and `bytes N BYTES` checks one. `up N PORT T` gives one to the server, from a port: the
//! answer is the number of acts taken, or a refusal. `serve T` has the server send, to these ports. `down START N T` gives one to an
//! instance, and `all START PORT` all of a port.
//!
//! `shown START N` and `size START ROWS COLS` check the screen of an instance, and `face START N` checks that it is the session's face.
//! `type START` types a letter, `waits PANE TEXT` checks the queued bytes of an open pane, and `lacks PANE` that there is none. `come KIND
//! ID` gives the only datagram of a new instance to the server. `fill KIND ID COUNT` gives those of so many instances without acts, from an
//! id on, here in decimal digits. `types START COUNT` types so many letters at once, and `held START COUNT` checks the number of
//! unacknowledged ones. `known COUNT WATCHERS` checks how many instances the server knows. `next` is the moment of the next useful tick of
//! the server, and `wakes START` that of an instance: a moment, or `never`.
ghost use Rattle.std.specs.Prelude.{◌≤◌};

use crate::hub_calls::{answers, at, hears, only_of, sent_down, shows_face, start_of};
use crate::texts::{bytes_of, halves, reads_numbers, short, word_of};
use roam_acts::{Act, Key};
use roam_cells::Fault;
use roam_hub::{Addr, Client, Heard, Server};
use roam_screens::Seen;
use std::alloc::Global;

/// How many letters are typed at once at most.
const MOST_TYPED: usize = 1025;

/// A server, its instances, and the sent datagrams, each with its destination: port 0 at the server.
#[derive(Drop)]
struct Stage {
    server: Server,
    starts: Vec<Client>,
    sent: Vec<(Addr, Vec<u8>)>,
}

// Returns a stage with room for everything in a case, so that no memory is refused to it later.
fn begun(alloc: Global, rows: u64, cols: u64) -> Result<Stage, Fault> {
    let starts = Vec::with_capacity(alloc, 8)?;
    let sent = Vec::with_capacity(alloc, 32)?;
    let server = Server::new(alloc, 1, short(rows), short(cols))?;
    Ok(Stage {
        server,
        starts,
        sent,
    })
}

// Returns the bytes of a datagram by its number; empty if there is none of that number.
fn bytes_at(sent: &[(Addr, Vec<u8>)], number: u64) -> &[u8] {
    match sent.get((number as usize).wrapping_sub(1)) {
        Some((_, bytes)) => bytes.as_slice(),
        None => &[],
    }
}

// An instance by its kind and its id in hexadecimal digits.
fn start_by(alloc: Global, words: &str) -> Result<Client, Fault> {
    let (kind, id) = halves(words, " ");
    match u64::from_str_radix(id, 16) {
        Ok(id) => start_of(alloc, kind, id),
        Err(_) => Err(Fault::BadAct),
    }
}

// Returns true if the only datagram of an instance at its beginning has this answer.
fn greets(alloc: Global, server: &mut Server, client: &mut Client, told: &str) -> bool {
    match only_of(alloc, client, 0) {
        Ok(first) => answers(alloc, server, at(5001), &first, 0, told),
        Err(_) => false,
    }
}

fn comes(alloc: Global, server: &mut Server, kind: &str, id: u64, told: &str) -> bool {
    match start_of(alloc, kind, id) {
        Ok(mut client) => greets(alloc, server, &mut client, told),
        Err(_) => false,
    }
}

fn come_by(alloc: Global, server: &mut Server, words: &str, told: &str) -> bool {
    let (kind, id) = halves(words, " ");
    match u64::from_str_radix(id, 16) {
        Ok(id) => comes(alloc, server, kind, id, told),
        Err(_) => false,
    }
}

// Returns true if so many instances of a kind arrive without acts, from an id on.
fn fill_by(alloc: Global, server: &mut Server, words: &str) -> bool {
    let (kind, rest) = halves(words, " ");
    let mut row = [0; 2];
    if !reads_numbers(rest, &mut row) {
        return false;
    }
    for k in 0..row[1] {
        if !comes(alloc, server, kind, row[0].wrapping_add(k), "0") {
            return false;
        }
    }
    true
}

// Returns true if datagrams go to these ports, one after another.
fn go_to(sent: &[(Addr, Vec<u8>)], ports: &str) -> bool {
    let mut words = ports.split_whitespace();
    for (to, _) in sent {
        let Some(port) = words.next().and_then(|word| word.parse::<u16>().ok()) else {
            return false;
        };
        if *to != at(port) {
            return false;
        }
    }
    words.next().is_none()
}

// Returns true if an instance hears all that went to an address, the last of which brings it a newer screen.
fn hears_all(alloc: Global, client: &mut Client, sent: &[(Addr, Vec<u8>)], address: Addr) -> bool {
    let mut is_new = false;
    for (to, bytes) in sent {
        if *to == address {
            match client.datagram(alloc, bytes, 0) {
                Ok(heard) => is_new = heard == Heard::New,
                Err(_) => return false,
            }
        }
    }
    is_new
}

// Returns true if an instance takes the letter a, or refuses it with this error.
fn types(client: &mut Client, told: &str) -> bool {
    match client.typed(Act::Key(Key::Char('a'))) {
        Ok(()) => told == "typed",
        Err(fault) => word_of(fault) == told,
    }
}

// Returns true if an instance takes so many letters at once, or refuses them with this error.
fn types_all(client: &mut Client, count: u64, told: &str) -> bool {
    let letters = [Act::Key(Key::Char('a')); MOST_TYPED];
    let (some, _) = letters
        .as_slice()
        .split_at((count as usize).min(MOST_TYPED));
    match client.typed_all(some) {
        Ok(()) => told == "typed",
        Err(fault) => word_of(fault) == told,
    }
}

// Returns true if a moment is this one.
fn is_told(due: Option<u64>, told: &str) -> bool {
    match due {
        Some(due) => told.parse::<u64>().ok() == Some(due),
        None => told == "never",
    }
}

// Returns true if a server knows so many instances, and so many read-only ones.
fn knows(server: &Server, words: &str) -> bool {
    let mut row = [0; 2];
    reads_numbers(words, &mut row) && row == [server.starts() as u64, server.watchers() as u64]
}

// Returns true if these bytes are queued for a pane.
fn waits(server: &Server, words: &str) -> bool {
    let (pane, text) = halves(words, " ");
    let mut out = [0; 64];
    match pane.parse::<u8>() {
        Ok(pane) => server.output(pane, &mut out) == Ok(text.len())
            && out.starts_with(text.as_bytes()),
        Err(_) => false,
    }
}

fn has_size(client: &Client, rows: u64, cols: u64) -> bool {
    let (_, shot) = client.shown();
    (u64::from(shot.rows()), u64::from(shot.cols())) == (rows, cols)
}

// Returns how many numbers follow a verb.
fn count_of(verb: &str) -> usize
    ensures most { result ≤ 3 }
{
    match verb {
        "serve" | "lacks" | "type" | "wakes" => 1,
        "tick" | "all" | "shown" | "face" | "types" | "held" => 2,
        _ => 3,
    }
}

// The numbers behind a verb, and zeros.
fn numbers_of(verb: &str, text: &str) -> Option<[u64; 3]> {
    let mut row = [0; 3];
    let is_read = reads_numbers(text, &mut row[..count_of(verb)]);
    if is_read { Some(row) } else { None }
}

impl Stage {
    fn start(&mut self, alloc: Global, words: &str) -> Result<(), Fault> {
        let client = start_by(alloc, words)?;
        self.starts.push(client)?;
        Ok(())
    }

    fn forge(&mut self, alloc: Global, digits: &str) -> Result<(), Fault> {
        let text = bytes_of(alloc, digits).ok_or(Fault::BadAct)?;
        self.sent.push((at(0), text))?;
        Ok(())
    }

    fn has_bytes(&self, alloc: Global, words: &str) -> bool {
        let (number, digits) = halves(words, " ");
        match (number.parse::<u64>(), bytes_of(alloc, digits)) {
            (Ok(number), Some(bytes)) => bytes_at(&self.sent, number) == bytes.as_slice(),
            _ => false,
        }
    }

    fn tick(&mut self, alloc: Global, start: usize, now: u64) -> Result<(), Fault> {
        let client = self.starts.get_mut(start).ok_or(Fault::BadAct)?;
        let text = only_of(alloc, client, now)?;
        self.sent.push((at(0), text))?;
        Ok(())
    }

    // Returns true if the server sends to these ports, or to any.
    fn serve(&mut self, alloc: Global, now: u64, ports: &str) -> Result<bool, Fault> {
        let mut sends = sent_down(alloc, &mut self.server, now)?;
        let go = ports == "any" || go_to(&sends, ports);
        self.sent.append(&mut sends)?;
        Ok(go)
    }

    // Returns true if a question to an instance has this answer.
    fn asks(&mut self, alloc: Global, verb: &str, row: [u64; 3], told: &str) -> bool {
        let [start, number, now] = row;
        let Some(client) = self.starts.get_mut(start as usize) else {
            return false;
        };
        match verb {
            "down" => hears(alloc, client, bytes_at(&self.sent, number), now, told),
            "all" => hears_all(alloc, client, &self.sent, at(short(number))),
            "shown" => client.shown().0 == number,
            "face" => shows_face(alloc, &self.server, client, number),
            "size" => has_size(client, number, now),
            "type" => types(client, told),
            "types" => types_all(client, number, told),
            "held" => client.unacknowledged() as u64 == number,
            "wakes" => is_told(client.next_due(), told),
            _ => false,
        }
    }

    fn acts(&mut self, alloc: Global, verb: &str, row: [u64; 3], told: &str) -> bool {
        match verb {
            "tick" => self.tick(alloc, row[0] as usize, row[1]).is_ok(),
            "serve" => self.serve(alloc, row[0], told) == Ok(true),
            "lacks" => self.server.output_len(row[0].min(255) as u8) == None,
            "up" => {
                let bytes = bytes_at(&self.sent, row[0]);
                answers(
                    alloc,
                    &mut self.server,
                    at(short(row[1])),
                    bytes,
                    row[2],
                    told,
                )
            }
            _ => self.asks(alloc, verb, row, told),
        }
    }

    fn does(&mut self, alloc: Global, line: &str) -> bool {
        let (asked, told) = halves(line, ": ");
        let (verb, rest) = halves(asked, " ");
        match verb {
            "start" => self.start(alloc, rest).is_ok(),
            "forge" => self.forge(alloc, rest).is_ok(),
            "bytes" => self.has_bytes(alloc, rest),
            "come" => come_by(alloc, &mut self.server, rest, told),
            "fill" => fill_by(alloc, &mut self.server, rest),
            "waits" => waits(&self.server, rest),
            "known" => knows(&self.server, rest),
            "next" => is_told(self.server.next_due(), told),
            _ => match numbers_of(verb, rest) {
                Some(row) => self.acts(alloc, verb, row, told),
                None => false,
            },
        }
    }

    fn does_all(&mut self, alloc: Global, lines: &str) -> bool {
        for line in lines.lines() {
            if !line.starts_with("# ") && !self.does(alloc, line) {
                return false;
            }
        }
        true
    }
}

fn stage_of(alloc: Global, size: &str) -> Option<Stage> {
    let mut row = [0; 2];
    if !reads_numbers(size.strip_prefix("session ")?, &mut row) {
        return None;
    }
    match begun(alloc, row[0], row[1]) {
        Err(Fault::OutOfMemory) => begun(alloc, row[0], row[1]).ok(),
        answer => answer.ok(),
    }
}

fn plays(alloc: Global, case: &str) -> bool {
    let (_, rest) = halves(case, "\n");
    let (size, lines) = halves(rest, "\n");
    match stage_of(alloc, size) {
        Some(mut stage) => stage.does_all(alloc, lines),
        None => false,
    }
}

/// The first of these cases that goes otherwise.
pub fn first_wrong<'a>(alloc: Global, cases: &'a str) -> Option<&'a str> {
    for case in cases.split("\n\n") {
        if !plays(alloc, case) {
            return Some(case);
        }
    }
    None
}
