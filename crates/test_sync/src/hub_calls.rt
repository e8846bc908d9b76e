//! Calls of the two cores, made once more if memory was refused; a refused call changes nothing.
use crate::texts::word_of;
use roam_cells::{Fault, are_same_cells};
use roam_hub::{Addr, Client, Heard, Server, Stop};
use roam_screens::{RowShot, Seen};
use std::alloc::Global;

/// Where datagrams come from, by the port.
pub fn at(port: u16) -> Addr {
    Addr {
        host: [127, 0, 0, 1],
        port,
    }
}

fn start(alloc: Global, kind: &str, id: u64) -> Result<Client, Fault> {
    match kind {
        "old" => Client::old(alloc, 1, id),
        "new" => Client::new(alloc, 1, id),
        "watching" => Client::watching(alloc, 1, id),
        _ => Err(Fault::BadAct),
    }
}

/// An instance of session 1: `old` is of version 1, `new` of version 2, and `watching` of version 2, which only watches.
pub fn start_of(alloc: Global, kind: &str, id: u64) -> Result<Client, Fault> {
    match start(alloc, kind, id) {
        Err(Fault::OutOfMemory) => start(alloc, kind, id),
        answer => answer,
    }
}

fn sent_up(alloc: Global, client: &mut Client, now: u64) -> Result<Vec<Vec<u8>>, Fault> {
    match client.tick(alloc, now) {
        Err(Fault::OutOfMemory) => client.tick(alloc, now),
        answer => answer,
    }
}

/// Returns the only datagram of an instance at a moment; `Spent` if it sends none, or several.
pub fn only_of(alloc: Global, client: &mut Client, now: u64) -> Result<Vec<u8>, Fault> {
    let mut texts = sent_up(alloc, client, now)?;
    let only = texts.pop();
    if texts.is_empty() {
        only.ok_or(Fault::Spent)
    } else {
        Err(Fault::Spent)
    }
}

/// Returns the datagrams of a server at a moment, with their addresses.
pub fn sent_down(
    alloc: Global,
    server: &mut Server,
    now: u64,
) -> Result<Vec<(Addr, Vec<u8>)>, Fault> {
    match server.tick(alloc, now) {
        Err(Fault::OutOfMemory) => server.tick(alloc, now),
        answer => answer,
    }
}

fn face_of(alloc: Global, server: &Server) -> Result<RowShot, Fault> {
    match server.face(alloc) {
        Err(Fault::OutOfMemory) => server.face(alloc),
        answer => answer,
    }
}

fn blank(alloc: Global) -> Result<RowShot, Fault> {
    match RowShot::blank(alloc, 24, 80) {
        Err(Fault::OutOfMemory) => RowShot::blank(alloc, 24, 80),
        answer => answer,
    }
}

/// Two screens are one in size, cells, cursor and whether it is visible.
pub fn is_same<A: Seen, B: Seen>(one: &A, other: &B) -> bool {
    if one.rows() != other.rows() || one.cols() != other.cols() {
        return false;
    }
    for row in 0..one.rows() {
        if !are_same_cells(one.row(row), other.row(row)) {
            return false;
        }
    }
    one.cursor() == other.cursor() && one.visible() == other.visible()
}

/// Returns true if an instance shows the face of a session under this number.
pub fn shows_face(alloc: Global, server: &Server, client: &Client, number: u64) -> bool {
    let (shown, shot) = client.shown();
    match face_of(alloc, server) {
        Ok(face) => shown == number && is_same(&shot, &face),
        Err(_) => false,
    }
}

fn is_answered(answer: Result<usize, Stop>, before: usize, told: &str) -> bool {
    match answer {
        Ok(taken) => told.parse::<usize>().ok() == Some(before.saturating_add(taken)),
        Err(stop) => stop.taken == 0 && word_of(stop.fault) == told,
    }
}

/// Returns true if a server has this answer to bytes: the number of acts taken so far, or a refusal. If memory is refused, exactly the
/// bytes of the acts before are queued for pane 1.
pub fn answers(
    alloc: Global,
    server: &mut Server,
    from: Addr,
    bytes: &[u8],
    now: u64,
    told: &str,
) -> bool {
    let before = server.output_len(1).unwrap_or(0);
    let beside = server.output_len(2);
    let stop = match server.datagram(alloc, from, bytes, now) {
        Err(stop) if stop.fault == Fault::OutOfMemory => stop,
        answer => return is_answered(answer, 0, told),
    };
    let is_left = server.output_len(1) == before.checked_add(stop.taken)
        && server.output_len(2) == beside;
    is_left && is_answered(server.datagram(alloc, from, bytes, now), stop.taken, told)
}

// Returns true if an instance shows nothing yet.
fn shows_nothing(alloc: Global, client: &Client) -> bool {
    let (number, shot) = client.shown();
    match blank(alloc) {
        Ok(blank) => number == 0 && is_same(&shot, &blank),
        Err(_) => false,
    }
}

fn is_heard(answer: Result<Heard, Fault>, told: &str) -> bool {
    match answer {
        Ok(Heard::New) => told == "new",
        Ok(Heard::Part) => told == "part",
        Ok(_) => false,
        Err(fault) => word_of(fault) == told,
    }
}

/// Returns true if an instance has this answer to bytes. If memory is refused it shows nothing, as before.
pub fn hears(alloc: Global, client: &mut Client, bytes: &[u8], now: u64, told: &str) -> bool {
    match client.datagram(alloc, bytes, now) {
        Err(Fault::OutOfMemory) => shows_nothing(alloc, client)
            && is_heard(client.datagram(alloc, bytes, now), told),
        answer => is_heard(answer, told),
    }
}
