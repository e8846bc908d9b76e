//! Each beginning of a datagram, and each with one byte changed to every other value, to a server that knows an instance of each kind and
//! to each kind of instance, both to the intended end and to the other: a reply or a named refusal, and after a refusal everything goes on
//! as if nothing had arrived.
use crate::hub_calls::{at, is_same, only_of, start_of};
use roam_cells::Fault;
use roam_hub::{Addr, Client, Heard, Server};
use roam_screens::RowShot;
use std::alloc::Global;
use std::test::*;

/// A kind of instance, and the id of one.
type Start = (&'static str, u64);

const STARTS: [Start; 3] = [("old", 0xA1), ("new", 0xA2), ("watching", 0xA3)];

// The first datagram of an instance.
fn first_from(alloc: Global, start: Start) -> Result<Vec<u8>, Fault> {
    let mut client = start_of(alloc, start.0, start.1)?;
    only_of(alloc, &mut client, 0)
}

fn firsts_of(alloc: Global) -> Result<Vec<Vec<u8>>, Fault> {
    let mut firsts = Vec::new(alloc);
    for start in STARTS {
        firsts.push(first_from(alloc, start)?)?;
    }
    Ok(firsts)
}

fn hear_all(alloc: Global, server: &mut Server, firsts: &[Vec<u8>]) -> Result<(), Fault> {
    for first in firsts {
        if let Err(stop) = server.datagram(alloc, at(5001), first, 0) {
            return Err(stop.fault);
        }
    }
    Ok(())
}

// A server of 4 by 8 that heard these datagrams.
fn server_of(alloc: Global, firsts: &[Vec<u8>]) -> Result<Server, Fault> {
    let mut server = Server::new(alloc, 1, 4, 8)?;
    hear_all(alloc, &mut server, firsts)?;
    Ok(server)
}

fn are_same(one: &[(Addr, Vec<u8>)], other: &[(Addr, Vec<u8>)]) -> bool {
    if one.len() != other.len() {
        return false;
    }
    for k in 0..one.len() {
        if one[k].0 != other[k].0 || one[k].1.as_slice() != other[k].1.as_slice() {
            return false;
        }
    }
    true
}

/// An end that is given bytes when it is new: it answers them, or refuses them and goes on as if nothing had arrived.
trait Stands {
    fn stands(&self, alloc: Global, bytes: &[u8]) -> bool;
}

/// A server that heard an instance of each kind, and the datagrams that it sends then.
#[derive(Drop)]
struct Served {
    firsts: Vec<Vec<u8>>,
    sends: Vec<(Addr, Vec<u8>)>,
}

fn sends_of(alloc: Global, firsts: &[Vec<u8>]) -> Result<Vec<(Addr, Vec<u8>)>, Fault> {
    let mut server = server_of(alloc, firsts)?;
    server.tick(alloc, 0)
}

fn served_at_first(alloc: Global) -> Result<Served, Fault> {
    let firsts = firsts_of(alloc)?;
    let sends = sends_of(alloc, &firsts)?;
    Ok(Served { firsts, sends })
}

impl Served {
    // Returns true if a server answers bytes, or refuses them and sends the same as without them.
    fn is_stood_by(&self, alloc: Global, server: &mut Server, bytes: &[u8]) -> bool {
        match server.datagram(alloc, at(5009), bytes, 0) {
            Ok(_) => true,
            Err(stop) => stop.taken == 0
                && matches!(server.tick(alloc, 0), Ok(sends) if are_same(&sends, &self.sends)),
        }
    }
}

impl Stands for Served {
    fn stands(&self, alloc: Global, bytes: &[u8]) -> bool {
        match server_of(alloc, &self.firsts) {
            Ok(mut server) => self.is_stood_by(alloc, &mut server, bytes),
            Err(_) => false,
        }
    }
}

/// An instance, the datagram that it is sent, and the screen that it shows then.
#[derive(Drop)]
struct Followed {
    start: Start,
    sound: Vec<u8>,
    face: RowShot,
}

fn hear_and_write(alloc: Global, server: &mut Server, first: &[u8]) -> Result<(), Fault> {
    match server.datagram(alloc, at(5001), first, 0) {
        Ok(_) => server.pane_bytes(1, b"ab"),
        Err(stop) => Err(stop.fault),
    }
}

// The last datagram that is sent.
fn last_of(mut sends: Vec<(Addr, Vec<u8>)>) -> Result<Vec<u8>, Fault> {
    let (_, sound) = sends.pop().ok_or(Fault::Spent)?;
    Ok(sound)
}

// Returns the datagrams of a server to an instance that it heard, once the program of its pane wrote.
fn follow(alloc: Global, server: &mut Server, start: Start) -> Result<Followed, Fault> {
    let first = first_from(alloc, start)?;
    hear_and_write(alloc, server, &first)?;
    let sound = last_of(server.tick(alloc, 0)?)?;
    let face = server.face(alloc)?;
    Ok(Followed { start, sound, face })
}

fn followed_by(alloc: Global, start: Start) -> Result<Followed, Fault> {
    let mut server = Server::new(alloc, 1, 4, 8)?;
    follow(alloc, &mut server, start)
}

impl Followed {
    // Returns true if an instance shows nothing yet, and then its datagrams.
    fn goes_on(&self, alloc: Global, client: &mut Client) -> bool {
        let is_kept = client.shown().0 == 0;
        let is_new = client.datagram(alloc, &self.sound, 0) == Ok(Heard::New);
        is_kept && is_new && is_same(&client.shown().1, &self.face)
    }

    fn is_stood_by(&self, alloc: Global, client: &mut Client, bytes: &[u8]) -> bool {
        client.datagram(alloc, bytes, 0).is_ok() || self.goes_on(alloc, client)
    }
}

impl Stands for Followed {
    fn stands(&self, alloc: Global, bytes: &[u8]) -> bool {
        match start_of(alloc, self.start.0, self.start.1) {
            Ok(mut client) => self.is_stood_by(alloc, &mut client, bytes),
            Err(_) => false,
        }
    }
}

// Returns true if an end passes a datagram that ends before a place, and one with each other byte there.
fn stands_at<S: Stands>(alloc: Global, end: &S, bytes: &mut [u8], place: usize) -> bool {
    let Some(sound) = bytes.get(place).copied() else {
        return false;
    };
    for value in 0..=255u8 {
        bytes[place] = value;
        if value != sound && !end.stands(alloc, bytes) {
            return false;
        }
    }
    bytes[place] = sound;
    end.stands(alloc, &bytes[..place])
}

// Returns the first place at which an end fails the beginning of a datagram, or another byte there; its length if memory is refused.
fn first_fall<S: Stands>(alloc: Global, end: &S, datagram: &[u8]) -> Option<usize> {
    let Ok(mut bytes) = Vec::from_slice(alloc, datagram) else {
        return Some(datagram.len());
    };
    for place in 0..datagram.len() {
        if !stands_at(alloc, end, &mut bytes, place) {
            return Some(place);
        }
    }
    None
}

fn add_letter(
    alloc: Global,
    server: &mut Server,
    letter: &[u8],
    datagrams: &mut Vec<Vec<u8>>,
) -> Result<(), Fault> {
    server.pane_bytes(1, letter)?;
    let now = (datagrams.len() as u64).saturating_mul(20);
    datagrams.push(last_of(server.tick(alloc, now)?)?)?;
    Ok(())
}

// Returns the first datagram of an instance, and those sent to it as the program of its pane writes these letters, a tick each.
fn datagrams_of(alloc: Global, start: Start, letters: &[&str]) -> Result<Vec<Vec<u8>>, Fault> {
    let mut datagrams = Vec::new(alloc);
    datagrams.push(first_from(alloc, start)?)?;
    let mut server = server_of(alloc, &datagrams)?;
    for letter in letters {
        add_letter(alloc, &mut server, letter.as_bytes(), &mut datagrams)?;
    }
    Ok(datagrams)
}

// Returns true if an end passes all changes of each of these.
fn stands_all<S: Stands>(alloc: Global, end: &S, datagrams: &[Vec<u8>]) -> bool {
    for datagram in datagrams {
        if first_fall(alloc, end, datagram) != None {
            return false;
        }
    }
    true
}

// Returns true if both ends pass all changes of the datagrams from and to an instance.
fn both_stand(alloc: Global, start: Start, letters: &[&str]) -> bool {
    match (
        served_at_first(alloc),
        followed_by(alloc, start),
        datagrams_of(alloc, start, letters),
    ) {
        (Ok(served), Ok(followed), Ok(datagrams)) => stands_all(alloc, &served, &datagrams)
            && stands_all(alloc, &followed, &datagrams),
        _ => false,
    }
}

#[test]
fn each_changed_byte_in_version_1(rt: HostRuntime) {
    assert!(rt; both_stand(rt.alloc(), STARTS[0], &["", "a", "b", "c"]));
}

#[test]
fn each_changed_byte_in_version_2(rt: HostRuntime) {
    assert!(rt; both_stand(rt.alloc(), STARTS[1], &["a"]));
}

#[test]
fn each_changed_byte_of_one_who_watches(rt: HostRuntime) {
    assert!(rt; both_stand(rt.alloc(), STARTS[2], &["a"]));
}
