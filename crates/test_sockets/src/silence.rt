//! The notices of a client instance about a silent server, and an outer terminal that accepts nothing, as text.
//!
//! A line begins with a moment in milliseconds. The notice of the silence then leaves the outer terminal's screen `known` or `unknown`. Or
//! `shows TEXT` or `shows nothing for TEXT`; `reads TEXT`, which the outer terminal reads next, with `10 s` and `11 s` for the notices of
//! as many seconds; `hears`: a datagram arrives at the client instance; `is` and the state then.
use mio::net::UdpSocket;
use roam_attach::{ClientPorts, Connection};
use roam_outer_terminal::End;
use roam_sockets::{Moments, loopback};
use roam_turns::Ports;
use std::alloc::Global;
use std::io::{PipeReader, PipeWriter, Read, pipe};
use std::net::{IpAddr, Ipv4Addr, SocketAddr};
use std::os::fd::AsRawFd;
use std::test::*;

/// The notice of 10 seconds.
const TEN: &str =
    "\x1b7\x1b[?7l\x1b[999;1H\x1b[0;7mroam: no answer for 10 s\x1b[0m\x1b[K\x1b[?7h\x1b8";

/// The notice of 11 seconds.
const ELEVEN: &str =
    "\x1b7\x1b[?7l\x1b[999;1H\x1b[0;7mroam: no answer for 11 s\x1b[0m\x1b[K\x1b[?7h\x1b8";

// Returns true if the notice of the silence at this moment leaves the outer terminal known or unknown as expected.
fn tells(
    alloc: Global,
    ports: &mut ClientPorts<&HostRuntime, PipeWriter>,
    moment: u64,
    words: &str,
) -> bool {
    ports.set_moment(moment);
    let is_now = ports.now() == moment;
    let told = if ports.tell_silence(alloc) {
        "unknown"
    } else {
        "known"
    };
    is_now && words == told
}

fn reads(reader: &mut PipeReader, text: &str) -> bool {
    let mut buf = [0u8; 256];
    let wanted = match text {
        "10 s" => TEN,
        "11 s" => ELEVEN,
        _ => text,
    };
    match reader.read(&mut buf) {
        Ok(count) => &buf[..count] == wanted.as_bytes(),
        Err(_) => false,
    }
}

fn shows(ports: &mut ClientPorts<&HostRuntime, PipeWriter>, text: &str) -> bool {
    match text.strip_prefix("nothing for ") {
        Some(text) => !ports.show(text.as_bytes()),
        None => ports.show(text.as_bytes()),
    }
}

fn is_so(ports: &ClientPorts<&HostRuntime, PipeWriter>, words: &str) -> bool {
    match words {
        "unheard" => ports.end() == End::Unheard,
        "heard" => ports.end() == End::Heard,
        "silent for 10 s" => ports.end() == End::Silent(10),
        "failing" => ports.has_failed() && !ports.has_given_up(),
        "given up" => ports.has_given_up(),
        "sound" => !ports.has_failed() && !ports.has_given_up(),
        _ => false,
    }
}

// The client instance sends a datagram, and what answers it comes there.
fn hears(
    rt: &HostRuntime,
    ports: &mut ClientPorts<&HostRuntime, PipeWriter>,
) -> Result<bool, Fail> {
    let here = SocketAddr::new(IpAddr::V4(Ipv4Addr::new(127, 0, 0, 1)), 0);
    let server = UdpSocket::bind(rt, here)?;
    let is_sent = ports.send(loopback(server.local_addr()?.port()), b"hello");
    let (_, client) = server.recv_from(&mut [0u8; 16])?;
    let is_answered = server.send_to(b"hello", client)? == 5;
    Ok(is_sent && is_answered && ports.receive(&mut [0u8; 16]).is_some())
}

fn is_done(
    rt: &HostRuntime,
    ports: &mut ClientPorts<&HostRuntime, PipeWriter>,
    reader: &mut PipeReader,
    line: &str,
) -> Result<bool, Fail> {
    let (verb, rest) = line.split_once(' ').unwrap_or((line, ""));
    match verb {
        "hears" => hears(rt, ports),
        "shows" => Ok(shows(ports, rest)),
        "reads" => Ok(reads(reader, rest)),
        "is" => Ok(is_so(ports, rest)),
        _ => match verb.parse::<u64>() {
            Ok(moment) => Ok(tells(rt.alloc(), ports, moment, rest)),
            Err(_) => Ok(false),
        },
    }
}

// The first line that isn't so.
fn first_undone<'a>(
    rt: &HostRuntime,
    ports: &mut ClientPorts<&HostRuntime, PipeWriter>,
    reader: &mut PipeReader,
    lines: &'a str,
) -> Result<Option<&'a str>, Fail> {
    for line in lines.lines() {
        if !is_done(rt, ports, reader, line)? {
            return Ok(Some(line));
        }
    }
    Ok(None)
}

// The first line that isn't so of a client instance that paints into a pipe; a line that reads, reads there.
fn first_wrong_read<'a>(rt: &HostRuntime, lines: &'a str) -> Result<Option<&'a str>, Fail> {
    let (mut reader, writer) = pipe(rt)?;
    let connection = Connection::bind(rt, rt.alloc(), Moments::Set(0))?;
    let mut ports = ClientPorts::new(connection, writer);
    first_undone(rt, &mut ports, &mut reader, lines)
}

// Returns the first failing line if nobody reads the painted bytes; no line reads there.
fn first_wrong_unread<'a>(rt: &HostRuntime, lines: &'a str) -> Result<Option<&'a str>, Fail> {
    let (reader, writer) = pipe(rt)?;
    drop(reader);
    let connection = Connection::bind(rt, rt.alloc(), Moments::Set(0))?;
    let mut ports = ClientPorts::new(connection, writer);
    let (mut other, _) = pipe(rt)?;
    first_undone(rt, &mut ports, &mut other, lines)
}

// Returns true if the loss of the reader is seen only once it is gone.
fn sees_nobody(ports: &mut ClientPorts<&HostRuntime, Vec<u8>>, reader: PipeReader) -> bool {
    ports.rest();
    let is_early = ports.is_unread();
    drop(reader);
    ports.rest();
    !is_early && ports.is_unread()
}

fn is_nobody_seen(rt: &HostRuntime) -> Result<bool, Fail> {
    let (reader, writer) = pipe(rt)?;
    let painted = Vec::new(rt.alloc());
    let mut connection = Connection::bind(rt, rt.alloc(), Moments::Set(0))?;
    connection.watch(writer.as_raw_fd());
    let mut ports = ClientPorts::new(connection, painted);
    Ok(sees_nobody(&mut ports, reader))
}

// Returns the first failing line of a story: `read` if the painted bytes are read, `unread` if they aren't, or `nobody` if the descriptor's
// reader is gone.
fn first_wrong<'a>(rt: &HostRuntime, story: &'a str) -> Result<Option<&'a str>, Fail> {
    match story.split_once('\n') {
        Some(("read", lines)) => first_wrong_read(rt, lines),
        Some(("unread", lines)) => first_wrong_unread(rt, lines),
        _ if story == "nobody" && is_nobody_seen(rt)? => Ok(None),
        _ => Ok(Some(story)),
    }
}

// The first line of all stories, parted by empty lines, that isn't so.
fn first_wrong_of<'a>(rt: &HostRuntime, stories: &'a str) -> Result<Option<&'a str>, Fail> {
    for story in stories.split("\n\n") {
        let wrong = first_wrong(rt, story)?;
        if wrong.is_some() {
            return Ok(wrong);
        }
    }
    Ok(None)
}

/// The noted screen isn't the terminal's at the end: nothing is painted over it.
///
/// A silence ends once the server is heard.
///
/// Nobody reads: the notice of a silence isn't taken either.
const STORIES: &str = "\
read
9999 known
shows a
reads a
10000 known
reads 10 s
10999 known
11000 known
reads 11 s
shows nothing for b
is sound
is unheard

read
10000 known
reads 10 s
hears
10001 unknown
10002 known
shows c
reads c
is heard
20000 known
reads 10 s
is silent for 10 s

unread
100 known
shows nothing for a
is failing
599 known
shows nothing for a
is failing
600 known
is given up
10100 unknown

nobody";

#[test]
fn what_is_told_of_a_silence(rt: HostRuntime) -> Result<(), Fail> {
    assert_eq!(rt; first_wrong_of(&rt, STORIES)?, None);
    Ok(())
}
