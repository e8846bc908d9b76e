//! How fast the two cores work, and how much memory they keep.
use crate::words;
use anyhow::bail;
use roam_cells::Fault;
use roam_hub::{Addr, Client, Server};
use roam_screens::{RowShot, Seen};
use std::alloc::Global;
use std::env::Args;
use std::time::Instant;

const SESSION: u64 = 0x5E55;

/// Where all client instances are, but for those of a crowd.
const THERE: Addr = Addr {
    host: [127, 0, 0, 1],
    port: 5001,
};

/// The first output of a pane's program, repeated so many times.
static TEXT: &[u8] = b"the quick brown fox jumps over the lazy dog and comes back again";

const PIECES: u16 = 500;

/// The output for a changed row: the cursor home, and 64 characters.
static ROWS: [&[u8]; 2] = [
    b"\x1B[Habcdefghijklmnopqrstuvwxyzabcdefghijklmnopqrstuvwxyzabcdefghijkl",
    b"\x1B[Hzyxwvutsrqponmlkjihgfedcbazyxwvutsrqponmlkjihgfedcbazyxwvutsrqpo",
];

/// The output for a key: the cursor home, and a character.
static KEYS: [&[u8]; 2] = [b"\x1B[Ha", b"\x1B[Hb"];

/// The output for a scroll: a line feed in the last row, and another line.
static SCROLLS: [&[u8]; 2] = [
    b"\x1B[999;1H\r\n$ cargo build",
    b"\x1B[999;1H\r\n   Compiling roam",
];

/// The output for a redraw: all places at once (DECALN), and none.
static REDRAWS: [&[u8]; 2] = [b"\x1B#8", b"\x1B[2J"];

/// A server and one client instance, at a moment.
#[derive(Drop)]
struct Pair {
    server: Server,
    client: Client,
    now: u64,
}

fn heard_from(
    alloc: Global,
    server: &mut Server,
    from: Addr,
    texts: &[Vec<u8>],
    now: u64,
) -> Result<(), Fault> {
    for text in texts {
        if let Err(stop) = server.datagram(alloc, from, text, now) {
            return Err(stop.fault);
        }
    }
    Ok(())
}

fn heard(alloc: Global, server: &mut Server, texts: &[Vec<u8>], now: u64) -> Result<(), Fault> {
    heard_from(alloc, server, THERE, texts, now)
}

fn greet(alloc: Global, server: &mut Server, client: &mut Client) -> Result<(), Fault> {
    let texts = client.tick(alloc, 0)?;
    heard(alloc, server, &texts, 0)
}

// A client instance whose first datagram came to the server.
fn greeted(alloc: Global, server: &mut Server, id: u64) -> Result<Client, Fault> {
    let mut client = Client::new(alloc, SESSION, id)?;
    greet(alloc, server, &mut client)?;
    Ok(client)
}

// So many client instances are known, and the pane is written all over.
fn fill(alloc: Global, server: &mut Server, starts: u64) -> Result<(), Fault> {
    for id in 0..starts {
        greeted(alloc, server, id)?;
    }
    for _ in 0..PIECES {
        server.pane_bytes(1, TEXT)?;
    }
    server.tick(alloc, 0)?;
    Ok(())
}

// Returns a server with a full pane and so many client instances. An owner of a server does nothing else, since each of its exits is proved
// with all that is dropped there.
fn server_of(alloc: Global, rows: u16, cols: u16, starts: u64) -> Result<Server, Fault> {
    let mut server = Server::new(alloc, SESSION, rows, cols)?;
    fill(alloc, &mut server, starts)?;
    Ok(server)
}

// A server that knows so many client instances, of which the last is kept.
fn pair_of(alloc: Global, rows: u16, cols: u16, starts: u64) -> Result<Pair, Fault> {
    let mut server = server_of(alloc, rows, cols, starts.saturating_sub(1))?;
    let client = greeted(alloc, &mut server, starts)?;
    Ok(Pair {
        server,
        client,
        now: 0,
    })
}

// Ticks so often at one moment; no input comes.
fn idle_ticks(alloc: Global, server: &mut Server, times: u32) -> Result<u64, Fault> {
    let mut sum: u64 = 0;
    for _ in 0..times {
        sum = sum.wrapping_add(server.tick(alloc, 20)?.len() as u64);
    }
    Ok(sum)
}

fn copies(alloc: Global, shot: &RowShot, times: u32) -> Result<u64, Fault> {
    let mut sum: u64 = 0;
    for _ in 0..times {
        sum = sum.wrapping_add(u64::from(shot.copy(alloc)?.rows()));
    }
    Ok(sum)
}

// The nanoseconds of a tick after these bytes and of its datagrams at the client instance, and the datagrams' bytes. The answer that is
// owed goes back unmeasured.
fn round(rt: &HostRuntime, pair: &mut Pair, piece: &[u8]) -> anyhow::Result<(u128, u64)> {
    let alloc = rt.alloc();
    pair.server.pane_bytes(1, piece)?;
    pair.now = pair.now.wrapping_add(120);
    let mut bytes: u64 = 0;
    let start = Instant::now(rt)?;
    for (_, text) in pair.server.tick(alloc, pair.now)?.iter() {
        pair.client.datagram(alloc, text, pair.now)?;
        bytes = bytes.wrapping_add(text.len() as u64);
    }
    let passed = start.elapsed(rt)?.as_nanos();
    let later = pair.now.wrapping_add(100);
    let answers = pair.client.tick(alloc, later)?;
    heard(alloc, &mut pair.server, &answers, later)?;
    Ok((passed, bytes))
}

// So many rounds, with these pieces by turns.
fn rounds(
    rt: &HostRuntime,
    pair: &mut Pair,
    pieces: &[&[u8]; 2],
    times: u32,
) -> anyhow::Result<(u128, u64)> {
    let mut passed: u128 = 0;
    let mut bytes: u64 = 0;
    for k in 0..times {
        let one = round(rt, pair, pieces[(k % 2) as usize])?;
        passed = passed.wrapping_add(one.0);
        bytes = bytes.wrapping_add(one.1);
    }
    Ok((passed, bytes))
}

// The address of one of several client instances: each is at a port of its own, its place among them.
fn at_port(port: u16) -> Addr {
    Addr {
        host: [127, 0, 0, 1],
        port,
    }
}

// Gives the server the datagrams of each client instance.
fn answer_all(
    alloc: Global,
    server: &mut Server,
    clients: &mut [Client],
    now: u64,
) -> Result<(), Fault> {
    let mut port: u16 = 0;
    for client in clients {
        let texts = client.tick(alloc, now)?;
        heard_from(alloc, server, at_port(port), &texts, now)?;
        port = port.wrapping_add(1);
    }
    Ok(())
}

// Datagrams come to the client instances at their ports.
fn bring(
    alloc: Global,
    clients: &mut [Client],
    parcels: &[(Addr, Vec<u8>)],
    now: u64,
) -> Result<(), Fault> {
    for (to, text) in parcels {
        if let Some(client) = clients.get_mut(usize::from(to.port)) {
            client.datagram(alloc, text, now)?;
        }
    }
    Ok(())
}

// The nanoseconds of a tick after these bytes at a moment. Its datagrams come to the client instances, and their answers go back,
// unmeasured.
fn crowd_tick(
    rt: &HostRuntime,
    server: &mut Server,
    clients: &mut [Client],
    now: u64,
    piece: &[u8],
) -> anyhow::Result<u128> {
    let alloc = rt.alloc();
    server.pane_bytes(1, piece)?;
    let start = Instant::now(rt)?;
    let parcels = server.tick(alloc, now)?;
    let passed = start.elapsed(rt)?.as_nanos();
    bring(alloc, clients, &parcels, now)?;
    answer_all(alloc, server, clients, now.wrapping_add(100))?;
    Ok(passed)
}

// So many ticks, each after a key, from one of this number on.
fn crowd_ticks(
    rt: &HostRuntime,
    server: &mut Server,
    clients: &mut [Client],
    first: u64,
    times: u32,
) -> anyhow::Result<u128> {
    let mut passed: u128 = 0;
    for k in 0..u64::from(times) {
        let now = first.wrapping_add(k).wrapping_mul(120);
        let one = crowd_tick(rt, server, clients, now, KEYS[(k % 2) as usize])?;
        passed = passed.wrapping_add(one);
    }
    Ok(passed)
}

// The nanoseconds of ticks of a server with these client instances.
fn measured_among(
    rt: &HostRuntime,
    server: &mut Server,
    clients: &mut [Client],
    times: u32,
) -> anyhow::Result<u128> {
    answer_all(rt.alloc(), server, clients, 0)?;
    // The first tick brings the whole screen.
    crowd_ticks(rt, server, clients, 1, 2)?;
    crowd_ticks(rt, server, clients, 3, times)
}

fn new_clients(alloc: Global, starts: u64) -> Result<Vec<Client>, Fault> {
    let mut clients = Vec::new(alloc);
    for id in 0..starts {
        clients.push(Client::new(alloc, SESSION, id)?)?;
    }
    Ok(clients)
}

// The nanoseconds of ticks with so many client instances.
fn measured_crowd(
    rt: &HostRuntime,
    size: (u16, u16),
    starts: u64,
    times: u32,
) -> anyhow::Result<u128> {
    let mut server = server_of(rt.alloc(), size.0, size.1, 0)?;
    let mut clients = new_clients(rt.alloc(), starts)?;
    measured_among(rt, &mut server, &mut clients, times)
}

/// The measured work of a pair.
#[derive(Clone, Copy)]
enum What {
    /// Copies of the face.
    Copy,
    /// Ticks without input.
    Idle,
    /// Rounds after these pieces by turns.
    Rounds(&'static [&'static [u8]; 2]),
}

fn measure_copies(rt: &HostRuntime, shot: &RowShot, times: u32) -> anyhow::Result<(u128, u64)> {
    let start = Instant::now(rt)?;
    let sum = copies(rt.alloc(), shot, times)?;
    Ok((start.elapsed(rt)?.as_nanos(), sum))
}

// The first tick brings the last instance its first screen.
fn measure_idle(rt: &HostRuntime, server: &mut Server, times: u32) -> anyhow::Result<(u128, u64)> {
    idle_ticks(rt.alloc(), server, 1)?;
    let start = Instant::now(rt)?;
    let sum = idle_ticks(rt.alloc(), server, times)?;
    Ok((start.elapsed(rt)?.as_nanos(), sum))
}

fn measure_what(
    rt: &HostRuntime,
    pair: &mut Pair,
    what: What,
    times: u32,
) -> anyhow::Result<(u128, u64)> {
    match what {
        What::Copy => measure_copies(rt, &pair.server.face(rt.alloc())?, times),
        What::Idle => measure_idle(rt, &mut pair.server, times),
        What::Rounds(pieces) => {
            // The first round brings the whole screen.
            rounds(rt, pair, pieces, 2)?;
            rounds(rt, pair, pieces, times)
        }
    }
}

// The nanoseconds that something takes of a new pair, and a number that depends on the work.
fn measured(
    rt: &HostRuntime,
    size: (u16, u16),
    starts: u64,
    what: What,
    times: u32,
) -> anyhow::Result<(u128, u64)> {
    let mut pair = pair_of(rt.alloc(), size.0, size.1, starts)?;
    measure_what(rt, &mut pair, what, times)
}

// So many client instances, from each of which a datagram came to the server.
fn starts_of(alloc: Global, server: &mut Server, starts: u64) -> Result<Vec<Client>, Fault> {
    let mut clients = Vec::new(alloc);
    for id in 0..starts {
        clients.push(greeted(alloc, server, id)?)?;
    }
    Ok(clients)
}

// Offers one more screen, and gives each client instance its own. None is acknowledged.
fn offer(alloc: Global, server: &mut Server, clients: &mut [Client], k: u64) -> Result<u64, Fault> {
    server.pane_bytes(1, ROWS[(k % 2) as usize])?;
    let mut sum: u64 = 0;
    for (_, text) in server.tick(alloc, k.wrapping_mul(20))?.iter() {
        for client in clients.iter_mut() {
            sum = sum.wrapping_add(u64::from(client.datagram(alloc, text, 0).is_ok()));
        }
    }
    Ok(sum)
}

fn keep_for(
    alloc: Global,
    server: &mut Server,
    starts: u64,
    with_starts: bool,
) -> Result<u64, Fault> {
    let mut clients = starts_of(alloc, server, starts)?;
    if !with_starts {
        clients.clear();
    }
    let mut sum: u64 = 0;
    for k in 1..8u64 {
        sum = sum.wrapping_add(offer(alloc, server, &mut clients, k)?);
    }
    Ok(sum)
}

// Keeps eight screens for each of so many instances, and, if the instances are kept too, eight at each.
fn keep(alloc: Global, starts: u64, with_starts: bool) -> Result<u64, Fault> {
    let mut server = server_of(alloc, 24, 80, 0)?;
    keep_for(alloc, &mut server, starts, with_starts)
}

/// Does two rounds and two ticks, and keeps some screens.
pub fn try_once(rt: &HostRuntime) -> anyhow::Result<()> {
    measured(rt, (24, 80), 1, What::Rounds(&KEYS), 2)?;
    measured_crowd(rt, (24, 80), 2, 2)?;
    if keep(rt.alloc(), 2, true)? == 0 {
        bail!("no screen came");
    }
    Ok(())
}

/// Ticks, and takes rounds, at the size in the words, that many times. The ticks after a key are for one client instance and for nine.
pub fn measure(rt: &HostRuntime, words: &mut Args) -> anyhow::Result<()> {
    let rows = words::size(words, "ROWS")?;
    let cols = words::size(words, "COLS")?;
    let times = words::number(words, "TIMES")?;
    // By name, of a server that knows so many instances.
    let whats = [
        ("copy", 1, What::Copy),
        ("idle1", 1, What::Idle),
        ("idle64", 64, What::Idle),
        ("row", 1, What::Rounds(&ROWS)),
        ("scroll", 1, What::Rounds(&SCROLLS)),
        ("redraw", 1, What::Rounds(&REDRAWS)),
        ("echo", 1, What::Rounds(&KEYS)),
    ];
    for (name, starts, what) in whats {
        let (passed, sum) = measured(rt, (rows, cols), starts, what, times)?;
        println!(rt; "{name} {times} {passed} {sum}")?;
    }
    for (name, starts) in [("ticks1", 1), ("ticks8", 8), ("ticks64", 64)] {
        let passed = measured_crowd(rt, (rows, cols), starts, times)?;
        println!(rt; "{name} {times} {passed} {starts}")?;
    }
    Ok(())
}

/// Keeps eight screens for each of so many client instances, which are kept too or not.
pub fn measure_kept(rt: &HostRuntime, words: &mut Args, with_starts: bool) -> anyhow::Result<()> {
    let starts = words::number(words, "N")?;
    keep(rt.alloc(), u64::from(starts), with_starts)?;
    Ok(())
}
