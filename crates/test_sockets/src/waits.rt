//! A wait ends on input: a client instance, its bytes, or a datagram; the wait of an instance on an answer, or on a reported source. A wait
//! without input lasts no longer than it should.
use mio::net::UnixStream;
use roam_attach::Connection;
use roam_sockets::{Clients, Moments, Udp, Waits, listen, loopback};
use std::fs::create_dir;
use std::io::Write;
use std::test::*;
use std::time::Instant;

/// How many milliseconds a wait lasts that nothing ends.
const LONG: u64 = 20_000;

// Returns true if a wait ends long before that.
fn ends(rt: &HostRuntime, waits: &mut Waits) -> Result<bool, Fail> {
    let before = Instant::now(rt)?;
    waits.rest(LONG);
    let passed = before.elapsed(rt)?;
    Ok(passed.as_millis() < 10_000)
}

fn ends_for_a_start(rt: &HostRuntime) -> Result<bool, Fail> {
    let mut waits = Waits::new(rt, rt.alloc())?;
    let path = String::from_str(rt.alloc(), "waited")?;
    let mut clients = Clients::bind(rt, rt.alloc(), &waits, path)?;
    let mut start = UnixStream::connect(rt, "waited")?;
    let comes = ends(rt, &mut waits)?;
    clients.accept(rt.alloc(), &waits);
    // That something may be written to it is reported too.
    let is_written = ends(rt, &mut waits)?;
    let _ = start.write(b"a")?;
    let writes = ends(rt, &mut waits)?;
    clients.remove(rt);
    Ok(comes && is_written && writes)
}

fn ends_for_a_datagram(rt: &HostRuntime) -> Result<bool, Fail> {
    let mut waits = Waits::new(rt, rt.alloc())?;
    let udp = Udp::bind(rt, rt.alloc(), &waits, 0)?;
    let others = Waits::new(rt, rt.alloc())?;
    let mut other = Udp::bind(rt, rt.alloc(), &others, 0)?;
    let is_sent = other.send(loopback(udp.port()), b"a", 0);
    Ok(is_sent && ends(rt, &mut waits)?)
}

// Returns true if an instance's wait ends long before, or lasts fifty milliseconds.
fn is_rested(
    rt: &HostRuntime,
    connection: &mut Connection<&HostRuntime>,
    may_end: bool,
) -> Result<bool, Fail> {
    let before = Instant::now(rt)?;
    connection.rest(if may_end { LONG } else { 50 });
    let passed = before.elapsed(rt)?.as_millis();
    Ok(if may_end {
        passed < 10_000
    } else {
        passed >= 40
    })
}

fn ends_for_an_answer(rt: &HostRuntime) -> Result<bool, Fail> {
    create_dir(rt, "answered")?;
    let Some(listener) = listen(rt, "answered/clients") else {
        return Ok(false);
    };
    let mut connection = Connection::connect(rt, rt.alloc(), "answered", Moments::Set(0))?;
    let (mut server, _) = listener.accept()?;
    // That something may be written to it is reported too.
    let is_written = is_rested(rt, &mut connection, true)?;
    let lasts = is_rested(rt, &mut connection, false)?;
    let _ = server.write(b"a")?;
    let answers = is_rested(rt, &mut connection, true)?;
    let mut reported = UnixStream::connect(rt, "answered/clients")?;
    connection.report(&mut reported, false);
    let (mut other, _) = listener.accept()?;
    let _ = other.write(b"a")?;
    Ok(is_written && lasts && answers && is_rested(rt, &mut connection, true)?)
}

// Returns true if a hundred waits of a millisecond end within three seconds. On a busy machine each may take ten.
fn ends_in_time(rt: &HostRuntime) -> Result<bool, Fail> {
    let mut waits = Waits::new(rt, rt.alloc())?;
    let before = Instant::now(rt)?;
    for _ in 0..100 {
        waits.rest(1);
    }
    Ok(before.elapsed(rt)?.as_millis() < 3_000)
}

#[test]
fn a_wait_ends_where_something_comes(rt: HostRuntime) -> Result<(), Fail> {
    assert!(rt; ends_for_a_start(&rt)?);
    assert!(rt; ends_for_a_datagram(&rt)?);
    assert!(rt; ends_for_an_answer(&rt)?);
    assert!(rt; ends_in_time(&rt)?);
    Ok(())
}
