//! A client instance that stays while outer terminals come and go at its socket.
ghost use Rattle.std.specs.Prelude.{◌≡◌, ◌≢◌, ◌⊎◌, ◌≤◌, ◌-◌, Bool, ℕ, length, min, take, true, false, None, Some, is_some, IfErr, IfSome};
ghost use Rattle.roam_attach.specs.Ways.{Goes, IsFrom, MoreGoes, Sends, StillWaits, has_ended};
ghost use Rattle.roam_attach.specs.Sleeps.{HasNews, is_before, until, waking_after, woken_after, woken_at, woken_by};
ghost use Rattle.roam_attach.specs.declared.hosting.Doorway.{Doorway as DoorwayOf};
ghost use Rattle.roam_attach.specs.declared.hosting.Woken.TheVariants.{Input};
ghost use Rattle.roam_sockets.specs.declared.moments.Moments.{Moments};
ghost use Rattle.roam_sockets.specs.Waits.{wait_until};

use crate::arriving::Arrival;
use crate::connecting::Connection;
use mio::net::{UnixListener, UnixStream};
use roam_cells::Fault;
use roam_faults::RunFault;
use roam_hub::{Addr, Client};
use roam_outer_terminal::{End, Opaque};
use roam_shared_client::{Door, Listening, SharedClient, run_shared};
use roam_sockets::{listen, wait_until};
use roam_stream_framing::Stream;
use roam_turns::Ports;
use roam_wire::is_unchanging;
use std::alloc::Global;
use std::fs::{Files, remove_file};
use std::net::Net;
use std::time::Clock;

/// The server sends a heartbeat after three seconds of silence, unless it has forgotten the instance: so many milliseconds are longer.
const FORGOTTEN: u64 = 4_000;

/// A terminal that comes to an instance that was forgotten waits for the newest screen: at most so many times so many milliseconds.
const WAKES: u32 = 2;

const WAKING: u64 = 50;

/// How many bytes of a datagram are read at most.
const DATAGRAM: usize = 2048;

/// So many looks end with the machine.
const FOR_GOOD: u64 = u64::MAX;

// The socket at which outer terminals come, and the way of their instance to its server.
#[derive(Drop)]
struct Doorway<R> {
    listener: UnixListener,
    // One that came while the instance slept.
    came: Option<UnixStream>,
    clock: R,
    connection: Connection<R>,
    // When something came from the server last; and for how many rounds a terminal waits at most, so that it is shown no old screen.
    heard: u64,
    waking: u32,
}

// Why the sleep of an instance without outer terminals ends.
#[derive(Clone, Copy)]
enum Woken {
    // A terminal came.
    Terminal,
    // The server sent news.
    News,
    // The server has ended.
    Ended,
    // Input came before anything was due.
    Input,
    // The longest time is over.
    Time,
}

// Returns true if a datagram of so many bytes came and has news.
fn has_news(buf: &[u8], came: Option<usize>) -> bool
    requires within { IfSome came (λ n. n ≤ length buf.now) }
    ensures none { came ≡ None → result ≡ false }
    ensures news { IfSome came (λ n. HasNews (take n buf.now) result) }
{
    match came {
        Some(len) => !is_unchanging(buf.split_at(len).0),
        None => false,
    }
}

// Returns why a sleep ends before it waits again; `None` if it goes on.
fn woken_by(
    has_come: bool,
    is_light: bool,
    has_news: bool,
    has_ended: bool,
    is_over: bool,
) -> Option<Woken>
    ensures woken { result ≡ woken_by has_come is_light has_news has_ended is_over }
{
    if has_come {
        Some(Woken::Terminal)
    } else if !is_light && has_news {
        Some(Woken::News)
    } else if !is_light && has_ended {
        Some(Woken::Ended)
    } else if is_over {
        Some(Woken::Time)
    } else {
        None
    }
}

// The terminal that came before, or one that comes now.
fn first_at<R: Clock + Drop>(
    came: &mut Option<UnixStream>,
    listener: &UnixListener,
    connection: &Connection<R>,
) -> Option<UnixStream>
    ensures none { result ≡ None → came.new ≡ came.old }
    ensures taken { came.new ≡ None }
{
    if let Some(stream) = came.take() {
        return Some(stream);
    }
    let Ok((mut stream, _)) = listener.accept() else {
        return None;
    };
    connection.report(&mut stream, true);
    Some(stream)
}

impl<R: Clock + Drop> Doorway<R> {
    // Drops a datagram that came while the instance sleeps, and returns how many bytes of `buf` it filled: the server sends it again.
    fn hear(&mut self, buf: &mut [u8]) -> Option<usize>
        ensures within { IfSome result (λ n. n ≤ length buf.new) }
        ensures heard { IfSome result (λ _. self.new.heard ≡ self.old.connection.moment) }
        ensures silent { result ≡ None → self.new.heard ≡ self.old.heard }
        ensures moment { self.new.connection.moment ≡ self.old.connection.moment }
        ensures others { self.new ≡ record self.old { connection = self.new.connection; heard = self.new.heard } }
    {
        let (_, len) = self.connection.receive(buf)?;
        self.heard = self.connection.moment();
        Some(len)
    }

    // Looks whether a terminal came while the instance sleeps.
    fn is_woken_by_terminal(&mut self) -> bool
        ensures came { result ≡ is_some self.new.came }
        ensures others { self.new ≡ record self.old { came = self.new.came } }
    {
        self.came = first_at(&mut self.came, &self.listener, &self.connection);
        self.came.is_some()
    }

    // Notes that the instance wakes for a terminal: if the server has forgotten the instance, its screen may be old.
    fn wake(&mut self)
        ensures wakes { self.new ≡ record self.old { waking = waking_after (self.old.connection.moment - self.old.heard) } }
    {
        let silent = self.connection.moment().saturating_sub(self.heard);
        self.waking = if silent >= FORGOTTEN { WAKES } else { 0 };
    }

    // Returns why a sleep that began at a moment ends before it waits again; `None` if it goes on.
    fn woken(&self, has_news: bool, begun: u64, longest: u64, due: Option<u64>) -> Option<Woken>
        ensures woken { result ≡ woken_at self.now has_news begun longest due }
    {
        let now = self.connection.moment();
        woken_by(
            self.came.is_some(),
            is_before(now, due),
            has_news,
            self.connection.has_ended(),
            now.saturating_sub(begun) >= longest,
        )
    }

    // Waits until something is due, or the sleep is over. Returns `Input` if the wait ended before it was due.
    fn doze(&mut self, begun: u64, longest: u64, due: Option<u64>) -> Option<Woken>
        ensures input { result ≡ woken_after self.old.connection.moment self.new.connection.moment due }
        ensures waited { IfSome self.new.connection.waits.longest (λ long.
            long ≡ min (until due self.old.connection.moment) (longest - (self.old.connection.moment - begun))) }
        ensures came { self.new.came ≡ self.old.came }
        ensures heard { self.new.heard ≡ self.old.heard }
    {
        let before = self.connection.moment();
        let left = longest.saturating_sub(before.saturating_sub(begun));
        self.connection.rest(until(due, before).min(left));
        if is_before(before, due) && is_before(self.connection.now(), due) {
            return Some(Woken::Input);
        }
        None
    }

    // Does one round of a sleep that began at a moment, and returns why the sleep ends; `None` if it goes on. Until something is due for the
    // server nothing is read of it.
    fn sleep_once(&mut self, begun: u64, longest: u64, due: Option<u64>) -> Option<Woken>
        ensures ends { IfSome result (λ why. (why ≡ Input) ⊎ ((has_news : Bool) × (Some why ≡ woken_at self.new has_news begun longest due))) }
        ensures goes_on { result ≡ None → (mid : DoorwayOf R) × (has_news : Bool) × (woken_at mid has_news begun longest due ≡ None)
            × (woken_after mid.connection.moment self.new.connection.moment due ≡ None) × (self.new.came ≡ mid.came) }
    {
        let mut buf = [0; DATAGRAM];
        let now = self.connection.now();
        let mut came = None;
        if !self.is_woken_by_terminal() && !is_before(now, due) {
            came = self.hear(&mut buf);
        }
        if let Some(why) = self.woken(has_news(&buf, came), begun, longest, due) {
            return Some(why);
        }
        self.doze(begun, longest, due)
    }
}

// Returns true if a moment is before another one, if there is one.
fn is_before(now: u64, due: Option<u64>) -> bool
    ensures before { result ≡ is_before now due }
{
    match due {
        None => false,
        Some(due) => now < due,
    }
}

// Returns the milliseconds until a moment; an hour if there is none or it is past.
fn until(due: Option<u64>, now: u64) -> u64
    ensures until { result ≡ until due now }
{
    match due {
        Some(due) if due > now => due - now,
        _ => wait_until(None, now),
    }
}

impl<R: Clock + Drop> Ports for Doorway<R> {
    fn now(&mut self) -> u64
        ensures set { (moment : ℕ) → self.old.connection.moments ≡ Moments.Set moment → result ≡ moment }
        ensures moment { self.new.connection.moment ≡ result }
    {
        self.connection.now()
    }

    fn receive(&mut self, buf: &mut [u8]) -> Option<(Addr, usize)>
        ensures within { IfSome result (λ r. r.1 ≤ length buf.new) }
        ensures from { IfSome result (λ r. IsFrom self.old.connection.way r.0) }
        ensures stirs { IfSome result (λ _. self.new.connection.waits.quiet ≡ false) }
        ensures waiting { StillWaits self.old.connection.way self.new.connection.way }
    {
        let came = self.connection.receive(buf)?;
        self.heard = self.connection.moment();
        self.waking = 0;
        Some(came)
    }

    fn send(&mut self, to: Addr, bytes: &[u8]) -> bool
        ensures sends { Sends self.old.connection.moment to self.old.connection.way self.new.connection.way bytes.now result }
    {
        self.connection.send(to, bytes)
    }

    fn pane_generations(&mut self, pane: u8, generation: Option<u64>)
        ensures same { self.new ≡ self.old }
    {
        self.connection.pane_generations(pane, generation);
    }

    fn pane_in(&mut self, pane: u8, buf: &mut [u8]) -> Option<usize>
        ensures none { result ≡ None }
    {
        self.connection.pane_in(pane, buf)
    }

    fn pane_out(&mut self, pane: u8, bytes: &[u8]) -> usize
        ensures none { result ≡ 0 }
    {
        self.connection.pane_out(pane, bytes)
    }

    fn show(&mut self, bytes: &[u8]) -> bool
        ensures none { result ≡ false }
    {
        self.connection.show(bytes)
    }
}

impl<R: Clock + Copy + Drop> Door<Opaque<Arrival<R>>> for Doorway<R> {
    // A socket reports once, so there is no wait after a terminal connected: others may be there.
    fn next(&mut self) -> Option<Opaque<Arrival<R>>>
        ensures stirs { IfSome result (λ _. self.new.connection.waits.quiet ≡ false) }
        ensures none { result ≡ None → self.new ≡ self.old }
        ensures way { self.new.connection.way ≡ self.old.connection.way }
    {
        if self.waking > 0 {
            return None;
        }
        let stream = first_at(&mut self.came, &self.listener, &self.connection)?;
        self.connection.stir();
        Some(Opaque::new(Arrival::new(stream, self.clock)))
    }

    fn has_ended(&mut self) -> bool
        ensures ended { result ≡ has_ended self.old.connection.way }
        ensures same { self.new ≡ self.old }
    {
        self.connection.has_ended()
    }

    fn rest(&mut self, longest: u64, due: Option<u64>)
        ensures waited { IfSome self.new.connection.waits.longest (λ long. (longest ≢ 0)
            × (long ≡ min longest (wait_until due self.old.connection.moment))) }
        ensures goes { Goes ⟦<UnixStream as Stream>⟧.answers self.old.connection.moment self.old.connection.way self.new.connection.way }
        // It waits if no input arrived, unless more bytes can go at once.
        ensures busy { longest ≢ 0 → self.old.connection.waits.quiet ≡ true → self.new.connection.waits.longest ≡ None
            → MoreGoes ⟦<UnixStream as Stream>⟧.answers self.old.connection.way self.new.connection.way }
    {
        let wait = longest.min(wait_until(due, self.connection.moment()));
        if longest == 0 {
            self.connection.stir();
        }
        self.connection.rest(wait);
    }

    // Until something is due the instance waits as ever. From then on it says nothing, so the server stops sending after a minute without
    // news.
    fn sleep(&mut self, longest: u64, due: Option<u64>) {
        if self.waking > 0 {
            self.waking -= 1;
            self.connection.rest(longest.min(WAKING));
            return;
        }
        let begun = self.connection.moment();
        for _ in 0..FOR_GOOD {
            match self.sleep_once(begun, longest, due) {
                Some(Woken::Terminal) => return self.wake(),
                Some(_) => return,
                None => (),
            }
        }
    }
}

/// Runs the instance of all outer terminals that connect to a socket, for at most so many rounds. `Bind` if the socket can't be bound.
pub(crate) fn host<R: Files + Net, C: Clock + Copy + Drop>(
    rt: &R,
    alloc: Global,
    path: &str,
    rounds: u64,
    client: Client,
    connection: Connection<C>,
    clock: C,
    to: Addr,
) -> Result<End, RunFault>
    ensures faults { IfErr result (λ fault. fault ≡ RunFault.Bind) }
{
    let Some(mut listener) = listen(rt, path) else {
        return Err(RunFault::Bind);
    };
    connection.report(&mut listener, false);
    let mut shared = SharedClient::new(alloc, client);
    let mut door = Listening::new(Doorway {
        listener,
        came: None,
        clock,
        connection,
        heard: 0,
        waking: 0,
    });
    let end = run_shared(alloc, &mut shared, &mut door, to, rounds);
    // A file that somebody removed before is no matter.
    let _ = remove_file(rt, path);
    Ok(end)
}
