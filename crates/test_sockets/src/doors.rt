//! Whole runs of an instance whose terminal connects to a door in memory, without a server.
use roam_hub::{Addr, Client};
use roam_outer_terminal::{End, Opaque};
use roam_shared_client::{Door, Listening, SharedClient, run_shared};
use roam_sockets::loopback;
use roam_turns::{MemoryPorts, Ports};
use std::alloc::Global;
use std::io;
use std::io::{ErrorKind, Read, Write};
use std::test::*;

/// A terminal in memory, which types a text and stays. It takes all that it is painted.
#[derive(Drop)]
pub struct TypedStream<'a> {
    text: &'a [u8],
}

impl<'a> TypedStream<'a> {
    pub fn new(text: &'a str) -> TypedStream<'a> {
        TypedStream {
            text: text.as_bytes(),
        }
    }
}

impl<'a> Read for TypedStream<'a> {
    fn read(&mut self, buf: &mut [u8]) -> io::Result<usize> {
        if self.text.is_empty() {
            return Err(io::Error::from(ErrorKind::WouldBlock));
        }
        self.text.read(buf)
    }
}

impl<'a> Write for TypedStream<'a> {
    fn write(&mut self, bytes: &[u8]) -> io::Result<usize> {
        Ok(bytes.len())
    }

    fn flush(&mut self) -> io::Result<()> {
        Ok(())
    }
}

/// A door in memory: its terminal, whether the server has ended, and how often and how many milliseconds the instance rested. Its clock
/// goes on by the whole rest.
#[derive(Drop)]
struct MemoryDoor<'a> {
    ports: MemoryPorts,
    coming: Option<TypedStream<'a>>,
    has_ended: bool,
    rests: u64,
    moment: u64,
}

impl<'a> Ports for MemoryDoor<'a> {
    fn now(&mut self) -> u64 {
        self.ports.now()
    }

    fn receive(&mut self, buf: &mut [u8]) -> Option<(Addr, usize)> {
        self.ports.receive(buf)
    }

    fn send(&mut self, to: Addr, bytes: &[u8]) -> bool {
        self.ports.send(to, bytes)
    }

    fn pane_generations(&mut self, pane: u8, generation: Option<u64>) {
        self.ports.pane_generations(pane, generation);
    }

    fn pane_in(&mut self, pane: u8, buf: &mut [u8]) -> Option<usize> {
        self.ports.pane_in(pane, buf)
    }

    fn pane_out(&mut self, pane: u8, bytes: &[u8]) -> usize {
        self.ports.pane_out(pane, bytes)
    }

    fn show(&mut self, bytes: &[u8]) -> bool {
        self.ports.show(bytes)
    }
}

impl<'a> Door<Opaque<TypedStream<'a>>> for MemoryDoor<'a> {
    fn next(&mut self) -> Option<Opaque<TypedStream<'a>>> {
        let typing = self.coming.take()?;
        Some(Opaque::new(typing))
    }

    fn has_ended(&mut self) -> bool {
        self.has_ended
    }

    fn rest(&mut self, longest: u64, _due: Option<u64>) {
        self.rests = self.rests.saturating_add(1);
        self.moment = self.moment.saturating_add(longest);
        self.ports.set_moment(self.moment);
    }

    fn sleep(&mut self, longest: u64, due: Option<u64>) {
        self.rest(longest, due);
    }
}

/// A run: the typed text, or no terminal; whether the server has ended; the most rounds; the expected end, the number and length of rests,
/// and the number of typed acts.
struct Run {
    text: Option<&'static str>,
    has_ended: bool,
    rounds: u64,
    end: End,
    rests: u64,
    rested: u64,
    acts: usize,
}

impl Run {
    // Returns true if the run goes as expected.
    fn is_so(&self, alloc: Global) -> Result<bool, Fail> {
        let mut shared = SharedClient::new(alloc, Client::new(alloc, 1, 0xA1)?);
        let mut door = Listening::new(MemoryDoor {
            ports: MemoryPorts::new(alloc),
            coming: self.text.map(|text| TypedStream::new(text)),
            has_ended: self.has_ended,
            rests: 0,
            moment: 0,
        });
        let end = run_shared(alloc, &mut shared, &mut door, loopback(5000), self.rounds);
        let acts = shared.client().unacknowledged();
        let rested = (door.ports().rests, door.ports().moment);
        Ok(end == self.end && rested == (self.rests, self.rested) && acts == self.acts)
    }
}

/// No terminal connects; and a terminal types: there is no rest after a line that was taken, and ten milliseconds if the rounds are
/// counted. One asks for the end, which no server acknowledges: the instance goes on for a second. The server has ended: the round after
/// that ends the run.
const RUNS: [Run; 4] = [
    Run {
        text: None,
        has_ended: false,
        rounds: 3,
        end: End::Unheard,
        rests: 3,
        rested: 30,
        acts: 0,
    },
    Run {
        text: Some("char 61\n"),
        has_ended: false,
        rounds: 5,
        end: End::Unheard,
        rests: 5,
        rested: 40,
        acts: 1,
    },
    Run {
        text: Some("char 61\nend\n"),
        has_ended: false,
        rounds: 10_000,
        end: End::Unheard,
        rests: 102,
        rested: 1000,
        acts: 1,
    },
    Run {
        text: Some("char 61\n"),
        has_ended: true,
        rounds: 5,
        end: End::Gone,
        rests: 0,
        rested: 0,
        acts: 1,
    },
];

/// The number of the first run that goes otherwise, from 0.
pub fn first_other_run(alloc: Global) -> Result<Option<usize>, Fail> {
    for (number, run) in RUNS.iter().enumerate() {
        if !run.is_so(alloc)? {
            return Ok(Some(number));
        }
    }
    Ok(None)
}
