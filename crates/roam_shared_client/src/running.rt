//! The whole run of a client instance that stays while outer terminals come and go.
ghost use Rattle.std.specs.Prelude.{◌≡◌, ◌∷◌, [], ℕ, is_some};
ghost use Rattle.std.specs.Io.KnownBytes.{WriteAppends};
ghost use Rattle.roam_shared_client.specs.Running.{Rests, Runs, RunsOut, TakesIn, TakesTurn, full_text, is_for_good, longest_rest, within};
ghost use Rattle.roam_turns.specs.Calls.{Tells};
ghost use Rattle.roam_turns.specs.Calls.DoorCall.{Came, HasEnded, Rested, Slept};
ghost use Rattle.roam_turns.specs.Calls.PortCall.{Asked};

use crate::listening::Listening;
use crate::sharing::{LONGEST_END, MOST_TERMINALS, SharedClient};
use roam_hub::Addr;
use roam_outer_terminal::{Duplex, End, Silence};
use roam_turns::Ports;
use std::alloc::Global;
use std::io;

/// So many rounds end with the machine.
const FOR_GOOD: u64 = u64::MAX;

/// How many terminals are asked for at most before a round.
const MOST_ASKED: usize = 64;

/// The text for a terminal above sixteen.
const FULL: &[u8] = b"full\n";

/// How many milliseconds an instance waits at most whose rounds are counted, so that they end by themselves.
const SHORT: u64 = 10;

/// The door for outer terminals, at which their instance rests between two rounds: a socket, or memory in a test. It has the instance's
/// ports, and records its own calls among theirs.
pub trait Door<S>: Ports {
    /// Returns the stream of a new terminal, if there is one.
    fn next(&mut self) -> Option<S>
        ensures tells { Tells (Self.told self.old) (Self.told self.new) (Asked (Came (is_some result)) ∷ []) };

    /// Returns true if the server is known to have ended.
    fn has_ended(&mut self) -> bool
        ensures tells { Tells (Self.told self.old) (Self.told self.new) (Asked (HasEnded result) ∷ []) };

    /// Waits for input, at most so many milliseconds, 0 for no wait, and no longer than until a due moment.
    fn rest(&mut self, longest: u64, due: Option<u64>)
        ensures tells { Tells (Self.told self.old) (Self.told self.new) (Asked (Rested longest due) ∷ []) };

    /// Waits until a terminal connects, the server has news, or it has ended, at most so many milliseconds. Before the due moment any input
    /// ends the wait; after it, input without news is dropped.
    fn sleep(&mut self, longest: u64, due: Option<u64>)
        ensures tells { Tells (Self.told self.old) (Self.told self.new) (Asked (Slept longest) ∷ []) };
}

// Says to one above sixteen that there is no room, and returns how much of that it took.
fn turn_away<S: Duplex + Drop>(stream: &mut S) -> io::Result<usize>
    ensures says { WriteAppends (S.contents stream.old) (S.contents stream.new) result full_text }
{
    stream.write_some(FULL)
}

// Adds new terminals. Those above sixteen get a reason and are dropped. So are those for which memory is refused: they may connect again.
fn take_in<S: Duplex + Drop, D: Door<S> + Drop>(
    alloc: Global,
    shared: &mut SharedClient<S>,
    door: &mut Listening<D>,
    to: Addr,
)
    ensures runs { Runs S.remaining S.contents to (D.told door.old.ports) (D.told door.new.ports) shared.old shared.new }
    ensures takes { TakesIn (D.told door.old.ports) (D.told door.new.ports) shared.old shared.new }
    ensures others { door.new ≡ record door.old { ports = door.new.ports } }
{
    for _ in 0..MOST_ASKED {
        let Some(mut stream) = door.next() else {
            return;
        };
        if shared.len() >= MOST_TERMINALS {
            // A terminal that accepts no bytes gets no reason.
            let _ = turn_away(&mut stream);
        } else {
            let _ = shared.add(alloc, stream);
        }
    }
}

// Returns the wait, at most so many milliseconds on this condition.
fn within(is_so: bool, longest: u64, wait: u64) -> u64
    ensures wait { result ≡ within is_so longest wait }
{
    if is_so { wait.min(longest) } else { wait }
}

// How many milliseconds are rested at most after a round that answered so.
fn longest_rest<S: Duplex + Drop>(
    shared: &SharedClient<S>,
    silence: Silence,
    wait: u64,
    rounds: u64,
) -> u64
    ensures rest { result ≡ longest_rest shared.now silence wait rounds }
{
    let while_there = within(shared.len() > 0, silence.wait(), wait);
    let while_ending = within(shared.is_ending(), LONGEST_END, while_there);
    within(rounds != FOR_GOOD, SHORT, while_ending)
}

// Rests after a round, at most so many milliseconds: until the instance's next due work, or longer if no terminal is there and no work is
// left.
fn rest_behind<S: Duplex + Drop, D: Door<S> + Drop>(
    shared: &SharedClient<S>,
    door: &mut Listening<D>,
    longest: u64,
)
    ensures rests { Rests longest (D.told door.old.ports) (D.told door.new.ports) shared.now }
    ensures silence { door.new.silence ≡ door.old.silence }
{
    if shared.is_idle() {
        door.sleep(longest, shared.client().next_due());
    } else {
        door.rest(longest, shared.client().next_due());
    }
}

// Takes a turn of a run: adds new terminals, takes a round, and rests. At the end it returns what was heard of the server.
fn take_turn<S: Duplex + Drop, D: Door<S> + Drop>(
    alloc: Global,
    shared: &mut SharedClient<S>,
    door: &mut Listening<D>,
    to: Addr,
    rounds: u64,
) -> Option<End>
    ensures runs { Runs S.remaining S.contents to (D.told door.old.ports) (D.told door.new.ports) shared.old shared.new }
    ensures takes { TakesTurn S.remaining S.contents to rounds door.new.silence result (D.told door.old.ports) (D.told door.new.ports)
        shared.old shared.new }
{
    take_in(alloc, shared, door, to);
    let wait = shared.round(alloc, door, to);
    if door.has_ended() {
        return Some(End::Gone);
    }
    let silence = door.silence();
    if shared.is_over(silence) {
        return Some(silence.end());
    }
    rest_behind(shared, door, longest_rest(shared, silence, wait, rounds));
    None
}

/// Runs the instance of all outer terminals that connect to a door, for at most so many rounds: adds new ones, takes a round, and rests.
/// Returns what was heard of the server at the end. The run also ends if a terminal asks for that and all typed acts are acknowledged, or a
/// second passed.
pub fn run_shared<S: Duplex + Drop, D: Door<S> + Drop>(
    alloc: Global,
    shared: &mut SharedClient<S>,
    door: &mut Listening<D>,
    to: Addr,
    rounds: u64,
) -> End
    ensures runs { Runs S.remaining S.contents to (D.told door.old.ports) (D.told door.new.ports) shared.old shared.new }
    ensures out { RunsOut S.remaining S.contents to rounds door.new.silence result (D.told door.old.ports) (D.told door.new.ports)
        shared.old shared.new }
{
    for _ in 0..rounds {
        if let Some(end) = take_turn(alloc, shared, door, to, rounds) {
            return end;
        }
    }
    door.silence().end()
}
