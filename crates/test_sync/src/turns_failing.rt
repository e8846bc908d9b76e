//! Each call of a turn fails in turn: later turns bring all ends to the state without a failure.
ghost use Rattle.std.specs.Prelude.{◌≡◌, IfSome};
ghost use Rattle.roam_acts.specs.Acts.{IsInRange};
ghost use Rattle.roam_turns.specs.Painting.{IsBehind};

use crate::turns_plays::{Play, is_played};
use crate::turns_stage::{End, Stage, carry_down, carry_up, serve_at};
use roam_acts::{Act, Key};
use roam_cells::Fault;
use roam_screens::{Seen, Shot, row_text};
use roam_term::Term;
use roam_turns::MemoryPorts;
use roam_turns::memory::RecordedCall;
use std::alloc::Global;
use std::test::*;

/// The milliseconds from one round to the next: longer than an unacknowledged datagram waits.
const APART: u64 = 300;

/// Whose turn it is in which a call fails.
#[derive(Clone, Copy, PartialEq, Eq)]
pub enum Who {
    Server,
    First,
    Second,
}

/// A call that fails: of a turn in a round, by its number.
#[derive(Clone, Copy)]
pub struct Failure {
    round: u64,
    who: Who,
    call: u64,
}

/// No call.
pub const NONE: Failure = Failure {
    round: 0,
    who: Who::Server,
    call: 0,
};

/// Calls that fail, at most one of each turn.
#[derive(Clone, Copy)]
pub struct Failures {
    pub one: Failure,
    pub other: Failure,
}

impl Failure {
    fn is_in(&self, round: u64, who: Who) -> bool {
        self.call > 0 && self.round == round && self.who == who
    }
}

impl Failures {
    // The call that fails in a turn, or none.
    fn in_turn(&self, round: u64, who: Who) -> u64 {
        if self.one.is_in(round, who) {
            self.one.call
        } else if self.other.is_in(round, who) {
            self.other.call
        } else {
            0
        }
    }
}

// The first row once pane 1 wrote ab and pane 2, at its right, cd.
static TOP: &str =
    "ab                                     │cd                                      ";

// An act that is still to be typed.
fn next_of(is_due: bool, act: &Act) -> Option<&Act>
    requires in_range { IsInRange act.now }
    ensures in_range { IfSome result (λ next. IsInRange next.now) }
{
    if is_due { Some(act) } else { None }
}

// Gives the server the datagrams of the instances, takes its turn, and gives them its datagrams. Both programs write in round 2.
fn serve(alloc: Global, stage: &mut Stage, round: u64, fails: u64) -> Result<(), Fault>
    ensures first_client { stage.new.first.client ≡ stage.old.first.client }
    ensures first_outer { stage.new.first.outer ≡ stage.old.first.outer }
    ensures second_client { stage.new.second.client ≡ stage.old.second.client }
    ensures second_outer { stage.new.second.outer ≡ stage.old.second.outer }
{
    carry_up(&mut stage.first, &mut stage.ports)?;
    carry_up(&mut stage.second, &mut stage.ports)?;
    if round == 2 {
        stage.ports.write(1, b"ab")?;
        stage.ports.write(2, b"cd")?;
    }
    let now = round.wrapping_mul(APART);
    serve_at(alloc, &mut stage.server, &mut stage.ports, now, fails);
    carry_down(&stage.ports, &mut stage.first)?;
    carry_down(&stage.ports, &mut stage.second)
}

// A round: the first instance splits in round 0, and the second types a letter for pane 2 in round 4, after moment 1,000. An act that isn't
// taken waits for the next round.
fn play_round(alloc: Global, stage: &mut Stage, round: u64, failures: Failures) -> Result<(), Fault>
    requires first { IsBehind stage.old.first.outer stage.old.first.client.kept.receiver.newest.number
        stage.old.first.client.kept.receiver.newest.state }
    requires second { IsBehind stage.old.second.outer stage.old.second.client.kept.receiver.newest.number
        stage.old.second.client.kept.receiver.newest.state }
    ensures first { IsBehind stage.new.first.outer stage.new.first.client.kept.receiver.newest.number
        stage.new.first.client.kept.receiver.newest.state }
    ensures second { IsBehind stage.new.second.outer stage.new.second.client.kept.receiver.newest.number
        stage.new.second.client.kept.receiver.newest.state }
{
    let now = round.wrapping_mul(APART);
    let split = Act::SplitRight;
    let key = Act::Key(Key::Char('x'));
    let first = next_of(!stage.is_split, &split);
    let second = next_of(!stage.is_typed && round >= 4, &key);
    let first_fails = failures.in_turn(round, Who::First);
    let second_fails = failures.in_turn(round, Who::Second);
    stage.is_split = stage.first.turn(alloc, now, first_fails, first) || stage.is_split;
    stage.is_typed = stage.second.turn(alloc, now, second_fails, second) || stage.is_typed;
    serve(alloc, stage, round, failures.in_turn(round, Who::Server))
}

fn has_top<S: Seen>(alloc: Global, shot: &S) -> bool {
    if shot.rows() == 0 {
        return false;
    }
    // (once more if memory was refused)
    let points = match row_text(alloc, shot, 0) {
        Err(Fault::OutOfMemory) => row_text(alloc, shot, 0),
        answer => answer,
    };
    matches!(points, Ok(points) if points.iter().copied().eq(TOP.chars()))
}

// Hands a terminal all that was shown.
fn show_all(term: &mut Term, ports: &MemoryPorts) -> Result<(), Fault> {
    for call in ports.told() {
        if let RecordedCall::Showed(bytes, true) = call {
            for piece in bytes.chunks(1024) {
                term.feed(piece)?;
            }
        }
    }
    Ok(())
}

fn shows_top(alloc: Global, term: &mut Term, ports: &MemoryPorts) -> bool {
    show_all(term, ports).is_ok()
        && matches!(term.shot(alloc, 0), Ok(shot) if has_top(alloc, &shot))
}

// Returns true if an instance shows the last screen, and so does a terminal with all painted bytes.
fn is_shown(alloc: Global, end: &End) -> bool {
    match Term::new(alloc, 24, 80, 0) {
        Ok(mut term) => has_top(alloc, &end.screen()) && shows_top(alloc, &mut term, end.ports()),
        Err(_) => false,
    }
}

// How many bytes the program of pane 2 took, and whether each is an x.
fn taken(ports: &MemoryPorts) -> (usize, bool) {
    let mut count: usize = 0;
    let mut are_typed = true;
    for call in ports.told() {
        if let RecordedCall::PaneTook(2, bytes, n) = call {
            count = count.saturating_add(*n);
            are_typed = are_typed && bytes.as_slice() == b"x".as_slice();
        }
    }
    (count, are_typed)
}

/// So many rounds.
pub fn play_all(
    alloc: Global,
    stage: &mut Stage,
    rounds: u64,
    failures: Failures,
) -> Result<(), Fault>
    requires first { IsBehind stage.old.first.outer stage.old.first.client.kept.receiver.newest.number
        stage.old.first.client.kept.receiver.newest.state }
    requires second { IsBehind stage.old.second.outer stage.old.second.client.kept.receiver.newest.number
        stage.old.second.client.kept.receiver.newest.state }
{
    for round in 0..rounds {
        play_round(alloc, stage, round, failures)?;
    }
    Ok(())
}

/// Both terminals show the last screen, and the key was taken once.
pub fn has_settled(alloc: Global, stage: &Stage) -> bool {
    is_shown(alloc, &stage.first)
        && is_shown(alloc, &stage.second)
        && taken(&stage.ports) == (1, true)
}

/// Both instances show the last screen, and nothing waits for a program.
pub fn is_right(alloc: Global, stage: &Stage) -> bool {
    has_top(alloc, &stage.first.screen())
        && has_top(alloc, &stage.second.screen())
        && stage.server.output_len(2) == Some(0)
}

// The first call that isn't made good, of each of the first five turns of one end.
fn first_lost(alloc: Global, who: Who) -> Option<(u64, u64)> {
    for round in 0..5 {
        for call in 0..11 {
            let play = Play::Failures(Failure { round, who, call }, NONE);
            if is_played(alloc, play) != Ok(true) {
                return Some((round, call));
            }
        }
    }
    None
}

#[test]
fn a_failed_call_of_the_server_is_made_good(rt: HostRuntime) {
    assert_eq!(rt; first_lost(rt.alloc(), Who::Server), None);
}

#[test]
fn a_failed_call_of_a_start_is_made_good(rt: HostRuntime) {
    assert_eq!(rt; first_lost(rt.alloc(), Who::First), None);
    assert_eq!(rt; first_lost(rt.alloc(), Who::Second), None);
}

// Returns the first pair that isn't made good: a call of the server's turn in a round and one of an instance's, in that round or the one
// before.
fn first_lost_pair(alloc: Global, starts: Who) -> Option<(u64, u64)> {
    for round in 2..5 {
        for call in 1..8 {
            let of_server = Failure {
                round,
                who: Who::Server,
                call,
            };
            let of_start = Failure {
                round: round - call % 2,
                who: starts,
                call: 1 + (3 * call + round) % 5,
            };
            if is_played(alloc, Play::Failures(of_server, of_start)) != Ok(true) {
                return Some((round, call));
            }
        }
    }
    None
}

#[test]
fn two_calls_that_fail_at_once_are_made_good(rt: HostRuntime) {
    assert_eq!(rt; first_lost_pair(rt.alloc(), Who::First), None);
    assert_eq!(rt; first_lost_pair(rt.alloc(), Who::Second), None);
}

// This test also runs with each of its allocations refused in turn: a later turn makes up for refused memory. It ends if there is no memory
// for the stage itself.
#[test]
fn refused_memory_is_made_good(rt: HostRuntime) {
    let come = is_played(rt.alloc(), Play::Refusals);
    assert!(rt; come == Ok(true) || come == Err(Fault::OutOfMemory));
}
