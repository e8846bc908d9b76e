//! The two ends of a link of numbered states, over numbers and over screens: the effect of each call, and the delivered states.
//!
//! A case is a name and a line for each action, with its expected result. `offer N` gives the sender a state under its number; `withdraw`
//! takes the newest back; `acked N` acknowledges a number. `sent T` gives the sender a moment in milliseconds, and `due T` asks whether its
//! newest is to be sent at one. `len N` is the number of states in the sender, and `tells OLD NEW` the two numbers of its instruction.
//! `send` keeps the instruction, numbered from 0; after `comes K N` delivers it, the receiver shows the number N. `round N LEN` is a round,
//! after which the receiver shows N and the sender has so many states. `take OLD NEW FLOOR` gives the receiver a diff that no sender
//! wrote; it has seven bytes if `bad change` is expected.
ghost use Rattle.std.specs.Prelude.{◌≡◌, ◌≤◌, ℕ, List, OnOk, Ok};
ghost use Rattle.roam_sync.specs.Senders.{acked, sent_at};
ghost use Rattle.roam_sync.specs.Links.{update_of, IsChange, Delivers};
ghost use Rattle.roam_sync.specs.Laws.{EachPairIsTrue, OneRoundSuffices};

use crate::counters::Counter;
use crate::numbered::{Numbered, offer};
use crate::texts::{halves, reads_numbers, word_of};
use roam_cells::Fault;
use roam_screens::RowShot;
use roam_sync::{Instruction, Receiver, Sender, Step, laws};
use roam_update::Synced;
use std::alloc::Global;
use std::test::*;

const CASES: &str = "\
A sender holds at most eight states.
len 1
tells 0 0
due 0: yes
sent 0
due 2999: no
due 3000: yes
offer 1: held
offer 2: held
offer 3: held
offer 4: held
offer 5: held
offer 6: held
offer 7: held
len 8
offer 8: full
len 8
tells 0 7
due 0: yes
acked 3
len 5
acked 2
acked 9
len 5
tells 3 7
sent 100
due 349: no
due 350: yes
# A moment below the last sending's counts as that one.
due 5: no
acked 7
len 1
tells 7 7
due 350: no
due 3099: no
due 3100: yes
offer 8: held
due 3099: yes
withdraw
due 3099: no
due 3100: yes
tells 7 7

Updates 0 to 3 lead from 0 to 1, from 0 to 2, from 0 to 3 and from 2 to 3.
offer 1: held
send
offer 2: held
send
comes 1 2: new
comes 0 2: old
comes 1 2: old
offer 3: held
send
acked 2
len 2
send
comes 3 3: new
comes 2 3: old
acked 0
len 2
acked 3
len 1
acked 2
len 1
round 3 1: old
comes 0 3: old

All updates are lost until the sender is full; the receiver takes a state from each, the oldest last.
offer 2: held
send
offer 3: held
offer 5: held
offer 8: held
offer 13: held
offer 21: held
offer 34: held
offer 55: full
round 34 1: new
comes 0 34: old
offer 55: held
round 55 1: new

Each update comes and no acknowledgement does: both ends hold eight, and one acknowledgement makes room at both.
offer 1: held
send
comes 0 1: new
offer 2: held
send
comes 1 2: new
offer 3: held
send
comes 2 3: new
offer 4: held
send
comes 3 4: new
offer 5: held
send
comes 4 5: new
offer 6: held
send
comes 5 6: new
offer 7: held
send
comes 6 7: new
offer 8: full
acked 1
len 7
offer 8: held
round 8 1: new

When a newest state is due.
# Never sent.
due 0: yes
sent 1000
# Nothing is above the base.
due 1250: no
due 3999: no
due 4000: yes
offer 1: held
offer 2: held
due 1000: yes
sent 5000
due 5000: no
due 5249: no
due 5250: yes
due 8000: yes
# An acknowledgement that leaves two.
acked 1
due 5249: no
due 5250: yes
# A number that isn't held.
acked 9
due 5250: yes
# A moment below the last sending's counts as that one.
due 4000: no
due 0: no
sent 6000
due 6249: no
due 6250: yes
# An acknowledgement of the newest.
acked 2
due 6250: no
due 8999: no
due 9000: yes
# The last moments.
sent 18446744073709548615
due 18446744073709551614: no
due 18446744073709551615: yes
offer 3: held
sent 18446744073709551366
due 18446744073709551615: no

A receiver takes what follows a state that it holds.
take 0 3 0: new
take 0 3 0: old
take 2 5 0: gap
take 3 5 3: new
take 0 6 0: gap

A receiver holds eight states after the seventh; a floor of 1 makes room for the next.
take 0 1 0: new
take 0 2 0: new
take 0 3 0: new
take 0 4 0: new
take 0 5 0: new
take 0 6 0: new
take 0 7 0: new
take 0 8 0: gap
take 1 8 1: new
take 0 9 0: gap

A bad change leaves a receiver.
take 0 5 0: new
take 5 6 0: bad change
take 5 6 0: new

A number beyond four bytes.
offer 7: held
acked 7
offer 18446744069414584321: held
tells 7 18446744069414584321";

/// One round: the newest is sent, its update comes, and the answer to it comes.
fn round<S: Synced>(
    alloc: Global,
    sender: &mut Sender<S>,
    receiver: &mut Receiver<S>,
    now: u64,
) -> Result<Step, Fault>
    ensures round { OnOk result ((change : List ℕ) × IsChange S.applied sender.old change
        × Delivers S.applied receiver.old (update_of sender.old change) receiver.new
        × (sender.new ≡ acked (sent_at sender.old now) receiver.new.newest.number)) }
{
    let instruction = sender.instruction(alloc)?;
    let step = receiver.take(
        alloc,
        instruction.old,
        instruction.new,
        instruction.floor,
        &instruction.change,
    )?;
    sender.sent(now);
    sender.acked(receiver.newest().0);
    Ok(step)
}

/// Both ends, and the updates that were sent.
#[derive(Drop)]
struct Link<S> {
    sender: Sender<S>,
    receiver: Receiver<S>,
    sent: Vec<Instruction>,
}

fn begun<S: Numbered>(alloc: Global) -> Result<Link<S>, Fault> {
    Ok(Link {
        sender: Sender::new(alloc, S::of(alloc, 0)?)?,
        receiver: Receiver::new(alloc, S::of(alloc, 0)?)?,
        sent: Vec::new(alloc),
    })
}

fn offered<S: Numbered>(alloc: Global, sender: &mut Sender<S>, number: u64) -> &'static str {
    match offer(alloc, sender, number) {
        Ok(true) => "held",
        Ok(false) => "low",
        Err(fault) => word_of(fault),
    }
}

// Returns true if an instruction leads from one number to another, and its diff from the one state to the other.
fn tells<S: Numbered>(
    alloc: Global,
    sender: &Sender<S>,
    old: u64,
    new: u64,
) -> Result<bool, Fault> {
    let instruction = sender.instruction(alloc)?;
    let mut state = S::of(alloc, old)?;
    state.apply(alloc, &instruction.change)?;
    let numbers = [instruction.old, instruction.new, instruction.floor];
    Ok(numbers == [old, new, old] && state.is(new))
}

// Returns true if a call of a sender has this answer.
fn answers<S: Numbered>(
    alloc: Global,
    sender: &mut Sender<S>,
    verb: &str,
    row: [u64; 3],
    told: &str,
) -> bool {
    match verb {
        "offer" => return offered(alloc, sender, row[0]) == told,
        "due" => return told == if sender.due(row[0]) { "yes" } else { "no" },
        "len" => return sender.len() as u64 == row[0],
        "tells" => return tells(alloc, sender, row[0], row[1]) == Ok(true),
        "acked" => sender.acked(row[0]),
        "sent" => sender.sent(row[0]),
        "withdraw" if 1 < sender.len() => sender.withdraw(),
        _ => return false,
    }
    told.is_empty()
}

fn send<S: Numbered>(alloc: Global, link: &mut Link<S>) -> Result<(), Fault> {
    let instruction = link.sender.instruction(alloc)?;
    link.sent.push(instruction)?;
    link.sender.sent(0);
    Ok(())
}

fn step_word(answer: Result<Step, Fault>) -> &'static str {
    match answer {
        Ok(Step::New) => "new",
        Ok(Step::Old) => "old",
        Ok(Step::Gap) => "gap",
        Err(fault) => word_of(fault),
    }
}

// Returns true if the receiver shows this number with its state.
fn shows<S: Numbered>(receiver: &Receiver<S>, number: u64) -> bool {
    let (newest, state) = receiver.newest();
    newest == number && state.is(number)
}

// Returns a receiver's answer to a diff; no update leads from below its floor, or down.
fn taken<S: Numbered>(
    alloc: Global,
    receiver: &mut Receiver<S>,
    row: [u64; 3],
    change: &[u8],
) -> &'static str {
    let [old, new, floor] = row;
    if old < floor || new < old {
        return "none";
    }
    step_word(receiver.take(alloc, old, new, floor, change))
}

// Returns true if the update of that number is answered so, and this number is shown then.
fn comes<S: Numbered>(alloc: Global, link: &mut Link<S>, row: [u64; 3], told: &str) -> bool {
    let Some(update) = link.sent.get(row[0] as usize) else {
        return false;
    };
    let numbers = [update.old, update.new, update.floor];
    taken(alloc, &mut link.receiver, numbers, &update.change) == told
        && shows(&link.receiver, row[1])
}

fn goes_round<S: Numbered>(alloc: Global, link: &mut Link<S>, row: [u64; 3], told: &str) -> bool {
    let step = round(alloc, &mut link.sender, &mut link.receiver, 0);
    step_word(step) == told && shows(&link.receiver, row[0]) && link.sender.len() as u64 == row[1]
}

// The diff that leads from the state of one number to that of another; or seven bytes, which lead nowhere.
fn change_of<S: Numbered>(alloc: Global, old: u64, new: u64, told: &str) -> Result<Vec<u8>, Fault> {
    let mut change = Vec::new(alloc);
    if told == "bad change" {
        change.extend_from_slice(&[0; 7])?;
    } else {
        S::of(alloc, new)?.write_change(alloc, &S::of(alloc, old)?, &mut change)?;
    }
    Ok(change)
}

// Returns true if a receiver has this answer to a diff, and shows the state of its newest number.
fn takes<S: Numbered>(
    alloc: Global,
    receiver: &mut Receiver<S>,
    row: [u64; 3],
    told: &str,
) -> Result<bool, Fault> {
    let change = change_of::<S>(alloc, row[0], row[1], told)?;
    let (before, _) = receiver.newest();
    let is_told = taken(alloc, receiver, row, &change) == told;
    let number = if told == "new" { row[1] } else { before };
    Ok(is_told && shows(receiver, number))
}

fn happens<S: Numbered>(
    alloc: Global,
    link: &mut Link<S>,
    verb: &str,
    row: [u64; 3],
    told: &str,
) -> bool {
    match verb {
        "send" => send(alloc, link).is_ok(),
        "comes" => comes(alloc, link, row, told),
        "round" => goes_round(alloc, link, row, told),
        "take" => takes(alloc, &mut link.receiver, row, told) == Ok(true),
        _ => answers(alloc, &mut link.sender, verb, row, told),
    }
}

// Returns how many numbers follow a verb.
fn count_of(verb: &str) -> usize
    ensures most { result ≤ 3 }
{
    match verb {
        "send" | "withdraw" => 0,
        "tells" | "comes" | "round" => 2,
        "take" => 3,
        _ => 1,
    }
}

// The numbers behind a verb, and zeros.
fn numbers_of(verb: &str, text: &str) -> Option<[u64; 3]> {
    let mut row = [0; 3];
    let is_read = reads_numbers(text, &mut row[..count_of(verb)]);
    if is_read { Some(row) } else { None }
}

fn holds<S: Numbered>(alloc: Global, link: &mut Link<S>, words: &str) -> bool {
    let (asked, told) = halves(words, ": ");
    let (verb, numbers) = halves(asked, " ");
    match numbers_of(verb, numbers) {
        Some(row) => happens(alloc, link, verb, row, told),
        None => false,
    }
}

fn all_hold<S: Numbered>(alloc: Global, link: &mut Link<S>, case: &str) -> bool {
    for words in case.lines().skip(1) {
        if !words.starts_with("# ") && !holds(alloc, link, words) {
            return false;
        }
    }
    true
}

fn plays<S: Numbered>(alloc: Global, case: &str) -> bool {
    match begun::<S>(alloc) {
        Ok(mut link) => all_hold(alloc, &mut link, case),
        Err(_) => false,
    }
}

fn first_wrong<S: Numbered>(alloc: Global) -> Option<&'static str> {
    for case in CASES.split("\n\n") {
        if !plays::<S>(alloc, case) {
            return Some(case);
        }
    }
    None
}

#[test]
fn lines_of_numbers_and_of_screens(rt: HostRuntime) {
    assert_eq!(rt; first_wrong::<Counter>(rt.alloc()), None);
    assert_eq!(rt; first_wrong::<RowShot>(rt.alloc()), None);
}

// Returns true if an end is unchanged after refused memory: the sender by its length, the receiver by its shown number.
fn stands<S: Numbered>(link: &Link<S>, len: usize, number: u64) -> bool {
    link.sender.len() == len && shows(&link.receiver, number)
}

// Two offers and a round, stopped at the first refusal, which leaves both ends as they were.
fn refused_leaves<S: Numbered>(alloc: Global, link: &mut Link<S>) -> bool {
    for number in 1..3u64 {
        if let Err(fault) = offer(alloc, &mut link.sender, number) {
            return fault == Fault::OutOfMemory && stands(link, number as usize, 0);
        }
    }
    match round(alloc, &mut link.sender, &mut link.receiver, 0) {
        Err(fault) => fault == Fault::OutOfMemory && stands(link, 3, 0),
        Ok(step) => step == Step::New && stands(link, 1, 2),
    }
}

// Returns the same of a new link; it ends if there is no memory for it.
fn refused_leaves_a_line<S: Numbered>(alloc: Global) -> bool {
    match begun::<S>(alloc) {
        Ok(mut link) => refused_leaves(alloc, &mut link),
        Err(fault) => fault == Fault::OutOfMemory,
    }
}

// To be run with each of its allocations refused in turn, too.
#[test]
fn refused_memory_leaves_both_ends(rt: HostRuntime) {
    assert!(rt; refused_leaves_a_line::<Counter>(rt.alloc()));
    assert!(rt; refused_leaves_a_line::<RowShot>(rt.alloc()));
}

/// The laws at screens.
#[test]
fn the_laws_hold_of_screens(_rt: HostRuntime) {
    laws_of_screens();
}

fn laws_of_screens()
    ensures pairs { EachPairIsTrue ⟦<RowShot as Synced>⟧.applied }
    ensures round { OneRoundSuffices ⟦<RowShot as Synced>⟧.applied }
{
    laws::each_pair_is_true::<RowShot>();
    laws::one_round_suffices::<RowShot>();
}
