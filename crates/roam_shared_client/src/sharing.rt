//! A client instance that stays while outer terminals come and go, one after the other.
ghost use Rattle.std.specs.Prelude.{◌≡◌, ◌⊎◌, ◌↔◌, ◌<◌, ◌++◌, ◌∷◌, ◌||◌, [], None, length, List, ℕ, OnOk, OnErr, IfErr, IsTrue, is_some};
ghost use Rattle.std.specs.List.{list_any};
ghost use Rattle.roam_screens.specs.Screenshot.{Screenshot};
ghost use Rattle.roam_outer_terminal.specs.Painted.{MayPaint, is_predicting};
ghost use Rattle.roam_shared_client.specs.Running.{IsFresh, IsIdle, IsOver};
ghost use Rattle.roam_shared_client.specs.Sharing.{AreEach, AreEachBehind, AreHeard, Rounds, ending_after, is_any_waiting, most_terminals, turned_round, wait_after, wait_for, who_stay};
ghost use Rattle.roam_outer_terminal.specs.Writing.{Settles};
ghost use Rattle.roam_outer_terminal.specs.declared.terminal.Terminal.{Terminal as TerminalOf};
ghost use Rattle.roam_turns.specs.Cores.{client_step};
ghost use Rattle.roam_turns.specs.Parts.{Makes};
ghost use Rattle.roam_turns.specs.Turns.{QuietTurn};

use crate::listening::Listening;
use roam_cells::Fault;
use roam_hub::{Addr, Client};
use roam_outer_terminal::{Duplex, Silence, Taking, Terminal};
use roam_turns::{Ports, quiet_turn};
use std::alloc::Global;
use std::marker::Model;

/// How many terminals there may be at once.
pub const MOST_TERMINALS: usize = 16;

/// The longest wait of an instance in milliseconds if memory was refused for a line, and if bytes are queued.
const SOON: u64 = 10;

const LATER: u64 = 1000;

/// How many milliseconds it goes on at most after a terminal asked for its end.
pub(crate) const LONGEST_END: u64 = 1000;

/// The longest wait in milliseconds if a terminal has predictions, which expire.
const PREDICTED: u64 = 20;

/// A client instance with its outer terminals.
#[derive(Drop)]
pub struct SharedClient<S> {
    client: Client,
    all: Vec<Terminal<S>>,
    // The moment since which it is to end, if one of its terminals asked for that.
    ending: Option<u64>,
}

impl<S> Model for SharedClient<S> {
    ghost use Rattle.roam_shared_client.specs.Sharing.{AreEachBehind, Shared};

    ghost Value = { Shared S };

    ghost view = { λ s. record { client = s.client; all = s.all.items; ending = s.ending } };

    ghost invariant = { λ s. AreEachBehind s.all.items s.client.kept.receiver.newest.number s.client.kept.receiver.newest.state };
}

// Returns true if one of two is true.
fn is_either(one: bool, other: bool) -> bool
    ensures either { result ≡ (one || other) }
{
    one || other
}

// Hears each terminal. Returns the longest wait for more, and true if one asked for the end.
fn hear_all<S: Duplex + Drop>(
    alloc: Global,
    all: &mut [Terminal<S>],
    client: &mut Client,
) -> (u64, bool)
    ensures hears { AreHeard S.remaining S.contents all.old all.new client.old client.new result.1 result.0 }
    ensures len { length all.new ≡ length all.old }
    ensures number { client.new.kept.receiver ≡ client.old.kept.receiver }
    ensures behind { AreEachBehind all.old client.old.kept.receiver.newest.number client.old.kept.receiver.newest.state
        → AreEachBehind all.new client.old.kept.receiver.newest.number client.old.kept.receiver.newest.state }
{
    let Some((first, others)) = all.split_first_mut() else {
        return (u64::MAX, false);
    };
    let taking = first.hear(alloc, client);
    let (wait, is_ending) = hear_all(alloc, others, client);
    (
        wait.min(wait_after(taking)),
        is_either(taking.is_end(), is_ending),
    )
}

// Paints each terminal that is ready for it.
fn paint_all<S: Duplex + Drop>(
    alloc: Global,
    all: &mut [Terminal<S>],
    client: &Client,
    silence: Silence,
)
    ensures paints { AreEach (MayPaint silence client.now) all.old all.new }
    ensures len { length all.new ≡ length all.old }
    ensures behind { AreEachBehind all.old client.now.kept.receiver.newest.number client.now.kept.receiver.newest.state
        → AreEachBehind all.new client.now.kept.receiver.newest.number client.now.kept.receiver.newest.state }
{
    let Some((first, others)) = all.split_first_mut() else {
        return;
    };
    first.paint_if_ready(alloc, client, silence);
    paint_all(alloc, others, client, silence);
}

// Shows each terminal a silence, and writes its queued bytes.
fn write_all<S: Duplex + Drop>(alloc: Global, all: &mut [Terminal<S>], silence: Silence)
    ensures settles { AreEach (Settles S.remaining S.contents silence) all.old all.new }
    ensures len { length all.new ≡ length all.old }
    ensures behind { (n : ℕ) (s : Screenshot) → AreEachBehind all.old n s → AreEachBehind all.new n s }
{
    let Some((first, others)) = all.split_first_mut() else {
        return;
    };
    first.settle(alloc, silence);
    write_all(alloc, others, silence);
}

// Lets those go that left.
fn retain<S: Duplex + Drop>(all: &mut Vec<Terminal<S>>)
    ensures stay { all.new.items ≡ who_stay all.old.items }
    ensures behind { (n : ℕ) (s : Screenshot) → AreEachBehind all.old.items n s → AreEachBehind all.new.items n s }
{
    all.retain(|terminal| !terminal.is_gone());
}

// The first terminal is the last from now on.
fn rotate<S: Drop>(all: &mut [Terminal<S>])
    ensures len { length all.new ≡ length all.old }
    ensures round { all.new ≡ turned_round all.old }
    ensures behind { (n : ℕ) (s : Screenshot) → AreEachBehind all.old n s → AreEachBehind all.new n s }
{
    if all.len() > 1 {
        all.rotate_left(1);
    }
}

// How many milliseconds may be waited at most, after a line was so taken.
fn wait_after(taking: Taking) -> u64
    ensures wait { result ≡ wait_after taking }
{
    match taking {
        Taking::Nothing | Taking::Waits => u64::MAX,
        Taking::Line | Taking::End => 0,
        Taking::NoMemory => SOON,
    }
}

impl<S: Duplex + Drop> SharedClient<S> {
    /// A client instance; no terminal is there yet.
    pub fn new(alloc: Global, client: Client) -> SharedClient<S>
        ensures client { result.client ≡ client }
        ensures none { (result.all ≡ []) × (result.ending ≡ None) }
    {
        SharedClient {
            client,
            all: Vec::new(alloc),
            ending: None,
        }
    }

    /// The client instance.
    pub fn client(&self) -> &Client
        ensures client { result.now ≡ self.now.client }
    {
        &self.client
    }

    /// How many terminals are there.
    pub fn len(&self) -> usize
        ensures len { result ≡ length self.now.all }
    {
        self.all.len()
    }

    /// Returns true if one of them asked for the instance's end.
    pub fn is_ending(&self) -> bool
        ensures ending { result ≡ is_some self.now.ending }
    {
        self.ending.is_some()
    }

    /// Returns true if no terminal is there, none asked for the end, and all acts that were typed are acknowledged.
    pub fn is_idle(&self) -> bool
        ensures idle { IsTrue result ↔ IsIdle self.now }
    {
        self.all.is_empty() && self.ending.is_none() && self.client.is_settled()
    }

    /// Returns true if the instance is over at a moment, as one of them asked: all typed acts are acknowledged, or a second passed since.
    pub fn is_over(&self, silence: Silence) -> bool
        ensures over { IsTrue result ↔ IsOver self.now silence.moment }
    {
        match self.ending {
            None => false,
            Some(since) => self.client.is_settled() || silence.has_passed(since, LONGEST_END),
        }
    }

    /// Adds a terminal at the other end of a stream. `Busy` if 16 are there, `OutOfMemory`; the stream is closed then.
    pub fn add(&mut self, alloc: Global, stream: S) -> Result<(), Fault>
        ensures added { OnOk result ((terminal : TerminalOf S) × (terminal.stream ≡ stream) × IsFresh terminal
            × (self.new.all ≡ self.old.all ++ terminal ∷ [])) }
        ensures room { OnOk result (length self.old.all < most_terminals) }
        ensures err { OnErr result (self.new.all ≡ self.old.all) }
        ensures others { self.new ≡ record self.old { all = self.new.all } }
        ensures fault { IfErr result (λ fault. (fault ≡ Fault.Busy) ⊎ (fault ≡ Fault.OutOfMemory)) }
        ensures busy { length self.old.all < most_terminals → IfErr result (λ fault. fault ≡ Fault.OutOfMemory) }
    {
        if self.all.len() >= MOST_TERMINALS {
            return Err(Fault::Busy);
        }
        self.all.push(Terminal::new(alloc, stream))?;
        Ok(())
    }

    // Returns true if bytes are queued for one of them.
    fn is_waiting(&self) -> bool
        ensures waits { result ≡ is_any_waiting self.now.all }
    {
        self.all.iter().any(|terminal| terminal.is_waiting())
    }

    // Returns true if one of them has predictions.
    fn is_predicting(&self) -> bool
        ensures guesses { result ≡ list_any is_predicting self.now.all }
    {
        self.all.iter().any(|terminal| terminal.is_predicting())
    }

    // Returns the longest wait in milliseconds, at most the given one. In a silence no prediction is shown.
    fn wait_for(&self, wait: u64, silence: Silence) -> u64
        ensures wait { result ≡ wait_for wait silence self.now.all }
    {
        if self.is_waiting() {
            wait.min(LATER)
        } else if !silence.is_long() && self.is_predicting() {
            wait.min(PREDICTED)
        } else {
            wait
        }
    }

    // Hears each terminal. Returns the longest wait for more, and true if one asked for the end.
    fn hear(&mut self, alloc: Global) -> (u64, bool)
        ensures hears { AreHeard S.remaining S.contents self.old.all self.new.all self.old.client self.new.client result.1 result.0 }
        ensures others { self.new ≡ record self.old { client = self.new.client; all = self.new.all } }
    {
        hear_all(alloc, &mut self.all, &mut self.client)
    }

    // At a moment one of them asked for the end, or none did.
    fn end_from(&mut self, is_ending: bool, moment: u64)
        ensures ends { self.new ≡ record self.old { ending = ending_after is_ending moment self.old.ending } }
    {
        if is_ending && self.ending.is_none() {
            self.ending = Some(moment);
        }
    }

    // Takes a turn of the instance that shows nothing.
    fn turn<P: Ports + Drop>(&mut self, alloc: Global, ports: &mut Listening<P>, to: Addr)
        ensures turns { Makes client_step (QuietTurn to) (P.told ports.old.ports) (P.told ports.new.ports) None None
            self.old.client self.new.client }
        ensures others { self.new ≡ record self.old { client = self.new.client } }
    {
        quiet_turn(alloc, &mut self.client, ports, to);
    }

    // Paints each that is ready.
    fn paint(&mut self, alloc: Global, silence: Silence)
        ensures paints { AreEach (MayPaint silence self.old.client) self.old.all self.new.all }
        ensures others { self.new ≡ record self.old { all = self.new.all } }
    {
        paint_all(alloc, &mut self.all, &self.client, silence);
    }

    // Shows each terminal a silence, and writes its queued bytes. Removes those that left, and moves the first one to the end.
    fn write(&mut self, alloc: Global, silence: Silence)
        ensures settles { (settled : List (TerminalOf S)) × AreEach (Settles S.remaining S.contents silence) self.old.all settled
            × (self.new.all ≡ turned_round (who_stay settled)) }
        ensures others { self.new ≡ record self.old { all = self.new.all } }
    {
        write_all(alloc, &mut self.all, silence);
        retain(&mut self.all);
        rotate(&mut self.all);
    }

    /// Takes a round of the instance with its terminals, over ports: takes the first line of each; then the instance takes a turn, whose
    /// datagrams go to an address; then each ready terminal is painted, and queued bytes are written. The order of terminals changes each
    /// time. Returns the longest wait in milliseconds until the next round without input.
    pub fn round<P: Ports + Drop>(
        &mut self,
        alloc: Global,
        ports: &mut Listening<P>,
        to: Addr,
    ) -> u64
        ensures rounds { Rounds S.remaining S.contents to ports.new.silence result (P.told ports.old.ports) (P.told ports.new.ports)
            self.old self.new }
    {
        let (wait, is_ending) = self.hear(alloc);
        let was_flooded = self.is_waiting();
        self.turn(alloc, ports, to);
        let silence = ports.silence();
        self.end_from(is_ending, silence.moment());
        self.paint(alloc, silence);
        self.write(alloc, silence);
        if was_flooded && !self.is_waiting() {
            0
        } else {
            self.wait_for(wait, silence)
        }
    }
}
