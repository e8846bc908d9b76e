//! The end that sends.

ghost use Rattle.std.specs.Prelude.{◌≡◌, ◌+◌, ◌<◌, ◌≤◌, ◌↔◌, ◌⊎◌, false, length, Some, Ok, IfOk, IfErr, OnOk, OnErr, IsTrue, IsErrOf, IsOkUnless};
ghost use Rattle.roam_sync.specs.Limits.{most_held};
ghost use Rattle.roam_sync.specs.Senders.{newest, last_of, is_held, after_ack, mark_base, mark_last, count, start, offered, withdrawn, acked, sent_at, is_due};

use crate::limits::{HEARTBEAT, MOST_HELD, RESEND_AFTER};
use roam_cells::Fault;
use roam_update::Synced;
use std::alloc::Global;
use std::marker::Model;

/// A state of a sender with its number.
#[derive(Drop)]
pub struct Held<S> {
    pub number: u64,
    pub state: S,
    /// True if it was ever sent.
    pub sent: bool,
}

/// The diff that leads the other end from the state numbered `old` to the one numbered `new`, and lets it drop the states below `floor`.
#[derive(Drop)]
pub struct Instruction {
    pub old: u64,
    pub new: u64,
    pub floor: u64,
    pub change: Vec<u8>,
}

/// The states that the other end may still need, each with its number: the base, which the other end is known to have, and those after it;
/// and the moment of the last sending, in milliseconds.
#[derive(Drop)]
pub struct Sender<S> {
    base: Held<S>,
    later: Vec<Held<S>>,
    last: u64,
}

impl<S> Model for Sender<S> {
    ghost use Rattle.std.specs.Prelude.{◌≤◌, length};
    ghost use Rattle.roam_sync.specs.Senders.{Sending, AreAbove};

    ghost Value = { Sending S };

    ghost view = { λ s. record { base = s.base; later = s.later.items; last = s.last } };

    ghost invariant = { λ s. (length s.later.items ≤ 7) × AreAbove s.base.number s.later.items };
}

impl<S: Synced> Sender<S> {
    /// A sender of state 0, which both ends have.
    pub fn new(alloc: Global, state: S) -> Result<Sender<S>, Fault>
        ensures ok { IfOk result (λ s. s ≡ start state) }
        ensures fault { IsOkUnless result Fault.OutOfMemory }
    {
        Ok(Sender {
            base: Held {
                number: 0,
                state,
                sent: false,
            },
            later: Vec::new(alloc),
            last: 0,
        })
    }

    /// Returns the number of states.
    pub fn len(&self) -> usize
        ensures value { result ≡ count self.now }
        ensures most { result ≤ most_held }
    {
        self.later.len() + 1
    }

    /// The number of the newest state.
    pub fn newest_number(&self) -> u64
        ensures number { result ≡ (newest self.now).number }
    {
        newest_of(&self.base, self.later.as_slice()).number
    }

    /// Adds one more state, to be sent; its number is above all others. `SendFull` if there are eight states, `OutOfMemory`; a refused
    /// state is dropped.
    #[tactic(auto, using(crate::proofs::Sending::newest_of_more))]
    pub fn offer(&mut self, number: u64, state: S) -> Result<(), Fault>
        requires newer { (newest self.old).number < number }
        ensures ok { OnOk result (self.new ≡ offered self.old number state) }
        ensures top { OnOk result (newest self.new ≡ record { number = number; state = state; sent = false }) }
        // The condition of `withdraw`, which takes the offer back.
        ensures several { OnOk result (2 ≤ count self.new) }
        ensures back { OnOk result (withdrawn self.new ≡ self.old) }
        ensures full { IsErrOf result Fault.SendFull ↔ (count self.old ≡ most_held) }
        ensures err { OnErr result (self.new ≡ self.old) }
        ensures fault { IfErr result (λ e. (e ≡ Fault.OutOfMemory) ⊎ (e ≡ Fault.SendFull)) }
    {
        if self.later.len() + 1 == MOST_HELD {
            return Err(Fault::SendFull);
        }
        self.later.push(Held {
            number,
            state,
            sent: false,
        })?;
        Ok(())
    }

    /// Drops the newest of two or more states, so that a refused call takes its offer back.
    pub fn withdraw(&mut self)
        requires several { 2 ≤ count self.old }
        ensures withdrawn { self.new ≡ withdrawn self.old }
    {
        let _ = self.later.pop();
    }

    /// Drops the states before this number, if it is kept; another number changes nothing.
    pub fn acked(&mut self, number: u64)
        ensures acked { self.new ≡ acked self.old number }
    {
        if is_later(self.later.as_slice(), number) {
            drop_before(&mut self.base, &mut self.later, number);
        }
    }

    /// Returns the instruction that leads the other end from the base to the newest state. `OutOfMemory`.
    pub fn instruction(&self, alloc: Global) -> Result<Instruction, Fault>
        ensures old { IfOk result (λ i. i.old ≡ self.now.base.number) }
        ensures floor { IfOk result (λ i. i.floor ≡ self.now.base.number) }
        ensures new { IfOk result (λ i. i.new ≡ (newest self.now).number) }
        ensures rises { IfOk result (λ i. i.old ≤ i.new) }
        ensures change { IfOk result (λ i. i.change.items ≡ S.difference self.now.base.state (newest self.now).state) }
        ensures leads { IfOk result (λ i. S.applied self.now.base.state i.change.items ≡ Some (newest self.now).state) }
        ensures fault { IsOkUnless result Fault.OutOfMemory }
    {
        let top = newest_of(&self.base, self.later.as_slice());
        let mut change = Vec::new(alloc);
        top.state
            .write_change(alloc, &self.base.state, &mut change)?;
        Ok(Instruction {
            old: self.base.number,
            new: top.number,
            floor: self.base.number,
            change,
        })
    }

    /// Returns true if the newest state should be sent at this moment: it was never sent, or it isn't the base and 250 ms passed since the
    /// last sending, or 3,000 ms did. A moment before the last sending counts as that one.
    pub fn due(&self, now: u64) -> bool
        ensures due { result ≡ is_due self.now now }
    {
        let top = newest_of(&self.base, self.later.as_slice());
        let passed = now.saturating_sub(self.last);
        !top.sent || (!self.later.is_empty() && passed >= RESEND_AFTER) || passed >= HEARTBEAT
    }

    /// Notes that the newest state is sent at this moment.
    pub fn sent(&mut self, now: u64)
        ensures sent { self.new ≡ sent_at self.old now }
    {
        mark_newest(&mut self.base, &mut self.later);
        self.last = now;
    }
}

// The last of the states.
#[tactic(auto, using(crate::proofs::Sending::last_at))]
fn newest_of<'a, S>(base: &'a Held<S>, later: &'a [Held<S>]) -> &'a Held<S>
    requires few { length later.now ≤ 7 }
    ensures newest { result.now ≡ last_of base.now later.now }
{
    if later.is_empty() {
        return base;
    }
    &later[later.len() - 1]
}

// Marks the last of the states as sent.
#[tactic(auto, using(crate::proofs::Sending::mark_at))]
fn mark_newest<S>(base: &mut Held<S>, later: &mut Vec<Held<S>>)
    ensures base { base.new ≡ mark_base base.old later.old.items }
    ensures later { later.new.items ≡ mark_last later.old.items }
{
    if later.is_empty() {
        base.sent = true;
        return;
    }
    let at = later.len() - 1;
    later[at].sent = true;
}

// Returns true if there is a state of this number.
fn is_later<S>(later: &[Held<S>], number: u64) -> bool
    ensures held { result ≡ is_held later.now number }
{
    for held in later {
        if held.number == number {
            return true;
        }
    }
    false
}

// Makes the state of this number the base.
fn drop_before<S: Drop>(base: &mut Held<S>, later: &mut Vec<Held<S>>, number: u64)
    requires held { IsTrue (is_held later.old.items number) }
    ensures base { base.new ≡ (after_ack (base.old, later.old.items) later.old.items number).0 }
    ensures later { later.new.items ≡ (after_ack (base.old, later.old.items) later.old.items number).1 }
{
    loop {
        *base = later.remove(0);
        if base.number == number {
            return;
        }
    }
}
