//! The sending end of acts: acts that were typed and aren't known to have arrived.
ghost use Rattle.std.specs.Prelude.{◌≡◌, ◌+◌, ◌<◌, ◌≤◌, ◌↔◌, ◌⊎◌, ◌^◌, List, [], ◌∷◌, ◌++◌, length, take, drop, OnOk, OnErr, IfErr, IsErrOf};
ghost use Rattle.roam_acts.specs.Senders.{acked_to, last_number, start, after_typing, after_typing_all, HasTyped, HasNoRoom, IsFull, IsShort, IsSpent, IsStretch};
ghost use Rattle.roam_acts.specs.Limits.{number_limit, most_acts, most_unacknowledged};

use crate::acts::Act;
use crate::limits::{MOST_ACTS, MOST_UNACKNOWLEDGED, NUMBER_LIMIT};
use roam_cells::Fault;
use std::alloc::Global;
use std::marker::Model;

/// The sending end of a client's acts, numbered from 1: the acts after the last acknowledged one.
#[derive(Drop)]
pub struct ActSender {
    acked: u64,
    acts: Vec<Act>,
}

impl Model for ActSender {
    ghost use Rattle.roam_acts.specs.Limits.{number_limit, most_unacknowledged};
    ghost use Rattle.std.specs.Prelude.{◌+◌, ◌^◌, ◌<◌, ◌≤◌, length};
    ghost use Rattle.roam_acts.specs.Senders.{Typing};

    ghost Value = { Typing };

    ghost view = { λ s. record { acked = s.acked; acts = s.acts.items } };

    ghost invariant = { λ s. (length s.acts.items ≤ most_unacknowledged) × (s.acked + length s.acts.items < number_limit) };
}

impl ActSender {
    /// A sender of which nothing was typed. It takes no memory yet.
    pub fn new(alloc: Global) -> Self
        ensures start { result ≡ start }
        ensures stands { HasTyped result [] }
    {
        ActSender {
            acked: 0,
            acts: Vec::new(alloc),
        }
    }

    /// Adds an act with the next number. `Busy` if 1,024 acts are unacknowledged, `Spent` if its number would be 2^62, `OutOfMemory`; an
    /// error leaves the sender as it was.
    pub fn typed(&mut self, act: Act) -> Result<(), Fault>
        ensures ok { OnOk result (self.new ≡ after_typing self.old act) }
        ensures stands { OnOk result ((all : List Act) → HasTyped self.old all → HasTyped self.new (all ++ act ∷ [])) }
        ensures busy { IsErrOf result Fault.Busy ↔ IsFull self.old }
        ensures spent { IsErrOf result Fault.Spent ↔ IsSpent self.old }
        ensures err { OnErr result (self.new ≡ self.old) }
        ensures fault { IfErr result (λ e. (e ≡ Fault.OutOfMemory) ⊎ (e ≡ Fault.Busy) ⊎ (e ≡ Fault.Spent)) }
    {
        if self.acts.len() == MOST_UNACKNOWLEDGED {
            return Err(Fault::Busy);
        }
        if self.acked + self.acts.len() as u64 + 1 == NUMBER_LIMIT {
            return Err(Fault::Spent);
        }
        self.acts.push(act)?;
        Ok(())
    }

    /// Adds acts with the next numbers, in their order: all of them, or none. `Busy` if more than 1,024 would be unacknowledged then,
    /// `Spent` if the last number would be 2^62 or more, `OutOfMemory`; an error leaves the sender as it was. An empty list is always
    /// taken.
    pub fn typed_all(&mut self, acts: &[Act]) -> Result<(), Fault>
        ensures ok { OnOk result (self.new ≡ after_typing_all self.old acts.now) }
        ensures stands { OnOk result ((all : List Act) → HasTyped self.old all → HasTyped self.new (all ++ acts.now)) }
        ensures busy { IsErrOf result Fault.Busy ↔ HasNoRoom self.old (length acts.now) }
        ensures spent { IsErrOf result Fault.Spent ↔ IsShort self.old (length acts.now) }
        ensures err { OnErr result (self.new ≡ self.old) }
        ensures fault { IfErr result (λ e. (e ≡ Fault.OutOfMemory) ⊎ (e ≡ Fault.Busy) ⊎ (e ≡ Fault.Spent)) }
        // No memory is asked for if there is nothing to add.
        ensures memory { IsErrOf result Fault.OutOfMemory → 0 < length acts.now }
    {
        if acts.len() > MOST_UNACKNOWLEDGED - self.acts.len() {
            return Err(Fault::Busy);
        }
        if self.acked + self.acts.len() as u64 + acts.len() as u64 >= NUMBER_LIMIT {
            return Err(Fault::Spent);
        }
        self.acts.extend_from_slice(acts)?;
        Ok(())
    }

    /// How many acts were typed and aren't acknowledged. It takes no memory.
    pub fn unacknowledged(&self) -> usize
        ensures count { result ≡ length self.now.acts }
        ensures most { result ≤ most_unacknowledged }
    {
        self.acts.len()
    }

    /// Drops the acts up to this number, if it was typed; any other number changes nothing.
    pub fn acked(&mut self, number: u64)
        ensures acked { self.new ≡ acked_to self.old number }
        ensures stands { (all : List Act) → HasTyped self.old all → HasTyped self.new all }
        // An acknowledged number never goes back.
        ensures rises { self.old.acked ≤ self.new.acked }
        // No act is dropped before it was typed, and none is numbered anew.
        ensures last { last_number self.new ≡ last_number self.old }
    {
        if number <= self.acked || number > self.acked + self.acts.len() as u64 {
            return;
        }
        drop_front(&mut self.acts, (number - self.acked) as usize);
        self.acked = number;
    }

    /// One above the last acknowledged number, and the acts from that number on, at most 64.
    #[tactic(auto, using(std::proofs::lemmas::List::take_min))]
    pub fn waiting(&self) -> (u64, &[Act])
        ensures first { result.0 ≡ self.now.acked + 1 }
        ensures acts { result.1.now ≡ take most_acts self.now.acts }
        ensures stretch { (all : List Act) → HasTyped self.now all → IsStretch all result.0 result.1.now }
        ensures most { length result.1.now ≤ most_acts }
        ensures below { result.0 ≤ number_limit }
    {
        let count = MOST_ACTS.min(self.acts.len());
        (self.acked + 1, self.acts.as_slice().split_at(count).0)
    }
}

// Drops the first acts.
fn drop_front(acts: &mut Vec<Act>, count: usize)
    requires within { count ≤ length acts.old.items }
    ensures dropped { acts.new.items ≡ drop count acts.old.items }
{
    drop(acts.drain(..count));
}
