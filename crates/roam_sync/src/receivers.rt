//! The end that receives.

ghost use Rattle.std.specs.Prelude.{◌≡◌, ◌≢◌, ◌≤◌, ◌<◌, ◌+◌, ◌⊎◌, ◌++◌, ◌∷◌, [], length, vec_len, vec_capacity, Some, None, Ok, IfOk, IfErr, OnOk, OnErr, IsErrOf, IsOkUnless};
ghost use Rattle.std.specs.Option.{option_copied};
ghost use Rattle.roam_sync.specs.Receivers.{Receiving, pairs, state_at, from_floor, step_for, Takes, start};

use crate::limits::MOST_HELD;
use roam_cells::Fault;
use roam_update::Synced;
use std::alloc::Global;
use std::marker::Model;
use std::mem;

/// A state of a receiver with its number.
#[derive(Drop)]
pub struct Pair<S> {
    pub number: u64,
    pub state: S,
}

/// The kind of an instruction.
#[derive(Clone, Copy, Debug, PartialEq, Eq)]
pub enum Step {
    /// It leads to nothing newer.
    Old,
    /// It starts at a state that isn't here, or there is no room for its state.
    Gap,
    /// Its state is the newest now.
    New,
}

/// The states that instructions may start from, each with its number.
#[derive(Drop)]
pub struct Receiver<S> {
    earlier: Vec<Pair<S>>,
    newest: Pair<S>,
}

impl<S> Model for Receiver<S> {
    ghost use Rattle.std.specs.Prelude.{◌≤◌, length};
    ghost use Rattle.roam_sync.specs.Receivers.{Receiving, AreBelow};

    ghost Value = { Receiving S };

    ghost view = { λ r. record { earlier = r.earlier.items; newest = r.newest } };

    ghost invariant = { λ r. (length r.earlier.items ≤ 7) × AreBelow r.earlier.items r.newest.number };
}

impl<S: Synced> Receiver<S> {
    /// A receiver of state 0, which both ends have.
    pub fn new(alloc: Global, state: S) -> Result<Receiver<S>, Fault>
        ensures ok { IfOk result (λ r. r ≡ start state) }
        ensures fault { IsOkUnless result Fault.OutOfMemory }
    {
        Ok(Receiver {
            earlier: Vec::new(alloc),
            newest: Pair { number: 0, state },
        })
    }

    /// The newest state, with its number.
    pub fn newest(&self) -> (u64, &S)
        ensures number { result.0 ≡ self.now.newest.number }
        ensures state { result.1.now ≡ self.now.newest.state }
    {
        (self.newest.number, &self.newest.state)
    }

    /// Takes an instruction that leads from the state numbered `old` to the one numbered `new`. `Old` if that isn't above the newest. `Gap`
    /// if the old state isn't there, or there would be a ninth after those below `floor` are dropped. Else the diff is applied to a copy
    /// of the old state. `BadChange` if it leads to no state, `OutOfMemory`.
    pub fn take(
        &mut self,
        alloc: Global,
        old: u64,
        new: u64,
        floor: u64,
        change: &[u8],
    ) -> Result<Step, Fault>
        requires floor { floor ≤ old }
        requires rises { old ≤ new }
        // The answer is decided by the numbers alone.
        ensures answer { IfOk result (λ step. step ≡ step_for self.old old new floor) }
        // An instruction that isn't new changes nothing.
        ensures same { OnOk result (step_for self.old old new floor ≢ Step.New → self.new ≡ self.old) }
        // A new one's diff is applied to the state with its old number.
        ensures taken { result ≡ Ok Step.New → Takes S.applied self.old old new floor change.now self.new }
        ensures bad { IsErrOf result Fault.BadChange →
            ((base : S) → state_at old (pairs self.old) ≡ Some base → S.applied base change.now ≡ None) }
        ensures err { OnErr result (self.new ≡ self.old) }
        // Only a new instruction is refused.
        ensures only { OnErr result (step_for self.old old new floor ≡ Step.New) }
        ensures fault { IfErr result (λ e. (e ≡ Fault.OutOfMemory) ⊎ (e ≡ Fault.BadChange)) }
    {
        if new <= self.newest.number {
            return Ok(Step::Old);
        }
        let Some(base) = state_of(self.earlier.as_slice(), &self.newest, old) else {
            return Ok(Step::Gap);
        };
        if kept(self.earlier.as_slice(), &self.newest, floor) >= MOST_HELD {
            return Ok(Step::Gap);
        }
        // An old diff, or one with a gap, was answered above: it takes no memory, and a bad one is not refused.
        let mut state = base.copy(alloc)?;
        state.apply(alloc, change)?;
        self.earlier.try_reserve(1)?;
        let before = mem::replace(&mut self.newest, Pair { number: new, state });
        add_above(&mut self.earlier, before, floor);
        Ok(Step::New)
    }
}

// The state with this number.
fn state_of<'a, S>(earlier: &'a [Pair<S>], newest: &'a Pair<S>, number: u64) -> Option<&'a S>
    ensures state { option_copied result ≡ state_at number (earlier.now ++ newest.now ∷ []) }
{
    for pair in earlier {
        if pair.number == number {
            return Some(&pair.state);
        }
    }
    if newest.number == number {
        return Some(&newest.state);
    }
    None
}

// How many pairs are not below the floor.
fn kept<S>(earlier: &[Pair<S>], newest: &Pair<S>, floor: u64) -> usize
    requires few { length earlier.now ≤ 7 }
    ensures count { result ≡ length (from_floor floor (earlier.now ++ newest.now ∷ [])) }
{
    let mut count: usize = 0;
    for pair in earlier {
        if pair.number >= floor {
            count += 1;
        }
    }
    if newest.number >= floor {
        count + 1
    } else {
        count
    }
}

// Adds a pair, and drops those below the floor.
fn add_above<S: Drop>(pairs: &mut Vec<Pair<S>>, pair: Pair<S>, floor: u64)
    requires room { vec_len pairs.old + 1 ≤ vec_capacity pairs.old }
    ensures pairs { pairs.new.items ≡ from_floor floor (pairs.old.items ++ pair ∷ []) }
{
    pairs.push(pair).unwrap();
    pairs.retain(|p| p.number >= floor);
}
