//! The taking end of acts: how many were taken.
ghost use Rattle.std.specs.Prelude.{◌≡◌, ◌+◌, ◌<◌, ◌≤◌, ◌^◌, length};
ghost use Rattle.roam_acts.specs.Takers.{fresh_of};

use crate::acts::Act;
use std::marker::Model;

/// The taking end of a client's acts, numbered from 1: the number of the last act taken.
#[derive(Drop)]
pub struct ActTaker {
    count: u64,
}

impl Model for ActTaker {
    ghost use Rattle.std.specs.Prelude.{ℕ, ◌≤◌, ◌^◌};

    ghost Value = { ℕ };

    ghost view = { λ t. t.count };

    ghost invariant = { λ t. t.count ≤ 2 ^ 63 };
}

impl ActTaker {
    /// A taker that has taken nothing.
    pub fn new() -> Self
        ensures start { result ≡ 0 }
    {
        ActTaker { count: 0 }
    }

    /// How many acts were taken.
    pub fn taken(&self) -> u64
        ensures count { result ≡ self.now }
    {
        self.count
    }

    /// Returns the acts above the count among those that begin with the number `first`; none if an act between is missing.
    pub fn fresh<'a>(&self, first: u64, acts: &'a [Act]) -> &'a [Act]
        ensures fresh { result.now ≡ fresh_of self.now first acts.now }
        ensures most { length result.now ≤ length acts.now }
    {
        if first > self.count + 1 {
            return &[];
        }
        let known = (self.count + 1 - first).min(acts.len() as u64) as usize;
        acts.split_at(known).1
    }

    /// Counts one more act as taken. The caller's condition: fewer than 2^63 were taken.
    pub fn took(&mut self)
        requires room { self.old < 2 ^ 63 }
        ensures took { self.new ≡ self.old + 1 }
    {
        self.count += 1;
    }
}
