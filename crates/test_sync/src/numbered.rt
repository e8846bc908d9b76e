//! A state for each number: numbers themselves, and screens of other sizes.
use crate::counters::Counter;
use roam_cells::Fault;
use roam_screens::{RowShot, Seen};
use roam_sync::Sender;
use roam_update::Synced;
use std::alloc::Global;

/// A state for each number.
pub trait Numbered: Synced {
    fn of(alloc: Global, number: u64) -> Result<Self, Fault>;

    fn is(&self, number: u64) -> bool;
}

impl Numbered for Counter {
    fn of(_alloc: Global, number: u64) -> Result<Counter, Fault> {
        Ok(Counter { value: number })
    }

    fn is(&self, number: u64) -> bool {
        self.value == number
    }
}

impl Numbered for RowShot {
    fn of(alloc: Global, number: u64) -> Result<RowShot, Fault> {
        RowShot::blank(alloc, 2 + (number % 64) as u16, 8)
    }

    fn is(&self, number: u64) -> bool {
        u64::from(self.rows()) == 2 + number % 64
    }
}

/// Offers a state under its number, and returns the answer if the number isn't above all others.
pub fn offer<S: Numbered>(
    alloc: Global,
    sender: &mut Sender<S>,
    number: u64,
) -> Result<bool, Fault> {
    let state = S::of(alloc, number)?;
    if sender.newest_number() >= number {
        return Ok(false);
    }
    sender.offer(number, state)?;
    Ok(true)
}
