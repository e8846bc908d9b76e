//! The acts of a datagram, as text: each as its line, with `, ` between two.
use roam_acts::{Act, read_act};
use roam_wire::{Gathered, Gatherer, Up, read_datagram, read_up};
use std::alloc::Global;

// The instruction of a client instance that is one datagram.
fn up_of(alloc: Global, datagram: &[u8]) -> Option<Up> {
    let datagram = read_datagram(alloc, datagram).ok()?;
    match Gatherer::new(alloc).take(alloc, &datagram) {
        Ok(Gathered::Whole(text)) => read_up(alloc, text.as_slice(), false).ok(),
        _ => None,
    }
}

fn are(acts: &[Act], text: &str) -> bool {
    let mut left = acts;
    for line in text.split(", ") {
        let Some((act, later)) = left.split_first() else {
            return false;
        };
        if read_act(line.as_bytes()) != Ok(*act) {
            return false;
        }
        left = later;
    }
    left.is_empty()
}

/// Returns true if a datagram has exactly these acts.
pub fn has(alloc: Global, datagram: &[u8], text: &str) -> bool {
    match up_of(alloc, datagram) {
        Some(up) => are(&up.acts, text),
        None => false,
    }
}
