//! A caller of `roam_wire`, as its README shows it (`tools/worked_callers`).

// README: begin
ghost use Rattle.std.specs.Prelude.{◌≡◌, IfOk, Some};
ghost use Rattle.roam_wire.specs.Gatherers.{gather, answer_of, fragment_of};
ghost use Rattle.roam_wire.specs.Datagrams.{IsDatagram, datagram_text, DatagramValue};

use roam_cells::Fault;
use roam_wire::{Gathered, Gatherer, read_datagram};
use std::alloc::Global;

/// Gives the gatherer a datagram, and returns its answer. A refusal leaves the gatherer as it was.
pub fn arrive(alloc: Global, gatherer: &mut Gatherer, bytes: &[u8]) -> Result<Gathered, Fault>
    ensures answer { (d : DatagramValue) → IsDatagram d → bytes.now ≡ datagram_text d
        → IfOk result (λ a. gather gatherer.old.current (fragment_of d) ≡ Some (answer_of a, gatherer.new.current)) }
{
    let datagram = read_datagram(alloc, bytes)?;
    gatherer.take(alloc, &datagram)
}
// README: end
