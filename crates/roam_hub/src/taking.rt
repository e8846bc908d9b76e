//! The acts of an instruction, done one after another.
ghost use Rattle.std.specs.Prelude.{◌≡◌, ◌⊎◌, ◌+◌, ◌≤◌, ◌^◌, List, length, true, false, IfSome, IfNone};
ghost use Rattle.std.specs.List.{All};
ghost use Rattle.roam_acts.specs.Acts.{IsInRange};
ghost use Rattle.roam_session.specs.Sessions.{SessionSize, Entry, Did};
ghost use Rattle.roam_session.specs.Stands.{Stands, Appends};
ghost use Rattle.roam_session.specs.Refusals.{stops};
ghost use Rattle.roam_hub.specs.Records.{TakesActs};

use roam_acts::{Act, ActTaker};
use roam_cells::Fault;
use roam_session::Session;
use std::alloc::Global;

/// How many acts were taken, and why no more were.
#[derive(Clone, Copy, Debug, PartialEq, Eq)]
pub struct Taking {
    pub taken: usize,
    pub stopped: Option<Fault>,
}

// Does an act, or answers why it stops there: want of memory, or a full queue. A layout command that is refused is done with no effect.
fn perform(alloc: Global, session: &mut Session, client: u64, act: &Act) -> Option<Fault>
    requires in_range { IsInRange act.now }
    ensures done { IfNone result (Appends session.old session.new (Did client act.now)) }
    ensures free { IfNone result ((size : SessionSize) (log : List Entry) → Stands session.old size log
        → stops size log act.now ≡ false) }
    ensures full { (size : SessionSize) (log : List Entry) → Stands session.old size log → IfSome result (λ fault.
        ((fault ≡ Fault.OutOfMemory) × (stops size log act.now ≡ false)) ⊎ ((fault ≡ Fault.Busy) × (stops size log act.now ≡ true))) }
    ensures fault { IfSome result (λ fault. (fault ≡ Fault.OutOfMemory) ⊎ (fault ≡ Fault.Busy)) }
    ensures same { IfSome result (λ _. session.new ≡ session.old) }
{
    match session.act(alloc, client, act) {
        Ok(()) => None,
        Err(fault) if fault == Fault::OutOfMemory => Some(fault),
        Err(fault) if fault == Fault::Busy => Some(fault),
        Err(_) => None,
    }
}

/// Does acts in their order, each counted as taken, up to one that stops. The caller's condition: fewer than 2^63 are taken then.
pub fn take_acts(
    alloc: Global,
    session: &mut Session,
    taker: &mut ActTaker,
    client: u64,
    acts: &[Act],
) -> Taking
    requires in_range { All IsInRange acts.now }
    requires room { taker.old + length acts.now ≤ 2 ^ 63 }
    ensures acts { (size : SessionSize) (log : List Entry) → Stands session.old size log
        → TakesActs size log client acts.now result session.new }
    ensures count { taker.new ≡ taker.old + result.taken }
    ensures within { result.taken ≤ length acts.now }
    ensures stops { IfSome result.stopped (λ fault. (fault ≡ Fault.OutOfMemory) ⊎ (fault ≡ Fault.Busy)) }
{
    let mut taken = 0;
    for act in acts {
        let stopped = perform(alloc, session, client, act);
        if stopped.is_some() {
            return Taking { taken, stopped };
        }
        taker.took();
        taken += 1;
    }
    Taking {
        taken,
        stopped: None,
    }
}
