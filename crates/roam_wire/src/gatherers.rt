//! The gatherer of an instruction's fragments.
ghost use Rattle.std.specs.Prelude.{◌≡◌, ◌<◌, length, replicate, Some, None, IfOk, OnOk, OnErr, get_or, slice_set};
ghost use Rattle.roam_wire.specs.Gatherers.{answer_of, answer_in};

use crate::datagrams::Datagram;
use crate::fragments::Fragments;
use roam_cells::{Fault, Reason};
use std::alloc::{AllocError, Global};
use std::marker::Model;
use std::mem;

/// The effect of a fragment on the gathered instruction.
#[derive(Debug, Drop)]
pub enum Gathered {
    /// It is there now, and others are missing.
    Part,

    /// It changed nothing: it was there, or a higher id has come since.
    Old,

    /// It was the last one missing: the text of the instruction.
    Whole(Vec<u8>),
}

// The undo of the last fragment: a fragment is taken out again, or another instruction comes back.
#[derive(Drop)]
pub(crate) enum Undo {
    Nothing,
    Same,
    Fragment(usize),
    Start(u64, Fragments),
}

/// The fragments of one instruction at a time, that of the highest id.
#[derive(Drop)]
pub struct Gatherer {
    id: u64,
    fragments: Fragments,
    undo: Undo,
}

impl Model for Gatherer {
    ghost use Rattle.roam_wire.specs.Gatherers.{GathererValue, Gathering, before_of, IsSound};

    ghost Value = { GathererValue };

    ghost view = { λ g. let current : Gathering = record { id = g.id; fragments = g.fragments }
        in record { current = current; before = before_of current g.undo } };

    ghost invariant = { λ g. IsSound g.fragments g.undo };
}

// Returns the result of these fragments.
fn answer(alloc: Global, fragments: &Fragments) -> Result<Gathered, AllocError>
    ensures answer { IfOk result (λ a. answer_of a ≡ answer_in fragments.now) }
{
    if fragments.is_whole() {
        Ok(Gathered::Whole(fragments.text(alloc)?))
    } else {
        Ok(Gathered::Part)
    }
}

// Adds a missing fragment, and returns the result of the fragments then; if memory runs out, they are as before.
fn added(
    alloc: Global,
    fragments: &mut Fragments,
    index: usize,
    payload: &[u8],
) -> Result<Gathered, AllocError>
    requires place { index < length fragments.old }
    requires missing { get_or fragments.old index None ≡ None }
    ensures answer { IfOk result (λ a. answer_of a ≡ answer_in fragments.new) }
    ensures ok { OnOk result (fragments.new ≡ slice_set fragments.old index (Some payload.now)) }
    ensures err { OnErr result (fragments.new ≡ fragments.old) }
{
    let fragment = Vec::from_slice(alloc, payload)?;
    fragments.put(index, fragment);
    match answer(alloc, fragments) {
        Ok(answer) => Ok(answer),
        Err(fault) => {
            fragments.take_out(index);
            Err(fault)
        }
    }
}

// Returns the fragments of a new instruction, one of which is there, and their result.
fn begun(
    alloc: Global,
    count: usize,
    index: usize,
    payload: &[u8],
) -> Result<(Fragments, Gathered), AllocError>
    requires place { index < count }
    ensures fragments { IfOk result (λ p. p.0 ≡ slice_set (replicate count None) index (Some payload.now)) }
    ensures answer { IfOk result (λ p. answer_of p.1 ≡ answer_in p.0) }
{
    let mut fragments = Fragments::all_missing(alloc, count)?;
    let answer = added(alloc, &mut fragments, index, payload)?;
    Ok((fragments, answer))
}

impl Gatherer {
    ghost use Rattle.std.specs.Prelude.{◌≡◌, ◌⊎◌, ◌↔◌, true, Some, None, IfOk, IfErr, OnOk, OnErr, IsErrOf};
    ghost use Rattle.roam_cells.specs.declared.faults.Reason.TheVariants.{Fragment};
    ghost use Rattle.roam_wire.specs.Datagrams.{datagram_value};
    ghost use Rattle.roam_wire.specs.Gatherers.{gather, answer_of, is_missing, nothing, fragment_of, untaken};

    /// A gatherer to which nothing has come. It takes no memory.
    pub fn new(alloc: Global) -> Gatherer
        ensures new { result ≡ record { current = nothing; before = None } }
    {
        Gatherer {
            id: 0,
            fragments: Fragments::new(alloc),
            undo: Undo::Nothing,
        }
    }

    /// Takes the fragment of a datagram. In this order: `Old` for an id below the current one, and for a current one that is whole.
    /// `BadDatagram(Fragment)` for an index that isn't below its count. A higher id begins anew. `BadDatagram(Fragment)` for another count
    /// under the current id. `Old` for a fragment that is there. `OutOfMemory` comes after these. An error leaves the gatherer as it was.
    pub fn take(&mut self, alloc: Global, datagram: &Datagram) -> Result<Gathered, Fault>
        ensures answer { IfOk result (λ a. gather self.old.current (fragment_of (datagram_value datagram.now))
            ≡ Some (answer_of a, self.new.current)) }
        // The state that `untake` restores.
        ensures before { OnOk result (self.new.before ≡ Some self.old.current) }
        ensures bad { IsErrOf result (Fault.BadDatagram Fragment)
            ↔ (gather self.old.current (fragment_of (datagram_value datagram.now)) ≡ None) }
        ensures err { OnErr result (self.new ≡ self.old) }
        ensures fault { IfErr result (λ e. (e ≡ Fault.OutOfMemory) ⊎ (e ≡ Fault.BadDatagram Fragment)) }
        // Memory is wanted for a missing fragment alone.
        ensures memory { IsErrOf result Fault.OutOfMemory → is_missing self.old.current (fragment_of (datagram_value datagram.now)) ≡ true }
    {
        let whole = self.fragments.is_whole();
        if datagram.id < self.id || (datagram.id == self.id && whole) {
            self.undo = Undo::Same;
            return Ok(Gathered::Old);
        }
        if datagram.index >= datagram.count {
            return Err(Fault::BadDatagram(Reason::Fragment));
        }
        let index = datagram.index as usize;
        let count = datagram.count as usize;
        let payload = datagram.payload.as_slice();
        if datagram.id > self.id {
            let (fragments, answer) = begun(alloc, count, index, payload)?;
            let before = mem::replace(&mut self.fragments, fragments);
            self.undo = Undo::Start(self.id, before);
            self.id = datagram.id;
            return Ok(answer);
        }
        if self.fragments.len() != count {
            return Err(Fault::BadDatagram(Reason::Fragment));
        }
        if self.fragments.has(index) {
            self.undo = Undo::Same;
            return Ok(Gathered::Old);
        }
        let answer = added(alloc, &mut self.fragments, index, payload)?;
        self.undo = Undo::Fragment(index);
        Ok(answer)
    }

    /// Undoes the last `take` that answered Ok, once; else it does nothing. It takes no memory.
    pub fn untake(&mut self)
        ensures untaken { self.new ≡ untaken self.old }
    {
        // It undoes only the last take. After one that returned `Old` nothing changes.
        match mem::replace(&mut self.undo, Undo::Nothing) {
            Undo::Nothing | Undo::Same => {}
            Undo::Fragment(index) => self.fragments.take_out(index),
            Undo::Start(id, fragments) => {
                self.id = id;
                self.fragments = fragments;
            }
        }
    }
}
