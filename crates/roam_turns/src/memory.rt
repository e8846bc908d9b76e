//! Ports over memory, which record their calls.
ghost use Rattle.std.specs.Prelude.{◌≡◌, ◌≤◌, ◌⊎◌, ◌∷◌, ◌++◌, [], is_ok, if◌then◌else◌, not, length, min, take, vec_capacity, vec_len, OnErr, IfOk, IfSome, Some, None};
ghost use Rattle.roam_turns.specs.Calls.{Tells, received_call, pane_gave};
ghost use Rattle.roam_turns.specs.Calls.PortCall.{Now, Sent, PaneGenerations, PaneTook, Showed};
ghost use Rattle.roam_turns.specs.Giving.{next_call, goes_well, first_where, rest_where, is_first, gives_piece, receive_of, piece_of, Notes, Counts};
ghost use Rattle.roam_turns.specs.Recording.{call_of, datagrams_of, pieces_of, told_of};

use crate::ports::Ports;
use roam_hub::Addr;
use std::alloc::{AllocError, Global};
use std::collections::VecDeque;

/// A call of a port, and its result.
#[derive(Debug, Drop)]
pub enum RecordedCall {
    /// The moment.
    Now(u64),

    /// A datagram came, into room for so many bytes.
    Received(usize, Addr, Vec<u8>),

    /// None came.
    NothingReceived(usize),

    /// A datagram was to go somewhere, and whether it went.
    Sent(Addr, Vec<u8>, bool),

    /// Which making of a pane is there, if any.
    PaneGenerations(u8, Option<u64>),

    /// The output of a pane's program, into room for so many bytes.
    PaneGave(u8, usize, Vec<u8>),

    /// It wrote nothing.
    PaneGaveNothing(u8, usize),

    /// Bytes passed to the program of a pane, and how many of them it took.
    PaneTook(u8, Vec<u8>, usize),

    /// A text to be shown, and whether it was.
    Showed(Vec<u8>, bool),
}

/// Ports over memory: the input is queued, and each call is recorded with its result.
#[derive(Drop)]
pub struct MemoryPorts {
    alloc: Global,
    moment: u64,
    datagrams: VecDeque<(Addr, Vec<u8>)>,
    pieces: VecDeque<(u8, Vec<u8>)>,
    appetite: usize,
    told: Vec<RecordedCall>,
    is_lost: bool,
    calls: u64,
    fails_at: u64,
}

// Takes the front of a queue, if it is taken.
fn pop_where<T>(is_taken: bool, queue: &mut VecDeque<T>) -> Option<T>
    ensures first { result ≡ first_where is_taken queue.old.items }
    ensures rest { queue.new.items ≡ rest_where is_taken queue.old.items }
{
    if is_taken { queue.pop_front() } else { None }
}

// Copies bytes to the front of a buffer, as many as fit, and returns their number.
fn copy_front(bytes: &[u8], buf: &mut [u8]) -> usize
    ensures within { result ≤ length buf.new }
    ensures copied { take result buf.new ≡ take (length buf.old) bytes.now }
{
    let len = bytes.len().min(buf.len());
    buf[..len].copy_from_slice(&bytes[..len]);
    len
}

impl MemoryPorts {
    /// Returns ports at the moment 0: no input, all output goes, and no call fails.
    pub fn new(alloc: Global) -> MemoryPorts
        ensures told { told_of result ≡ Some [] }
        ensures moment { result.moment ≡ 0 }
        ensures no_datagram { datagrams_of result ≡ [] }
        ensures no_piece { pieces_of result ≡ [] }
        ensures appetite { result.appetite ≡ usize.MAX }
        ensures fails { result.fails_at ≡ 0 }
    {
        MemoryPorts {
            alloc,
            moment: 0,
            datagrams: VecDeque::new(alloc),
            pieces: VecDeque::new(alloc),
            appetite: usize::MAX,
            told: Vec::new(alloc),
            is_lost: false,
            calls: 0,
            fails_at: 0,
        }
    }

    /// It is this moment from now on, in milliseconds.
    pub fn set_moment(&mut self, moment: u64)
        ensures moment { self.new ≡ record self.old { moment = moment } }
    {
        self.moment = moment;
    }

    /// A datagram is to come, after those that are.
    pub fn deliver(&mut self, from: Addr, bytes: &[u8]) -> Result<(), AllocError>
        ensures comes { datagrams_of self.new
            ≡ (if is_ok result then datagrams_of self.old ++ (from, bytes.now) ∷ [] else datagrams_of self.old) }
        ensures others { self.old ≡ record self.new { datagrams = self.old.datagrams } }
    {
        let text = Vec::from_slice(self.alloc, bytes)?;
        self.datagrams.push_back((from, text))?;
        Ok(())
    }

    /// The program of a pane writes a piece, after those that were written. One that is longer than the room it finds is cut.
    pub fn write(&mut self, pane: u8, piece: &[u8]) -> Result<(), AllocError>
        ensures comes { pieces_of self.new ≡ (if is_ok result then pieces_of self.old ++ (pane, piece.now) ∷ [] else pieces_of self.old) }
        ensures others { self.old ≡ record self.new { pieces = self.old.pieces } }
    {
        let text = Vec::from_slice(self.alloc, piece)?;
        self.pieces.push_back((pane, text))?;
        Ok(())
    }

    /// The programs of panes take at most so many bytes at once from now on.
    pub fn take_at_most(&mut self, bytes: usize)
        ensures appetite { self.new ≡ record self.old { appetite = bytes } }
    {
        self.appetite = bytes;
    }

    /// Makes the call of this number fail, counted from 1 and from now on; none at 0. A moment is returned whatever fails, and the
    /// generations of panes aren't counted.
    pub fn fail_at(&mut self, call: u64)
        ensures fails { self.new ≡ record self.old { calls = 0; fails_at = call } }
    {
        self.calls = 0;
        self.fails_at = call;
    }

    /// The calls so far, in their order, up to one for which there was no memory.
    pub fn told(&self) -> &[RecordedCall]
        ensures told { result.now ≡ self.now.told.items }
    {
        &self.told
    }

    // Returns true if the first piece of input is of this pane's program.
    fn is_next(&self, pane: u8) -> bool
        ensures first { result ≡ is_first pane (pieces_of self.now) }
    {
        match self.pieces.front() {
            None => false,
            Some((from, _)) => *from == pane,
        }
    }

    // Counts a call, and returns true if it fails.
    fn is_failing(&mut self) -> bool
        ensures fails { result ≡ not (goes_well self.old) }
        ensures counts { self.new ≡ record self.old { calls = next_call self.old } }
    {
        self.calls = self.calls.saturating_add(1);
        self.calls == self.fails_at
    }

    // Records a call. After one that can't be recorded, the ports record nothing.
    fn record(&mut self, call: Result<RecordedCall, AllocError>)
        ensures told { IfOk call (λ it. Tells (told_of self.old) (told_of self.new) (call_of it ∷ [])) }
        ensures lost { OnErr call (told_of self.new ≡ None) }
        ensures notes { Notes self.old self.new }
        // A lost call leaves the calls before it.
        ensures kept { OnErr call (self.new.told.items ≡ self.old.told.items) }
        // A call is lost only if there is no room for it.
        ensures room { IfOk call (λ it. (self.new.told.items ≡ self.old.told.items ++ it ∷ [])
            ⊎ ((self.new.told.items ≡ self.old.told.items) × (vec_capacity self.old.told ≤ vec_len self.old.told))) }
    {
        match call {
            Ok(it) => {
                if self.told.push(it).is_err() {
                    self.is_lost = true;
                }
            }
            Err(_) => self.is_lost = true,
        }
    }
}

impl Ports for MemoryPorts {
    ghost told = { told_of };

    fn now(&mut self) -> u64
        ensures moment { result ≡ self.old.moment }
        ensures counts { Counts self.old self.new }
        ensures tells { Tells (told_of self.old) (told_of self.new) (Now result ∷ []) }
    {
        let _ = self.is_failing();
        let moment = self.moment;
        self.record(Ok(RecordedCall::Now(moment)));
        moment
    }

    fn receive(&mut self, buf: &mut [u8]) -> Option<(Addr, usize)>
        ensures oldest { received_call (length buf.old) result buf.new
            ≡ receive_of (length buf.old) (first_where (goes_well self.old) (datagrams_of self.old)) }
        ensures later { datagrams_of self.new ≡ rest_where (goes_well self.old) (datagrams_of self.old) }
        ensures counts { Counts (record self.old { datagrams = self.new.datagrams }) self.new }
        ensures within { IfSome result (λ r. r.1 ≤ length buf.new) }
        ensures tells { Tells (told_of self.old) (told_of self.new) (received_call (length buf.old) result buf.new ∷ []) }
    {
        let room = buf.len();
        let goes = !self.is_failing();
        match pop_where(goes, &mut self.datagrams) {
            None => {
                self.record(Ok(RecordedCall::NothingReceived(room)));
                None
            }
            Some((from, bytes)) => {
                let len = copy_front(&bytes, buf);
                let text = Vec::from_slice(self.alloc, &buf[..len]);
                self.record(text.map(|text| RecordedCall::Received(room, from, text)));
                Some((from, len))
            }
        }
    }

    fn send(&mut self, to: Addr, bytes: &[u8]) -> bool
        ensures goes { result ≡ goes_well self.old }
        ensures counts { Counts self.old self.new }
        ensures tells { Tells (told_of self.old) (told_of self.new) (Sent to bytes.now result ∷ []) }
    {
        let went = !self.is_failing();
        let text = Vec::from_slice(self.alloc, bytes);
        self.record(text.map(|text| RecordedCall::Sent(to, text, went)));
        went
    }

    fn pane_generations(&mut self, pane: u8, generation: Option<u64>)
        ensures notes { Notes self.old self.new }
        ensures tells { Tells (told_of self.old) (told_of self.new) (PaneGenerations pane generation ∷ []) }
    {
        self.record(Ok(RecordedCall::PaneGenerations(pane, generation)));
    }

    fn pane_in(&mut self, pane: u8, buf: &mut [u8]) -> Option<usize>
        ensures first { pane_gave pane (length buf.old) result buf.new
            ≡ piece_of pane (length buf.old) (first_where (gives_piece pane self.old) (pieces_of self.old)) }
        ensures later { pieces_of self.new ≡ rest_where (gives_piece pane self.old) (pieces_of self.old) }
        ensures counts { Counts (record self.old { pieces = self.new.pieces }) self.new }
        ensures within { IfSome result (λ n. n ≤ length buf.new) }
        ensures tells { Tells (told_of self.old) (told_of self.new) (pane_gave pane (length buf.old) result buf.new ∷ []) }
    {
        let room = buf.len();
        let gives = !self.is_failing() && self.is_next(pane);
        match pop_where(gives, &mut self.pieces) {
            None => {
                self.record(Ok(RecordedCall::PaneGaveNothing(pane, room)));
                None
            }
            Some((_, bytes)) => {
                let len = copy_front(&bytes, buf);
                let text = Vec::from_slice(self.alloc, &buf[..len]);
                self.record(text.map(|text| RecordedCall::PaneGave(pane, room, text)));
                Some(len)
            }
        }
    }

    fn pane_out(&mut self, pane: u8, bytes: &[u8]) -> usize
        ensures takes { result ≡ (if goes_well self.old then min (length bytes.now) self.old.appetite else 0) }
        ensures counts { Counts self.old self.new }
        ensures within { result ≤ length bytes.now }
        ensures tells { Tells (told_of self.old) (told_of self.new) (PaneTook pane bytes.now result ∷ []) }
    {
        let took = if self.is_failing() {
            0
        } else {
            bytes.len().min(self.appetite)
        };
        let text = Vec::from_slice(self.alloc, bytes);
        self.record(text.map(|text| RecordedCall::PaneTook(pane, text, took)));
        took
    }

    fn show(&mut self, bytes: &[u8]) -> bool
        ensures goes { result ≡ goes_well self.old }
        ensures counts { Counts self.old self.new }
        ensures tells { Tells (told_of self.old) (told_of self.new) (Showed bytes.now result ∷ []) }
    {
        let is_shown = !self.is_failing();
        let text = Vec::from_slice(self.alloc, bytes);
        self.record(text.map(|text| RecordedCall::Showed(text, is_shown)));
        is_shown
    }
}
