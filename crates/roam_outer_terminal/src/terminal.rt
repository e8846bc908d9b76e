//! An outer terminal: the stream to it, its lines, and its queued bytes.
ghost use Rattle.std.specs.Prelude.{◌≡◌, ◌++◌, List, ℕ, [], true, false, not, None};
ghost use Rattle.roam_outer_terminal.specs.Hearing.{IsRefusal, IsRefused};
ghost use Rattle.roam_outer_terminal.specs.Painted.{is_predicting, is_here};
ghost use Rattle.roam_outer_terminal.specs.Staying.{is_gone};
ghost use Rattle.roam_outer_terminal.specs.Writing.{is_empty, once_written, unwritten};
ghost use Rattle.roam_terminal_input.specs.Lines.{nothing_came};

use crate::duplex::Duplex;
use roam_cells::Fault;
use roam_display_records::Record;
use roam_display_state::{DisplayState, say};
use roam_overlay::Overlay;
use roam_screens::RowShot;
use roam_stream_framing::Outbox;
use roam_terminal_input::{Front, Lines};
use roam_turns::Outer;
use std::alloc::Global;

/// How far a terminal came.
#[derive(Clone, Copy, Debug, PartialEq, Eq)]
pub(crate) enum State {
    /// It is there.
    Here,

    /// It accepts no more bytes, as if closed at its other end. Its lines are taken until it leaves.
    Deaf,

    /// It left: the lines that came whole are taken, and then it goes.
    Left,

    /// A line was refused: the terminal is disconnected once it got the reason.
    Refused,

    /// It is to be disconnected.
    Gone,
}

impl State {
    // Returns the state after a write that failed for good. The lines that the terminal typed before are still taken.
    pub(crate) fn unwritten(self) -> State
        ensures unwritten { result ≡ unwritten self }
    {
        match self {
            State::Here | State::Deaf => State::Deaf,
            State::Left => State::Left,
            State::Refused | State::Gone => State::Gone,
        }
    }

    // Returns the state once all queued bytes are written.
    pub(crate) fn once_written(self) -> State
        ensures written { result ≡ once_written self }
    {
        match self {
            State::Refused => State::Gone,
            state => state,
        }
    }
}

/// An outer terminal of a client instance.
#[derive(Drop)]
pub struct Terminal<S> {
    pub(crate) stream: S,
    pub(crate) lines: Lines,
    pub(crate) outer: Outer,
    pub(crate) predicting: Option<Overlay>,
    // The overlay: the noted screen with its predictions.
    pub(crate) over: Option<RowShot>,
    pub(crate) waiting: Outbox,
    // The state of its records, if it asked for them.
    pub(crate) display_state: Option<DisplayState>,
    pub(crate) watches: bool,
    pub(crate) told: Option<u64>,
    pub(crate) stuck: Option<u64>,
    pub(crate) state: State,
}

impl<S: Duplex + Drop> Terminal<S> {
    /// A terminal at the other end of a stream: nothing came, nothing is known of it, and nothing waits.
    pub fn new(alloc: Global, stream: S) -> Terminal<S>
        ensures stream { result.stream ≡ stream }
        ensures lines { (result.lines ≡ nothing_came) × (result.watches ≡ false) }
        ensures guessing { (result.predicting ≡ None) × (result.over ≡ None) }
        ensures painted { (result.outer ≡ None) × (result.waiting ≡ []) × (result.told ≡ None) × (result.stuck ≡ None) }
        ensures untold { result.display_state ≡ None }
        ensures here { result.state ≡ State.Here }
    {
        Terminal {
            stream,
            lines: Lines::new(alloc),
            outer: Outer::new(),
            predicting: None,
            over: None,
            waiting: Outbox::new(alloc),
            display_state: None,
            watches: false,
            told: None,
            stuck: None,
            state: State::Here,
        }
    }

    /// Returns true if the terminal is to be disconnected: it is gone, or it left and none of its lines is whole.
    pub fn is_gone(&self) -> bool
        ensures gone { result ≡ is_gone self.now }
    {
        match self.state {
            State::Gone => true,
            State::Left => !matches!(self.lines.front(), Front::Line(_)),
            State::Here | State::Deaf | State::Refused => false,
        }
    }

    /// Returns true if bytes are queued.
    pub fn is_waiting(&self) -> bool
        ensures waits { result ≡ not (is_empty self.now.waiting) }
    {
        self.waiting.len() > 0
    }

    // Returns true if the terminal is connected and accepts bytes.
    pub(crate) fn is_here(&self) -> bool
        ensures here { result ≡ is_here self.now.state }
    {
        match self.state {
            State::Here => true,
            State::Deaf | State::Left | State::Refused | State::Gone => false,
        }
    }

    /// Returns true if the terminal has predictions.
    pub fn is_predicting(&self) -> bool
        ensures guesses { result ≡ is_predicting self.now }
    {
        match &self.predicting {
            Some(overlay) => overlay.len() > 0,
            None => false,
        }
    }

    // Makes the terminal's screen unknown, so that it is painted anew.
    pub(crate) fn forget(&mut self)
        ensures outer { self.new ≡ record self.old { outer = None } }
    {
        self.outer = Outer::new();
    }

    // Queues the reason for which the next line is refused, if there is memory for it.
    pub(crate) fn refuse(&mut self, alloc: Global, fault: Fault)
        ensures refused { IsRefused self.old self.new }
    {
        let is_told = self.display_state.is_some();
        self.state = State::Refused;
        self.forget();
        let number = self.lines.count().saturating_add(1);
        push_refusal(alloc, &mut self.waiting, is_told, number, fault);
    }
}

// Adds why a line isn't taken: in words, or in a record. Where there is no memory for it nothing is added.
fn push_refusal(alloc: Global, waiting: &mut Outbox, is_told: bool, number: u64, fault: Fault)
    ensures words { (text : List ℕ) × IsRefusal is_told text × (waiting.new ≡ waiting.old ++ text) }
{
    let Ok(words) = format!(in alloc; "{fault}") else {
        return;
    };
    if is_told {
        let _ = say(alloc, waiting, Record::Refused(number, words.as_str()));
    } else if let Ok(text) = format!(in alloc; "\r\nroam: line {number}: {words}\r\n") {
        let _ = waiting.push(text.as_bytes());
    }
}
