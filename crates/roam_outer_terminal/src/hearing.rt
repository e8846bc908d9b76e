//! The lines of an outer terminal: each is read and taken once, in order.
ghost use Rattle.std.specs.Prelude.{◌≡◌, ◌≢◌, ◌⊎◌, ◌++◌, ◌≤◌, ℕ, List, Option, true, None, Some, IfOk, length};
ghost use Rattle.std.specs.Io.KnownBytes.{Keeps};
ghost use Rattle.std.specs.List.{All};
ghost use Rattle.roam_acts.specs.Acts.{IsInRange};
ghost use Rattle.roam_faults.specs.Streams.{IsStreamEnd};
ghost use Rattle.roam_hub.specs.Clients.{ClientView};
ghost use Rattle.roam_outer_terminal.specs.Hearing.{HearsOne, IsRead, IsRefused, TakesEntry, TakesWord, Took, TypesLine, forgotten, is_end, is_looking, line_told, look_of, told_of};
ghost use Rattle.roam_display_state.specs.DisplayState.{nothing_told};
ghost use Rattle.roam_outer_terminal.specs.Terminals.{IsSet, Reads, asks_end, fresh_predictions, predictions_after, is_heard, is_read};
ghost use Rattle.roam_terminal_input.specs.Entries.{Says, acts_in};
ghost use Rattle.roam_terminal_input.specs.declared.entries.Entry.{Entry as EntryOf};
ghost use Rattle.roam_terminal_input.specs.Lines.{IsFirst};
ghost use Rattle.roam_terminal_input.specs.Typing.{bytes_given};

use crate::duplex::Duplex;
use crate::terminal::{State, Terminal};
use roam_acts::Act;
use roam_acts::limits::MOST_ACTS;
use roam_cells::Fault;
use roam_display_records::{Looking, Record};
use roam_display_state::{DisplayState, say};
use roam_faults::is_for_now;
use roam_hub::Client;
use roam_overlay::Overlay;
use roam_terminal_input::{Entry, Front, Predicting, Showing, read_entry};
use std::alloc::Global;
use std::io;

/// How many bytes are read at once at most.
const PIECE: usize = 1024;

/// So many pieces are more than a line.
const MOST_READS: u32 = 4;

/// The result of a terminal's first line.
#[derive(Clone, Copy, Debug, PartialEq, Eq)]
pub enum Taking {
    /// There was no whole line.
    Nothing,

    /// It was taken.
    Line,

    /// It was taken, and ends the instance.
    End,

    /// It waits until acts are acknowledged.
    Waits,

    /// It waits since there was no memory.
    NoMemory,
}

impl Taking {
    /// Returns true if the line ends the instance.
    pub fn is_end(self) -> bool
        ensures end { result ≡ is_end self }
    {
        match self {
            Taking::End => true,
            Taking::Nothing | Taking::Line | Taking::Waits | Taking::NoMemory => false,
        }
    }
}

// Returns new predictions, or `None` if memory is refused.
fn new_overlay(alloc: Global, adaptive: bool) -> Option<Overlay>
    ensures fresh { (result ≡ None) ⊎ (result ≡ Some (fresh_predictions adaptive)) }
{
    match Overlay::new(alloc, adaptive) {
        Ok(overlay) => Some(overlay),
        Err(_) => None,
    }
}

// Returns new predictions if they are wanted and there is memory for them; `None` for a read-only terminal.
fn overlay_for(alloc: Global, predicting: Predicting, watches: bool) -> Option<Overlay>
    ensures set { IsSet predicting watches result }
{
    if watches {
        return None;
    }
    match predicting {
        Predicting::Always => new_overlay(alloc, false),
        Predicting::Adaptive => new_overlay(alloc, true),
        Predicting::Never => None,
    }
}

impl<S: Duplex + Drop> Terminal<S> {
    // Notes the result of a read, and returns true if it brought bytes that are kept.
    fn take_piece(&mut self, answer: &io::Result<usize>, piece: &[u8]) -> bool
        requires within { IfOk answer.now (λ n. n ≤ length piece.now) }
        ensures on { result ≡ true → self.new.state ≡ self.old.state }
        ensures kept { self.new.state ≢ State.Gone → self.new.lines.kept ≡ self.old.lines.kept ++ bytes_given answer.now piece.now }
        // The terminal leaves exactly if the stream ends.
        ensures left { self.new.state ≡ State.Left → (self.old.state ≡ State.Left) ⊎ IsStreamEnd answer.now }
        ensures ended { IsStreamEnd answer.now → self.new.state ≡ State.Left }
        ensures others { self.new ≡ record self.old { lines = self.new.lines; state = self.new.state } }
    {
        match answer {
            Ok(0) => self.state = State::Left,
            Ok(count) => {
                if self.lines.came(&piece[..*count]).is_ok() {
                    return true;
                }
                self.state = State::Gone;
            }
            Err(error) => {
                if !is_for_now(error) {
                    self.state = State::Left;
                }
            }
        }
        false
    }

    // Reads a piece, and returns true if it brought bytes.
    fn read_piece(&mut self) -> bool
        ensures on { result ≡ true → self.new.state ≡ self.old.state }
        ensures reads { Reads (S.remaining self.old.stream) (S.remaining self.new.stream) self.old.lines.kept self.new.lines.kept
            self.new.state }
        ensures apart { Keeps (S.contents self.old.stream) (S.contents self.new.stream) }
        ensures others { self.new ≡ record self.old { stream = self.new.stream; lines = self.new.lines; state = self.new.state } }
    {
        let mut piece = [0; PIECE];
        let answer = self.stream.read_some(&mut piece);
        self.take_piece(&answer, &piece)
    }

    // Returns true if more bytes may arrive.
    fn is_read(&self) -> bool
        ensures read { result ≡ is_read self.now.state }
    {
        match self.state {
            State::Here | State::Deaf => true,
            State::Left | State::Refused | State::Gone => false,
        }
    }

    // Reads until a line is whole or no more bytes are available.
    fn read_line(&mut self, alloc: Global)
        ensures reads { Reads (S.remaining self.old.stream) (S.remaining self.new.stream) self.old.lines.kept self.new.lines.kept
            self.new.state }
        ensures apart { Keeps (S.contents self.old.stream) (S.contents self.new.stream) }
        ensures others { IsRead self.old self.new }
    {
        for _ in 0..MOST_READS {
            if !self.is_read() {
                return;
            }
            match self.lines.front() {
                Front::Line(_) => return,
                Front::TooLong => return self.refuse(alloc, Fault::BadAct),
                Front::Part => {
                    if !self.read_piece() {
                        return;
                    }
                }
            }
        }
    }
}

impl<S: Duplex + Drop> Terminal<S> {
    // Returns true if the terminal's lines are taken. Whole lines that arrived before it left are.
    fn is_heard(&self) -> bool
        ensures heard { result ≡ is_heard self.now.state }
    {
        match self.state {
            State::Here | State::Deaf | State::Left => true,
            State::Refused | State::Gone => false,
        }
    }

    // Predicts the screen after the acts of a line, the first under a number, if predictions are wanted and the instance showed a screen.
    fn prediction(&mut self, is_pasted: bool, first: u64, acts: &[Act], client: &Client)
        ensures guesses { self.new.predicting
            ≡ predictions_after is_pasted first acts.now client.now.kept.receiver.newest.state self.old.predicting }
        ensures others { self.new ≡ record self.old { predicting = self.new.predicting } }
    {
        if let Some(overlay) = &mut self.predicting {
            overlay.typed(is_pasted, first, acts, &client.shown().1);
        }
    }

    // Predictions are shown from now on, or aren't any more; a terminal that watches has none, and one for which there is no memory.
    fn set_predicting(&mut self, alloc: Global, predicting: Predicting)
        ensures set { IsSet predicting self.old.watches self.new.predicting }
        ensures others { self.new ≡ record self.old { predicting = self.new.predicting } }
    {
        self.predicting = overlay_for(alloc, predicting, self.watches);
    }

    // Takes the first line; its last act has this number, if it has acts.
    fn took_line(&mut self, last: Option<u64>)
        ensures took { Took self.old.lines.kept self.new.lines.kept }
        ensures others { self.new ≡ record self.old { lines = self.new.lines; display_state = line_told last self.old.display_state } }
    {
        self.lines.took();
        if let Some(display_state) = &mut self.display_state {
            display_state.took(last);
        }
    }

    // Types the acts of the first line, all or none.
    fn type_acts(&mut self, client: &mut Client, acts: &[Act], is_pasted: bool) -> Taking
        requires in_range { All IsInRange acts.now }
        ensures types { TypesLine is_pasted acts.now self.old self.new client.old client.new result }
        ensures number { client.new.kept.receiver ≡ client.old.kept.receiver }
    {
        if self.watches {
            self.took_line(None);
            return Taking::Line;
        }
        let first = client.typed_count().saturating_add(1);
        if client.unacknowledged().saturating_add(acts.len()) > MOST_ACTS {
            return Taking::Waits;
        }
        match client.typed_all(acts) {
            Ok(()) => {
                self.prediction(is_pasted, first, acts, client);
                self.took_line(Some(client.typed_count()));
                Taking::Line
            }
            Err(Fault::OutOfMemory) => Taking::NoMemory,
            Err(_) => Taking::Waits,
        }
    }

    // Refuses a first line that is out of place.
    fn refuse_line(&mut self, alloc: Global) -> Taking
        ensures refused { IsRefused self.old self.new }
        ensures nothing { result ≡ Taking.Nothing }
    {
        self.refuse(alloc, Fault::BadAct);
        Taking::Nothing
    }

    // Begins the state of records: nothing is sent yet, and the terminal's screen is unknown.
    fn open_records(&mut self)
        ensures opened { self.new ≡ record self.old { outer = None; over = None; display_state = Some nothing_told } }
    {
        self.forget();
        self.over = None;
        self.display_state = Some(DisplayState::new());
    }

    // Begins records behind the queued bytes, as the first line asks.
    fn begin_records(&mut self, alloc: Global) -> Taking
        ensures begins { (client : ClientView) → TakesWord Entry.Events client self.old self.new result }
    {
        if self.lines.count() != 0 || self.display_state.is_some() {
            return self.refuse_line(alloc);
        }
        if say(alloc, &mut self.waiting, Record::Events).is_err() {
            return Taking::NoMemory;
        }
        self.open_records();
        self.took_line(None);
        Taking::Line
    }

    // Makes the terminal read-only, as the first line asks, or the second behind one that asked for records.
    fn watch(&mut self, alloc: Global) -> Taking
        ensures watches { (client : ClientView) → TakesWord Entry.Watch client self.old self.new result }
    {
        let before = if self.display_state.is_some() { 1 } else { 0 };
        if self.lines.count() != before {
            return self.refuse_line(alloc);
        }
        self.watches = true;
        self.took_line(None);
        Taking::Line
    }

    // Requests the screen, once the screen requested before is sent.
    fn look(&mut self, alloc: Global, looking: Looking) -> Taking
        ensures looks { (client : ClientView) → TakesWord (look_of looking) client self.old self.new result }
        ensures waits { is_looking self.old.display_state ≡ true → result ≡ Taking.Waits }
    {
        let Some(display_state) = &mut self.display_state else {
            return self.refuse_line(alloc);
        };
        if display_state.is_asked() {
            return Taking::Waits;
        }
        display_state.ask(looking);
        self.took_line(None);
        Taking::Line
    }

    // Sets which part of the screen to show.
    fn show(&mut self, alloc: Global, showing: Showing) -> Taking
        ensures shows { (client : ClientView) → TakesWord (Entry.Show showing) client self.old self.new result }
    {
        let Some(display_state) = &mut self.display_state else {
            return self.refuse_line(alloc);
        };
        if !display_state.show(showing) {
            return self.refuse_line(alloc);
        }
        self.took_line(None);
        Taking::Line
    }

    // Forgets the terminal's screen, with and without records.
    fn forget_all(&mut self)
        ensures forgotten { self.new ≡ record self.old { outer = None; display_state = forgotten self.old.display_state } }
    {
        self.forget();
        if let Some(display_state) = &mut self.display_state {
            display_state.forget();
        }
    }

    // Makes the terminal's screen unknown, so that it is painted anew.
    fn repaint(&mut self) -> Taking
        ensures anew { (client : ClientView) → TakesWord Entry.Repaint client self.old self.new result }
    {
        self.forget_all();
        self.took_line(None);
        Taking::Line
    }

    // Does the entry of the first line.
    fn take_entry(&mut self, alloc: Global, client: &mut Client, entry: &Entry) -> Taking
        requires in_range { All IsInRange (acts_in entry.now) }
        ensures takes { TakesEntry entry.now self.old self.new client.old client.new result }
        ensures number { client.new.kept.receiver ≡ client.old.kept.receiver }
    {
        match entry {
            Entry::Acts(acts) => self.type_acts(client, acts, false),
            Entry::Paste(acts) => self.type_acts(client, acts, true),
            Entry::Events => self.begin_records(alloc),
            Entry::Repaint => self.repaint(),
            Entry::Watch => self.watch(alloc),
            Entry::Prediction(predicting) => {
                self.set_predicting(alloc, *predicting);
                self.took_line(None);
                Taking::Line
            }
            Entry::Look => self.look(alloc, Looking::Points),
            Entry::LookStyled => self.look(alloc, Looking::Styled),
            Entry::Show(showing) => self.show(alloc, *showing),
            Entry::End => {
                self.took_line(None);
                if self.watches {
                    Taking::Line
                } else {
                    Taking::End
                }
            }
        }
    }

    /// Reads available bytes, and does the entry of the first line. Its acts are typed at the instance, all of them or none.
    pub fn hear(&mut self, alloc: Global, client: &mut Client) -> Taking
        ensures hears { (entry : Option EntryOf) × (hears : HearsOne S.remaining S.contents entry self.old self.new client.old client.new)
            × (is_end result ≡ asks_end self.old.watches entry) × (result ≡ told_of hears.takes) }
        ensures number { client.new.kept.receiver ≡ client.old.kept.receiver }
    {
        self.read_line(alloc);
        if !self.is_heard() {
            return Taking::Nothing;
        }
        let Some(line) = self.lines.first() else {
            return Taking::Nothing;
        };
        match read_entry(alloc, line) {
            Ok(entry) => self.take_entry(alloc, client, &entry),
            Err(fault) => {
                self.refuse(alloc, fault);
                Taking::Nothing
            }
        }
    }
}
