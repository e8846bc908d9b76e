//! The queued bytes are written as the terminal accepts them, and silences get their notices.
ghost use Rattle.std.specs.Prelude.{◌≡◌, ◌≢◌, ◌⊎◌, ◌+◌, ◌≤◌, ◌++◌, [], true, false, None, Some, IfOk, OnErr, min, drop, length};
ghost use Rattle.std.specs.Io.KnownBytes.{Keeps};
ghost use Rattle.roam_faults.specs.Streams.{IsStreamEnd};
ghost use Rattle.roam_stream_framing.specs.Carriers.{Writes};
ghost use Rattle.roam_outer_terminal.specs.Writing.{Flushes, SaysSilence, Settles, TellsSilence, has_gone, is_empty, seen_by, state_after, stuck_after, stuck_since, unwritten};
ghost use Rattle.roam_outer_terminal.specs.Silence.{is_over, due_of, notice_of};
ghost use Rattle.roam_display_records.specs.Records.{text_of};
ghost use Rattle.roam_display_records.specs.declared.records.Record.{Record as RecordOf};

use crate::duplex::Duplex;
use crate::silence::{Silence, notice};
use crate::terminal::{State, Terminal};
use roam_display_records::Record;
use roam_display_state::say;
use roam_faults::is_for_now;
use std::alloc::Global;
use std::io;

/// The most pieces of queued bytes that a round writes.
const MOST_WRITES: u32 = 16;

/// The milliseconds after which a terminal that accepts none of its queued bytes is disconnected.
const LONGEST_STUCK: u64 = 60_000;

// Returns the moment since which none of the queued bytes was accepted, given whether some just were.
fn stuck_since(has_taken: bool, now: u64, stuck: Option<u64>) -> u64
    ensures since { result ≡ stuck_since has_taken now stuck }
{
    match stuck {
        Some(since) if !has_taken => since,
        _ => now,
    }
}

impl<S: Duplex + Drop> Terminal<S> {
    // Queues the notice of so many seconds, if there is memory. The terminal's screen is unknown then.
    fn tell_over(&mut self, alloc: Global, seconds: u64)
        ensures told { (self.new ≡ self.old)
            ⊎ (self.new ≡ record self.old { told = Some seconds; outer = None; waiting = self.old.waiting ++ notice_of seconds }) }
    {
        let Ok(text) = notice(alloc, seconds) else {
            return;
        };
        if self.waiting.push(&text).is_ok() {
            self.told = Some(seconds);
            self.forget();
        }
    }

    // Queues the record of so many seconds of silence, if there is memory.
    fn say_silent(&mut self, alloc: Global, seconds: u64)
        ensures told { (self.new ≡ self.old)
            ⊎ (self.new ≡ record self.old { told = Some seconds; waiting = self.old.waiting ++ text_of (Record.Silent seconds) }) }
    {
        if say(alloc, &mut self.waiting, Record::Silent(seconds)).is_ok() {
            self.told = Some(seconds);
        }
    }

    // Queues the record that the server is heard again, if there is memory.
    fn say_heard(&mut self, alloc: Global)
        ensures heard { (self.new ≡ self.old)
            ⊎ (self.new ≡ record self.old { told = None; waiting = self.old.waiting ++ text_of Record.Heard }) }
    {
        if say(alloc, &mut self.waiting, Record::Heard).is_ok() {
            self.told = None;
        }
    }

    // Queues records of a silence of ten seconds or more: one a second, and one once it is over.
    fn tell_silence_in_records(&mut self, alloc: Global, seen: Silence)
        ensures tells { SaysSilence seen self.old self.new }
    {
        if self.is_waiting() || !self.is_here() {
            return;
        }
        if seen.is_over() {
            self.say_heard(alloc);
        } else if let Some(seconds) = seen.due() {
            self.say_silent(alloc, seconds);
        }
    }

    /// Shows a silence of ten seconds or more over the last row, with new seconds every second. Once it is over, the terminal is painted
    /// anew. A terminal with records gets records, and its screen stays as painted.
    pub(crate) fn tell_silence(&mut self, alloc: Global, silence: Silence)
        ensures tells { TellsSilence silence self.old self.new }
    {
        let mut seen = silence;
        seen.tell(self.told);
        if self.display_state.is_some() {
            self.tell_silence_in_records(alloc, seen);
        } else if seen.is_over() {
            self.told = None;
            self.forget();
        } else if !self.is_waiting() && self.over.is_none() && self.is_here() {
            if let Some(seconds) = seen.due() {
                self.tell_over(alloc, seconds);
            }
        }
    }

    // Notes the result of a write, and returns how many bytes were taken.
    fn note_written(&mut self, answer: &io::Result<usize>) -> usize
        ensures taken { IfOk answer.now (λ n. result ≡ min n (length self.old.waiting)) }
        ensures none { OnErr answer.now (result ≡ 0) }
        ensures left { self.new.waiting ≡ drop result self.old.waiting }
        ensures within { result ≤ length self.old.waiting }
        // The terminal becomes unwritable only if the stream ends.
        ensures fails { (self.new.state ≡ self.old.state)
            ⊎ ((self.new.state ≡ unwritten self.old.state) × IsStreamEnd answer.now × (result ≡ 0)) }
        ensures others { self.new ≡ record self.old { waiting = self.new.waiting; state = self.new.state } }
    {
        match answer {
            Ok(count) => {
                let count = (*count).min(self.waiting.len());
                self.waiting.took(count);
                count
            }
            Err(error) => {
                if !is_for_now(error) {
                    self.state = self.state.unwritten();
                }
                0
            }
        }
    }

    // Writes a piece of the queued bytes, and returns how many were taken.
    fn write_piece(&mut self) -> usize
        ensures writes { Writes (S.contents self.old.stream) (S.contents self.new.stream) self.old.waiting self.new.waiting }
        ensures apart { Keeps (S.remaining self.old.stream) (S.remaining self.new.stream) }
        // A failed write ends only the writing: the lines that the terminal typed are taken.
        ensures fails { (self.new.state ≡ self.old.state) ⊎ (self.new.state ≡ unwritten self.old.state) }
        ensures on { result ≢ 0 → self.new.state ≡ self.old.state }
        ensures went { length self.new.waiting + result ≡ length self.old.waiting }
        ensures others { self.new ≡ record self.old { stream = self.new.stream; waiting = self.new.waiting; state = self.new.state } }
    {
        let piece = self.waiting.as_slice();
        if piece.is_empty() {
            return 0;
        }
        let answer = self.stream.write_some(piece);
        self.note_written(&answer)
    }

    // Notes since when none of the queued bytes was accepted.
    fn note_stuck(&mut self, has_taken: bool, now: u64)
        ensures stuck { self.new.stuck ≡ stuck_after (is_empty self.old.waiting) has_taken now self.old.stuck }
        ensures state { self.new.state ≡ state_after (is_empty self.old.waiting) has_taken now self.old.stuck self.old.state }
        ensures others { self.new ≡ record self.old { stuck = self.new.stuck; state = self.new.state } }
    {
        if self.waiting.len() == 0 {
            self.stuck = None;
            self.state = self.state.once_written();
            return;
        }
        let since = stuck_since(has_taken, now, self.stuck);
        self.stuck = Some(since);
        if now.saturating_sub(since) >= LONGEST_STUCK {
            self.state = State::Gone;
        }
    }

    // Writes queued bytes until the stream accepts no more, and returns true if it accepted some.
    fn write_waiting(&mut self) -> bool
        ensures writes { Writes (S.contents self.old.stream) (S.contents self.new.stream) self.old.waiting self.new.waiting }
        ensures apart { Keeps (S.remaining self.old.stream) (S.remaining self.new.stream) }
        ensures gone { result ≡ has_gone self.old.waiting self.new.waiting }
        ensures fails { (self.new.state ≡ self.old.state) ⊎ (self.new.state ≡ unwritten self.old.state) }
        ensures others { self.new ≡ record self.old { stream = self.new.stream; waiting = self.new.waiting; state = self.new.state } }
    {
        let mut has_taken = false;
        for _ in 0..MOST_WRITES {
            if self.write_piece() == 0 {
                return has_taken;
            }
            has_taken = true;
        }
        has_taken
    }

    /// Writes queued bytes until the stream accepts no more. A terminal that accepts none for a minute is disconnected.
    pub(crate) fn flush(&mut self, now: u64)
        ensures flushes { Flushes S.remaining S.contents now self.old self.new }
    {
        let has_taken = self.write_waiting();
        self.note_stuck(has_taken, now);
    }
    /// Shows the notice of a silence if one is due, and writes queued bytes.
    pub fn settle(&mut self, alloc: Global, silence: Silence)
        ensures settles { Settles S.remaining S.contents silence self.old self.new }
        ensures outer { (self.new.outer ≡ self.old.outer) ⊎ (self.new.outer ≡ None) }
    {
        self.tell_silence(alloc, silence);
        self.flush(silence.moment());
    }
}
