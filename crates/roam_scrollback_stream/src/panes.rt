//! A terminal whose rows are reported.
ghost use Rattle.std.specs.Prelude.{◌≡◌, ◌⊎◌, ◌↔◌, ◌<◌, ◌≤◌, ◌∷◌, ◌++◌, ◌==◌, ◌||◌, [], codes, false, length, map, nat_lt, take, IfOk, IfErr, OnOk, OnErr, IsErrOf, Some, None, IsTrue, if◌then◌else◌};
ghost use Rattle.roam_cells.specs.Limits.{IsSize};
ghost use Rattle.roam_scrollback.specs.Lines.{lines_behind, no_lines};
ghost use Rattle.roam_scrollback.specs.Sources.{IsSource};
ghost use Rattle.roam_scrollback_stream.specs.Panes.{ShowsAll, TellsAll, TellsFrom, fed_for, held_for, is_holding, kept_behind};
ghost use Rattle.roam_scrollback_stream.specs.Records.{back_text, brought_text, cleared_text, lost_text, named_text, refusal_word, rows_text};
ghost use Rattle.roam_scrollback_stream.specs.Runs.{AnswersRewrap, IsBrought};
ghost use Rattle.roam_text.specs.Log.{Byte, Resized};

use crate::records::{
    push_back, push_cleared, push_lost, push_named, push_rows, push_screen, push_text,
};
use roam_cells::Fault;
use roam_normalize::Filter;
use roam_scrollback::{LeftLines, NotRewrapped, RecentRows, Rewrap, RowSource};
use std::alloc::{AllocError, Global};
use std::marker::Model;

/// The output, and the lines that are made for it.
#[derive(Drop)]
pub struct Tellings {
    out: Vec<u8>,
    lines: LeftLines,
}

impl Model for Tellings {
    ghost use Rattle.roam_scrollback_stream.specs.Panes.{TellingsView};

    ghost Value = { TellingsView };

    ghost view = { λ a. record { out = a.out.items; lines = a.lines } };
}

impl Tellings {
    /// Returns an empty output.
    pub fn new(alloc: Global) -> Self
        ensures none { result ≡ record { out = []; lines = no_lines } }
    {
        Tellings {
            out: Vec::new(alloc),
            lines: LeftLines::new(alloc),
        }
    }

    /// Returns the output.
    pub fn out(&self) -> &[u8]
        ensures out { result.now ≡ self.now.out }
    {
        &self.out
    }

    /// Clears the output once it was written.
    pub fn clear(&mut self)
        ensures none { self.new.out ≡ [] }
        ensures lines { self.new.lines ≡ self.old.lines }
    {
        self.out.clear();
    }

    // Exchanges the kept rows of a terminal with those of the lines.
    fn swap_kept(&mut self, kept: &mut RecentRows)
        ensures lines { self.new ≡ record self.old { lines = record self.old.lines { kept = kept.old } } }
        ensures kept { kept.new ≡ self.old.lines.kept }
    {
        self.lines.swap_kept(kept);
    }

    // Takes the kept rows back from the lines. None is kept if the rows that left are erased, or if one was lost.
    fn take_kept(&mut self, kept: &mut RecentRows, cleared: bool)
        ensures lines { self.new ≡ record self.old { lines = record self.old.lines { kept = kept.old } } }
        ensures kept { kept.new ≡ kept_behind cleared self.old.lines }
    {
        self.lines.swap_kept(kept);
        if cleared || 0 < self.lines.lost() {
            kept.clear();
        }
    }

    // Appends the lines that were made for a terminal.
    fn push_part(&mut self, number: u16, cleared: bool) -> Result<(), AllocError>
        ensures out { OnOk result (self.new.out ≡ self.old.out
            ++ (rows_text number self.old.lines ++ (lost_text number self.old.lines ++ cleared_text number cleared))) }
        ensures none { OnOk result (self.new.lines ≡ no_lines) }
    {
        push_rows(&mut self.out, number, &self.lines)?;
        push_lost(&mut self.out, number, &self.lines)?;
        push_cleared(&mut self.out, number, cleared)?;
        self.lines.clear();
        Ok(())
    }

    // Writes the records of a rewrap: the rows taken back, the rows that leave, and the text.
    fn push_rewrap(&mut self, number: u16, rewrap: &Rewrap) -> Result<(), AllocError>
        ensures out { OnOk result (self.new.out ≡ self.old.out
            ++ (back_text number rewrap.now.back ++ (rows_text number self.old.lines
            ++ (lost_text number self.old.lines ++ brought_text number rewrap.now.text.items)))) }
        ensures none { OnOk result (self.new.lines ≡ no_lines) }
    {
        push_back(&mut self.out, number, rewrap.back)?;
        push_rows(&mut self.out, number, &self.lines)?;
        push_lost(&mut self.out, number, &self.lines)?;
        push_text(&mut self.out, number, &rewrap.text)?;
        self.lines.clear();
        Ok(())
    }

    // Writes why a terminal keeps its size.
    fn push_refusal(&mut self, number: u16, why: NotRewrapped) -> Result<(), AllocError>
        ensures out { OnOk result (self.new.out ≡ self.old.out ++ named_text (refusal_word why) number) }
        ensures lines { OnOk result (self.new.lines ≡ self.old.lines) }
    {
        push_named(&mut self.out, refusal_word(why), number)
    }

    // Writes the answer to a rewrap.
    fn push_answer(
        &mut self,
        number: u16,
        done: Result<Rewrap, NotRewrapped>,
    ) -> Result<(), AllocError>
        ensures brought { OnOk result (IfOk done (λ rewrap. self.new.out ≡ self.old.out
            ++ (back_text number rewrap.back ++ (rows_text number self.old.lines
            ++ (lost_text number self.old.lines ++ brought_text number rewrap.text.items))))) }
        ensures refused { OnOk result (IfErr done (λ why. self.new.out ≡ self.old.out ++ named_text (refusal_word why) number)) }
        ensures none { OnOk result (IfOk done (λ _. self.new.lines ≡ no_lines)) }
        ensures lines { OnOk result (IfErr done (λ _. self.new.lines ≡ self.old.lines)) }
    {
        match done {
            Ok(rewrap) => self.push_rewrap(number, &rewrap),
            Err(why) => self.push_refusal(number, why),
        }
    }
}

// Returns the word of the record.
fn refusal_word(why: NotRewrapped) -> &'static str
    ensures word { result.now ≡ refusal_word why }
{
    match why {
        NotRewrapped::Later => "later ",
        NotRewrapped::OtherScreen => "other ",
        NotRewrapped::Refused | NotRewrapped::NoMemory => "none ",
    }
}

// Feeds a terminal with the front of a piece, as much as fits at once, reports the rows that leave, and returns how many bytes it took.
fn feed_some(
    number: u16,
    source: &mut RowSource,
    kept: &mut RecentRows,
    piece: &[u8],
    tellings: &mut Tellings,
) -> Result<usize, AllocError>
    requires some { 0 < length piece.now }
    requires none { tellings.old.lines ≡ no_lines }
    ensures within { IfOk result (λ n. (0 < n) × (n ≤ length piece.now)) }
    ensures told { IfOk result (λ n. TellsAll source.old source.new number tellings.old.out tellings.new.out
        (map Byte (take n piece.now))) }
    ensures from { IfOk result (λ n. TellsFrom source.old kept.old source.new kept.new number tellings.old.out tellings.new.out
        (map Byte (take n piece.now))) }
    ensures none { OnOk result (tellings.new.lines ≡ no_lines) }
{
    tellings.swap_kept(kept);
    let fed = source.feed(piece, &mut tellings.lines);
    tellings.take_kept(kept, fed.cleared);
    kept.facts();
    tellings.push_part(number, fed.cleared)?;
    Ok(fed.count)
}

// Feeds a terminal with a piece, and reports the rows that leave.
fn feed_all(
    number: u16,
    source: &mut RowSource,
    kept: &mut RecentRows,
    piece: &[u8],
    tellings: &mut Tellings,
) -> Result<(), AllocError>
    requires none { tellings.old.lines ≡ no_lines }
    ensures told { OnOk result (TellsAll source.old source.new number tellings.old.out tellings.new.out (map Byte piece.now)) }
    ensures from { OnOk result (TellsFrom source.old kept.old source.new kept.new number tellings.old.out tellings.new.out (map Byte piece.now)) }
    ensures none { OnOk result (tellings.new.lines ≡ no_lines) }
{
    let mut at = 0;
    while at < piece.len() {
        at += feed_some(number, source, kept, &piece[at..], tellings)?;
    }
    Ok(())
}

/// A terminal, its number, and the filter before it, if there is one.
#[derive(Drop)]
pub struct Pane {
    number: u16,
    source: RowSource,
    filter: Option<Filter>,
    // The last rows that left.
    kept: RecentRows,
}

impl Model for Pane {
    ghost use Rattle.roam_scrollback_stream.specs.Panes.{PaneView};

    ghost Value = { PaneView };

    ghost view = { λ a. record { number = a.number; source = a.source; held = a.filter; kept = a.kept } };
}

impl Pane {
    /// A terminal that was fed nothing, of 2 to 200 rows and 4 to 500 columns; refuses another size as `BadSize`, and want of memory.
    pub fn new(
        alloc: Global,
        number: u16,
        rows: u16,
        cols: u16,
        normalize: bool,
    ) -> Result<Self, Fault>
        ensures stands { IfOk result (λ pane. IsSource pane.source rows cols []) }
        ensures number { IfOk result (λ pane. pane.number ≡ number) }
        ensures held { IfOk result (λ pane. pane.held ≡ (if normalize then Some [] else None)) }
        ensures kept { IfOk result (λ pane. pane.kept ≡ []) }
        ensures bad_size { IsErrOf result Fault.BadSize ↔ (¬ IsSize rows cols) }
        ensures faults { IfErr result (λ fault. (fault ≡ Fault.BadSize) ⊎ (fault ≡ Fault.OutOfMemory)) }
    {
        let source = RowSource::new(alloc, rows, cols)?;
        let filter = if normalize {
            Some(Filter::new(alloc))
        } else {
            None
        };
        Ok(Pane {
            number,
            source,
            filter,
            kept: RecentRows::new(alloc),
        })
    }

    /// Feeds the terminal with a piece of its program, through its filter if it has one, and reports the rows that leave. `OutOfMemory`.
    pub fn feed(&mut self, piece: &[u8], tellings: &mut Tellings) -> Result<(), Fault>
        requires none { tellings.old.lines ≡ no_lines }
        ensures told { OnOk result (TellsAll self.old.source self.new.source self.old.number tellings.old.out tellings.new.out
            (map Byte (fed_for self.old.held piece.now))) }
        ensures from { OnOk result (TellsFrom self.old.source self.old.kept self.new.source self.new.kept self.old.number
            tellings.old.out tellings.new.out (map Byte (fed_for self.old.held piece.now))) }
        ensures held { OnOk result (self.new.held ≡ held_for self.old.held piece.now) }
        ensures number { OnOk result (self.new.number ≡ self.old.number) }
        ensures none { OnOk result (tellings.new.lines ≡ no_lines) }
        ensures fault { IfErr result (λ fault. fault ≡ Fault.OutOfMemory) }
    {
        match &mut self.filter {
            None => feed_all(
                self.number,
                &mut self.source,
                &mut self.kept,
                piece,
                tellings,
            )?,
            Some(filter) => {
                let normalized = filter.feed(piece)?;
                feed_all(
                    self.number,
                    &mut self.source,
                    &mut self.kept,
                    &normalized,
                    tellings,
                )?;
            }
        }
        Ok(())
    }

    /// Gives the terminal another size, and reports the rows that leave by it. `BadSize` outside the limits, `OutOfMemory`.
    pub fn size(
        &mut self,
        alloc: Global,
        rows: u16,
        cols: u16,
        tellings: &mut Tellings,
    ) -> Result<(), Fault>
        requires none { tellings.old.lines ≡ no_lines }
        ensures told { OnOk result (TellsAll self.old.source self.new.source self.old.number tellings.old.out tellings.new.out
            (Resized rows cols ∷ [])) }
        ensures from { OnOk result (TellsFrom self.old.source self.old.kept self.new.source self.new.kept self.old.number
            tellings.old.out tellings.new.out (Resized rows cols ∷ [])) }
        ensures held { OnOk result (self.new.held ≡ self.old.held) }
        ensures number { OnOk result (self.new.number ≡ self.old.number) }
        ensures none { OnOk result (tellings.new.lines ≡ no_lines) }
        ensures bad_size { IsErrOf result Fault.BadSize ↔ (¬ IsSize rows cols) }
        ensures faults { IfErr result (λ fault. (fault ≡ Fault.BadSize) ⊎ (fault ≡ Fault.OutOfMemory)) }
    {
        tellings.swap_kept(&mut self.kept);
        self.source.size(alloc, rows, cols, &mut tellings.lines)?;
        tellings.take_kept(&mut self.kept, false);
        self.kept.facts();
        tellings.push_part(self.number, false)?;
        Ok(())
    }

    // Returns true if the filter keeps bytes back.
    fn is_holding(&self) -> bool
        ensures holding { result ≡ is_holding self.now.held }
    {
        match &self.filter {
            Some(filter) => !filter.is_empty(),
            None => false,
        }
    }

    /// Gives the terminal another size without cutting text, or writes why it keeps its size; `OutOfMemory`.
    pub fn rewrap(
        &mut self,
        alloc: Global,
        rows: u16,
        cols: u16,
        tellings: &mut Tellings,
    ) -> Result<(), Fault>
        requires none { tellings.old.lines ≡ no_lines }
        requires size { IsSize rows cols }
        ensures answered { OnOk result (AnswersRewrap rows cols self.old self.new tellings.old.out tellings.new.out) }
        ensures none { OnOk result (tellings.new.lines ≡ no_lines) }
        ensures fault { IfErr result (λ fault. fault ≡ Fault.OutOfMemory) }
    {
        if self.is_holding() {
            tellings.push_refusal(self.number, NotRewrapped::Later)?;
            return Ok(());
        }
        tellings.swap_kept(&mut self.kept);
        let done = self.source.rewrap(alloc, rows, cols, &mut tellings.lines);
        tellings.take_kept(&mut self.kept, false);
        self.kept.facts();
        tellings.push_answer(self.number, done)?;
        Ok(())
    }

    /// Reports the rows of the terminal's screen. `OutOfMemory`.
    pub fn show(&self, tellings: &mut Tellings) -> Result<(), Fault>
        requires none { tellings.old.lines ≡ no_lines }
        ensures told { OnOk result (ShowsAll self.now.source self.now.number tellings.old.out tellings.new.out) }
        ensures none { OnOk result (tellings.new.lines ≡ no_lines) }
        ensures fault { IfErr result (λ fault. fault ≡ Fault.OutOfMemory) }
    {
        self.source.push_screen(&mut tellings.lines);
        if 0 < tellings.lines.lost() {
            return Err(Fault::OutOfMemory);
        }
        push_screen(&mut tellings.out, self.number, &tellings.lines)?;
        tellings.lines.clear();
        Ok(())
    }
}
