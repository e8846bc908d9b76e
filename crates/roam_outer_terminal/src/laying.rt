//! Predictions are painted as an overlay over the noted screen of a terminal. The overlay is taken back before another screen is painted.
ghost use Rattle.std.specs.Prelude.{◌≡◌, ◌⊎◌, ◌++◌, ◌≤◌, ℕ, [], Option, true, false, None, Some, IfSome, is_some, IfOk, OnOk, OnErr, IsOkUnless};
ghost use Rattle.roam_screens.specs.Screenshot.{Screenshot};
ghost use Rattle.roam_scroll_paint.specs.Leads.{Leads};
ghost use Rattle.roam_outer_terminal.specs.Overlaid.{IsBack, IsForth, IsOver, IsSize, Lays, TakesBack, on_show};
ghost use Rattle.roam_outer_terminal.specs.Painted.{IsHidden, IsJudged, IsShownNow, LosesPredictions, MayPaint, Paints, is_ready, wanted_over};
ghost use Rattle.roam_turns.specs.Painting.{IsBehind, IsNoted, LeadsSized};
ghost use Rattle.roam_turns.specs.declared.outer.Noted.{Noted as NotedOf};

use crate::duplex::Duplex;
use crate::silence::Silence;
use crate::terminal::Terminal;
use roam_cells::{Fault, are_same_cells};
use roam_hub::Client;
use roam_screens::{RowShot, Seen, Shown};
use roam_scroll_paint::paint_moved;
use roam_stream_framing::Outbox;
use roam_turns::Outer;
use std::alloc::Global;

/// An overlay, and the text that takes it back.
#[derive(Drop)]
pub(crate) struct Taken {
    pub(crate) over: RowShot,
    pub(crate) text: Vec<u8>,
}

// Returns true if one screen has the size of another.
fn is_size<O: Seen, N: Seen>(one: &O, other: &N) -> bool
    ensures size { result ≡ true → IsSize (O.screen one.now) (N.screen other.now) }
{
    one.rows() == other.rows() && one.cols() == other.cols()
}

// Returns true if the rows of two screens of one size are equal.
fn are_same_rows(one: &RowShot, other: &RowShot) -> bool
    requires size { IsSize one.now other.now }
    ensures same { result ≡ true → one.now.cells ≡ other.now.cells }
{
    one.facts();
    other.facts();
    for row in 0..one.rows() {
        if !are_same_cells(one.row(row), other.row(row)) {
            return false;
        }
    }
    true
}

// Returns true if two screens are equal.
fn is_same(one: &RowShot, other: &RowShot) -> bool
    ensures same { result ≡ true → one.now ≡ other.now }
{
    is_size(one, other)
        && one.cursor() == other.cursor()
        && one.visible() == other.visible()
        && are_same_rows(one, other)
}

// Returns a text that leads from one screen to another and may move rows; `None` if memory is refused.
fn moving_text<O: Seen, N: Seen>(alloc: Global, one: &O, other: &N) -> Option<Vec<u8>>
    ensures leads { IfSome result (λ text. Leads (O.screen one.now) (N.screen other.now) text.items) }
{
    let mut text = Vec::new(alloc);
    match paint_moved(one, other, &mut text) {
        Ok(()) => Some(text),
        Err(_) => None,
    }
}

// Returns a text that takes an overlay back; `None` if the noted screen has another size, or memory is refused.
fn text_back(alloc: Global, over: &RowShot, outer: &Outer) -> Option<Vec<u8>>
    ensures back { IfSome result (λ text. IsBack over.now outer.now text.items) }
{
    let (_, screen) = outer.noted()?;
    if !is_size(over, &screen) {
        return None;
    }
    moving_text(alloc, over, &screen)
}

// Returns a text that paints an overlay; `None` if the noted screen has another size, or memory is refused.
fn text_forth(alloc: Global, outer: &Outer, over: &RowShot) -> Option<Vec<u8>>
    ensures forth { IfSome result (λ text. IsForth outer.now over.now text.items) }
{
    let (_, screen) = outer.noted()?;
    if !is_size(over, &screen) {
        return None;
    }
    moving_text(alloc, &screen, over)
}

// Returns an overlay with the text that takes it back.
fn taken_of(alloc: Global, over: RowShot, outer: &Outer) -> Option<Taken>
    ensures back { IfSome result (λ taken. (taken.over ≡ over) × IsBack over outer.now taken.text.items) }
{
    let text = text_back(alloc, &over, outer)?;
    Some(Taken { over, text })
}

// Puts a text before the queued bytes, if there is memory for it.
fn put_before(alloc: Global, waiting: &mut Outbox, text: &[u8]) -> bool
    ensures put { result ≡ true → waiting.new ≡ text.now ++ waiting.old }
{
    let mut both = Outbox::new(alloc);
    if both.push(text).is_err() || both.push(waiting.as_slice()).is_err() {
        return false;
    }
    std::mem::swap(waiting, &mut both);
    true
}

// Paints an overlay behind the queued bytes, if one is wanted and there is memory for it.
fn put_forth(
    alloc: Global,
    waiting: &mut Outbox,
    outer: &Outer,
    wanted: Option<RowShot>,
) -> Option<RowShot>
    ensures lays { Lays outer.now wanted result waiting.old waiting.new }
{
    let over = wanted?;
    let text = text_forth(alloc, outer, &over)?;
    waiting.push(&text).ok()?;
    Some(over)
}

// Answers that a screen of this number is noted. `OutOfMemory` if it isn't.
fn if_noted(outer: &Outer, number: u64) -> Result<(), Fault>
    ensures noted { OnOk result (IsNoted number outer.now) }
    ensures refused { OnErr result (IsNoted number outer.now → ⊥) }
{
    match outer.noted() {
        Some((noted, _)) if noted == number => Ok(()),
        _ => Err(Fault::OutOfMemory),
    }
}

// Returns true if no bytes are queued and the wanted overlay is shown already.
fn is_there(waiting: &Outbox, taken: &Taken, over: &Option<RowShot>) -> bool
    ensures none { result ≡ true → waiting.now ≡ [] }
    ensures there { result ≡ true → over.now ≡ Some taken.now.over }
{
    match over {
        None => false,
        Some(over) => waiting.len() == 0 && is_same(over, &taken.over),
    }
}

impl<S: Duplex + Drop> Terminal<S> {
    // Takes the overlay back: its text comes first in the next entry of the queue. Without memory for it, no screen is noted any more.
    fn take_back(&mut self, alloc: Global) -> Option<Taken>
        ensures taken { TakesBack self.old.over self.old.outer self.new.outer result }
        ensures others { self.new ≡ record self.old { over = None; outer = self.new.outer } }
    {
        let over = self.over.take()?;
        match taken_of(alloc, over, &self.outer) {
            Some(taken) => Some(taken),
            None => {
                self.forget();
                None
            }
        }
    }

    // Queues the text from the noted screen to the instance's, which is noted from then on, unless one of its number is already.
    // `OutOfMemory`; without memory to queue the text, no screen is noted any more.
    fn paint_noted(&mut self, alloc: Global, client: &Client) -> Result<(), Fault>
        requires ready { self.old.waiting ≡ [] }
        ensures leads { LeadsSized self.old.outer self.new.waiting self.new.outer }
        ensures noted { OnOk result (IsShownNow client.now self.old.outer self.new.outer) }
        ensures refused { OnErr result ((self.new.outer ≡ self.old.outer) ⊎ (self.new.outer ≡ None)) }
        ensures others { self.new ≡ record self.old { outer = self.new.outer; waiting = self.new.waiting } }
    {
        let (number, screen) = client.shown();
        match self.outer.paint(alloc, number, &screen) {
            Some(text) => {
                if let Err(fault) = self.waiting.push(&text) {
                    self.forget();
                    return Err(fault);
                }
                Ok(())
            }
            None => if_noted(&self.outer, number),
        }
    }

    // Judges the predictions by the screen that is noted. `OutOfMemory` if there is no memory to keep that screen; then all of them end.
    pub(crate) fn judge(&mut self, alloc: Global, client: &Client, now: u64) -> Result<(), Fault>
        ensures judged { OnOk result (IsJudged now client.now self.old.outer self.old.predicting self.new.predicting) }
        ensures lost { OnErr result (LosesPredictions now client.now self.old.outer self.old.predicting self.new.predicting) }
        ensures others { self.new ≡ record self.old { predicting = self.new.predicting } }
    {
        if let Some(overlay) = &mut self.predicting
            && let Some((number, screen)) = self.outer.noted()
        {
            return overlay.judge(alloc, number, &screen, client.acknowledged(), now);
        }
        Ok(())
    }

    // Returns the wanted overlay; `None` exactly if no prediction is shown, no screen is noted, or during a silence, which has a notice of
    // its own. `OutOfMemory`.
    fn wanted(&self, alloc: Global, silence: Silence) -> Result<Option<RowShot>, Fault>
        ensures wanted { IfOk result (λ over. over ≡ wanted_over silence self.now.predicting self.now.outer) }
        ensures hidden { IfOk result (λ over. IsHidden silence over) }
    {
        if silence.is_long() {
            return Ok(None);
        }
        let (Some(overlay), Some((_, screen))) = (self.predicting.as_ref(), self.outer.noted())
        else {
            return Ok(None);
        };
        overlay.over(alloc, &screen, silence.moment())
    }

    // Returns the wanted overlay, or none if there is no memory for it: the next painting shows it.
    pub(crate) fn wanted_if_kept(&self, alloc: Global, silence: Silence) -> Option<RowShot>
        ensures over { IsOver silence.moment self.now.predicting self.now.outer result }
        ensures hidden { IsHidden silence result }
    {
        match self.wanted(alloc, silence) {
            Ok(over) => over,
            Err(_) => None,
        }
    }

    // Paints an overlay behind the queued bytes.
    fn lay_over(&mut self, alloc: Global, wanted: Option<RowShot>)
        ensures lays { Lays self.old.outer wanted self.new.over self.old.waiting self.new.waiting }
        ensures hidden { wanted ≡ None → self.new.over ≡ None }
        ensures others { self.new ≡ record self.old { over = self.new.over; waiting = self.new.waiting } }
    {
        self.over = put_forth(alloc, &mut self.waiting, &self.outer, wanted);
    }

    // Does the same if another overlay was shown: the text that takes it back comes first. If nothing changed, nothing is queued. Without
    // memory for that text, no screen is noted any more.
    fn lay_again(&mut self, alloc: Global, wanted: Option<RowShot>, taken: Taken)
        requires bare { self.old.over ≡ None }
        ensures leads { (over : Screenshot) (outer : Option NotedOf) → taken.over ≡ over → IsBack over outer taken.text.items
            → LeadsSized outer self.old.waiting self.old.outer
            → LeadsSized (on_show (Some over) outer) self.new.waiting (on_show self.new.over self.new.outer) }
        ensures over { (now : ℕ) → IsOver now self.old.predicting self.old.outer wanted
            → IsOver now self.old.predicting self.new.outer self.new.over }
        ensures hidden { wanted ≡ None → self.new.over ≡ None }
        ensures outer { (self.new.outer ≡ self.old.outer) ⊎ (self.new.outer ≡ None) }
        ensures others { self.new ≡ record self.old { over = self.new.over; outer = self.new.outer; waiting = self.new.waiting } }
    {
        if is_there(&self.waiting, &taken, &wanted) {
            self.over = Some(taken.over);
            return;
        }
        if !put_before(alloc, &mut self.waiting, &taken.text) {
            self.forget();
            self.waiting.clear();
            return;
        }
        self.lay_over(alloc, wanted);
    }

    // Paints an overlay behind the queued bytes and the text that takes the old one back.
    fn lay(&mut self, alloc: Global, wanted: Option<RowShot>, taken: Option<Taken>)
        requires bare { self.old.over ≡ None }
        ensures leads { (over : Option Screenshot) (outer mid : Option NotedOf) → TakesBack over outer mid taken
            → LeadsSized mid self.old.waiting self.old.outer
            → LeadsSized (on_show over outer) self.new.waiting (on_show self.new.over self.new.outer) }
        ensures over { (now : ℕ) → IsOver now self.old.predicting self.old.outer wanted
            → IsOver now self.old.predicting self.new.outer self.new.over }
        ensures hidden { wanted ≡ None → self.new.over ≡ None }
        ensures outer { (self.new.outer ≡ self.old.outer) ⊎ (self.new.outer ≡ None) }
        ensures others { self.new ≡ record self.old { over = self.new.over; outer = self.new.outer; waiting = self.new.waiting } }
    {
        match taken {
            Some(taken) => self.lay_again(alloc, wanted, taken),
            None => self.lay_over(alloc, wanted),
        }
    }

    // Paints the terminal: takes the overlay back, paints the instance's screen, and paints the predictions over it. All of it is queued,
    // whole.
    fn paint(&mut self, alloc: Global, client: &Client, silence: Silence)
        requires ready { is_ready self.old ≡ true }
        requires untold { is_some self.old.display_state ≡ false }
        ensures paints { Paints silence client.now self.old self.new }
        ensures behind { IsBehind self.old.outer client.now.kept.receiver.newest.number client.now.kept.receiver.newest.state
            → IsBehind self.new.outer client.now.kept.receiver.newest.number client.now.kept.receiver.newest.state }
    {
        let taken = self.take_back(alloc);
        // A screen for which there is no memory is painted in a later round.
        let _ = self.paint_noted(alloc, client);
        let _ = self.judge(alloc, client, silence.moment());
        let wanted = self.wanted_if_kept(alloc, silence);
        self.lay(alloc, wanted, taken);
    }

    // Returns true if the terminal can be painted: no bytes are queued, and it shows no notice of silence outside records.
    fn is_ready(&self) -> bool
        ensures ready { result ≡ is_ready self.now }
    {
        let is_open = self.display_state.is_some() || self.told.is_none();
        self.is_here() && is_open && self.waiting.len() == 0
    }

    /// Paints the instance's screen if the terminal is ready for it.
    pub fn paint_if_ready(&mut self, alloc: Global, client: &Client, silence: Silence)
        ensures paints { MayPaint silence client.now self.old self.new }
        ensures behind { IsBehind self.old.outer client.now.kept.receiver.newest.number client.now.kept.receiver.newest.state
            → IsBehind self.new.outer client.now.kept.receiver.newest.number client.now.kept.receiver.newest.state }
    {
        if !self.is_ready() {
            return;
        }
        if self.display_state.is_some() {
            self.tell(alloc, client, silence);
        } else {
            self.paint(alloc, client, silence);
        }
    }
}
