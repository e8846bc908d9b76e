//! The records of a terminal, and the state behind them.
ghost use Rattle.std.specs.Prelude.{◌≡◌, ◌⊎◌, ◌++◌, ◌∷◌, [], ℕ, List, true, false, IfOk, IfSome, OnOk, Ok, None, IsErrOf, IsOkUnless, IfErr, is_some};
ghost use Rattle.std.specs.Borrow.{Bor};
ghost use Rattle.roam_viewport.specs.Parts.{part_of as part_in};
ghost use Rattle.roam_cells.specs.Limits.{IsSize};
ghost use Rattle.roam_display_records.specs.Records.{text_of};
ghost use Rattle.roam_display_records.specs.Taken.{took};
ghost use Rattle.roam_display_records.specs.declared.records.Record.{Record as RecordOf};
ghost use Rattle.roam_display_state.specs.Saying.{texts_of};
ghost use Rattle.roam_display_state.specs.Scopes.{part_for, place_told, scope_after};
ghost use Rattle.roam_display_state.specs.DisplayState.{IsCurrent, IsStill, LeadsFrom, Tells, TellsLook, TellsTaken, has_room_for, is_told, nothing_told, painting_said, places_said, answer_of_look, answer_of_screen, answer_of_taken, shown_so, sizes_said};

use crate::painting::{is_shown, text_to};
use crate::saying::say;
use crate::scopes::Scope;
use arrayvec::ArrayVec;
use roam_cells::Fault;
use roam_display_records::{Looking, Record, TakenLines, record_text, screen_text};
use roam_screens::{RowShot, Seen};
use roam_stream_framing::Outbox;
use roam_terminal_input::Showing;
use roam_viewport::{Part, part_of};
use std::alloc::Global;
use std::marker::Model;

/// How many parts of a terminal may be masked at once.
const MOST_MASKS: usize = 4;

/// The state of a terminal with records: the part of the screen that it shows, the taken lines, and the screen that it asked for.
#[derive(Drop)]
pub struct DisplayState {
    scope: Scope,
    masks: ArrayVec<Part, MOST_MASKS>,
    view: Option<RowShot>,
    sized: Option<(u16, u16)>,
    placed: Option<(u16, u16)>,
    looking: Option<Looking>,
    taken: TakenLines,
}

impl Model for DisplayState {
    ghost use Rattle.roam_display_state.specs.DisplayState.{DisplayStateView};

    ghost Value = { DisplayStateView };

    ghost view = { λ t. record {
      scope = t.scope;
      masks = t.masks.items;
      view = t.view;
      sized = t.sized;
      placed = t.placed;
      looking = t.looking;
      taken = t.taken;
    } };
}

// The records to send for a screen: their text, and the part that is shown then.
#[derive(Drop)]
struct Painting {
    text: Vec<u8>,
    part: Part,
    view: RowShot,
}

// Adds a record. Refuses want of memory.
fn push_record(alloc: Global, text: &mut Vec<u8>, told: Record<'_>) -> Result<(), Fault>
    ensures text { OnOk result (text.new.items ≡ text.old.items ++ text_of told.entry) }
    ensures fault { IsOkUnless result Fault.OutOfMemory }
{
    let more = record_text(alloc, told)?;
    text.extend_from_slice(&more)?;
    Ok(())
}

// Returns true if these two numbers were sent last.
fn is_told(told: Option<(u16, u16)>, first: u16, second: u16) -> bool
    ensures told { result ≡ is_told told first second }
{
    match told {
        None => false,
        Some(last) => last.0 == first && last.1 == second,
    }
}

// Appends the size of the painting if another was sent last.
fn push_size(
    alloc: Global,
    text: &mut Vec<u8>,
    told: Option<(u16, u16)>,
    view: &RowShot,
) -> Result<(), Fault>
    ensures text { OnOk result (text.new.items ≡ text.old.items ++ texts_of (sizes_said told view.now)) }
    ensures fault { IsOkUnless result Fault.OutOfMemory }
{
    let (rows, cols) = (view.rows(), view.cols());
    if is_told(told, rows, cols) {
        return Ok(());
    }
    push_record(alloc, text, Record::Size(rows, cols))
}

// Appends the place of the part if another was sent last.
fn push_place(
    alloc: Global,
    text: &mut Vec<u8>,
    told: Option<(u16, u16)>,
    place: Option<(u16, u16)>,
) -> Result<(), Fault>
    ensures text { OnOk result (text.new.items ≡ text.old.items ++ texts_of (places_said told place)) }
    ensures fault { IsOkUnless result Fault.OutOfMemory }
{
    let Some((row, col)) = place else {
        return Ok(());
    };
    if is_told(told, row, col) {
        return Ok(());
    }
    push_record(alloc, text, Record::Place(row, col))
}

// Appends a painting, which opens the terminal first if its screen is unknown.
fn push_painting(
    alloc: Global,
    text: &mut Vec<u8>,
    before: &Option<RowShot>,
    bytes: &[u8],
) -> Result<(), Fault>
    ensures text { OnOk result (text.new.items ≡ text.old.items ++ text_of (painting_said before.now bytes.entry)) }
    ensures fault { IsOkUnless result Fault.OutOfMemory }
{
    match before {
        None => push_record(alloc, text, Record::Anew(bytes)),
        Some(_) => push_record(alloc, text, Record::Paint(bytes)),
    }
}

impl DisplayState {
    /// Returns a state before any record: the whole screen is to be shown.
    pub fn new() -> DisplayState
        ensures nothing { result ≡ nothing_told }
    {
        DisplayState {
            scope: Scope::Whole,
            masks: ArrayVec::new(),
            view: None,
            sized: None,
            placed: None,
            looking: None,
            taken: TakenLines::new(),
        }
    }

    /// Returns true if the terminal's screen is known.
    pub fn is_known(&self) -> bool
        ensures known { result ≡ is_some self.now.view }
    {
        self.view.is_some()
    }

    /// Makes the terminal's screen unknown: it is opened and painted anew.
    pub fn forget(&mut self)
        ensures forgotten { self.new ≡ record self.old { view = None } }
    {
        self.view = None;
    }

    /// Sets the part to show from now on. Returns false for a fifth mask, which changes nothing.
    pub fn show(&mut self, showing: Showing) -> bool
        ensures room { result ≡ has_room_for showing self.old }
        ensures shown { result ≡ true → self.new ≡ shown_so showing self.old }
        ensures full { result ≡ false → self.new ≡ self.old }
    {
        match showing {
            Showing::Whole => self.show_scope(Scope::Whole),
            Showing::Exactly(part) => self.show_scope(Scope::Exactly(part)),
            Showing::Following(rows, cols) => {
                let part = Part {
                    row: 0,
                    col: 0,
                    rows,
                    cols,
                };
                self.show_scope(Scope::Following(part));
            }
            Showing::Mask(part) => return self.mask(part),
            Showing::Unmask => {
                self.masks.clear();
                self.view = None;
            }
        }
        true
    }

    // Another part is shown from now on.
    fn show_scope(&mut self, scope: Scope)
        ensures shown { self.new ≡ record self.old { scope = scope; view = None; placed = None } }
    {
        self.scope = scope;
        self.view = None;
        self.placed = None;
    }

    // Masks one more part of the terminal, if there is room for it.
    fn mask(&mut self, part: Part) -> bool
        ensures room { result ≡ has_room_for (Showing.Mask part) self.old }
        ensures masked { result ≡ true → self.new ≡ record self.old { masks = self.old.masks ++ part ∷ []; view = None } }
        ensures full { result ≡ false → self.new ≡ self.old }
    {
        if self.masks.len() >= MOST_MASKS {
            return false;
        }
        self.masks.push(part);
        self.view = None;
        true
    }

    /// The screen is asked for.
    pub fn ask(&mut self, looking: Looking)
        ensures asked { self.new ≡ record self.old { looking = Some looking } }
    {
        self.looking = Some(looking);
    }

    /// Returns true if a requested screen isn't sent yet.
    pub fn is_asked(&self) -> bool
        ensures asked { result ≡ is_some self.now.looking }
    {
        self.looking.is_some()
    }

    /// Notes that a line was taken; its last act has this number, if it has acts.
    pub fn took(&mut self, last: Option<u64>)
        ensures took { self.new ≡ record self.old { taken = took last self.old.taken } }
    {
        self.taken.took(last);
    }
}

impl DisplayState {
    // Returns the records to send for a screen and the part that they show; `None` if the terminal shows it already. `OutOfMemory`.
    fn painting(&self, alloc: Global, shot: &RowShot) -> Result<Option<Painting>, Fault>
        ensures painting { IfOk result (λ found. IfSome found (λ p. (text : Bor (List ℕ)) × (p.part ≡ part_for self.now.scope shot.now)
            × (p.view ≡ part_in p.part self.now.masks shot.now) × (IsCurrent p.part p.view self.now → ⊥)
            × LeadsFrom self.now.view text.now p.view
            × IsStill self.now.masks self.now.view text.now p.view
            × (p.text.items ≡ texts_of (sizes_said self.now.sized p.view
            ++ (places_said self.now.placed (place_told self.now.scope p.part) ++ painting_said self.now.view text ∷ []))))) }
        ensures current { result ≡ Ok None → (part : Part) × (part ≡ part_for self.now.scope shot.now)
            × IsCurrent part (part_in part self.now.masks shot.now) self.now }
        ensures bad_size { IsErrOf result Fault.BadSize → (part : Part) × (part ≡ part_for self.now.scope shot.now)
            × (IsSize part.rows part.cols → ⊥) }
        ensures faults { IfErr result (λ fault. (fault ≡ Fault.BadSize) ⊎ (fault ≡ Fault.OutOfMemory)) }
    {
        let part = self.scope.part(shot);
        let view = part_of(alloc, shot, part, &self.masks)?;
        let mut text = Vec::new(alloc);
        push_size(alloc, &mut text, self.sized, &view)?;
        push_place(alloc, &mut text, self.placed, self.scope.place(part))?;
        if text.is_empty() && is_shown(&self.view, &view) {
            return Ok(None);
        }
        let bytes = text_to(alloc, &self.view, &self.masks, &view)?;
        push_painting(alloc, &mut text, &self.view, &bytes)?;
        Ok(Some(Painting { text, part, view }))
    }

    // A part of a screen is shown from now on.
    fn note(&mut self, part: Part, view: RowShot)
        ensures noted { self.new ≡ record self.old {
          scope = scope_after self.old.scope part;
          view = Some view;
          sized = Some (view.rows, view.cols);
          placed = place_told self.old.scope part;
        } }
    {
        self.sized = Some((view.rows(), view.cols()));
        self.placed = self.scope.place(part);
        self.scope = self.scope.after(part);
        self.view = Some(view);
    }

    /// Adds to `waiting` the records that bring the terminal to a screen: the wanted part is painted, except for masked cells. Adds nothing if
    /// the terminal shows that part already.
    ///
    /// # Errors
    ///
    /// `BadSize`: no screen has the size of the wanted part. `OutOfMemory`: memory was refused. Nothing was added and nothing changed.
    pub fn tell_screen(
        &mut self,
        alloc: Global,
        waiting: &mut Outbox,
        shot: &RowShot,
    ) -> Result<(), Fault>
        ensures tells { (said : List RecordOf) × (told : Tells shot.now said self.old self.new)
            × (waiting.new ≡ waiting.old ++ texts_of said) × (result ≡ answer_of_screen told) }
    {
        let Some(painting) = self.painting(alloc, shot)? else {
            return Ok(());
        };
        waiting.push(&painting.text)?;
        self.note(painting.part, painting.view);
        Ok(())
    }

    /// Adds to `waiting` the screen that was asked for, cell by cell. Adds nothing if none was asked for.
    ///
    /// # Errors
    ///
    /// `OutOfMemory`: nothing was added, and the screen is still asked for.
    pub fn tell_look<S: Seen>(
        &mut self,
        alloc: Global,
        waiting: &mut Outbox,
        shot: &S,
    ) -> Result<(), Fault>
        ensures tells { (said : List RecordOf) × (told : TellsLook (S.screen shot.now) said self.old self.new)
            × (waiting.new ≡ waiting.old ++ texts_of said) × (result ≡ answer_of_look told) }
    {
        let Some(looking) = self.looking else {
            return Ok(());
        };
        let text = screen_text(alloc, looking, shot)?;
        say(alloc, waiting, Record::Screen(&text))?;
        self.looking = None;
        Ok(())
    }

    /// Adds to `waiting` how many of the first lines were taken, with all their acts acknowledged. Adds nothing if that number did not rise.
    /// `acknowledged` is the number of acknowledged acts.
    ///
    /// # Errors
    ///
    /// `OutOfMemory`: nothing was added, and the same number may be given again.
    pub fn tell_taken(
        &mut self,
        alloc: Global,
        waiting: &mut Outbox,
        acknowledged: u64,
    ) -> Result<(), Fault>
        ensures tells { (said : List RecordOf) × (told : TellsTaken acknowledged said self.old self.new)
            × (waiting.new ≡ waiting.old ++ texts_of said) × (result ≡ answer_of_taken told) }
    {
        let Some(lines) = self.taken.risen(acknowledged) else {
            return Ok(());
        };
        say(alloc, waiting, Record::Taken(lines))?;
        let _ = self.taken.acknowledged(acknowledged);
        Ok(())
    }
}
