//! The known state of the outer terminal.
ghost use Rattle.std.specs.Prelude.{◌≡◌, ◌↔◌, None, Some, true, false, IsTrue, IfOk, IfSome};
ghost use Rattle.roam_screens.specs.Shown.{shown_by};
ghost use Rattle.roam_turns.specs.Painting.{IsNoted, LeadsSized, ShowsSized, text_for};

use crate::screens::AnyShot;
use roam_cells::Fault;
use roam_paint::laws::opened_begins_blank;
use roam_paint::{open, paint};
use roam_screens::{RowShot, Seen, Shown};
use roam_scroll_paint::laws::paint_leads;
use roam_scroll_paint::paint_moved;
use std::alloc::Global;
use std::marker::Model;

// A screen and its number, as they were painted.
#[derive(Drop)]
pub(crate) struct Noted {
    pub(crate) number: u64,
    pub(crate) screen: AnyShot,
}

/// The screen that the outer terminal shows and its number, or that neither is known.
#[derive(Drop)]
pub struct Outer {
    noted: Option<Noted>,
}

impl Model for Outer {
    ghost use Rattle.std.specs.Prelude.{Option};
    ghost use Rattle.roam_turns.specs.declared.outer.Noted.{Noted};

    ghost Value = { Option Noted };

    ghost view = { λ o. o.noted };
}

// A text that shows a screen, and the note of that screen.
#[derive(Drop)]
pub(crate) struct Painting {
    pub(crate) text: Vec<u8>,
    pub(crate) noted: Noted,
}

fn text_of(alloc: Global, noted: &Option<Noted>, screen: &Shown<'_>) -> Result<Vec<u8>, Fault>
    ensures text { IfOk result (λ text. text.items ≡ text_for noted.now (shown_by screen.now)) }
{
    let mut text = Vec::new(alloc);
    match noted {
        None => {
            open(&mut text)?;
            let blank = RowShot::blank(alloc, screen.rows(), screen.cols())?;
            paint(&blank, screen, &mut text)?;
        }
        Some(noted) => {
            let before = noted.screen.shown();
            paint(&before, screen, &mut text)?;
        }
    }
    Ok(text)
}

// A text that shows a screen over the one that is noted, in which rows may be moved.
fn text_over(alloc: Global, noted: &Noted, screen: &Shown<'_>) -> Result<Vec<u8>, Fault>
    ensures leads { IfOk result (λ text. ShowsSized (Some noted.now) text.items (shown_by screen.now)) }
{
    let before = noted.screen.shown();
    let mut text = Vec::new(alloc);
    paint_moved(&before, screen, &mut text)?;
    Ok(text)
}

// Returns the same, even if nothing is noted: then the terminal is opened, and no rows can move.
fn moving_text(alloc: Global, noted: &Option<Noted>, screen: &Shown<'_>) -> Result<Vec<u8>, Fault>
    ensures leads { IfOk result (λ text. ShowsSized noted.now text.items (shown_by screen.now)) }
{
    opened_begins_blank();
    paint_leads();
    screen.facts();
    match noted {
        None => text_of(alloc, noted, screen),
        Some(noted) => text_over(alloc, noted, screen),
    }
}

impl Outer {
    /// A terminal of which nothing is known.
    pub fn new() -> Outer
        ensures none { result ≡ None }
    {
        Outer { noted: None }
    }

    /// The number and the screen that are noted, lent, or none. It takes no memory.
    pub fn noted(&self) -> Option<(u64, Shown<'_>)>
        ensures some { IfSome result (λ lent. self.now ≡ Some (record { number = lent.0; screen = shown_by lent.1 })) }
        ensures none { result ≡ None → self.now ≡ None }
    {
        match &self.noted {
            None => None,
            Some(noted) => Some((noted.number, noted.screen.shown())),
        }
    }

    // Returns true if a screen of this number is noted.
    pub(crate) fn is_noted(&self, number: u64) -> bool
        ensures noted { IsTrue result ↔ IsNoted number self.now }
    {
        match &self.noted {
            None => false,
            Some(noted) => noted.number == number,
        }
    }

    // The text that shows a screen of a number, each place that differs and no other, and a copy of it to be noted.
    pub(crate) fn painting(
        &self,
        alloc: Global,
        number: u64,
        screen: &Shown<'_>,
    ) -> Result<Painting, Fault>
        ensures text { IfOk result (λ painting. painting.text.items ≡ text_for self.now (shown_by screen.now)) }
        ensures noted { IfOk result (λ painting. painting.noted ≡ record { number = number; screen = shown_by screen.now }) }
    {
        let text = text_of(alloc, &self.noted, screen)?;
        let screen = AnyShot::of(alloc, screen)?;
        Ok(Painting {
            text,
            noted: Noted { number, screen },
        })
    }

    // The text that shows a screen of a number, in which rows may be moved, and a copy of it to be noted.
    fn moving(&self, alloc: Global, number: u64, screen: &Shown<'_>) -> Result<Painting, Fault>
        ensures leads { IfOk result (λ painting. ShowsSized self.now painting.text.items (shown_by screen.now)) }
        ensures noted { IfOk result (λ painting. painting.noted ≡ record { number = number; screen = shown_by screen.now }) }
    {
        let text = moving_text(alloc, &self.noted, screen)?;
        let screen = AnyShot::of(alloc, screen)?;
        Ok(Painting {
            text,
            noted: Noted { number, screen },
        })
    }

    /// Returns a text that leads the terminal from the noted screen to another one, which is noted under a number from then on; rows that
    /// are there already may be moved. If nothing is noted it opens the terminal first, and writes each place that isn't blank. `None` if
    /// that number is noted already or there is no memory: then the note stays.
    pub fn paint(&mut self, alloc: Global, number: u64, screen: &Shown<'_>) -> Option<Vec<u8>>
        // The terminal has its size then.
        ensures leads { IfSome result (λ text. LeadsSized self.old text.items self.new) }
        ensures noted { IfSome result (λ _. self.new ≡ Some (record { number = number; screen = shown_by screen.now })) }
        ensures other { IfSome result (λ _. IsNoted number self.old → ⊥) }
        ensures none { result ≡ None → self.new ≡ self.old }
    {
        if self.is_noted(number) {
            return None;
        }
        let painting = self.moving(alloc, number, screen).ok()?;
        self.note(Some(painting.noted));
        Some(painting.text)
    }

    /// Notes a screen under a number, as one that was sent in another form than a text for this terminal; returns true if it is noted. If
    /// that number is noted already nothing changes, nor if there is no memory.
    pub fn see(&mut self, alloc: Global, number: u64, screen: &Shown<'_>) -> bool
        ensures noted { result ≡ true → self.new ≡ Some (record { number = number; screen = shown_by screen.now }) }
        ensures stays { result ≡ false → self.new ≡ self.old }
    {
        if self.is_noted(number) {
            return false;
        }
        let Ok(screen) = AnyShot::of(alloc, screen) else {
            return false;
        };
        self.note(Some(Noted { number, screen }));
        true
    }

    // Notes the screen that was shown, or nothing.
    pub(crate) fn note(&mut self, noted: Option<Noted>)
        ensures noted { self.new ≡ noted }
    {
        self.noted = noted;
    }
}
