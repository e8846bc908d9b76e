//! A screen as version 1 of the protocol has it.
ghost use Rattle.std.specs.Prelude.{◌≡◌, IfOk, IsOkUnless};
ghost use Rattle.roam_screens.specs.Narrow.{IsOldScreenshot, narrow};

use crate::laws::narrowing;
use crate::narrowing::narrowed;
use crate::row_shots::RowShot;
use crate::seen::Seen;
use roam_cells::{Cell, Fault};
use std::alloc::Global;
use std::marker::Model;

/// A screen of at most 100 rows of 250 columns without mixtures, which shares its rows.
#[derive(Drop)]
pub struct RowShot1 {
    shot: RowShot,
}

impl Model for RowShot1 {
    ghost use Rattle.roam_screens.specs.Screenshot.{Screenshot};
    ghost use Rattle.roam_screens.specs.Narrow.{IsOldScreenshot};

    ghost Value = { Screenshot };

    ghost view = { λ s. s.shot };

    ghost invariant = { λ s. IsOldScreenshot s.shot };
}

impl RowShot1 {
    /// A screen that is one of version 1.
    pub fn new(shot: RowShot) -> RowShot1
        requires old { IsOldScreenshot shot }
        ensures same { result ≡ shot }
    {
        RowShot1 { shot }
    }

    /// Returns the part of a screen that version 1 shows: of more than 100 rows the first 99 and the last, of more than 250 columns the
    /// first 250.
    pub fn of(alloc: Global, shot: &RowShot) -> Result<RowShot1, Fault>
        ensures narrow { IfOk result (λ old. old ≡ narrow shot.now) }
        ensures fault { IsOkUnless result Fault.OutOfMemory }
    {
        shot.facts();
        narrowing();
        let narrow = narrowed(alloc, shot)?;
        Ok(RowShot1 { shot: narrow })
    }

    /// The same screen; it shares its rows with this one.
    pub fn copy(&self, alloc: Global) -> Result<RowShot1, Fault>
        ensures same { IfOk result (λ shot. shot ≡ self.now) }
        ensures fault { IsOkUnless result Fault.OutOfMemory }
    {
        let shot = self.shot.copy(alloc)?;
        Ok(RowShot1 { shot })
    }

    /// The screen, whatever its version.
    pub fn shot(&self) -> &RowShot
        ensures same { result.now ≡ self.now }
        ensures old { IsOldScreenshot self.now }
    {
        &self.shot
    }
}

impl Seen for RowShot1 {
    ghost screen = { λ s. s };

    fn rows(&self) -> u16 {
        self.shot.rows()
    }

    fn cols(&self) -> u16 {
        self.shot.cols()
    }

    fn at(&self, row: u16, col: u16) -> Option<Cell> {
        self.shot.at(row, col)
    }

    fn row(&self, i: u16) -> &[Cell] {
        self.shot.row(i)
    }

    fn cursor(&self) -> (u16, u16) {
        self.shot.cursor()
    }

    fn visible(&self) -> bool {
        self.shot.visible()
    }

    fn facts(&self) {
        self.shot.facts()
    }
}
