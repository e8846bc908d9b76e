//! A screen of either version, in memory of its own.
ghost use Rattle.std.specs.Prelude.{◌≡◌, IfOk, IsOkUnless};
ghost use Rattle.roam_screens.specs.Shown.{shown_by};

use roam_cells::Fault;
use roam_screens::{RowShot, RowShot1, Shown};
use std::alloc::Global;
use std::marker::Model;

// One of version 2, or one of version 1.
#[derive(Drop)]
pub(crate) enum Either {
    New(RowShot),
    Old(RowShot1),
}

// A screen of either version.
#[derive(Drop)]
pub(crate) struct AnyShot {
    shot: Either,
}

impl Model for AnyShot {
    ghost use Rattle.roam_screens.specs.Screenshot.{Screenshot};

    ghost Value = { Screenshot };

    ghost use Rattle.roam_turns.specs.Screens.{screen_of};

    ghost view = { λ s. screen_of s.shot };
}

impl AnyShot {
    // A copy of a screen that is lent, which shares its rows. Refuses want of memory.
    pub(crate) fn of(alloc: Global, shown: &Shown<'_>) -> Result<AnyShot, Fault>
        ensures same { IfOk result (λ shot. shot ≡ shown_by shown.now) }
        ensures fault { IsOkUnless result Fault.OutOfMemory }
    {
        match shown {
            Shown::New(shot) => {
                let copy = shot.copy(alloc)?;
                Ok(AnyShot {
                    shot: Either::New(copy),
                })
            }
            Shown::Old(shot) => {
                let copy = shot.copy(alloc)?;
                Ok(AnyShot {
                    shot: Either::Old(copy),
                })
            }
        }
    }

    // The screen, lent.
    pub(crate) fn shown(&self) -> Shown<'_>
        ensures shown { shown_by result ≡ self.now }
    {
        match &self.shot {
            Either::New(shot) => Shown::New(shot),
            Either::Old(shot) => Shown::Old(shot),
        }
    }
}
