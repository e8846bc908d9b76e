//! A screen of either version.
use crate::old_shots::RowShot1;
use crate::row_shots::RowShot;
use crate::seen::Seen;
use roam_cells::Cell;

/// A screen of either version, lent.
#[derive(Drop)]
pub enum Shown<'a> {
    /// One of version 2.
    New(&'a RowShot),
    /// One of version 1.
    Old(&'a RowShot1),
}

impl<'a> Seen for Shown<'a> {
    ghost use Rattle.roam_screens.specs.Shown.{shown_by};

    ghost screen = { shown_by };

    fn rows(&self) -> u16 {
        match self {
            Shown::New(shot) => shot.rows(),
            Shown::Old(shot) => shot.rows(),
        }
    }

    fn cols(&self) -> u16 {
        match self {
            Shown::New(shot) => shot.cols(),
            Shown::Old(shot) => shot.cols(),
        }
    }

    fn at(&self, row: u16, col: u16) -> Option<Cell> {
        match self {
            Shown::New(shot) => shot.at(row, col),
            Shown::Old(shot) => shot.at(row, col),
        }
    }

    fn row(&self, i: u16) -> &[Cell] {
        match self {
            Shown::New(shot) => shot.row(i),
            Shown::Old(shot) => shot.row(i),
        }
    }

    fn cursor(&self) -> (u16, u16) {
        match self {
            Shown::New(shot) => shot.cursor(),
            Shown::Old(shot) => shot.cursor(),
        }
    }

    fn visible(&self) -> bool {
        match self {
            Shown::New(shot) => shot.visible(),
            Shown::Old(shot) => shot.visible(),
        }
    }

    fn facts(&self) {
        match self {
            Shown::New(shot) => shot.facts(),
            Shown::Old(shot) => shot.facts(),
        }
    }
}
