//! The effect of margins and modes on the screen.
ghost use Rattle.std.specs.Prelude.{◌≡◌};
ghost use Rattle.roam_grid.specs.Screen.{IsSameSize};
ghost use Rattle.roam_term.specs.Settings.{bottom_of, margins_set, after_private_mode};
ghost use Rattle.roam_term.specs.Marks.{marks_followed};

use crate::motions::home;
use roam_grid::Grid;

fn bottom_of(grid: &Grid, bottom: u16) -> usize
    ensures bottom { result ≡ bottom_of bottom grid.now.screen }
{
    grid.facts();
    let bottom = usize::from(bottom);
    if bottom == 0 || grid.rows() < bottom {
        grid.rows() - 1
    } else {
        bottom - 1
    }
}

/// Sets margins of rows from 1 if the top one is above the bottom one, and moves the cursor home.
pub fn set_margins(grid: &mut Grid, top: u16, bottom: u16, origin: bool)
    ensures set { grid.new.screen ≡ margins_set top bottom origin grid.old.screen }
    ensures marks { grid.new.marks ≡ grid.old.marks }
    ensures size { IsSameSize grid.old.screen grid.new.screen }
{
    let top = usize::from(top).saturating_sub(1);
    let bottom = bottom_of(grid, bottom);
    if top < bottom {
        grid.set_margins(top, bottom);
        home(grid, origin);
    }
}

/// Does the effect of a private mode's change on the screen at once.
pub fn follow_private_mode(grid: &mut Grid, on: bool, number: u16)
    ensures followed { grid.new.screen ≡ after_private_mode on number grid.old.screen }
    ensures marks { grid.new.marks ≡ marks_followed number grid.old.marks }
    ensures size { IsSameSize grid.old.screen grid.new.screen }
{
    match number {
        5 => grid.mark_all(),
        6 => home(grid, on),
        7 => {
            if !on {
                grid.clear_wrap();
            }
        }
        _ => {}
    }
}
