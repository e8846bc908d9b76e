//! The main and the alternate screen.
ghost use Rattle.std.specs.Prelude.{◌≡◌};
ghost use Rattle.roam_grid.specs.Screen.{IsSameSize};
ghost use Rattle.roam_term.specs.Terminal.{is_alternate_mode, screens_switched, alternate_shown, main_shown, screen_chosen};
ghost use Rattle.roam_grid.specs.Marks.{all_on};
ghost use Rattle.roam_term.specs.Marks.{marks_chosen};

use crate::canvases::Canvas;
use std::mem;

/// Returns true if a private mode chooses the screen that is shown: 47, 1047 and 1049 of xterm.
pub fn is_alternate_mode(number: u16) -> bool
    ensures alternate { result ≡ is_alternate_mode number }
{
    number == 47 || number == 1047 || number == 1049
}

impl Canvas {
    // Shows the screen that wasn't shown; cursor, margins and tab stops stay, and no wrap pends.
    fn switch(&mut self)
        ensures switched { self.new.live ≡ screens_switched self.old.live }
        ensures marks { self.new.marks ≡ all_on }
        ensures size { IsSameSize self.old.live.screen self.new.live.screen }
    {
        mem::swap(&mut self.grid, &mut self.other);
        self.grid.take_frame(&self.other);
        self.alternate = !self.alternate;
    }

    fn show_alternate(&mut self, number: u16)
        ensures shown { self.new.live ≡ alternate_shown number self.old.live }
        ensures marks { self.new.marks ≡ all_on }
        ensures size { IsSameSize self.old.live.screen self.new.live.screen }
    {
        if number == 1049 {
            self.save();
            self.switch();
            self.grid.blank_all();
        } else {
            self.switch();
        }
    }

    fn show_main(&mut self, number: u16)
        ensures shown { self.new.live ≡ main_shown number self.old.live }
        ensures marks { self.new.marks ≡ all_on }
        ensures size { IsSameSize self.old.live.screen self.new.live.screen }
    {
        match number {
            1047 => {
                self.grid.blank_all();
                self.switch();
            }
            1049 => {
                self.switch();
                self.restore();
            }
            _ => self.switch(),
        }
    }

    /// Shows the alternate or the main screen, by a mode that chooses it; no effect if that one is shown already.
    pub fn choose_screen(&mut self, alternate: bool, number: u16)
        ensures chosen { self.new.live ≡ screen_chosen alternate number self.old.live }
        ensures marks { self.new.marks ≡ marks_chosen alternate self.old.live self.old.marks }
        ensures size { IsSameSize self.old.live.screen self.new.live.screen }
    {
        if alternate && !self.alternate {
            self.show_alternate(number);
        } else if !alternate && self.alternate {
            self.show_main(number);
        }
    }
}
