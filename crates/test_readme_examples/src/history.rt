//! A caller of `roam_history`, as its README shows it (`tools/worked_callers`).

// README: begin
ghost use Rattle.std.specs.Prelude.{◌≡◌, ◌≤◌, length};
ghost use Rattle.roam_cells.specs.Place.{IsWholeRow};
ghost use Rattle.roam_history.specs.Fitting.{after_refit};
ghost use Rattle.roam_history.specs.Histories.{after_push};
ghost use Rattle.roam_history.specs.Lines.{with_blanks};

use roam_cells::Cell;
use roam_history::{Fitted, History};

/// Keeps a row that leaves the screen, lent without the blanks at its end, and goes over into memory that was made before.
pub fn keep(history: &mut History, front: &[Cell], fitted: Fitted)
    requires few { length front.now ≤ history.old.cols }
    requires whole { IsWholeRow (with_blanks history.old.cols front.now) }
    requires lines { fitted.lines ≡ history.old.lines }
    ensures kept { history.new ≡ after_refit fitted.cols (after_push (with_blanks history.old.cols front.now) history.old) }
{
    history.push_front(front);
    history.adopt(fitted);
}
// README: end
