//! A caller of `roam_screens`, as its README shows it (`tools/worked_callers`).

// README: begin
ghost use Rattle.std.specs.Prelude.{◌≡◌, IfSome};

use roam_cells::{Cell, are_unguarded, is_well_formed};
use roam_screens::Shot;

/// Returns the screen of 2 rows by 8 columns with these cells; `None` if they make none.
pub fn screen_of(cells: Vec<Cell>) -> Option<Shot>
    ensures cells { IfSome result (λ shot. shot.cells ≡ cells.items) }
{
    if cells.len() != 16 || !is_well_formed(&cells, 8) || !are_unguarded(&cells) {
        return None;
    }
    Some(Shot::new(2, 8, cells, (1, 6), false))
}
// README: end
