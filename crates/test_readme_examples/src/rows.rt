//! A caller of `roam_rows`, as its README shows it (`tools/worked_callers`).

// README: begin
ghost use Rattle.std.specs.Prelude.{◌≡◌, ◌-◌, ◌<◌, false};
ghost use Rattle.roam_cells.specs.Glyph.{is_right_half, is_wide};
ghost use Rattle.roam_rows.specs.Rows.{with_row};
ghost use Rattle.roam_rows.specs.Scrolling.{all_up};
ghost use Rattle.roam_rows.specs.Writing.{writing_source};

use roam_cells::Cell;
use roam_rows::Ring;

/// Scrolls all rows up by one and writes a cell of one column into the last row.
pub fn add(ring: &mut Ring, cell: Cell)
    requires narrow { (is_wide cell ≡ false) × (is_right_half cell ≡ false) }
    requires some { 0 < ring.old.cols }
    ensures ring { ring.new ≡ with_row (ring.old.rows - 1) (writing_source cell 0) (all_up 1 ring.old) }
{
    ring.facts();
    ring.scroll_up(1);
    ring.put(ring.rows() - 1, 0, cell);
}
// README: end
