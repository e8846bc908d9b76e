//! Where two screens differ.
ghost use Rattle.std.specs.Prelude.{◌≡◌, ℕ, ◌<◌, ◌+◌, ◌*◌, true, false, not};
ghost use Rattle.roam_term.specs.Ground.{shown_at};
ghost use Rattle.roam_cells.specs.Same.{same};
ghost use Rattle.roam_paint.specs.Painting.{same_size, differs};

use roam_cells::{Cell, are_same_cells};
use roam_screens::Seen;

pub fn is_same_size<O: Seen, N: Seen>(old: &O, new: &N) -> bool
    ensures same { result ≡ same_size (O.screen old.now) (N.screen new.now) }
{
    old.rows() == new.rows() && old.cols() == new.cols()
}

/// Returns true if two cells show different things.
pub fn is_other(one: &Cell, other: &Cell) -> bool
    ensures other { result ≡ not (same one.now other.now) }
{
    !one.is_same(other)
}

/// The cell at a row and a column, from 0.
pub fn cell_of<S: Seen>(screen: &S, row: usize, col: usize) -> &Cell
    requires inside { (row < (S.screen screen.now).rows) × (col < (S.screen screen.now).cols) }
    ensures cell { result.now ≡ shown_at (S.screen screen.now) row col }
{
    screen.facts();
    &screen.row(row as u16)[col]
}

/// Returns true if a place of the new screen, from 0, or the one behind its last column has to change. The old screen counts as blank if
/// sizes differ.
pub fn differs<O: Seen, N: Seen>(old: &O, new: &N, row: usize, col: usize) -> bool
    requires row { row < (N.screen new.now).rows }
    ensures differs { result ≡ differs (O.screen old.now) (N.screen new.now) row col }
{
    if usize::from(new.cols()) <= col {
        return false;
    }
    let cell = cell_of(new, row, col);
    if is_same_size(old, new) {
        is_other(cell_of(old, row, col), cell)
    } else {
        is_other(&Cell::blank(), cell)
    }
}

/// Returns true if both screens have one size and no place of a row differs.
pub fn is_same_row<O: Seen, N: Seen>(old: &O, new: &N, row: usize) -> bool
    requires row { row < (N.screen new.now).rows }
    ensures size { result ≡ true → same_size (O.screen old.now) (N.screen new.now) ≡ true }
    ensures same { result ≡ true → (col : ℕ) → differs (O.screen old.now) (N.screen new.now) row col ≡ false }
    ensures other { same_size (O.screen old.now) (N.screen new.now) ≡ true
        → ((col : ℕ) → differs (O.screen old.now) (N.screen new.now) row col ≡ false) → result ≡ true }
{
    if !is_same_size(old, new) {
        return false;
    }
    old.facts();
    new.facts();
    are_same_cells(old.row(row as u16), new.row(row as u16))
}
