//! A caller of `roam_cells`, as its README shows it (`tools/worked_callers`).

// README: begin
ghost use Rattle.std.specs.Prelude.{◌≡◌, ◌∷◌, [], IfSome};

use roam_cells::{Cell, Ink};

/// Returns the cell of a character with an accent in an ink; `None` if they make none.
pub fn accented(letter: char, accent: char, ink: Ink) -> Option<Cell>
    ensures points { IfSome result (λ cell. cell.points ≡ letter ∷ accent ∷ []) }
{
    Cell::of_ink(&[letter, accent], ink)
}
// README: end
