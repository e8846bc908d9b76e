//! Reads two screens.
ghost use Rattle.std.specs.Prelude.{◌≡◌, ℕ, ◌<◌, length, true, IfSome};
ghost use Rattle.roam_cells.specs.Glyph.{blank};
ghost use Rattle.roam_cells.specs.Place.{glyph_at};
ghost use Rattle.roam_scroll_paint.specs.Bands.{taken};
ghost use Rattle.roam_term.specs.Ground.{shown_at};
ghost use Rattle.roam_paint.specs.Painting.{same_size};

use roam_cells::Cell;
use roam_screens::Seen;

/// Returns true if two screens have one size.
pub fn is_same_size<O: Seen, N: Seen>(old: &O, new: &N) -> bool
    ensures same { result ≡ same_size (O.screen old.now) (N.screen new.now) }
    ensures rows { result ≡ true → (O.screen old.now).rows ≡ (N.screen new.now).rows }
    ensures cols { result ≡ true → (O.screen old.now).cols ≡ (N.screen new.now).cols }
{
    old.rows() == new.rows() && old.cols() == new.cols()
}

/// The cells that a row shows before it is drawn: those of a row of the old screen, or blanks.
pub fn row_over<'a, O: Seen>(old: &'a O, blanks: &'a [Cell], source: Option<u16>) -> &'a [Cell]
    requires source { IfSome source (λ r. (r < (O.screen old.now).rows) × ((O.screen old.now).cols ≡ length blanks.now)) }
    requires blanks { (c : ℕ) → glyph_at blanks.now c ≡ blank }
    ensures len { length result.now ≡ length blanks.now }
    ensures cells { (c : ℕ) → taken (shown_at (O.screen old.now)) source c ≡ glyph_at result.now c }
{
    match source {
        Some(row) => {
            old.facts();
            old.row(row)
        }
        None => blanks,
    }
}
