//! The stretches in which two screens of one size are the same, and those in which they differ, over the ends of rows.

ghost use Rattle.std.specs.Prelude.{◌≡◌, ℕ, ◌≤◌, ◌<◌, length};
ghost use Rattle.roam_cells.specs.Place.{glyph_at};
ghost use Rattle.roam_update.specs.Sizes.{AreSameSize};

use crate::runs::{next_difference, next_same};
use roam_screens::Seen;

/// Returns the first place from one on at which two screens differ, or the number of places if none does.
pub fn first_difference<B: Seen, S: Seen>(base: &B, shot: &S, from: usize) -> usize
    requires size { AreSameSize (B.screen base.now) (S.screen shot.now) }
    requires inside { from ≤ length (S.screen shot.now).cells }
    ensures range { (from ≤ result) × (result ≤ length (S.screen shot.now).cells) }
    ensures skipped { (k : ℕ) → from ≤ k → k < result
        → glyph_at (B.screen base.now).cells k ≡ glyph_at (S.screen shot.now).cells k }
    ensures differs { result < length (S.screen shot.now).cells
        → ¬ (glyph_at (B.screen base.now).cells result ≡ glyph_at (S.screen shot.now).cells result) }
{
    base.facts();
    shot.facts();
    let rows = shot.rows();
    let cols = shot.cols() as usize;
    let mut row = (from / cols) as u16;
    let mut col = from % cols;
    while row < rows {
        let found = next_difference(base.row(row), shot.row(row), col);
        if found < cols {
            return row as usize * cols + found;
        }
        row += 1;
        col = 0;
    }
    rows as usize * cols
}

/// Returns the first place from one on at which two screens are equal, or the number of places if there is none.
pub fn first_same<B: Seen, S: Seen>(base: &B, shot: &S, from: usize) -> usize
    requires size { AreSameSize (B.screen base.now) (S.screen shot.now) }
    requires inside { from ≤ length (S.screen shot.now).cells }
    ensures range { (from ≤ result) × (result ≤ length (S.screen shot.now).cells) }
    ensures skipped { (k : ℕ) → from ≤ k → k < result
        → ¬ (glyph_at (B.screen base.now).cells k ≡ glyph_at (S.screen shot.now).cells k) }
    ensures same { result < length (S.screen shot.now).cells
        → glyph_at (B.screen base.now).cells result ≡ glyph_at (S.screen shot.now).cells result }
{
    base.facts();
    shot.facts();
    let rows = shot.rows();
    let cols = shot.cols() as usize;
    let mut row = (from / cols) as u16;
    let mut col = from % cols;
    while row < rows {
        let found = next_same(base.row(row), shot.row(row), col);
        if found < cols {
            return row as usize * cols + found;
        }
        row += 1;
        col = 0;
    }
    rows as usize * cols
}
