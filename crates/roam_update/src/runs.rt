//! The stretches in which two lists of cells are the same, and those in which they differ.

ghost use Rattle.std.specs.Prelude.{◌≡◌, ℕ, ◌≤◌, ◌<◌, length};
ghost use Rattle.roam_cells.specs.Place.{glyph_at};

use roam_cells::{Cell, are_same_cells};

/// Returns the first place from one on at which the cells differ, or their number if none does. From the first place on they are compared
/// as a whole before they are compared one by one: most rows of a screen stay.
pub fn next_difference(base: &[Cell], cells: &[Cell], from: usize) -> usize
    requires same { length base.now ≡ length cells.now }
    requires inside { from ≤ length cells.now }
    ensures range { (from ≤ result) × (result ≤ length cells.now) }
    ensures skipped { (k : ℕ) → from ≤ k → k < result → glyph_at base.now k ≡ glyph_at cells.now k }
    ensures differs { result < length cells.now → ¬ (glyph_at base.now result ≡ glyph_at cells.now result) }
{
    if from == 0 && are_same_cells(base, cells) {
        return cells.len();
    }
    let mut place = from;
    while place < cells.len() {
        if !base[place].is_same(&cells[place]) {
            return place;
        }
        place += 1;
    }
    place
}

/// Returns the first place from one on at which the cells are equal, or their number if there is none.
pub fn next_same(base: &[Cell], cells: &[Cell], from: usize) -> usize
    requires same { length base.now ≡ length cells.now }
    requires inside { from ≤ length cells.now }
    ensures range { (from ≤ result) × (result ≤ length cells.now) }
    ensures skipped { (k : ℕ) → from ≤ k → k < result → ¬ (glyph_at base.now k ≡ glyph_at cells.now k) }
    ensures same { result < length cells.now → glyph_at base.now result ≡ glyph_at cells.now result }
{
    let mut place = from;
    while place < cells.len() {
        if base[place].is_same(&cells[place]) {
            return place;
        }
        place += 1;
    }
    place
}
