//! Laws of the definitions, each the contract of a function without a body: a history models all rows that were ever pushed.
ghost use Rattle.std.specs.Prelude.{◌≡◌, ℕ, List, [], ◌∷◌, ◌++◌, map};
ghost use Rattle.roam_cells.specs.Glyph.{Glyph};
ghost use Rattle.roam_history.specs.Fitting.{after_refit};
ghost use Rattle.roam_history.specs.Histories.{empty, keeping, after_push};
ghost use Rattle.roam_history.specs.Lines.{refitted_row};

/// A history of no row keeps the last of none.
pub fn nothing_was_pushed()
    ensures kept { (lines cols : ℕ) → empty lines cols ≡ keeping lines cols [] }
{}

/// A history that keeps the last of some rows keeps the last of those and one more after it was pushed.
pub fn one_more_was_pushed()
    ensures kept { (lines cols : ℕ) → (rows : List (List Glyph)) → (row : List Glyph)
        → after_push row (keeping lines cols rows) ≡ keeping lines cols (rows ++ row ∷ []) }
{}

/// A history that keeps the last of some rows keeps the last of those rows refitted after it was.
pub fn all_were_refitted()
    ensures kept { (lines cols new_cols : ℕ) → (rows : List (List Glyph))
        → after_refit new_cols (keeping lines cols rows) ≡ keeping lines new_cols (map (refitted_row new_cols) rows) }
{}
