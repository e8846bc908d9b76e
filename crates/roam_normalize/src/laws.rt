//! Laws of the definitions, each the contract of a function without a body.
ghost use Rattle.std.specs.Prelude.{◌≡◌, ◌≢◌, ◌≤◌, ◌<◌, ◌⊎◌, ℕ, List, ◌∷◌, ◌++◌, length};
ghost use Rattle.roam_normalize.specs.Found.{AreStill};
ghost use Rattle.roam_normalize.specs.Normalized.{held_part, normalized_part, most_held, most_title};
ghost use Rattle.roam_normalize.specs.Titles.{AreOfTitle, titles_part};

/// The output doesn't depend on the cuts. The output for some bytes and more is the output for the first bytes, then the output for their
/// kept bytes and the rest.
pub fn cuts_change_nothing()
    ensures out { (bytes more : List ℕ)
        → normalized_part (bytes ++ more) ≡ normalized_part bytes ++ normalized_part (held_part bytes ++ more) }
    ensures held { (bytes more : List ℕ) → held_part (bytes ++ more) ≡ held_part (held_part bytes ++ more) }
{}

/// Few bytes are kept back: of an unfinished control sequence, at most ESC, 5B and 255 bytes.
pub fn little_is_held()
    ensures few { (bytes : List ℕ) → length (held_part bytes) ≤ most_held }
{}

/// A title behind ESC k, of up to 255 bytes, is taken out of the output. `ESC \` at its end goes with it, as do CAN and SUB. If another
/// sequence or one more byte ends it, they go through.
pub fn titles_are_taken_out()
    ensures out { (title more : List ℕ) → AreOfTitle title → length title < most_title
        → normalized_part (0x1B ∷ 0x6B ∷ (title ++ 0x1B ∷ 0x5C ∷ more)) ≡ normalized_part more }
    ensures cancelled { (title more : List ℕ) (b : ℕ) → AreOfTitle title → length title < most_title → (b ≡ 0x18) ⊎ (b ≡ 0x1A)
        → normalized_part (0x1B ∷ 0x6B ∷ (title ++ b ∷ more)) ≡ normalized_part more }
    ensures broken { (title more : List ℕ) (c : ℕ) → AreOfTitle title → length title < most_title → c ≢ 0x5C
        → normalized_part (0x1B ∷ 0x6B ∷ (title ++ 0x1B ∷ c ∷ more)) ≡ normalized_part (0x1B ∷ c ∷ more) }
    ensures full { (title more : List ℕ) (b : ℕ) → AreOfTitle title → length title ≡ most_title
        → normalized_part (0x1B ∷ 0x6B ∷ (title ++ b ∷ more)) ≡ normalized_part (b ∷ more) }
{}

/// Each title that is taken out is one of the titles, however the bytes are cut.
pub fn titles_are_named()
    ensures named { (title more : List ℕ) → AreOfTitle title → length title < most_title
        → titles_part (0x1B ∷ 0x6B ∷ (title ++ 0x1B ∷ 0x5C ∷ more)) ≡ title ∷ titles_part more }
    ensures full { (title more : List ℕ) (b : ℕ) → AreOfTitle title → length title ≡ most_title
        → titles_part (0x1B ∷ 0x6B ∷ (title ++ b ∷ more)) ≡ title ∷ titles_part (b ∷ more) }
    ensures cut { (bytes more : List ℕ) → titles_part (bytes ++ more) ≡ titles_part bytes ++ titles_part (held_part bytes ++ more) }
{}

/// Bytes without ESC and C2 go through as they are, at once.
pub fn plain_text_goes_through()
    ensures same { (bytes : List ℕ) → AreStill bytes → normalized_part bytes ≡ bytes }
{}
