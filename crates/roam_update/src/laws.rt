//! Laws of diffs, over every base, screen and text. Each is the contract of a function with an empty body.

ghost use Rattle.std.specs.Prelude.{All, ◌≡◌, ℕ, ◌≤◌, ◌<◌, ◌*◌, ◌↔◌, List, Some, length, IsTrue};
ghost use Rattle.roam_screens.specs.Narrow.{IsOldScreenshot};
ghost use Rattle.roam_cells.specs.Place.{glyph_at, row_of};
ghost use Rattle.roam_screens.specs.Screenshot.{Screenshot, IsScreenshot};
ghost use Rattle.roam_update.specs.ChangeText.{Change, Spells, change_read};
ghost use Rattle.roam_update.specs.TableText.{SpellsTabled, tabled_read};
ghost use Rattle.roam_update.specs.Runs.{AreApart, IsNamed};
ghost use Rattle.roam_update.specs.Shots.{Makes, MakesOld, applied_one, applied_two, change_to, difference_one, difference_two};
ghost use Rattle.roam_update.specs.Sizes.{sized_cells};
ghost use Rattle.roam_update.specs.Tested.{is_screenshot};

/// The diff that leads to a screen has at most 3,300,016 bytes, and in version 1 at most 650,013.
#[tactic(auto, using(crate::proofs::Bounds::most_two, crate::proofs::OldBounds::most_one))]
pub fn most_bytes()
    ensures most { (base s : Screenshot) → IsScreenshot s → length (difference_two base s) ≤ 3300016 }
    ensures old { (base s : Screenshot) → IsOldScreenshot s → length (difference_one base s) ≤ 650013 }
{}

/// The diff that leads from a base to a screen names exactly the places at which the screen differs from the base brought to its size, in
/// runs that rise and do not touch: each of them is maximal.
pub fn named_places()
    ensures named { (base s : Screenshot) (k : ℕ) → IsScreenshot s → k < length s.cells
        → (IsNamed k (change_to base s).runs ↔ (¬ (glyph_at (sized_cells s.rows s.cols base) k ≡ glyph_at s.cells k))) }
    ensures apart { (base s : Screenshot) → IsScreenshot s → AreApart 0 (s.rows * s.cols) (change_to base s).runs }
{}

/// The grammar both ways: a spelled diff is read as that change, a diff that is read spells the text, and two diffs with one text are
/// equal.
pub fn grammar()
    ensures again { (x : Change) (text : List ℕ) → Spells x text → change_read text ≡ Some x }
    ensures spelled { (text : List ℕ) (x : Change) → All (λ (b : ℕ). b < 256) text → change_read text ≡ Some x → Spells x text }
    ensures one { (x y : Change) (text : List ℕ) → Spells x text → Spells y text → x ≡ y }
{}

/// The same of the text with a table of styles.
pub fn tabled_grammar()
    ensures again { (x : Change) (text : List ℕ) → SpellsTabled x text → tabled_read text ≡ Some x }
    ensures spelled { (text : List ℕ) (x : Change) → All (λ (b : ℕ). b < 256) text → tabled_read text ≡ Some x → SpellsTabled x text }
    ensures one { (x y : Change) (text : List ℕ) → SpellsTabled x text → SpellsTabled y text → x ≡ y }
{}

/// A text makes a screen of a base exactly if it spells a diff whose result is a screen that can be shown, and then that one. The test
/// that decides it is true exactly for such screens.
#[tactic(auto, using(crate::proofs::Testing::screenshot_is, crate::proofs::Testing::is_screenshot_of))]
pub fn made_screens()
    ensures made { (base s : Screenshot) (text : List ℕ) → All (λ (b : ℕ). b < 256) text
        → (applied_two base text ≡ Some s ↔ Makes base text s) }
    ensures old { (base s : Screenshot) (text : List ℕ) → All (λ (b : ℕ). b < 256) text
        → (applied_one base text ≡ Some s ↔ MakesOld base text s) }
    ensures tested { (s : Screenshot) → (IsTrue (is_screenshot s) ↔ IsScreenshot s) }
{}

/// If the width stays, a row that is below both numbers of rows is the old row itself. A screen brought to its own size has its own cells.
#[tactic(auto, using(crate::proofs::Sizing::row_stays, crate::proofs::Sizing::sized_same))]
pub fn kept_rows()
    ensures row { (s : Screenshot) (rows r : ℕ) → IsScreenshot s → r < rows → r < s.rows
        → row_of s.cols (sized_cells rows s.cols s) r ≡ row_of s.cols s.cells r }
    ensures same { (s : Screenshot) → IsScreenshot s → sized_cells s.rows s.cols s ≡ s.cells }
{}
