//! Laws of the definitions, each the contract of a function without a body.
ghost use Rattle.std.specs.Prelude.{◌≡◌, ℕ, List, []};
ghost use Rattle.roam_cells.specs.Limits.{IsSize};
ghost use Rattle.roam_text.specs.Log.{Item};
ghost use Rattle.roam_term.specs.GroundFunctions.{CursorIsPlaced, StyleIsSet, MixtureIsSet, AllIsErased, CharacterIsPrinted, CharacterIsJoined, CursorIsHidden, CursorIsShown, AllIsReset};
ghost use Rattle.roam_term.specs.Picture.{picture};
ghost use Rattle.roam_term.specs.Screens.{AreSizes, IsScreenOf};
ghost use Rattle.roam_term.specs.Terminal.{reports};
ghost use Rattle.roam_term.specs.Unmarked.{MarksAreAdded, UnmarkedRowsStay};

/// A terminal that has read nothing has answered nothing.
pub fn nothing_read_answers_nothing()
    ensures silent { (rows cols lines : ℕ) → reports rows cols lines [] ≡ [] }
{}

/// A terminal shows a screen of the last size that it was given, whatever bytes and sizes came, and at every view of its history. On a
/// ground terminal in any style, CUP (ECMA-48 8.3.21) places the cursor, SGR (8.3.117) sets a style, ED 2 (8.3.39) erases all, and DECTCEM
/// (VT220 Programmer Reference) hides and shows the cursor. A character is printed or joins the one before it. RIS (ECMA-48 8.3.105) makes
/// of any terminal a ground terminal with a blank screen.
pub fn what_a_terminal_shows()
    ensures screen { (rows cols lines : ℕ) (log : List Item) (view : ℕ) → IsSize rows cols → AreSizes log
        → IsScreenOf (rows, cols) log (picture rows cols lines log view) }
    ensures placed { CursorIsPlaced }
    ensures styled { StyleIsSet }
    ensures mixed { MixtureIsSet }
    ensures erased { AllIsErased }
    ensures printed { CharacterIsPrinted }
    ensures joined { CharacterIsJoined }
    ensures hidden_cursor { CursorIsHidden }
    ensures shown_cursor { CursorIsShown }
    ensures reset { AllIsReset }
{}

/// Marks are put on in the same rows whatever was marked before, so that none goes off. A row without a mark shows, at view 0, the same
/// cells as before.
pub fn what_marks_say()
    ensures added { MarksAreAdded }
    ensures stay { UnmarkedRowsStay }
{}
