//! Laws of sessions.
ghost use Rattle.std.specs.Prelude.{◌≡◌, List, [], ◌∷◌, ◌++◌};
ghost use Rattle.roam_screens.specs.Screenshot.{IsScreenshot};
ghost use Rattle.roam_layout.specs.Layouts.{IsSessionSize};
ghost use Rattle.roam_session.specs.Faces.{face};
ghost use Rattle.roam_session.specs.Generations.{GenerationsAreCounted, GenerationsLast};
ghost use Rattle.roam_session.specs.Marks.{MarksAreAdded};
ghost use Rattle.roam_session.specs.Sessions.{SessionSize, Entry, session, after_entry};

/// A log makes of a session what its entries make one after another.
pub fn entries_come_one_after_another()
    ensures step { (size : SessionSize) (log : List Entry) (entry : Entry)
        → session size (log ++ entry ∷ []) ≡ after_entry (session size log) entry }
{}

/// The face of a session is a screen, whatever size of a session it begins with and whatever entries come.
pub fn faces_are_screens()
    ensures screen { (size : SessionSize) (log : List Entry) → IsSessionSize size.rows size.cols → IsScreenshot (face size log) }
{}

/// Marks are put on in the same rows whatever was marked before, so that none goes off.
pub fn marks_are_added()
    ensures added { MarksAreAdded }
{}

/// A pane keeps its generation while it is there, and each pane that begins adds one to the count of its number.
pub fn generations_tell_panes_apart()
    ensures counted { GenerationsAreCounted }
    ensures last { GenerationsLast }
{}
