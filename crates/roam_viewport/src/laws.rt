//! Laws of the definitions, each the contract of a function that does nothing when it runs.
ghost use Rattle.roam_viewport.specs.Parts.{FollowedHasCursor, FollowedIsNear, WholeIsScreen};

/// The part with the cursor has the cursor.
pub fn followed_has_cursor()
    ensures has { FollowedHasCursor }
{}

/// It moves as little as may be.
pub fn followed_is_near()
    ensures near { FollowedIsNear }
{}

/// The part that is the whole screen, with nothing masked, is the screen.
pub fn whole_is_screen()
    ensures whole { WholeIsScreen }
{}
