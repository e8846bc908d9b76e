//! Laws of the definitions, each the contract of a function that does nothing when it runs.
ghost use Rattle.roam_prediction.specs.Laws.{EndedShowsNoMore, EpochsEnd, NothingShows, OverlayChangesPredicted, TimeEnds, TrustIsEarned, UnconfirmedIsHidden, UnechoedEnds};

/// An overlay differs from its screen in the row of the cursor only, at predicted places with a cell of one column, and has a cell of one
/// column there.
pub fn overlay_changes_predicted()
    ensures changes { OverlayChangesPredicted }
{}

/// Where an epoch isn't trusted, or nothing is predicted, the screen itself is shown.
pub fn nothing_shows()
    ensures shows { NothingShows }
{}

/// An epoch is trusted since a screen confirmed a prediction of it with credit, and by nothing else.
pub fn trust_is_earned()
    ensures earned { TrustIsEarned }
{}

/// Whatever is typed and seen in an epoch that isn't trusted, the screen itself is shown while no screen confirms a prediction with credit.
pub fn unconfirmed_is_hidden()
    ensures hidden { UnconfirmedIsHidden }
{}

/// After an act that isn't predicted nothing is, until another epoch begins: with no prediction, and hidden.
pub fn epochs_end()
    ensures ends { EpochsEnd }
{}

/// After the end of an epoch, whatever is typed and seen, nothing is shown beyond the earlier predictions, until a screen confirms with
/// credit a prediction of another epoch.
pub fn ended_shows_no_more()
    ensures ends { EndedShowsNoMore }
{}

/// If a screen doesn't confirm a prediction whose time is over, as for a key that isn't echoed, no prediction is left and the epoch isn't
/// trusted.
pub fn unechoed_ends()
    ensures ends { UnechoedEnds }
{}

/// After a screen is seen no prediction is left whose acknowledgement counted a tenth of a second before or earlier. An acknowledgement
/// counts at the latest 150 ms after its prediction was seen first.
pub fn time_ends()
    ensures ends { TimeEnds }
{}
