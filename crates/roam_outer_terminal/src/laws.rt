//! Laws of the definitions, each the contract of a function that does nothing when it runs.
ghost use Rattle.roam_outer_terminal.specs.Hearing.{HeardStands};
ghost use Rattle.roam_outer_terminal.specs.Overlaid.{TakenBackIsNoted};

use crate::duplex::Duplex;

/// Of a terminal that was heard the next acts of its lines were typed, each once and in order, whatever its stream is.
pub fn heard_lines_stand<S: Duplex>()
    ensures stands { HeardStands S.remaining S.contents }
{}

/// The text that takes an overlay back leads a ground terminal from the overlay to the noted screen.
pub fn taken_back_is_noted()
    ensures noted { TakenBackIsNoted }
{}
