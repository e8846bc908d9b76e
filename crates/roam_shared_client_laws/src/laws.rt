//! Laws of the definitions, each the contract of a function that does nothing when it runs.
ghost use Rattle.roam_shared_client_laws.specs.Lines.{LinesAreTyped};
ghost use Rattle.roam_shared_client_laws.specs.Paintings.{PaintingsLead};

use roam_outer_terminal::Duplex;

/// The acts typed at an instance in a run are the lines of its terminals: those of each in order, each once, those of one between those of
/// another.
pub fn lines_are_typed<S: Duplex>()
    ensures typed { LinesAreTyped S.remaining S.contents }
{}

/// The bytes of a terminal since it was last painted anew, written and queued, lead any terminal to its noted screen with its overlay. The
/// terminal has at least the size of each screen that the instance showed.
pub fn paintings_lead<S: Duplex>()
    ensures leads { PaintingsLead S.remaining S.contents }
{}
