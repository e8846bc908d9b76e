//! Laws of the definitions, each the contract of a function that does nothing when it runs.
ghost use Rattle.roam_display_state.specs.Leading.{BeginsSaid, QuietOn, TellsOn};
ghost use Rattle.roam_display_state.specs.Masking.{MaskedCellsStay};

use roam_scroll_paint::laws::paint_leads;

/// At the beginning no records are sent, and the terminal's screen is unknown.
pub fn begins_said()
    ensures begins { BeginsSaid }
{}

/// The records lead a terminal to the screen to show, also after one more screen, whose size is sent first.
pub fn tells_on()
    ensures on { TellsOn }
{}

/// A terminal painted around masked cells keeps their content.
pub fn masked_cells_stay()
    ensures stay { MaskedCellsStay }
{
    paint_leads();
}

/// So it does once anything is said that paints nothing.
pub fn quiet_on()
    ensures on { QuietOn }
{}
