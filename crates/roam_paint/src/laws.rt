//! Laws of the definitions, each the contract of a function without a body.
ghost use Rattle.roam_paint.specs.Runs.{CursorIsPlacedByRuns};
ghost use Rattle.roam_paint.specs.Ground.{PaintedLeadsOver, OpenedBeginsBlank, ReaderRests};

/// The text between two screens leads a ground terminal that shows the one to the other.
pub fn painted_leads_over()
    ensures leads { PaintedLeadsOver }
{}

/// The text that opens makes of any terminal a ground terminal that shows a blank screen, also within a sequence, a string or a character.
pub fn opened_begins_blank()
    ensures begins { OpenedBeginsBlank }
{}

/// A reader that keeps no bytes and is outside any sequence has read a log that ends between characters and between sequences.
pub fn reader_rests()
    ensures rests { ReaderRests }
{}

/// The cursor is placed exactly at the beginnings of the maximal runs of differing places, widened to whole wide cells.
pub fn cursor_is_placed_by_runs()
    ensures placed { CursorIsPlacedByRuns }
{}
