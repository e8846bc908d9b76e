//! Laws of the definitions, each the contract of a function without a body.
ghost use Rattle.roam_scrollback.specs.Leading.{RowTextLeads};
ghost use Rattle.roam_scrollback.specs.Rewraps.{RewrapFills, RewrapKeepsLines, RewrapPends, RewrapShows, TextLeads};
ghost use Rattle.roam_scrollback.specs.Sources.{RowsAreThoseThatLeft};

/// The lines that a source writes as it reads are the next part of all rows that left.
pub fn rows_are_those_that_left()
    ensures rows { RowsAreThoseThatLeft }
{}

/// The text of a row leads a terminal that shows all of a screen but that row to one that shows all of it.
pub fn row_text_leads()
    ensures leads { RowTextLeads }
{}

/// A source behind a rewrap shows its text at the new size; its modes, style and saved cursor are as before. No line is cut: the rows that
/// leave and those on the screen have the lines of the text. The text leads any terminal of the new size to the same screen, if its modes and
/// style are the same. A wrap is pending there exactly if `roam_rewrap` asks for one and lines wrap. Rows that come back from a line behind
/// the oldest kept row fill the new screen.
pub fn rewrap_shows()
    ensures shows { RewrapShows }
    ensures lines { RewrapKeepsLines }
    ensures leads { TextLeads }
    ensures pends { RewrapPends }
    ensures fills { RewrapFills }
{}
