//! What a search finds, in terms of whole logical lines.
ghost use Rattle.roam_stored_rows.specs.Laws.{RowsAreInLines};

/// The text of a logical line from a row on, in which a search looks, is the end of the text of the whole line.
pub fn rows_are_in_lines()
    ensures lines { RowsAreInLines }
{}
