//! Laws of the definitions, each the contract of a function without a body.
ghost use Rattle.roam_rewrap.specs.Windows.{CursorStays};
ghost use Rattle.roam_rewrap.specs.Wrapping.{LinesStay, RowsFit};

/// Another width leaves each line as it is, and the cursor at its cell.
#[tactic(auto, using(crate::proofs::Joining::lines_stay, crate::proofs::Cursors::cursor_stays))]
pub fn lines_stay()
    ensures lines { LinesStay }
    ensures cursor { CursorStays }
{}

/// No row at another width is wider than its columns. A row whose line goes on is full: only a wide cell that doesn't fit leaves one column.
pub fn rows_fit()
    ensures fit { RowsFit }
{}
