//! Cells and lines that come in, go out and scroll: which function asks for which.
ghost use Rattle.std.specs.Prelude.{◌≡◌};
ghost use Rattle.roam_controls.specs.Edits.{edit_of, hash_edit};

use crate::parameters::first_count;

/// Cells or lines that come in, go out or scroll, so many times; `Align` fills the screen.
#[derive(Clone, Copy)]
pub enum Edit {
    InsertCells(u16),
    DeleteCells(u16),
    InsertLines(u16),
    DeleteLines(u16),
    ScrollUp(u16),
    ScrollDown(u16),
    Align,
}

/// The edit that a control sequence with this final byte asks for.
pub fn edit_of(params: &[u16], last: u8) -> Option<Edit>
    ensures edit { result ≡ edit_of params.now last }
{
    match last {
        // ICH
        b'@' => Some(Edit::InsertCells(first_count(params))),
        // IL
        b'L' => Some(Edit::InsertLines(first_count(params))),
        // DL
        b'M' => Some(Edit::DeleteLines(first_count(params))),
        // DCH
        b'P' => Some(Edit::DeleteCells(first_count(params))),
        // SU
        b'S' => Some(Edit::ScrollUp(first_count(params))),
        // SD
        b'T' => Some(Edit::ScrollDown(first_count(params))),
        _ => None,
    }
}

/// The edit that an escape sequence with this intermediate byte asks for.
pub fn hash_edit(intermediate: u8, last: u8) -> Option<Edit>
    ensures edit { result ≡ hash_edit intermediate last }
{
    match intermediate {
        b'#' => match last {
            // DECALN
            b'8' => Some(Edit::Align),
            _ => None,
        },
        _ => None,
    }
}
