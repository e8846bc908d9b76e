//! Erasures: which function asks for which.
ghost use Rattle.std.specs.Prelude.{◌≡◌};
ghost use Rattle.roam_controls.specs.Erasures.{extent_of, erasure_of, private_erasure};

use crate::parameters::{first, first_count};
use roam_cells::Extent;

/// The places that become blank.
#[derive(Clone, Copy)]
pub enum Erasure {
    InPage(Extent),
    InLine(Extent),
    SelectivelyInPage(Extent),
    SelectivelyInLine(Extent),
    /// So many cells from the cursor on.
    Cells(u16),
}

fn extent_of(param: u16) -> Option<Extent>
    ensures extent { result ≡ extent_of param }
{
    match param {
        0 => Some(Extent::ToEnd),
        1 => Some(Extent::ToStart),
        2 => Some(Extent::All),
        _ => None,
    }
}

/// The erasure that a control sequence with this final byte asks for.
pub fn erasure_of(params: &[u16], last: u8) -> Option<Erasure>
    ensures erasure { result ≡ erasure_of params.now last }
{
    match last {
        // ED
        b'J' => match extent_of(first(params)) {
            Some(extent) => Some(Erasure::InPage(extent)),
            None => None,
        },
        // EL
        b'K' => match extent_of(first(params)) {
            Some(extent) => Some(Erasure::InLine(extent)),
            None => None,
        },
        // ECH
        b'X' => Some(Erasure::Cells(first_count(params))),
        _ => None,
    }
}

/// The erasure that a control sequence with the private marker `?` asks for.
pub fn private_erasure(params: &[u16], last: u8) -> Option<Erasure>
    ensures erasure { result ≡ private_erasure params.now last }
{
    match last {
        // DECSED
        b'J' => match extent_of(first(params)) {
            Some(extent) => Some(Erasure::SelectivelyInPage(extent)),
            None => None,
        },
        // DECSEL
        b'K' => match extent_of(first(params)) {
            Some(extent) => Some(Erasure::SelectivelyInLine(extent)),
            None => None,
        },
        _ => None,
    }
}
