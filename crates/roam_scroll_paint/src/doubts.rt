//! Cells whose width terminals disagree on.
ghost use Rattle.std.specs.Prelude.{◌≡◌};
ghost use Rattle.roam_scroll_paint.specs.Doubts.{is_modifier, is_regional, is_doubtful};

use roam_cells::Cell;

// Returns true for an emoji modifier (UTS #51, ED-11).
fn is_modifier(point: char) -> bool
    ensures is { result ≡ is_modifier point }
{
    '\u{1F3FB}' <= point && point <= '\u{1F3FF}'
}

// Returns true for a regional indicator (UAX #29, Regional_Indicator).
fn is_regional(point: char) -> bool
    ensures is { result ≡ is_regional point }
{
    '\u{1F1E6}' <= point && point <= '\u{1F1FF}'
}

/// Returns true if terminals disagree on the width of a cell: it has more than one code point, an emoji modifier or a regional indicator.
#[tactic(auto, unfolding(crate::specs::Doubts::is_doubtful_text))]
pub fn is_doubtful(cell: &Cell) -> bool
    ensures doubtful { result ≡ is_doubtful cell.now }
{
    let points = cell.chars();
    let all = points.as_slice();
    if all.is_empty() {
        return false;
    }
    1 < all.len() || is_modifier(all[0]) || is_regional(all[0])
}
