//! A caller of `roam_charset`, as its README shows it (`tools/worked_callers`).

// README: begin
use roam_charset::{Charset, Element, Sets};

/// Returns the characters of `qqq` on a VT220 after ESC ( 0, with SS2 before the second letter: the first and the third as special
/// graphics.
pub fn drawn() -> [char; 3] {
    let mut sets = Sets::new();
    sets.designate(Element::G0, Charset::DecSpecialGraphics);
    let line = sets.map('q');
    sets.single_shift(Element::G2);
    let once = sets.map('q');
    [line, once, sets.map('q')]
}
// README: end
