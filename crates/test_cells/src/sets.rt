//! Graphic sets: the set tables, designations and shifts.
use roam_charset::{Charset, Element, Sets};
use std::test::*;

// The codes 5/15 to 7/14, and what DEC Special Graphics has there, in the order of the VT220's table.
const CODES: &str = "_`abcdefghijklmnopqrstuvwxyz{|}~";

const SPECIAL_GRAPHICS: &str = "\
\u{20}\u{25C6}\u{2592}\u{2409}\u{240C}\u{240D}\u{240A}\u{B0}\
\u{B1}\u{2424}\u{240B}\u{2518}\u{2510}\u{250C}\u{2514}\u{253C}\
\u{23BA}\u{23BB}\u{2500}\u{23BC}\u{23BD}\u{251C}\u{2524}\u{2534}\
\u{252C}\u{2502}\u{2264}\u{2265}\u{3C0}\u{2260}\u{A3}\u{B7}";

// Returns the first of these codes that a set does not map to its character of another text: the code and the character found. The texts
// are equally long.
fn first_other(set: Charset, codes: &str, wanted: &str) -> Option<(char, Option<char>)> {
    let mut wanted = wanted.chars();
    for code in codes.chars() {
        let found = set.map(code);
        if wanted.next() != Some(found) {
            return Some((code, Some(found)));
        }
    }
    match wanted.next() {
        Some(lacking) => Some((lacking, None)),
        None => None,
    }
}

// Returns the first of these characters that a set maps to another, and that one.
fn first_changed(set: Charset, chars: &str) -> Option<(char, Option<char>)> {
    first_other(set, chars, chars)
}

// Returns the first character up to 5/14 that special graphics map to another, and that one.
fn first_changed_below() -> Option<(char, char)> {
    for code in '!'..='^' {
        let found = Charset::DecSpecialGraphics.map(code);
        if found != code {
            return Some((code, found));
        }
    }
    None
}

// Returns the first character that the British set maps to another than expected, and that one.
fn first_other_british() -> Option<(char, char)> {
    for code in '!'..='~' {
        let shown = if code == '#' { '\u{A3}' } else { code };
        let found = Charset::UnitedKingdom.map(code);
        if found != shown {
            return Some((code, found));
        }
    }
    None
}

// Characters that no set touches.
const OTHERS: &str = "\0 \u{7F}\u{A0}\u{A3}\u{4E2D}\u{FFFD}\u{10FFFF}";

// What the sets map, step by step: the step, whether both shifts select ASCII, and the characters found and expected.
type Step = (&'static str, bool, bool, char, char);

fn locking_shifts() -> [Step; 5] {
    let mut sets = Sets::new();
    let fresh = ("fresh", sets.is_ascii(), true, sets.map('q'), 'q');
    sets.designate(Element::G1, Charset::DecSpecialGraphics);
    let designated = ("designated", true, true, sets.map('q'), 'q');
    sets.shift(Element::G1);
    let shifted = ("shifted", sets.is_ascii(), false, sets.map('q'), '\u{2500}');
    let stays = ("stays", false, false, sets.map('x'), '\u{2502}');
    sets.shift(Element::G0);
    [
        fresh,
        designated,
        shifted,
        stays,
        ("back", true, true, sets.map('q'), 'q'),
    ]
}

// The second of two single shifts counts.
fn single_shifts() -> [Step; 6] {
    let mut sets = Sets::new();
    sets.designate(Element::G2, Charset::UnitedKingdom);
    sets.designate(Element::G3, Charset::DecSpecialGraphics);
    sets.single_shift(Element::G2);
    let shifted = ("SS2", sets.is_ascii(), false, sets.map('#'), '\u{A3}');
    let spent = ("SS2 spent", true, true, sets.map('#'), '#');
    sets.single_shift(Element::G3);
    let other = ("SS3", true, true, sets.map('\u{4E2D}'), '\u{4E2D}');
    let by_any = ("SS3 spent by any", true, true, sets.map('q'), 'q');
    sets.single_shift(Element::G2);
    sets.single_shift(Element::G3);
    let second = ("SS2, SS3", true, true, sets.map('q'), '\u{2500}');
    let last = ("SS2, SS3 spent", sets.is_ascii(), true, 'q', 'q');
    [shifted, spent, other, by_any, second, last]
}

// Returns what an element with the British set maps `#` to, and whether it then goes back to ASCII.
fn designated(element: Element) -> (char, bool) {
    let mut sets = Sets::new();
    sets.designate(element, Charset::UnitedKingdom);
    sets.shift(element);
    let shown = sets.map('#');
    sets.designate(element, Charset::Ascii);
    let locked = Sets {
        locked: element,
        ..Sets::new()
    };
    (shown, sets == locked)
}

#[test]
fn sets_map_their_codes(rt: HostRuntime) {
    let special = Charset::DecSpecialGraphics;
    assert_eq!(rt; first_other(special, CODES, SPECIAL_GRAPHICS), None);
    assert_eq!(rt; first_changed_below(), None);
    assert_eq!(rt; first_changed(Charset::Ascii, CODES), None);
    assert_eq!(rt; first_changed(special, " \u{7F}"), None);
    assert_eq!(rt; first_other_british(), None);
    assert_eq!(rt; first_changed(Charset::Ascii, OTHERS), None, "ASCII");
    assert_eq!(rt;
        first_changed(Charset::UnitedKingdom, OTHERS),
        None,
        "United Kingdom"
    );
    assert_eq!(rt; first_changed(special, OTHERS), None, "special graphics");
}

// A locking shift stays; a single shift is spent by any character; each element has its own set.
#[test]
fn designations_and_shifts(rt: HostRuntime) {
    for (step, is_ascii, ascii, found, wanted) in locking_shifts() {
        assert_eq!(rt; (is_ascii, found), (ascii, wanted), "{step}");
    }
    for (step, is_ascii, ascii, found, wanted) in single_shifts() {
        assert_eq!(rt; (is_ascii, found), (ascii, wanted), "{step}");
    }
    let elements = [Element::G0, Element::G1, Element::G2, Element::G3];
    for (number, element) in elements.into_iter().enumerate() {
        assert_eq!(rt; designated(element), ('\u{A3}', true), "G{number}");
    }
}
