//! Words of cases: a table that is one text is proved at once, whatever its length.
use roam_cells::{Fault, Reason};

/// The word for a refusal; no case has that for one of another kind.
pub fn word_of(fault: Fault) -> &'static str {
    match fault {
        Fault::BadSize => "bad size",
        Fault::Busy => "busy",
        Fault::LastPane => "last pane",
        Fault::NoPane => "no pane",
        Fault::PanesFull => "panes full",
        Fault::TooLong => "too long",
        Fault::TooSmall => "too small",
        Fault::BadDatagram(Reason::Kind) => "kind",
        Fault::OtherClient => "other client",
        Fault::Watching => "watching",
        _ => "another",
    }
}

/// Returns the text before the first mark and the text behind it; both may be empty.
pub fn halves<'a>(text: &'a str, mark: &str) -> (&'a str, &'a str) {
    text.split_once(mark).unwrap_or((text, ""))
}

/// Puts the numbers of a text into the places, and returns true if there are equally many.
pub fn reads_numbers(text: &str, places: &mut [u64]) -> bool {
    let mut words = text.split_whitespace();
    for place in places.iter_mut() {
        match words.next().map(|word| word.parse::<u64>()) {
            Some(Ok(number)) => *place = number,
            _ => return false,
        }
    }
    words.next().is_none()
}

/// A number of two bytes: that of a case, or the largest.
pub fn short(number: u64) -> u16 {
    number.min(0xFFFF) as u16
}
