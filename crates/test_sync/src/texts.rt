//! Words of cases: a table that is one text is proved at once, whatever its length.
use roam_cells::{Fault, Reason};
use std::alloc::Global;

// A number; the largest that goes over the network is below 2^62.
fn number(word: &str) -> Option<u64> {
    match word {
        "2^62" => Some(1 << 62),
        "2^62-1" => Some((1 << 62) - 1),
        _ => word.parse::<u64>().ok(),
    }
}

/// Puts the numbers of a text into the places, and returns true if there are equally many.
pub fn reads_numbers(text: &str, places: &mut [u64]) -> bool {
    let mut words = text.split_whitespace();
    for place in places.iter_mut() {
        match words.next().and_then(|word| number(word)) {
            Some(number) => *place = number,
            None => return false,
        }
    }
    words.next().is_none()
}

/// Returns the text before the first mark and the text behind it; both may be empty.
pub fn halves<'a>(text: &'a str, mark: &str) -> (&'a str, &'a str) {
    text.split_once(mark).unwrap_or((text, ""))
}

/// A number of two bytes: that of a table, or the largest.
pub fn short(number: u64) -> u16 {
    number.min(0xFFFF) as u16
}

/// The word for a refusal; no table has that for one of another kind.
pub fn word_of(fault: Fault) -> &'static str {
    match fault {
        Fault::BadDatagram(Reason::Short) => "short",
        Fault::BadDatagram(Reason::Length) => "length",
        Fault::BadDatagram(Reason::Magic) => "magic",
        Fault::BadDatagram(Reason::Version) => "version",
        Fault::BadDatagram(Reason::Kind) => "kind",
        Fault::BadDatagram(Reason::Fragment) => "fragment",
        Fault::BadChange => "bad change",
        Fault::SendFull => "full",
        Fault::TooLong => "too long",
        Fault::OtherClient => "other client",
        Fault::ClientsFull => "clients full",
        Fault::Watching => "watching",
        Fault::Busy => "busy",
        _ => "another",
    }
}

fn bytes_once(alloc: Global, text: &str) -> Option<Vec<u8>> {
    let mut digits = String::new(alloc);
    for c in text.chars() {
        if c != ' ' {
            digits.push(c).ok()?;
        }
    }
    hex::decode(alloc, digits.as_str()).ok()
}

/// The bytes of hexadecimal digits with spaces between; no byte for `-`. It is tried once more, as memory may be refused.
pub fn bytes_of(alloc: Global, text: &str) -> Option<Vec<u8>> {
    if text == "-" {
        return Some(Vec::new(alloc));
    }
    match bytes_once(alloc, text) {
        None => bytes_once(alloc, text),
        bytes => bytes,
    }
}
