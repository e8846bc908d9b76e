//! How tables are read: numbers with spaces between them.

/// Returns a number; 0, which is no size, if the text isn't one.
pub fn number(text: &str) -> u16 {
    text.parse::<u16>().unwrap_or(0)
}

/// Returns true if a text is this number.
pub fn is_number(number: u16, text: &str) -> bool {
    text.parse::<u16>() == Ok(number)
}

/// Returns true if a text has these numbers with a space between them.
pub fn are_numbers(numbers: &[u16], text: &str) -> bool {
    let mut words = text.split(' ');
    for number in numbers {
        if !is_number(*number, words.next().unwrap_or("")) {
            return false;
        }
    }
    words.next().is_none()
}
