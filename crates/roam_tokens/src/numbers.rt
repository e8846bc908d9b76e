//! Numbers in decimals, and ids in hexadecimal digits.
ghost use Rattle.std.specs.Prelude.{◌≡◌, ◌≤◌, IfSome};
ghost use Rattle.roam_tokens.specs.Numbers.{id_in, number_in};

use itoa::Buffer;

/// How many digits an id may have.
const DIGITS: usize = 16;

/// Returns the number that a text spells in decimals, up to the greatest one allowed. A number has one spelling: a plus or a leading zero
/// makes it none.
pub fn number(text: &[u8], most: u64) -> Option<u64>
    ensures number { result ≡ number_in most text.now }
    ensures most { IfSome result (λ n. n ≤ most) }
{
    let text = str::from_utf8(text).ok()?;
    let number = text.parse::<u64>().ok()?;
    if number <= most && Buffer::new().format(number) == text {
        Some(number)
    } else {
        None
    }
}

/// Returns the id that one to sixteen hexadecimal digits of either case spell, and `None` for any other text.
pub fn id(text: &[u8]) -> Option<u64>
    ensures id { result ≡ id_in text.now }
{
    if text.is_empty() || text.len() > DIGITS {
        return None;
    }
    let mut number = 0u64;
    for digit in text {
        number = number * 16 + (*digit as char).to_digit(16)? as u64;
    }
    Some(number)
}
