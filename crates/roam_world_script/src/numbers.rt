//! The ranges of the numbers in a line.
ghost use Rattle.std.specs.Prelude.{◌≡◌};
ghost use Rattle.roam_tokens.specs.Numbers.{number_in};

use roam_tokens::number;

/// The slot, 0 to 7, that a text writes.
pub(crate) fn slot(text: &[u8]) -> Option<u8>
    ensures slot { result ≡ number_in 7 text.now }
{
    Some(number(text, 7)? as u8)
}

/// The number of 8 bits that a text writes.
pub(crate) fn byte(text: &[u8]) -> Option<u8>
    ensures number { result ≡ number_in 255 text.now }
{
    Some(number(text, u8::MAX as u64)? as u8)
}

/// The number of 16 bits that a text writes.
pub(crate) fn short(text: &[u8]) -> Option<u16>
    ensures number { result ≡ number_in 65535 text.now }
{
    Some(number(text, u16::MAX as u64)? as u16)
}

/// The number of 64 bits that a text writes.
pub(crate) fn long(text: &[u8]) -> Option<u64>
    ensures number { result ≡ number_in 18446744073709551615 text.now }
{
    number(text, u64::MAX)
}
