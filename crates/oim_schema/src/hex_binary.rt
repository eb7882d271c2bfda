//! Binary texts of hexadecimal digits.

ghost use Rattle.std.specs.Prelude.{◌≡◌, ◌↔◌, ◌<◌, ◌==◌, IsTrue, MatchOption, length};
ghost use Rattle.oim_schema.specs.HexBinary.{IsHexBinary, is_hex_digit as hex_digit, are_octets as octets, is_hex_binary as hex_binary};

/// Returns whether a byte is a hexadecimal digit.
fn is_hex_digit(byte: u8) -> bool
    ensures { result ≡ hex_digit byte }
{
    matches!(byte, b'0'..=b'9' | b'A'..=b'F' | b'a'..=b'f')
}

/// Returns the text without its first two bytes if these are hexadecimal digits, else `None`.
fn after_octet(text: &[u8]) -> Option<&[u8]>
    ensures { MatchOption result (octets text.now ≡ (length text.now == 0))
        (λ r. (octets text.now ≡ octets r.now) × (length r.now < length text.now)) }
{
    match text {
        [high, low, others @ ..] if is_hex_digit(*high) && is_hex_digit(*low) => Some(others),
        _ => None,
    }
}

/// Returns whether a text is pairs of hexadecimal digits.
fn are_octets(text: &[u8]) -> bool
    ensures { result ≡ octets text.now }
{
    let mut rest = text;
    while let Some(others) = after_octet(rest) {
        rest = others;
    }
    rest.is_empty()
}

/// Returns whether a text is an even number of hexadecimal digits, or empty (XML Schema Part 2,
/// second edition, section 3.2.15).
pub fn is_hex_binary(text: &str) -> bool
    ensures means { IsTrue result ↔ IsHexBinary text.now }
    ensures value { result ≡ hex_binary text.now }
{
    are_octets(text.as_bytes())
}
