//! Digits at the start of a text.

ghost use Rattle.std.specs.Prelude.{◌≡◌, ◌<◌, MatchOption, length};
ghost use Rattle.std.specs.Int.{is_in_range};
ghost use Rattle.oim_schema.specs.Digits.{after_digits as without_digits};

/// Returns whether a byte is a digit from `0` to `most`.
pub fn is_digit(most: u8, byte: u8) -> bool
    ensures { result ≡ is_in_range 48 most byte }
{
    b'0' <= byte && byte <= most
}

/// Returns the text without its first byte if that is a digit from `0` to `most`, else `None`.
fn after_digit(most: u8, text: &[u8]) -> Option<&[u8]>
    ensures { MatchOption result (without_digits most text.now ≡ text.now)
        (λ r. (without_digits most text.now ≡ without_digits most r.now) × (length r.now < length text.now)) }
{
    match text {
        [first, rest @ ..] if is_digit(most, *first) => Some(rest),
        _ => None,
    }
}

/// Returns the text without the digits from `0` to `most` at its start.
pub fn after_digits(most: u8, text: &[u8]) -> &[u8]
    ensures { result.now ≡ without_digits most text.now }
{
    let mut rest = text;
    while let Some(others) = after_digit(most, rest) {
        rest = others;
    }
    rest
}
