//! Durations.

ghost use Rattle.std.specs.Prelude.{◌≡◌, ◌↔◌, IsTrue, codes};
ghost use Rattle.std.specs.Str.{bytes_eq};
ghost use Rattle.oim_schema.specs.Durations.{IsDuration, after_letter as letter_rest, after_part as part_rest, ends_seconds as seconds_end, is_seconds as seconds_test};
ghost use Rattle.oim_schema.specs.Durations.{is_clock_part as clock_test, ends_parts as parts_end, are_parts as parts_test, is_unsigned_duration, is_signed_duration, is_duration as duration_test};

use crate::digits::{after_digits, is_digit};

/// Returns the text after a letter that begins `rest`, or `text` if `rest` does not begin with it.
fn after_letter<'a>(letter: u8, text: &'a [u8], rest: &'a [u8]) -> &'a [u8]
    ensures { result.now ≡ letter_rest letter text.now rest.now }
{
    match rest {
        [first, others @ ..] if *first == letter => others,
        _ => text,
    }
}

/// Returns the text without its first part if that is one or more digits and the letter.
fn after_part(letter: u8, text: &[u8]) -> &[u8]
    ensures { result.now ≡ part_rest letter text.now }
{
    match text {
        [first, others @ ..] if is_digit(b'9', *first) => {
            after_letter(letter, text, after_digits(b'9', others))
        }
        _ => text,
    }
}

/// Returns whether a text ends seconds after their first digits: `S`, or a point, one or more
/// digits and `S`.
fn ends_seconds(text: &[u8]) -> bool
    ensures { result ≡ seconds_end text.now }
{
    match text {
        [letter] => *letter == b'S',
        [mark, digit, rest @ ..] => *mark == b'.'
            && is_digit(b'9', *digit)
            && is_letter_s(after_digits(b'9', rest)),
        [] => false,
    }
}

/// Returns whether a text is `S`.
fn is_letter_s(text: &[u8]) -> bool
    ensures { result ≡ bytes_eq text.now (codes "S") }
{
    matches!(text, [b'S'])
}

/// Returns whether a text is seconds or empty.
fn is_seconds(text: &[u8]) -> bool
    ensures { result ≡ seconds_test text.now }
{
    match text {
        [] => true,
        [first, others @ ..] => is_digit(b'9', *first) && ends_seconds(after_digits(b'9', others)),
    }
}

/// Returns whether a text is hours, minutes and seconds, at least one of them.
fn is_clock_part(text: &[u8]) -> bool
    ensures { result ≡ clock_test text.now }
{
    !text.is_empty() && is_seconds(after_part(b'M', after_part(b'H', text)))
}

/// Returns whether `rest` ends a text of years, months and days: it is empty, and the text is not,
/// or it is `T` and a part of a clock.
fn ends_parts(text: &[u8], rest: &[u8]) -> bool
    ensures { result ≡ parts_end text.now rest.now }
{
    match rest {
        [] => !text.is_empty(),
        [first, others @ ..] => *first == b'T' && is_clock_part(others),
    }
}

/// Returns whether a text is the parts of a duration, at least one of them.
fn are_parts(text: &[u8]) -> bool
    ensures { result ≡ parts_test text.now }
{
    ends_parts(
        text,
        after_part(b'D', after_part(b'M', after_part(b'Y', text))),
    )
}

/// Returns whether a text is a duration without a sign.
fn is_unsigned(text: &[u8]) -> bool
    ensures { result ≡ is_unsigned_duration text.now }
{
    match text {
        [first, others @ ..] => *first == b'P' && are_parts(others),
        [] => false,
    }
}

fn is_signed(text: &[u8]) -> bool
    ensures { result ≡ is_signed_duration text.now }
{
    match text {
        [b'-', others @ ..] => is_unsigned(others),
        _ => is_unsigned(text),
    }
}

/// Returns whether a text is a duration (XML Schema Part 2, second edition, section 3.2.6).
///
/// A duration is an optional `-`, `P`, and then numbers of years (`Y`), months (`M`) and days
/// (`D`). `T` and numbers of hours (`H`), minutes (`M`) and seconds (`S`) may follow. Each number
/// may be missing, but there is at least one, and after `T` one too. Seconds may have a point and
/// one or more digits after it.
pub fn is_duration(text: &str) -> bool
    ensures means { IsTrue result ↔ IsDuration text.now }
    ensures value { result ≡ duration_test text.now }
{
    is_signed(text.as_bytes())
}
