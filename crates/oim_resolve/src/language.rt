//! The form of a language tag, which is tested without memory.

ghost use Rattle.std.specs.Prelude.{◌≡◌};
ghost use Rattle.std.specs.Int.{is_in_range};
ghost use Rattle.oim_names.specs.Language.{is_letter as letter, is_letter_or_digit as letter_or_digit, is_part, is_language as language_text};

/// Returns whether a byte is an ASCII letter.
fn is_letter(byte: u8) -> bool
    ensures { result ≡ letter byte }
{
    matches!(byte, b'A'..=b'Z' | b'a'..=b'z')
}

/// Returns whether a byte is an ASCII letter or digit.
fn is_letter_or_digit(byte: u8) -> bool
    ensures { result ≡ letter_or_digit byte }
{
    is_letter(byte) || matches!(byte, b'0'..=b'9')
}

/// Returns whether a part of a tag may have this length.
fn is_part_length(length: usize) -> bool
    ensures { result ≡ is_in_range 1 8 length }
{
    matches!(length, 1..=8)
}

/// Returns whether a text is 1 to 8 letters.
fn is_first_part(text: &str) -> bool
    ensures { result ≡ is_part letter text.now }
{
    is_part_length(text.len()) && text.as_bytes().iter().all(|byte| is_letter(*byte))
}

/// Returns whether a text is 1 to 8 letters or digits.
fn is_other_part(text: &str) -> bool
    ensures { result ≡ is_part letter_or_digit text.now }
{
    is_part_length(text.len()) && text.as_bytes().iter().all(|byte| is_letter_or_digit(*byte))
}

/// Returns whether a text has the form of a language tag (BCP 47; XML Schema Part 2, second
/// edition, section 3.3.3).
pub(crate) fn is_language(text: &str) -> bool
    ensures { result ≡ language_text text.now }
{
    match text.split_once('-') {
        Some((first, others)) => is_first_part(first)
            && others.split('-').all(|part| is_other_part(part)),
        None => is_first_part(text),
    }
}
