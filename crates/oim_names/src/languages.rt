//! Language tags.

ghost use Rattle.std.specs.Prelude.{◌≡◌, ◌↔◌, IfOk, IsSome};
ghost use Rattle.std.specs.Int.{is_in_range};
ghost use Rattle.std.specs.Option.{option_map};
ghost use Rattle.std.specs.String.{string_bytes};
ghost use Rattle.oim_names.specs.Language.{IsLanguage, is_letter as letter, is_letter_or_digit as letter_or_digit, is_part, is_language as language_text, language_of};

use std::alloc::{AllocError, Global};

/// Returns whether a byte is an ASCII letter.
fn is_letter(byte: u8) -> bool
    ensures { result ≡ letter byte }
{
    matches!(byte, b'A'..=b'Z' | b'a'..=b'z')
}

/// Returns whether a part of a tag may have this length.
fn is_part_length(length: usize) -> bool
    ensures { result ≡ is_in_range 1 8 length }
{
    matches!(length, 1..=8)
}

/// Returns whether a text is 1 to 8 letters.
fn is_first_part(text: &str) -> bool
    ensures { result ≡ is_part letter text.now }
{
    is_part_length(text.len()) && text.as_bytes().iter().all(|byte| is_letter(*byte))
}

/// Returns whether a text is 1 to 8 letters or digits.
fn is_other_part(text: &str) -> bool
    ensures { result ≡ is_part letter_or_digit text.now }
{
    is_part_length(text.len())
        && text
            .as_bytes()
            .iter()
            .all(|byte| is_letter(*byte) || matches!(*byte, b'0'..=b'9'))
}

/// Returns whether a text has the form of a language tag.
fn is_language(text: &str) -> bool
    ensures { result ≡ language_text text.now }
{
    match text.split_once('-') {
        Some((first, others)) => is_first_part(first)
            && others.split('-').all(|part| is_other_part(part)),
        None => is_first_part(text),
    }
}

/// Returns a language tag in lower case, as documents write it (BCP 47; xBRL-JSON 1.0, language).
///
/// A tag is 1 to 8 letters `A` to `Z` or `a` to `z`, and then any number of parts. Each part is a
/// `-` and 1 to 8 such letters or digits. Any other text gives `None`.
pub fn language(alloc: Global, text: &str) -> Result<Option<String>, AllocError>
    ensures grammar { IfOk result (λ o. IsSome o ↔ IsLanguage text.now) }
    ensures value { IfOk result (λ o. option_map string_bytes o ≡ language_of text.now) }
{
    if is_language(text) {
        Ok(Some(text.to_ascii_lowercase(alloc)?))
    } else {
        Ok(None)
    }
}
