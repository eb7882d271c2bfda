//! Numerals, and the accuracy that they state.

ghost use Rattle.std.specs.Prelude.{◌≡◌, ◌↔◌, ◌+◌, ◌<◌, IsTrue, Some, length, List, ℕ, Option, IfSome, IsSomeAnd};
ghost use Rattle.std.specs.Str.Parse.{without_leading_sign};
ghost use Rattle.std.specs.List.{All};
ghost use Rattle.std.specs.Int.{IsInRange};
ghost use Rattle.std.specs.Option.{option_map};
ghost use Rattle.oim_cells.specs.declared.cells.Accuracy.{Accuracy as Decimals};
ghost use Rattle.oim_cells.specs.Blanks.{trimmed};
ghost use Rattle.oim_cells.specs.Cells.{accuracy_of, numeral_of, seen_numeral};
ghost use Rattle.oim_cells.specs.Numeral.{IsDecimals, IsInteger, IsDecimal, IsDouble, IsNumeralOf, IsSplit, IsSplitOnce};

use crate::blanks;
use crate::cells::{Accuracy, NumberKind};

/// Returns the accuracy that a text of decimals states (Open Information Model 1.0, decimals).
///
/// `INF` gives `Infinite`. An optional `+` or `-` and one or more digits give that number of
/// `Places`, if it is from -2147483648 to 2147483647. Leading zeros do not count. Any other text
/// gives `None`.
pub fn decimals(text: &str) -> Option<Accuracy>
    ensures means { (a : Decimals) → (result ≡ Some a) ↔ IsDecimals text.now a }
    ensures value { result ≡ accuracy_of text.now }
{
    match text {
        "INF" => Some(Accuracy::Infinite),
        _ => match text.parse::<i32>() {
            Ok(places) => Some(Accuracy::Places(places)),
            Err(_) => None,
        },
    }
}

/// Returns the text without a leading `+` or `-`.
fn without_sign(text: &str) -> &str
    ensures { result.now ≡ without_leading_sign text.now }
{
    if let Some(rest) = text.strip_prefix('-') {
        return rest;
    }
    match text.strip_prefix('+') {
        Some(rest) => rest,
        None => text,
    }
}

/// Returns whether all characters are digits.
fn are_digits(text: &str) -> bool
    ensures { IsTrue result ↔ All (IsInRange 48 57) text.now }
{
    text.as_bytes().iter().all(|byte| byte.is_ascii_digit())
}

/// Returns whether the text is an optional sign and one or more digits.
fn is_integer(text: &str) -> bool
    ensures { IsTrue result ↔ IsInteger text.now }
{
    let digits = without_sign(text);
    !digits.is_empty() && are_digits(digits)
}

/// Returns whether the text is an optional sign and then digits with at most one point, at least
/// one digit in all.
fn is_decimal(text: &str) -> bool
    ensures { IsTrue result ↔ IsDecimal text.now }
{
    let digits = without_sign(text);
    match digits.split_once('.') {
        Some((before, after)) => is_pointed(before, after),
        None => !digits.is_empty() && are_digits(digits),
    }
}

/// Returns whether the texts before and after a point have only digits, and at least one in all.
fn is_pointed(before: &str, after: &str) -> bool
    ensures { IsTrue result ↔ ((0 < length before.now + length after.now)
        × All (IsInRange 48 57) before.now × All (IsInRange 48 57) after.now) }
{
    !(before.is_empty() && after.is_empty()) && are_digits(before) && are_digits(after)
}

/// Returns whether the text is a decimal, with or without a power of ten.
fn is_double(text: &str) -> bool
    ensures { IsTrue result ↔ IsDouble text.now }
{
    if let Some((front, back)) = text.split_once('e') {
        return has_power(front, back);
    }
    match text.split_once('E') {
        Some((front, back)) => has_power(front, back),
        None => is_decimal(text),
    }
}

/// Returns whether `front` is a decimal and `back`, the power of ten, is an integer.
fn has_power(front: &str, back: &str) -> bool
    ensures { IsTrue result ↔ (IsDecimal front.now × IsInteger back.now) }
{
    is_decimal(front) && is_integer(back)
}

/// Returns whether the text is a numeral of the kind.
fn is_numeral(kind: NumberKind, text: &str) -> bool
    ensures { IsTrue result ↔ IsNumeralOf kind text.now }
{
    match kind {
        NumberKind::Integer => is_integer(text),
        NumberKind::Decimal => is_decimal(text),
        NumberKind::Double => is_double(text),
    }
}

/// Splits a text without blanks at its ends into its numeral and its accuracy. Returns `None` if
/// the text does not write a numeral.
fn split(kind: NumberKind, text: &str) -> Option<(&str, Option<Accuracy>)>
    ensures numeral { IfSome result (λ r. IsSplit kind text.now r.0.now r.1) }
    ensures only { (v : List ℕ) (a : Option Decimals) → IsSplit kind text.now v a
        → IsSomeAnd result (λ r. (r.0.now ≡ v) × (r.1 ≡ a)) }
{
    let Some((numeral, suffix)) = text.split_once('d') else {
        return if is_numeral(kind, text) {
            Some((text, None))
        } else {
            None
        };
    };
    if !is_numeral(kind, numeral) {
        return None;
    }
    let accuracy = decimals(suffix)?;
    Some((numeral, Some(accuracy)))
}

/// Returns the numeral that a text writes, and the accuracy that it states (xBRL-CSV 1.0, decimals
/// suffix).
///
/// Spaces, tabs, carriage returns and line feeds at both ends are ignored. The rest is one of
/// these:
///
/// - A numeral of this kind, the letter `d` and a text of decimals, as in `1250.5d-2`. Returns the
///   numeral and what [`decimals`] returns for the text after the `d`.
/// - Only a numeral of this kind. Returns the numeral and `None`.
///
/// Any other text gives `None`. No text can be split in two ways.
pub fn split_numeral(kind: NumberKind, text: &str) -> Option<(&str, Option<Accuracy>)>
    ensures means { (v : List ℕ) (a : Option Decimals)
        → (option_map seen_numeral result ≡ Some (v, a)) ↔ IsSplit kind (trimmed text.now) v a }
    ensures only { IsSplitOnce kind (trimmed text.now) }
    ensures value { option_map seen_numeral result ≡ numeral_of kind text.now }
{
    split(kind, blanks::trimmed(text))
}
