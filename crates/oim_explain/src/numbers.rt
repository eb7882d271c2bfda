//! What is wrong with the cell of a number, beyond that it is not a numeral.

use crate::spreadsheet::{SPREADSHEET_ERROR, is_spreadsheet_error};
use oim_cells::{NumberKind, split_numeral, trimmed};

/// Characters that look like a minus sign.
const DASHES: &[char] = &[
    '\u{2212}', '\u{2010}', '\u{2011}', '\u{2012}', '\u{2013}', '\u{2014}',
];

/// Blanks, also those that do not break a line and narrow ones.
const BLANKS: &[char] = &[' ', '\t', '\u{a0}', '\u{2007}', '\u{2009}', '\u{202f}'];

/// Signs of currencies.
const CURRENCIES: &[char] = &['$', '\u{a2}', '\u{a3}', '\u{a5}', '\u{20ac}'];

/// Marks between the digits of thousands, other than a comma and a point.
const APOSTROPHES: &[char] = &['\'', '\u{2019}', '_'];

/// What is wrong with thousands.
const THOUSANDS: &str = "a numeral has no separators of thousands, and its decimal sign is a point";

/// Returns whether a text is a numeral of the widest type, with or without a suffix.
fn is_numeral(text: &str) -> bool {
    split_numeral(NumberKind::Double, text).is_some()
}

/// Returns whether a numeral is followed by the letter `d`, and by anything after that.
fn has_suffix(text: &str) -> bool {
    match text.split_once('d') {
        Some((numeral, _)) => is_numeral(numeral),
        None => false,
    }
}

/// Returns whether one of these characters is in a text.
fn has_any(text: &str, wanted: &[char]) -> bool {
    for c in text.chars() {
        if wanted.contains(&c) {
            return true;
        }
    }
    false
}

/// Returns whether a text has a digit, and three capital letters in a row, as the code of a
/// currency has them, but INF has not.
fn has_code(text: &str) -> bool {
    let mut has_digit = false;
    let mut capitals = 0u32;
    let mut most = 0u32;
    for c in text.chars() {
        has_digit = has_digit || c.is_ascii_digit();
        capitals = if c.is_ascii_uppercase() {
            capitals.saturating_add(1)
        } else {
            0
        };
        most = most.max(capitals);
    }
    has_digit && most > 2 && text.split_once("INF").is_none()
}

/// Returns whether a text is of digits.
fn are_digits(text: &str) -> bool {
    for c in text.chars() {
        if !c.is_ascii_digit() {
            return false;
        }
    }
    !text.is_empty()
}

/// Returns whether digits follow a comma, but not three as after thousands, and no point is before
/// it.
fn has_decimal_comma(text: &str) -> bool {
    match text.split_once(',') {
        Some((whole, rest)) => !has_any(whole, &['.']) && are_digits(rest) && rest.len() != 3,
        None => false,
    }
}

/// Returns whether a text has separators of thousands: a comma, an apostrophe, or two points.
fn has_thousands(text: &str) -> bool {
    let has_two_points = match text.split_once('.') {
        Some((_, rest)) => has_any(rest, &['.']),
        None => false,
    };
    has_two_points || has_any(text, &[',']) || has_any(text, APOSTROPHES)
}

/// Returns what is wrong with a numeral that is not one of its concept's type.
fn wrong_type(text: &str) -> &'static str {
    if has_any(text, &['e', 'E']) {
        return "only a double has an exponent: write the number out, as 120000 for 1.2E+5";
    }
    "the concept's type takes no such numeral: an integer has no point, only a double an exponent"
}

/// Returns what is wrong with a text that has marks which no numeral has.
fn wrong_marks(text: &str) -> Option<&'static str> {
    if has_any(text, DASHES) {
        return Some("the minus sign is the hyphen of the keyboard, not a dash or U+2212");
    }
    if has_any(text, &['(', ')']) {
        return Some("brackets make no number negative: write a hyphen before it");
    }
    if has_any(text, &['%', '\u{2030}']) {
        return Some("a numeral has no percent sign: 5% is written 0.05");
    }
    if has_any(text, CURRENCIES) || has_code(text) {
        return Some("a numeral has no currency: the unit is a dimension of the fact");
    }
    if has_any(text, BLANKS) {
        return Some("a numeral has no blanks, also none that do not break a line");
    }
    if has_decimal_comma(text) {
        return Some("the decimal sign is a point, not a comma: write 1.5 for 1,5");
    }
    if has_thousands(text) {
        return Some(THOUSANDS);
    }
    None
}

/// Returns what is wrong with the text of the cell of a number, or `None` if it is only known not
/// to be a numeral of its concept's type.
pub(crate) fn wrong_numeral(cell: &str) -> Option<&'static str> {
    let text = trimmed(cell);
    if is_numeral(text) {
        return Some(wrong_type(text));
    }
    if has_suffix(text) {
        return Some("behind the d of a numeral stands neither a whole number of 32 bits nor INF");
    }
    if matches!(text, "INF" | "+INF" | "-INF" | "NaN") {
        return Some("INF and NaN are values that cannot be carried over");
    }
    if is_spreadsheet_error(text) {
        return Some(SPREADSHEET_ERROR);
    }
    wrong_marks(text)
}
