//! The meaning of a cell, and the types of numbers.

ghost use Rattle.std.specs.Prelude.{◌≡◌, ◌↔◌};
ghost use Rattle.oim_cells.specs.Cells.{Meaning, Means, meaning_of, seen_meaning};

/// The meaning of a text as a cell, a parameter or a literal.
#[derive(Clone, Copy, Debug, PartialEq, Eq)]
pub enum CellMeaning<'a> {
    /// Nothing is reported: the empty text or `#none`.
    Absent,
    /// A nil value: `#nil`.
    Nil,
    /// The empty text as a value: `#empty`.
    Empty,
    /// A value: the text itself, or without its first `#` if it begins with two.
    Text(&'a str),
    /// A text that begins with a single `#` and is not a special value.
    Unknown,
}

/// The kinds of numerals.
#[derive(Clone, Copy, Debug, PartialEq, Eq)]
pub enum NumberKind {
    /// An optional sign and one or more digits.
    Integer,
    /// An optional sign and then digits with at most one point, at least one digit in all.
    Decimal,
    /// A decimal, and then optionally `e` or `E`, an optional sign and one or more digits.
    Double,
}

/// The accuracy of a number.
#[derive(Clone, Copy, Debug, PartialEq, Eq)]
pub enum Accuracy {
    /// Exact: `INF`.
    Infinite,
    /// Exact to this number of decimal places, which may be negative.
    Places(i32),
}

/// Returns the meaning of a text (xBRL-CSV 1.0, special values).
///
/// The empty text and `#none` are `Absent`, `#nil` is `Nil`, and `#empty` is `Empty`. A text that
/// begins with `##` is `Text` without its first `#`. Any other text that begins with `#` is
/// `Unknown`, and every other text is `Text` as it is.
pub fn meaning(text: &str) -> CellMeaning<'_>
    ensures means { (m : Meaning) → Means text.now m ↔ (m ≡ seen_meaning result) }
    ensures value { seen_meaning result ≡ meaning_of text.now }
{
    match text.strip_prefix('#') {
        None if text.is_empty() => CellMeaning::Absent,
        None => CellMeaning::Text(text),
        Some("none") => CellMeaning::Absent,
        Some("nil") => CellMeaning::Nil,
        Some("empty") => CellMeaning::Empty,
        Some(rest) if rest.starts_with('#') => CellMeaning::Text(rest),
        Some(_) => CellMeaning::Unknown,
    }
}
