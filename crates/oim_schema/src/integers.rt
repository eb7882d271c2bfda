//! Integers within bounds.

ghost use Rattle.std.specs.Prelude.{◌≡◌, ◌↔◌, ◌≤◌, ℕ, pos, neg_ℤ, IsTrue, IfSome};
ghost use Rattle.std.specs.Int.{IsInRange};
ghost use Rattle.std.specs.List.{All};
ghost use Rattle.std.specs.Str.Parse.{IsNumeral, digits_value};
ghost use Rattle.oim_schema.specs.Integers.{IsBoundedInteger, IsInBounds, is_bounded_integer as is_bounded_text, is_unsigned as has_no_sign};
ghost use Rattle.oim_schema.specs.state.Magnitudes.{IsWithin};

/// The integer types with bounds (XML Schema Part 2, second edition, sections 3.3.14 to 3.3.25).
#[derive(Clone, Copy, Debug, PartialEq, Eq)]
pub enum IntegerType {
    /// From 1 (section 3.3.25).
    PositiveInteger,
    /// From 0 (section 3.3.20).
    NonNegativeInteger,
    /// To -1 (section 3.3.15).
    NegativeInteger,
    /// To 0 (section 3.3.14).
    NonPositiveInteger,
    /// From -9223372036854775808 to 9223372036854775807 (section 3.3.16).
    Long,
    /// From -2147483648 to 2147483647 (section 3.3.17).
    Int,
    /// From -32768 to 32767 (section 3.3.18).
    Short,
    /// From -128 to 127 (section 3.3.19).
    Byte,
    /// From 0 to 18446744073709551615, without a sign (section 3.3.21).
    UnsignedLong,
    /// From 0 to 4294967295, without a sign (section 3.3.22).
    UnsignedInt,
    /// From 0 to 65535, without a sign (section 3.3.23).
    UnsignedShort,
    /// From 0 to 255, without a sign (section 3.3.24).
    UnsignedByte,
}

/// The magnitudes from `least` to `most`. No bounds of a type need more than 64 bits.
#[derive(Clone, Copy)]
struct Magnitudes {
    least: u64,
    most: Option<u64>,
}

/// Returns the magnitudes of a type's numbers with a minus sign.
fn below_zero(kind: IntegerType) -> Magnitudes
    ensures { (n : ℕ) → IsWithin result n ↔ IsInBounds kind (neg_ℤ (pos n)) }
{
    let (least, most) = match kind {
        IntegerType::PositiveInteger => (1, Some(0)),
        IntegerType::NegativeInteger => (1, None),
        IntegerType::NonPositiveInteger => (0, None),
        IntegerType::Long => (0, Some(9_223_372_036_854_775_808)),
        IntegerType::Int => (0, Some(2_147_483_648)),
        IntegerType::Short => (0, Some(32_768)),
        IntegerType::Byte => (0, Some(128)),
        IntegerType::NonNegativeInteger
        | IntegerType::UnsignedLong
        | IntegerType::UnsignedInt
        | IntegerType::UnsignedShort
        | IntegerType::UnsignedByte => (0, Some(0)),
    };
    Magnitudes { least, most }
}

/// Returns the magnitudes of a type's numbers without a minus sign.
fn from_zero(kind: IntegerType) -> Magnitudes
    ensures { (n : ℕ) → IsWithin result n ↔ IsInBounds kind (pos n) }
{
    let (least, most) = match kind {
        IntegerType::PositiveInteger => (1, None),
        IntegerType::NonNegativeInteger => (0, None),
        IntegerType::NegativeInteger => (1, Some(0)),
        IntegerType::NonPositiveInteger => (0, Some(0)),
        IntegerType::Long => (0, Some(9_223_372_036_854_775_807)),
        IntegerType::Int => (0, Some(2_147_483_647)),
        IntegerType::Short => (0, Some(32_767)),
        IntegerType::Byte => (0, Some(127)),
        IntegerType::UnsignedLong => (0, Some(18_446_744_073_709_551_615)),
        IntegerType::UnsignedInt => (0, Some(4_294_967_295)),
        IntegerType::UnsignedShort => (0, Some(65_535)),
        IntegerType::UnsignedByte => (0, Some(255)),
    };
    Magnitudes { least, most }
}

/// Returns whether the numerals of a type have no sign.
fn is_unsigned(kind: IntegerType) -> bool
    ensures { result ≡ has_no_sign kind }
{
    matches!(
        kind,
        IntegerType::UnsignedLong
            | IntegerType::UnsignedInt
            | IntegerType::UnsignedShort
            | IntegerType::UnsignedByte
    )
}

/// Returns whether all characters are digits.
fn are_digits(text: &str) -> bool
    ensures { IsTrue result ↔ All (IsInRange 48 57) text.now }
{
    text.as_bytes().iter().all(|byte| byte.is_ascii_digit())
}

/// Returns whether a text is one or more digits.
fn is_numeral(text: &str) -> bool
    ensures { IsTrue result ↔ IsNumeral 10 text.now }
{
    !text.is_empty() && are_digits(text)
}

/// Returns whether a text is one or more digits that write one of these magnitudes.
fn is_within(magnitudes: Magnitudes, digits: &str) -> bool
    ensures { IsTrue result ↔ (IsNumeral 10 digits.now × IsWithin magnitudes (digits_value 10 digits.now)) }
{
    if !is_numeral(digits) {
        return false;
    }
    match digits.parse::<u64>() {
        Ok(number) => magnitudes.least <= number && is_at_most(number, magnitudes.most),
        Err(_) => magnitudes.most.is_none(),
    }
}

/// Returns whether a number is not above a bound, if there is one.
fn is_at_most(number: u64, most: Option<u64>) -> bool
    ensures { IsTrue result ↔ IfSome most (λ bound. number ≤ bound) }
{
    match most {
        Some(most) => number <= most,
        None => true,
    }
}

/// Returns whether a text is the numeral of an integer within the bounds of a type.
fn is_bounded(kind: IntegerType, text: &str) -> bool
    ensures { IsTrue result ↔ IsBoundedInteger kind text.now }
{
    if let Some(digits) = text.strip_prefix('-') {
        return !is_unsigned(kind) && is_within(below_zero(kind), digits);
    }
    match text.strip_prefix('+') {
        Some(digits) => !is_unsigned(kind) && is_within(from_zero(kind), digits),
        None => is_within(from_zero(kind), text),
    }
}

/// Returns whether a text is the numeral of an integer within the bounds of a type (XML Schema Part
/// 2, second edition, sections 3.3.14 to 3.3.25).
///
/// The numeral is an optional `+` or `-` and one or more digits, without blanks. Leading zeros do
/// not count, and a numeral may have any length. The four unsigned types have no sign.
pub fn is_bounded_integer(kind: IntegerType, text: &str) -> bool
    ensures means { IsTrue result ↔ IsBoundedInteger kind text.now }
    ensures value { result ≡ is_bounded_text kind text.now }
{
    is_bounded(kind, text)
}
