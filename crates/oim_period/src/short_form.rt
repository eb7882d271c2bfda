//! The short forms of periods: the text after the year.

ghost use Rattle.std.specs.Prelude.{◌≡◌, ℕ, ◌↔◌, ◌+◌, ◌/◌, ◌%◌, ◌<◌, ◌≤◌, [], ◌∷◌, ◌++◌, codes, Some, IsSome, IfSome};
ghost use Rattle.std.specs.Int.{IsInRange};
ghost use Rattle.oim_period.specs.Calendar.{IsDate, IsYear, IsWeek, day_number as number_of_day, week_start as monday_of_week, day_limit, month_start as first_of_month};
ghost use Rattle.oim_period.specs.Digits.{digit};
ghost use Rattle.oim_period.specs.Table.{InYear};
ghost use Rattle.oim_period.specs.state.Reads.{IsRead};

use crate::calendar;
use crate::days::Days;

/// Returns the number from 1 to `most` that a digit writes, or `None` for any other byte.
fn one_digit(byte: u8, most: u8) -> Option<u8>
    requires { most ≤ 9 }
    ensures exact { (n : ℕ) → (result ≡ Some n) ↔ (IsInRange 1 most n × (byte ≡ digit n)) }
    ensures bound { IfSome result (IsInRange 1 most) }
{
    match byte {
        b'1'..=b'9' if byte - b'0' <= most => Some(byte - b'0'),
        _ => None,
    }
}

/// Returns the number from 0 to 99 that two digits write, or `None` for any other bytes.
pub fn two_digits(tens: u8, units: u8) -> Option<u8>
    ensures exact { (n : ℕ) → (result ≡ Some n) ↔ ((n ≤ 99) × (tens ≡ digit (n / 10)) × (units ≡ digit (n % 10))) }
    ensures bound { IfSome result (λ n. n ≤ 99) }
{
    if tens.is_ascii_digit() && units.is_ascii_digit() {
        Some((tens - b'0') * 10 + (units - b'0'))
    } else {
        None
    }
}

/// Returns the days of the months from `from` to `to`, without `to`. Month 13 is the next January.
///
/// Returns `None` if the day after them is not in the years 1 to 9999.
fn months(year: u16, from: u8, to: u8) -> Option<Days>
    requires year_in { IsYear year }
    requires from_in { 1 ≤ from }
    requires ordered { from < to }
    requires to_in { to ≤ 13 }
    ensures exists { IsSome result ↔ (first_of_month year to < day_limit) }
    ensures value { IfSome result (λ d. (d.first ≡ first_of_month year from) × (d.after ≡ first_of_month year to)) }
{
    let first = calendar::month_start(year, from)?;
    let after = calendar::month_start(year, to)?;
    Some(Days { first, after })
}

/// Returns the days of the month that two digits name.
fn month(year: u16, tens: u8, units: u8) -> Option<Days>
    requires { IsYear year }
    ensures { IsRead (InYear year (codes "-" ++ tens ∷ units ∷ [])) result }
{
    let month = two_digits(tens, units)?;
    if month < 1 || month > 12 {
        return None;
    }
    months(year, month, month + 1)
}

/// Returns the days of the quarter that a digit names.
fn quarter(year: u16, byte: u8) -> Option<Days>
    requires { IsYear year }
    ensures { IsRead (InYear year (codes "Q" ++ byte ∷ [])) result }
{
    let quarter = one_digit(byte, 4)?;
    months(year, 3 * quarter - 2, 3 * quarter + 1)
}

/// Returns the days of the half year that a digit names.
fn half(year: u16, byte: u8) -> Option<Days>
    requires { IsYear year }
    ensures { IsRead (InYear year (codes "H" ++ byte ∷ [])) result }
{
    let half = one_digit(byte, 2)?;
    months(year, 6 * half - 5, 6 * half + 1)
}

/// Returns the days of a week of the ISO year.
fn week(year: u16, week: u8) -> Option<Days>
    requires year_in { IsYear year }
    requires week_in { week ≤ 99 }
    ensures exists { IsSome result ↔ (IsWeek year week × (monday_of_week year week + 7 < day_limit)) }
    ensures value { IfSome result (λ d. (d.first ≡ monday_of_week year week) × (d.after ≡ monday_of_week year week + 7)) }
{
    let first = calendar::week_start(year, week)?;
    days_from(first, first + 7)
}

/// Returns one day of the calendar.
fn day(year: u16, month: u8, day: u8) -> Option<Days>
    requires year_in { IsYear year }
    requires month_in { month ≤ 99 }
    requires day_in { day ≤ 99 }
    ensures exists { IsSome result ↔ (IsDate year month day × (number_of_day year month day + 1 < day_limit)) }
    ensures value { IfSome result (λ d. (d.first ≡ number_of_day year month day) × (d.after ≡ number_of_day year month day + 1)) }
{
    let first = calendar::day_number(year, month, day)?;
    days_from(first, first + 1)
}

/// Returns the days from `first` to `after`, without `after`, or `None` if `after` is not in the
/// years 1 to 9999.
fn days_from(first: u32, after: u32) -> Option<Days>
    requires { first < after }
    ensures exists { IsSome result ↔ (after < day_limit) }
    ensures value { IfSome result (λ d. (d.first ≡ first) × (d.after ≡ after)) }
{
    if after < calendar::DAY_LIMIT {
        Some(Days { first, after })
    } else {
        None
    }
}

/// Returns the days of the week that a digit names.
fn week_of_one_digit(year: u16, byte: u8) -> Option<Days>
    requires { IsYear year }
    ensures { IsRead (InYear year (codes "W" ++ byte ∷ [])) result }
{
    let number = one_digit(byte, 9)?;
    week(year, number)
}

/// Returns the days of the week that two digits name.
fn week_of_two_digits(year: u16, tens: u8, units: u8) -> Option<Days>
    requires { IsYear year }
    ensures { IsRead (InYear year (codes "W" ++ tens ∷ units ∷ [])) result }
{
    let number = two_digits(tens, units)?;
    week(year, number)
}

/// Returns the day that two digits of a month and two digits of a day name.
fn month_and_day(
    year: u16,
    month_tens: u8,
    month_units: u8,
    day_tens: u8,
    day_units: u8,
) -> Option<Days>
    requires { IsYear year }
    ensures { IsRead (InYear year (45 ∷ month_tens ∷ month_units ∷ 45 ∷ day_tens ∷ day_units ∷ [])) result }
{
    let month = two_digits(month_tens, month_units)?;
    let number = two_digits(day_tens, day_units)?;
    day(year, month, number)
}

/// Returns the days that a year and the text after it name, or `None` if they name none.
pub fn in_year(year: u16, tail: &[u8]) -> Option<Days>
    requires { IsYear year }
    ensures { IsRead (InYear year tail.now) result }
{
    match tail {
        [] => months(year, 1, 13),
        [b'-', tens, units] => month(year, *tens, *units),
        [b'Q', byte] => quarter(year, *byte),
        [b'H', byte] => half(year, *byte),
        [b'W', byte] => week_of_one_digit(year, *byte),
        [b'W', tens, units] => week_of_two_digits(year, *tens, *units),
        [b'-', month_tens, month_units, b'-', day_tens, day_units] => {
            month_and_day(year, *month_tens, *month_units, *day_tens, *day_units)
        }
        _ => None,
    }
}
