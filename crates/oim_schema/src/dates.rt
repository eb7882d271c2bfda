//! Dates and times.

ghost use Rattle.std.specs.Prelude.{◌≡◌, ◌↔◌, ◌≤◌, ◌<◌, IsTrue, IfSome, MatchOption, length};
ghost use Rattle.std.specs.Int.{is_in_range};
ghost use Rattle.oim_period.specs.Calendar.{is_year as year_test, is_date as date_test, days_in_month as month_length};
ghost use Rattle.oim_schema.specs.DatesTimes.{IsDateForm, number as number_of, year_number as year_of, is_offset as offset_test};
ghost use Rattle.oim_schema.specs.DatesTimes.{is_zone as zone_test, is_fraction_zone as fraction_test, is_clock_zone as clock_test, is_time_zone as time_test};
ghost use Rattle.oim_schema.specs.DatesTimes.{is_date_time_zone, is_date_zone, is_year_zone, is_year_month_zone, is_month_zone, is_month_day_zone, is_day_zone};
ghost use Rattle.oim_schema.specs.DatesTimes.{is_date_form as form_test};

use crate::digits::{after_digits, is_digit};

/// The types of dates and times (XML Schema Part 2, second edition, sections 3.2.7 to 3.2.14).
#[derive(Clone, Copy, Debug, PartialEq, Eq)]
pub enum DateForm {
    /// `yyyy-mm-ddThh:mm:ss` (section 3.2.7).
    DateTime,
    /// `hh:mm:ss` (section 3.2.8).
    Time,
    /// `yyyy-mm-dd` (section 3.2.9).
    Date,
    /// `yyyy` (section 3.2.11).
    GYear,
    /// `yyyy-mm` (section 3.2.10).
    GYearMonth,
    /// `--mm` (section 3.2.14).
    GMonth,
    /// `--mm-dd` (section 3.2.12).
    GMonthDay,
    /// `---dd` (section 3.2.13).
    GDay,
}

/// Returns the number of two digits, or 10,000 for other bytes.
fn number(tens: u8, units: u8) -> u32
    ensures value { result ≡ number_of tens units }
    ensures bound { result ≤ 10_000 }
{
    if tens.is_ascii_digit() && units.is_ascii_digit() {
        10 * (tens - b'0') as u32 + (units - b'0') as u32
    } else {
        10_000
    }
}

/// Returns the number of four digits, or at least 10,000 for other bytes.
fn year(thousands: u8, hundreds: u8, tens: u8, units: u8) -> u32
    ensures { result ≡ year_of thousands hundreds tens units }
{
    100 * number(thousands, hundreds) + number(tens, units)
}

/// Returns whether a number is from 1 to `last`.
fn is_up_to(last: u32, number: u32) -> bool
    ensures { result ≡ is_in_range 1 last number }
{
    1 <= number && number <= last
}

/// Returns whether a year is from 1 to 9999.
fn is_year(year: u32) -> bool
    ensures { result ≡ year_test year }
{
    is_up_to(9999, year)
}

/// Returns the count of days in a month of a year.
fn days_in_month(year: u32, month: u32) -> u32
    ensures { result ≡ month_length year month }
{
    match month {
        2 if year % 4 == 0 && (year % 100 != 0 || year % 400 == 0) => 29,
        2 => 28,
        4 | 6 | 9 | 11 => 30,
        _ => 31,
    }
}

/// Returns whether the calendar has a day.
#[tactic(auto, unfolding(oim_period::specs::Calendar::is_date))]
fn is_date(year: u32, month: u32, day: u32) -> bool
    ensures { result ≡ date_test year month day }
{
    is_year(year) && is_up_to(12, month) && is_up_to(days_in_month(year, month), day)
}

/// Returns whether a time zone may have these hours and minutes.
fn is_offset(hour: u32, minute: u32) -> bool
    ensures { result ≡ offset_test hour minute }
{
    (hour <= 13 && minute <= 59) || (hour == 14 && minute == 0)
}

/// Returns whether a text is a time zone or empty.
fn is_zone(text: &[u8]) -> bool
    ensures { result ≡ zone_test text.now }
{
    match text {
        [] => true,
        [mark] => *mark == b'Z',
        [sign, a, b, mark, c, d] => (*sign == b'+' || *sign == b'-')
            && *mark == b':'
            && is_offset(number(*a, *b), number(*c, *d)),
        _ => false,
    }
}

/// Returns whether a text is a fraction of a second, with digits from `0` to `most`, and a time
/// zone. Each may be missing.
fn is_fraction_zone(most: u8, text: &[u8]) -> bool
    ensures { result ≡ fraction_test most text.now }
{
    match text {
        [b'.', digit, rest @ ..] => is_digit(most, *digit) && is_zone(after_digits(most, rest)),
        _ => is_zone(text),
    }
}

/// Returns whether a clock shows these numbers and the text after them is a fraction of a second
/// and a time zone.
fn is_clock_zone(hour: u32, minute: u32, second: u32, rest: &[u8]) -> bool
    ensures { result ≡ clock_test hour minute second rest.now }
{
    if hour == 24 {
        minute == 0 && second == 0 && is_fraction_zone(b'0', rest)
    } else {
        hour <= 23 && minute <= 59 && second <= 59 && is_fraction_zone(b'9', rest)
    }
}

fn is_time(text: &[u8]) -> bool
    ensures { result ≡ time_test text.now }
{
    match text {
        [a, b, b':', c, d, b':', e, f, rest @ ..] => {
            is_clock_zone(number(*a, *b), number(*c, *d), number(*e, *f), rest)
        }
        _ => false,
    }
}

fn is_date_time(text: &[u8]) -> bool
    ensures { result ≡ is_date_time_zone text.now }
{
    match text {
        [a, b, c, d, b'-', m, n, b'-', t, u, b'T', time @ ..] => {
            is_date(year(*a, *b, *c, *d), number(*m, *n), number(*t, *u)) && is_time(time)
        }
        _ => false,
    }
}

fn is_zoned_date(text: &[u8]) -> bool
    ensures { result ≡ is_date_zone text.now }
{
    match text {
        [a, b, c, d, b'-', m, n, b'-', t, u, zone @ ..] => {
            is_date(year(*a, *b, *c, *d), number(*m, *n), number(*t, *u)) && is_zone(zone)
        }
        _ => false,
    }
}

fn is_g_year(text: &[u8]) -> bool
    ensures { result ≡ is_year_zone text.now }
{
    match text {
        [a, b, c, d, zone @ ..] => is_year(year(*a, *b, *c, *d)) && is_zone(zone),
        _ => false,
    }
}

fn is_g_year_month(text: &[u8]) -> bool
    ensures { result ≡ is_year_month_zone text.now }
{
    match text {
        [a, b, c, d, b'-', m, n, zone @ ..] => {
            is_year(year(*a, *b, *c, *d)) && is_up_to(12, number(*m, *n)) && is_zone(zone)
        }
        _ => false,
    }
}

fn is_g_month(text: &[u8]) -> bool
    ensures { result ≡ is_month_zone text.now }
{
    match text {
        [b'-', b'-', m, n, zone @ ..] => is_up_to(12, number(*m, *n)) && is_zone(zone),
        _ => false,
    }
}

fn is_g_month_day(text: &[u8]) -> bool
    ensures { result ≡ is_month_day_zone text.now }
{
    match text {
        [b'-', b'-', m, n, b'-', t, u, zone @ ..] => {
            is_date(4, number(*m, *n), number(*t, *u)) && is_zone(zone)
        }
        _ => false,
    }
}

fn is_g_day(text: &[u8]) -> bool
    ensures { result ≡ is_day_zone text.now }
{
    match text {
        [b'-', b'-', b'-', t, u, zone @ ..] => { is_up_to(31, number(*t, *u)) && is_zone(zone) }
        _ => false,
    }
}

/// Returns whether a text has the form of a type.
#[tactic(auto, unfolding(crate::specs::DatesTimes::is_date_form))]
fn has_form(form: DateForm, text: &[u8]) -> bool
    ensures { result ≡ form_test form text.now }
{
    match form {
        DateForm::DateTime => is_date_time(text),
        DateForm::Time => is_time(text),
        DateForm::Date => is_zoned_date(text),
        DateForm::GYear => is_g_year(text),
        DateForm::GYearMonth => is_g_year_month(text),
        DateForm::GMonth => is_g_month(text),
        DateForm::GMonthDay => is_g_month_day(text),
        DateForm::GDay => is_g_day(text),
    }
}

/// Returns whether a text is a date or a time of a type (XML Schema Part 2, second edition,
/// sections 3.2.7 to 3.2.14).
///
/// Years are from 0001 to 9999, and the calendar has each day. Hours are from 00 to 23, or the time
/// is `24:00:00`. Seconds are from 00 to 59. A point and one or more digits may follow them, after
/// `24:00:00` only zeros. Each form may end with a time zone: `Z`, or `+` or `-` and `hh:mm` up to
/// 14:00.
pub fn is_date_form(form: DateForm, text: &str) -> bool
    ensures means { IsTrue result ↔ IsDateForm form text.now }
    ensures value { result ≡ form_test form text.now }
{
    has_form(form, text.as_bytes())
}
