//! The parts of a period's text: dates, times of day and whole days.

ghost use Rattle.std.specs.Prelude.{◌≡◌, ℕ, ◌↔◌, ◌+◌, ◌*◌, ◌<◌, ◌≤◌, Some, IsSome, IfSome, length};
ghost use Rattle.oim_period.specs.Calendar.{IsYear, IsClock, day_limit};
ghost use Rattle.oim_period.specs.Table.{IsDay, IsTime, IsDays};
ghost use Rattle.oim_period.specs.Reads.{IsOnly};
ghost use Rattle.oim_period.specs.state.Reads.{AreDigits, IsRead};

use crate::calendar;
use crate::days::Days;
use crate::short_form::{self, two_digits};

/// Returns the year from 1 to 9999 that four digits write, or `None` for any other bytes.
fn year(thousands: u8, hundreds: u8, tens: u8, units: u8) -> Option<u16>
    ensures exact { (n : ℕ) → (result ≡ Some n) ↔ (IsYear n × AreDigits n thousands hundreds tens units) }
    ensures bound { IfSome result IsYear }
{
    let century = two_digits(thousands, hundreds)? as u16;
    let number = 100 * century + two_digits(tens, units)? as u16;
    if number == 0 {
        return None;
    }
    Some(number)
}

/// Returns the number of the day that a written date names, or `None` for any other text.
pub fn date(text: &[u8]) -> Option<u32>
    ensures exact { IsOnly (IsDay text.now) result }
    ensures bound { IfSome result (λ n. n < day_limit) }
{
    match text {
        [a, b, c, d, b'-', m, n, b'-', t, u] => {
            let year = year(*a, *b, *c, *d)?;
            let month = two_digits(*m, *n)?;
            let day = two_digits(*t, *u)?;
            calendar::day_number(year, month, day)
        }
        _ => None,
    }
}

/// Returns the second of the day that a written time names, or `None` for any other text. 86,400 is
/// the next midnight.
pub fn time(text: &[u8]) -> Option<u32>
    ensures exact { IsOnly (IsTime text.now) result }
    ensures bound { IfSome result (λ n. n ≤ 86_400) }
{
    match text {
        [a, b, b':', c, d, b':', e, f] => {
            let hour = two_digits(*a, *b)?;
            let minute = two_digits(*c, *d)?;
            let second = two_digits(*e, *f)?;
            second_of_day(hour, minute, second)
        }
        _ => None,
    }
}

/// Returns the second of the day, or `None` if a clock does not show these numbers. 24:00:00 is the
/// next midnight.
fn second_of_day(hour: u8, minute: u8, second: u8) -> Option<u32>
    ensures exists { IsSome result ↔ IsClock hour minute second }
    ensures value { IfSome result (λ n. n ≡ 3600 * hour + 60 * minute + second) }
    ensures bound { IfSome result (λ n. n ≤ 86_400) }
{
    if hour <= 23 && minute <= 59 && second <= 59 {
        Some(3600 * hour as u32 + 60 * minute as u32 + second as u32)
    } else if hour == 24 && minute == 0 && second == 0 {
        Some(86_400)
    } else {
        None
    }
}

/// Returns the days that a text names, or `None` if it names none.
pub fn days(text: &[u8]) -> Option<Days>
    ensures { IsRead (IsDays text.now) result }
{
    if text.len() == 22 {
        return range(text);
    }
    match text {
        [a, b, c, d, tail @ ..] => {
            let year = year(*a, *b, *c, *d)?;
            short_form::in_year(year, tail)
        }
        _ => None,
    }
}

/// Returns the days from one written date to another, or `None` if the second is before the first.
fn range(text: &[u8]) -> Option<Days>
    requires { length text.now ≡ 22 }
    ensures { IsRead (IsDays text.now) result }
{
    if text[10] != b'.' || text[11] != b'.' {
        return None;
    }
    let first = date(&text[..10])?;
    let last = date(&text[12..])?;
    if first <= last && last + 1 < calendar::DAY_LIMIT {
        Some(Days {
            first,
            after: last + 1,
        })
    } else {
        None
    }
}
