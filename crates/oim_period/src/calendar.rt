//! Days of the calendar, counted from 1 January of the year 1.

ghost use Rattle.std.specs.Prelude.{◌≡◌, ◌↔◌, ◌<◌, ◌≤◌, IsSome, IfSome};
ghost use Rattle.std.specs.Int.{IsInRange};
ghost use Rattle.oim_period.specs.Calendar.{IsDate, IsYear, IsWeek, day_number as number_of_day, week_start as monday_of_week, day_limit, month_start as first_of_month};
ghost use Rattle.oim_period.specs.state.Reads.{IsDateOf};

use jiff::civil::{Date, ISOWeekDate, Weekday};

/// The days from -9999-01-01, where `jiff` begins to count, to 0001-01-01.
const BEFORE_YEAR_ONE: u32 = 3_652_425;

/// The count of days in the years 1 to 9999.
pub const DAY_LIMIT: u32 = 3_652_059;

/// Returns the number of a date's day, or `None` if the calendar does not have the date.
pub fn day_number(year: u16, month: u8, day: u8) -> Option<u32>
    requires year_in { IsYear year }
    requires month_in { month ≤ 99 }
    requires day_in { day ≤ 99 }
    ensures exists { IsSome result ↔ IsDate year month day }
    ensures value { IfSome result (λ n. n ≡ number_of_day year month day) }
    ensures bound { IfSome result (λ n. n < day_limit) }
{
    let Ok(date) = Date::new(year as i16, month as i8, day as i8) else {
        return None;
    };
    Some(date.to_plain().days_since_min() - BEFORE_YEAR_ONE)
}

/// Returns the number of a month's first day. Month 13 is the next January.
///
/// Returns `None` if that day is not in the years 1 to 9999.
pub fn month_start(year: u16, month: u8) -> Option<u32>
    requires year_in { IsYear year }
    requires month_in { IsInRange 1 13 month }
    ensures exists { IsSome result ↔ (first_of_month year month < day_limit) }
    ensures value { IfSome result (λ n. n ≡ first_of_month year month) }
{
    if month <= 12 {
        day_number(year, month, 1)
    } else if year < 9999 {
        day_number(year + 1, 1, 1)
    } else {
        None
    }
}

/// Returns the number of the Monday of a week of the ISO year, or `None` if the year does not have
/// the week.
pub fn week_start(year: u16, week: u8) -> Option<u32>
    requires year_in { IsYear year }
    requires week_in { week ≤ 99 }
    ensures exists { IsSome result ↔ IsWeek year week }
    ensures value { IfSome result (λ n. n ≡ monday_of_week year week) }
    ensures bound { IfSome result (λ n. n < day_limit) }
{
    let Ok(monday) = ISOWeekDate::new(year as i16, week as i8, Weekday::Monday) else {
        return None;
    };
    let date = Date::from_iso_week_date(monday);
    Some(date.to_plain().days_since_min() - BEFORE_YEAR_ONE)
}

/// Returns the date of a day.
pub fn date_of(day: u32) -> Date
    requires { day < day_limit }
    ensures { IsDateOf day result.year result.month result.day }
{
    Date::from_plain(jiff_core::civil::Date::from_days_since_min(day + BEFORE_YEAR_ONE))
}
