//! Moments, and durations between them.

ghost use Rattle.std.specs.Prelude.{◌≡◌, ◌<◌, length, option_map};
ghost use Rattle.oim_period.specs.Calendar.{day_limit, midnight as midnight_of};
ghost use Rattle.oim_period.specs.Table.{IsMoment, IsDuration};
ghost use Rattle.oim_period.specs.Reads.{IsOnly, seconds_of};
ghost use Rattle.oim_period.specs.state.Reads.{ends_of};

use crate::calendar::DAY_LIMIT;
use crate::parts;
use crate::period::{Moment, Span};

/// Returns the midnight at which a day begins.
fn midnight(day: u32) -> Moment
    requires { day < day_limit }
    ensures { seconds_of result ≡ midnight_of day }
{
    Moment { day, second: 0 }
}

/// Returns the seconds from the start of the first day to the moment.
fn seconds(moment: Moment) -> u64
    ensures { result ≡ seconds_of moment }
{
    86_400 * moment.day as u64 + moment.second as u64
}

/// Returns the moment that a date and a time name, or `None` for any other text.
pub fn moment(text: &[u8]) -> Option<Moment>
    ensures { IsOnly (IsMoment text.now) (option_map seconds_of result) }
{
    if text.len() != 19 || text[10] != b'T' {
        return None;
    }
    let day = parts::date(&text[..10])?;
    let second = parts::time(&text[11..])?;
    if second < 86_400 {
        Some(Moment { day, second })
    } else if day + 1 < DAY_LIMIT {
        Some(midnight(day + 1))
    } else {
        None
    }
}

/// Returns the duration between two written moments, or `None` if the first is not before the
/// second.
fn between(text: &[u8]) -> Option<Span>
    requires { length text.now ≡ 39 }
    ensures { IsOnly (λ e. IsDuration text.now e.0 e.1) (option_map ends_of result) }
{
    if text[19] != b'/' {
        return None;
    }
    let start = moment(&text[..19])?;
    let end = moment(&text[20..])?;
    if seconds(start) < seconds(end) {
        Some(Span { start, end })
    } else {
        None
    }
}

/// Returns the duration that a text names, or `None` if it names none.
pub fn duration(text: &[u8]) -> Option<Span>
    ensures { IsOnly (λ e. IsDuration text.now e.0 e.1) (option_map ends_of result) }
{
    if text.len() == 39 {
        return between(text);
    }
    let days = parts::days(text)?;
    Some(Span {
        start: midnight(days.first),
        end: midnight(days.after),
    })
}
