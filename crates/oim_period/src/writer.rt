//! The written form of a period, and its sides.

ghost use Rattle.std.specs.Prelude.{◌≡◌, ℕ, ◌<◌, ◌≤◌, List, [], ◌∷◌, ◌++◌, IfOk, OnOk, string_bytes, option_map};
ghost use Rattle.oim_period.specs.Digits.{two, date_text, clock_text};
ghost use Rattle.oim_period.specs.Table.{IsWritten, IsWrittenMoment, Means};
ghost use Rattle.oim_period.specs.Reads.{seconds_of, reading_of};
ghost use Rattle.oim_period.specs.Periods.{start_of, end_of, period_text};

use crate::calendar;
use crate::period::{Moment, Period};
use std::alloc::{AllocError, Global};

/// The length in bytes of a duration's written form.
const LONGEST: usize = 39;

/// Appends the two digits of a number from 0 to 99.
fn push_two(text: &mut String, number: u32) -> Result<(), AllocError>
    requires { number ≤ 99 }
    ensures { OnOk result (string_bytes text.new ≡ string_bytes text.old ++ two number) }
{
    text.push((b'0' + (number / 10) as u8) as char)?;
    text.push((b'0' + (number % 10) as u8) as char)
}

/// Appends an ASCII character.
fn push_mark(text: &mut String, mark: char) -> Result<(), AllocError>
    requires { mark < 128 }
    ensures { OnOk result (string_bytes text.new ≡ string_bytes text.old ++ mark ∷ []) }
{
    text.push(mark)
}

/// Appends `yyyy-mm-dd`.
fn push_date(text: &mut String, year: u32, month: u32, day: u32) -> Result<(), AllocError>
    requires year_in { year ≤ 9999 }
    requires month_in { month ≤ 99 }
    requires day_in { day ≤ 99 }
    ensures { OnOk result (string_bytes text.new ≡ string_bytes text.old ++ date_text year month day) }
{
    push_two(text, year / 100)?;
    push_two(text, year % 100)?;
    push_mark(text, '-')?;
    push_two(text, month)?;
    push_mark(text, '-')?;
    push_two(text, day)
}

/// Appends `hh:mm:ss`.
fn push_clock(text: &mut String, hour: u32, minute: u32, second: u32) -> Result<(), AllocError>
    requires hour_in { hour ≤ 99 }
    requires minute_in { minute ≤ 99 }
    requires second_in { second ≤ 99 }
    ensures { OnOk result (string_bytes text.new ≡ string_bytes text.old ++ clock_text hour minute second) }
{
    push_two(text, hour)?;
    push_mark(text, ':')?;
    push_two(text, minute)?;
    push_mark(text, ':')?;
    push_two(text, second)
}

/// Appends the written form of a moment.
fn push_moment(text: &mut String, moment: Moment) -> Result<(), AllocError>
    ensures { OnOk result ((written : List ℕ) × (string_bytes text.new ≡ string_bytes text.old ++ written) × IsWrittenMoment written (seconds_of moment)) }
{
    let date = calendar::date_of(moment.day);
    push_date(
        text,
        date.year() as u32,
        date.month() as u32,
        date.day() as u32,
    )?;
    push_mark(text, 'T')?;
    push_clock(
        text,
        moment.second / 3600,
        moment.second / 60 % 60,
        moment.second % 60,
    )
}

impl Period {
    /// Returns the written form of the period (Open Information Model 1.0, the period core
    /// dimension).
    ///
    /// It is `yyyy-mm-ddThh:mm:ss`, or two of these with `/` between them. Reading it gives the
    /// period again.
    pub fn text(&self, alloc: Global) -> Result<String, AllocError>
        ensures written { IfOk result (λ t. IsWritten (string_bytes t) (reading_of self.now)) }
        ensures value { IfOk result (λ t. string_bytes t ≡ period_text (reading_of self.now)) }
        ensures reads_back { IfOk result (λ t. Means (string_bytes t) (reading_of self.now)) }
    {
        let mut text = String::with_capacity(alloc, LONGEST)?;
        match *self {
            Period::Instant(at) => {
                push_moment(&mut text, at)?;
                Ok(text)
            }
            Period::Duration(span) => {
                push_moment(&mut text, span.start)?;
                push_mark(&mut text, '/')?;
                push_moment(&mut text, span.end)?;
                Ok(text)
            }
        }
    }

    /// Returns the instant at which a duration starts (xBRL-CSV 1.0, `@start`), or `None` for an
    /// instant.
    #[tactic(auto, unfolding(crate::specs::Periods::start_of))]
    pub fn start_instant(&self) -> Option<Period>
        ensures { option_map reading_of result ≡ start_of (reading_of self.now) }
    {
        match self {
            Period::Instant(_) => None,
            Period::Duration(span) => Some(Period::Instant(span.start)),
        }
    }

    /// Returns the instant at which a duration ends (xBRL-CSV 1.0, `@end`), or `None` for an
    /// instant.
    #[tactic(auto, unfolding(crate::specs::Periods::end_of))]
    pub fn end_instant(&self) -> Option<Period>
        ensures { option_map reading_of result ≡ end_of (reading_of self.now) }
    {
        match self {
            Period::Instant(_) => None,
            Period::Duration(span) => Some(Period::Instant(span.end)),
        }
    }
}
