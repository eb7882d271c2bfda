//! Periods, and the moments that they are made of.

ghost use Rattle.std.specs.Prelude.{◌<◌};
ghost use Rattle.oim_period.specs.Calendar.{day_limit, seconds_at};

/// A moment of the years 0001 to 9999, to the second.
#[derive(Clone, Copy, Debug, PartialEq, Eq)]
pub struct Moment {
    /// The days from 0001-01-01, a Monday, to the moment's day: 0 to 3,652,058, which is
    /// 9999-12-31.
    pub day: u32,
    /// The seconds since the midnight at which the day begins: 0 to 86,399.
    pub second: u32,
    pub ghost day_in: { day < day_limit },
    pub ghost second_in: { second < 86_400 },
}

/// The time from one moment to a later one.
#[derive(Clone, Copy, Debug, PartialEq, Eq)]
pub struct Span {
    /// The moment at which the time starts.
    pub start: Moment,
    /// The moment at which the time ends, later than `start`.
    pub end: Moment,
    pub ghost ordered: { seconds_at start.day start.second < seconds_at end.day end.second },
}

/// The period of a fact: an instant or a duration (Open Information Model 1.0, the period core
/// dimension).
#[derive(Clone, Copy, Debug, PartialEq, Eq)]
pub enum Period {
    /// One moment.
    Instant(Moment),
    /// The time between two moments.
    Duration(Span),
}
