//! Consecutive whole days.

ghost use Rattle.std.specs.Prelude.{◌<◌};
ghost use Rattle.oim_period.specs.Calendar.{day_limit};

/// The days from `first` to `after`, without `after`. 0001-01-01 is day 0.
#[derive(Clone, Copy, Debug, PartialEq, Eq)]
pub struct Days {
    pub first: u32,
    pub after: u32,
    pub ghost ordered: { first < after },
    pub ghost within: { after < day_limit },
}
