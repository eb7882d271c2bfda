//! Calls of `oim_period`.

use oim_period::{Moment, Period, Span, is_date, read};
use std::alloc::{AllocError, Global};

/// The last quarter of a year, as documents write it.
fn writes_a_quarter(alloc: Global) -> Result<bool, AllocError> {
    match read("2021Q4") {
        Some(quarter) => Ok(
            quarter.text(alloc)?.as_str() == "2021-10-01T00:00:00/2022-01-01T00:00:00",
        ),
        None => Ok(false),
    }
}

/// Returns the moment at which a period ends.
fn end_of(period: Period) -> Moment {
    match period {
        Period::Instant(moment) => moment,
        Period::Duration(span) => end_of_span(&span),
    }
}

fn end_of_span(span: &Span) -> Moment {
    span.end
}

/// Returns whether a week has its sides: it starts on a Monday, the first of which is day 0, and
/// ends seven days later.
fn has_sides() -> bool {
    let Some(week) = read("0001W1") else {
        return false;
    };
    match (week.start_instant(), week.end_instant()) {
        (Some(start), Some(end)) => end_of(start).day == 0 && end_of(end).day == 7,
        _ => false,
    }
}

#[test]
fn calls_of_periods(rt: HostRuntime) {
    assert!(rt;
        matches!(writes_a_quarter(rt.alloc()), Ok(true)) && has_sides() && is_date("2024-02-29")
    );
}
