//! Whether a value is the unit or the period that a concept wants.

ghost use Rattle.std.specs.Prelude.{◌≡◌, not};
ghost use Rattle.std.specs.Option.{option_map};
ghost use Rattle.oim_cells.specs.Cells.{seen_meaning};
ghost use Rattle.oim_period.specs.Reads.{reading_of};
ghost use Rattle.oim_resolve.specs.Facts.{is_of_type as of_type, lacks_period, lacks_unit, sided as side_in};

use oim_cells::CellMeaning;
use oim_period::{Period, read};
use oim_report::{PeriodType, Report, Side, ValueType};
use oim_schema::{is_currency, is_shares};

/// Returns whether a value is a unit that a type of values wants. A type that wants none takes any
/// value.
pub(crate) fn is_wanted_unit(report: &Report, wanted: ValueType, unit: CellMeaning<'_>) -> bool
    ensures { result ≡ not (lacks_unit report.now wanted (seen_meaning unit.entry)) }
{
    match (wanted, unit) {
        (ValueType::Monetary | ValueType::Shares, CellMeaning::Absent) => false,
        (ValueType::Monetary, CellMeaning::Text(text)) => is_currency(report.namespaces(), text),
        (ValueType::Shares, CellMeaning::Text(text)) => is_shares(report.namespaces(), text),
        _ => true,
    }
}

/// Returns the side of a period, or `None` if a side of an instant is asked for.
fn sided(side: Side, period: Period) -> Option<Period>
    ensures { option_map reading_of result ≡ side_in side (reading_of period) }
{
    match side {
        Side::Whole => Some(period),
        Side::Start => period.start_instant(),
        Side::End => period.end_instant(),
    }
}

/// Returns whether a period is an instant or a duration, as the type says.
fn is_of_type(wanted: PeriodType, period: Period) -> bool
    ensures { result ≡ of_type wanted (reading_of period) }
{
    match wanted {
        PeriodType::Instant => matches!(&period, Period::Instant(_)),
        PeriodType::Duration => matches!(&period, Period::Duration(_)),
    }
}

/// Returns whether the side of a period is of the type that a concept wants. For other values than
/// a text, only an absent one can be refused.
pub(crate) fn is_wanted_period(wanted: PeriodType, side: Side, period: CellMeaning<'_>) -> bool
    ensures { result ≡ not (lacks_period wanted side (seen_meaning period.entry)) }
{
    match period {
        CellMeaning::Absent => matches!(&wanted, PeriodType::Duration),
        CellMeaning::Text(text) => match read(text) {
            Some(whole) => match sided(side, whole) {
                Some(period) => is_of_type(wanted, period),
                None => true,
            },
            None => true,
        },
        CellMeaning::Nil | CellMeaning::Empty | CellMeaning::Unknown => true,
    }
}
