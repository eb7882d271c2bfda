//! The unit and the period that a concept wants.

ghost use Rattle.std.specs.Prelude.{◌≡◌};
ghost use Rattle.oim_cells.specs.Cells.{seen_meaning};
ghost use Rattle.oim_period.specs.Reads.{reading_of};
ghost use Rattle.oim_resolve.specs.Facts.{is_of_type as of_type, lacks_period as period_lacks, lacks_unit as unit_lacks};

use crate::dimension::sided;
use oim_cells::CellMeaning;
use oim_period::{Period, read};
use oim_report::{PeriodType, Report, Side, ValueType};
use oim_schema::{is_currency, is_shares};

/// Returns whether a unit is missing or not the one that a type of values wants.
pub(crate) fn lacks_unit(report: &Report, value: ValueType, unit: CellMeaning<'_>) -> bool
    ensures { result ≡ unit_lacks report.now value (seen_meaning unit.entry) }
{
    match (value, unit) {
        (ValueType::Monetary | ValueType::Shares, CellMeaning::Absent) => true,
        (ValueType::Monetary, CellMeaning::Text(text)) => !is_currency(report.namespaces(), text),
        (ValueType::Shares, CellMeaning::Text(text)) => !is_shares(report.namespaces(), text),
        _ => false,
    }
}

/// Returns whether a period is an instant or a duration, as the type says.
fn is_of_type(wanted: PeriodType, period: Period) -> bool
    ensures { result ≡ of_type wanted (reading_of period) }
{
    match wanted {
        PeriodType::Instant => matches!(&period, Period::Instant(_)),
        PeriodType::Duration => matches!(&period, Period::Duration(_)),
    }
}

/// Returns whether the side of a period is missing or not of the type that a concept wants. A text
/// without such a period or such a side has another fault.
pub(crate) fn lacks_period(wanted: PeriodType, side: Side, period: CellMeaning<'_>) -> bool
    ensures { result ≡ period_lacks wanted side (seen_meaning period.entry) }
{
    match period {
        CellMeaning::Absent => matches!(&wanted, PeriodType::Instant),
        CellMeaning::Text(text) => match read(text) {
            Some(whole) => match sided(side, whole) {
                Some(period) => !is_of_type(wanted, period),
                None => false,
            },
            None => false,
        },
        CellMeaning::Nil | CellMeaning::Empty | CellMeaning::Unknown => false,
    }
}
