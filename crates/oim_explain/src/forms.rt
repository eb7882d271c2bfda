//! How values are written that have a form of their own.

use oim_report::{Concept, Kind, SimpleType, ValueType};
use oim_schema::DateForm;

/// How a boolean is written.
const BOOLEAN: &str = "a yes/no cell holds true, false, 1 or 0, in small letters";

/// How a date is written.
const DATE: &str = "a date is written 2025-09-30, by year, month and day, and must exist";

/// How a name is written.
const NAME: &str = "a name has a prefix that namespaces declares, as in eg:North";

/// How a period is written.
pub(crate) const PERIOD: &str =
    "a period is written 2025Q3, 2025-09, 2025-09-30 or 2025-07-01..2025-09-30, and must exist";

/// Returns how a date or a time of this form is written.
fn of_date(form: DateForm) -> &'static str {
    match form {
        DateForm::DateTime => "a date with a time is written 2025-09-30T12:00:00, and must exist",
        DateForm::Time => "a time is written 12:30:00, with hours, minutes and seconds",
        DateForm::Date => DATE,
        DateForm::GYear => "a year is written 2025",
        DateForm::GYearMonth => "a month of a year is written 2025-09",
        DateForm::GMonth => "a month is written --09",
        DateForm::GMonthDay => "a day of a month is written --09-30",
        DateForm::GDay => "a day is written ---30",
    }
}

/// Returns how the values of a simple type are written, if that is worth a sentence.
fn of_simple(simple: SimpleType) -> Option<&'static str> {
    match simple {
        SimpleType::Boolean => Some(BOOLEAN),
        SimpleType::QName => Some(NAME),
        SimpleType::DateTime(form) => Some(of_date(form)),
        SimpleType::Duration => Some("a duration is written P1Y2M3DT4H5M6S, any part left out"),
        SimpleType::Language => Some("a language is a tag such as en or en-GB"),
        _ => None,
    }
}

/// Returns how the values of a concept of this kind are written, as a sentence without capital and
/// full stop.
pub(crate) fn form_of(kind: Kind) -> Option<&'static str> {
    match kind {
        Kind::Boolean => Some(BOOLEAN),
        Kind::Date => Some(DATE),
        Kind::Name => Some(NAME),
        Kind::Concept(
            Concept {
                value: ValueType::Simple(simple),
                period: _,
            },
        ) => of_simple(simple),
        Kind::Concept(
            Concept {
                value: ValueType::Enumeration,
                period: _,
            },
        ) => Some(NAME),
        _ => None,
    }
}
