//! Calls of `oim_report`.

use crate::held::{Library, holds};
use oim_report::{
    Column, ColumnKind, Info, Kind, Level, Limits, Report, Side, Template, TypedName, Written,
    WrittenDecimals,
};

/// The first table of a report, and its first column.
fn has_a_table(report: &Report) -> bool {
    report.tables() == 1
        && report.table_id(0) == "t1"
        && report.table_url(0) == "t1.csv"
        && report.columns(0) == 2
        && report.column(0, 0).id.as_str() == "cash"
        && report.column(0, 0).kind == ColumnKind::Fact
}

/// Checks the other readers of a table.
fn has_more(report: &Report) -> bool {
    report.tables() == 1
        && !report.is_optional(0)
        && report.row_id_column(0).is_none()
        && report.parameter(0, "p").is_none()
        && report.place_of_column(0, b"note").is_some()
        && report.column(0, 0).kind.holds_facts()
        && says_nothing(report.template_level(0))
}

fn says_nothing(level: &Level) -> bool {
    level.dimensions.is_empty() && level.decimals.is_none()
}

/// Checks a report's own properties and its names.
fn says_of_itself(report: &Report) -> bool {
    report.stands_in_order();
    let info: &Info = report.info();
    info.base_url.is_none()
        && matches!(
            report.kind_of("http://example.com/eg", "Cash"),
            Some(Kind::Number(_))
        )
        && report.namespaces().uri("eg").is_some()
        && report.report_level().dimensions.len() == 3
}

/// Returns a copy of a report.
fn is_copied(report: &Report) -> bool {
    match report.clone_report() {
        Ok(copy) => copy.tables() == report.tables(),
        Err(_) => false,
    }
}

/// Returns a caller's own limits.
fn thousand_rows() -> Limits {
    Limits {
        rows: 1_000,
        ..Limits::profile()
    }
}

/// Returns the parts that a caller can read.
fn column_of(template: &Template, place: usize) -> Option<&Column> {
    template.columns.as_slice().get(place)
}

fn is_absent(written: &Written, decimals: &WrittenDecimals) -> bool {
    matches!(written, Written::Absent) && matches!(decimals, WrittenDecimals::Absent)
}

fn side_of(written: &Written) -> Option<Side> {
    match written {
        Written::RowNumber(side) | Written::Named(_, side) => Some(*side),
        _ => None,
    }
}

fn is_of(record: &TypedName, uri: &str) -> bool {
    record.uri.as_str() == uri
}

/// Returns whether the calls over a report answer as they must.
pub(crate) fn hold(report: &Report) -> bool {
    has_a_table(report) && has_more(report) && says_of_itself(report) && is_copied(report)
}

#[test]
fn calls_of_reports(rt: HostRuntime) {
    assert!(rt; holds(rt.alloc(), Library::Reports));
}

/// Returns whether a caller's own parts are read.
fn hold_of_parts() -> bool {
    thousand_rows().tables == 4_096
        && is_absent(&Written::Absent, &WrittenDecimals::Absent)
        && side_of(&Written::Nil).is_none()
}

#[test]
fn calls_of_parts(rt: HostRuntime) {
    assert!(rt; hold_of_parts());
}
