//! A report: its metadata with its parameters and its types.
//!
//! What is proved:
//!
//! - The readers of a `Report` return its parts, and `clone_report` an equal report.
//! - The parts of any `Report` are in byte order of name, and its tables, templates and columns
//!   have identifiers (`stands_in_order`, `specs/InOrder.antt`). The places that `row_id_column`
//!   and `column` return are in range.
//! - `Types::kind_of` returns the kind that the types table's records give, `Types::has_members`
//!   whether one names a member, and `Parameters` the names and values that were added.
//!
//! The crate reads neither JSON nor files.
//!
//! Example:
//!
//! ```
//! /// The first table of a report, and its first column.
//! fn has_a_table(report: &Report) -> bool {
//!     report.tables() == 1
//!         && report.table_id(0) == "t1"
//!         && report.table_url(0) == "t1.csv"
//!         && report.columns(0) == 2
//!         && report.column(0, 0).id.as_str() == "cash"
//!         && report.column(0, 0).kind == ColumnKind::Fact
//! }
//! ```
#![tactic(auto)]

mod by_name;
mod clone;
mod data;
mod kind;
mod limits;
mod named;
mod parameters;
mod readers;
mod report;
mod typed_name;
mod types;

pub use data::{Column, ColumnKind, Info, Level, Side, Table, Template, Written, WrittenDecimals};
pub use kind::{Concept, Kind, PeriodType, SimpleType, ValueType};
pub use limits::Limits;
pub use named::Named;
pub use parameters::Parameters;
pub use report::Report;
pub use typed_name::TypedName;
pub use types::Types;
