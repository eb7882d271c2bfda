//! The facts of one table, row by row.
//!
//! `Rows` reads a table's file (xBRL-CSV 1.0) record by record. The first record is the header, and
//! each further record is a row. If the reader's contract gives its bytes, the results are exactly
//! the table's stream: the facts of each row before the first bad one, in header order, then the
//! end or the table's first fault with its row and its place in the header. A row with any fault
//! gives no facts.
//!
//! Only a failed read or running out of memory can end a table earlier. After the end or a fault,
//! each call returns the same again and takes no further record. A table ends at the limit of rows
//! at the latest.
//!
//! A call:
//!
//! ```
//! /// Returns the facts of the first row of a report's first table, whose file has these bytes.
//! fn first_row(alloc: Global, report: &Report, file: &[u8]) -> Result<Option<RowFacts>, TableFault> {
//!     if report.tables() == 0 {
//!         return Ok(None);
//!     }
//!     let mut rows = Rows::open(alloc, report, 0, file, Limits::profile())?;
//!     rows.next()
//! }
//! ```
#![tactic(auto)]

mod cells;
mod decoder;
mod fault;
mod group_counts;
mod header;
mod header_columns;
mod ids;
mod kept_ids;
mod laws;
mod row_id;
mod row_plan;
mod rows;
mod short;
mod spare_ids;
mod table_header;

pub use fault::{TableFault, TableKind, fault_at_place, fault_of_read, whole_fault};
pub use ids::RowIds;
pub use laws::{fact_identifiers_differ, stream_is_of_all_rows, table_stream_is_of_all_rows};
pub use row_id::RowId;
pub use row_plan::RowPlan;
pub use rows::{RowFacts, Rows};
pub use spare_ids::SpareIds;
pub use table_header::{TableHeader, push_row_number};
