//! All faults of a table, row by row.
//!
//! A table's file has one fault before its rows, or else the faults of its rows, in their order.
//! The list of a row has only the first fault of the row itself, or else the fault of each faulty
//! cell in header order. The definition is `specs/TableFaults.antt`. The first fault of a table is
//! that of its stream, and a row that gives facts adds none.
//!
//! `TableFaults` reads a table's file and gives one bad row a call, with exactly its faults. A
//! failed read, or running out of memory, may end a table at any row. After the end or a failure
//! each call answers the same and takes no record. `faults_of_file` lists all faults at once.
//!
//! A row goes one of two ways. What the fast way (`oim_fast`) writes has no fault, and is thrown
//! away. For the others each cell is resolved in header order (`oim_resolve`). Only the identifiers
//! of the rows are kept.
//!
//! Not proved: which good rows go the fast way.
//!
//! A call, which returns how many faults the first bad row of a report's first table has:
//!
//! ```
//! fn first_bad_row(alloc: Global, report: &Report, file: &[u8]) -> Result<usize, TableFault> {
//!     if report.tables() == 0 {
//!         return Ok(0);
//!     }
//!     let mut table = TableFaults::open(alloc, report, 0, file, Limits::profile())?;
//!     match table.next_row()? {
//!         Some(faults) => Ok(faults.len()),
//!         None => Ok(0),
//!     }
//! }
//! ```
#![tactic(auto)]

mod cell_faults;
mod file_faults;
mod good_rows;
mod laws;
mod row_faults;
mod table_faults;

pub use file_faults::faults_of_file;
pub use laws::{first_fault_is_of_stream, good_rows_add_nothing};
pub use table_faults::TableFaults;
