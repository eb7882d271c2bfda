//! Calls of `oim_table_faults`.

use crate::held::{Library, holds};
use oim_meta::{Limits, Report};
use oim_rows::TableFault;
use oim_table_faults::{
    TableFaults, faults_of_file, first_fault_is_of_stream, good_rows_add_nothing,
};
use std::alloc::Global;

/// Returns the number of faults of the first bad row of a report's first table, whose file has
/// these bytes.
fn first_bad_row(alloc: Global, report: &Report, file: &[u8]) -> Result<usize, TableFault> {
    if report.tables() == 0 {
        return Ok(0);
    }
    let mut table = TableFaults::open(alloc, report, 0, file, Limits::profile())?;
    match table.next_row()? {
        Some(faults) => Ok(faults.len()),
        None => Ok(0),
    }
}

/// Returns the number of all faults of a report's first table, whose file has these bytes.
fn count_of_all(alloc: Global, report: &Report, file: &[u8]) -> usize {
    if report.tables() == 0 {
        return 0;
    }
    match faults_of_file(alloc, report, 0, file, Limits::profile()) {
        Ok(faults) => faults.len(),
        Err(_) => 0,
    }
}

/// Returns whether the calls over a report answer as they must.
pub(crate) fn hold(alloc: Global, report: &Report) -> bool {
    first_fault_is_of_stream();
    good_rows_add_nothing();
    let file = b"cash,note\n1,n\nx,#foo\n2,m\n3\n";
    first_bad_row(alloc, report, file) == Ok(2) && count_of_all(alloc, report, file) == 3
}

#[test]
fn calls_of_bad_rows(rt: HostRuntime) {
    assert!(rt; holds(rt.alloc(), Library::BadRows));
}
