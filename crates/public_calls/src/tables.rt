//! Calls of `oim_decode`.

use crate::held::{Library, holds};
use oim_decode::{TableBlocks, settled_tables_stay};
use oim_json::Spare;
use oim_meta::{Limits, Report};
use oim_rows::TableFault;
use std::alloc::Global;

/// Returns the number of facts in the first block of a report's first table, whose file has these
/// bytes.
fn first_block(alloc: Global, report: &Report, file: &[u8]) -> Result<usize, TableFault> {
    if report.tables() == 0 {
        return Ok(0);
    }
    let mut table = TableBlocks::open(alloc, report, 0, file, Limits::profile())?;
    match table.next_block(Spare::new(alloc))? {
        Some(block) => Ok(block.count()),
        None => Ok(0),
    }
}

/// Returns whether the calls over a report answer as they must.
pub(crate) fn hold(alloc: Global, report: &Report) -> bool {
    settled_tables_stay();
    first_block(alloc, report, b"cash,note\n1,n\n2,m\n") == Ok(4)
}

#[test]
fn calls_of_tables(rt: HostRuntime) {
    assert!(rt; holds(rt.alloc(), Library::Tables));
}
