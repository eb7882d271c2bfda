//! All faults of a table at once.

ghost use Rattle.std.specs.Prelude.{◌≡◌, ◌≤◌, ◌<◌, ◌++◌, IfOk, IfSome, OnOk, length};
ghost use Rattle.oim_table_faults.specs.Reading.{IsFaultList};
ghost use Rattle.oim_table_faults.specs.state.Rows.{GivesRest};

use crate::row_faults::alone;
use crate::table_faults::TableFaults;
use oim_names::Items;
use oim_report::{Limits, Report};
use oim_rows::TableFault;
use std::alloc::{AllocError, Global};
use std::io::Read;

/// Appends faults to a list. If memory runs out, it may have some of them.
fn push_all(all: &mut Items<TableFault>, faults: &Items<TableFault>) -> Result<(), AllocError>
    ensures { OnOk result (all.new ≡ all.old ++ faults.now) }
{
    for fault in faults.as_slice() {
        all.push(*fault)?;
    }
    Ok(())
}

/// Returns the faults of the rows that are left, or those of the first of them and then the failure
/// of the reader or of memory.
fn rest_of<R: Read + Drop>(
    alloc: Global,
    rows: &mut TableFaults<'_, R>,
) -> Result<Items<TableFault>, AllocError>
    ensures { IfSome rows.old.left (λ left. IfOk result (λ faults. GivesRest rows.old.table left faults)) }
{
    let mut all = Items::new(alloc);
    for _ in 0..u64::MAX {
        match rows.next_row() {
            Ok(Some(faults)) => push_all(&mut all, &faults)?,
            Ok(None) => return Ok(all),
            Err(fault) => {
                all.push(fault)?;
                return Ok(all);
            }
        }
    }
    Err(AllocError)
}

/// Returns all faults of the table at place `table` of the report: only its header's, or else
/// those of its rows, in their order.
///
/// The first row past `limits.rows` is the last that is read. If the reader fails or memory runs
/// out, the list has the faults of the rows before and ends with Read or Memory. Fails if memory
/// runs out for the list.
pub fn faults_of_file<R: Read + Drop>(
    alloc: Global,
    report: &Report,
    table: usize,
    reader: R,
    limits: Limits,
) -> Result<Items<TableFault>, AllocError>
    requires place { table < length report.now.tables }
    requires rows { limits.rows ≤ 4294967294 }
    ensures { IfSome (R.remaining reader) (λ bytes. IfOk result (λ faults. IsFaultList report.now table limits.rows bytes faults)) }
{
    match TableFaults::open(alloc, report, table, reader, limits) {
        Ok(mut rows) => rest_of(alloc, &mut rows),
        Err(fault) => alone(alloc, fault),
    }
}
