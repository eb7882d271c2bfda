//! The records of a run's faults, as the file of `--faults` has them.
//!
//! Not proved: all of this file. `list_faults` promises which records a table has, and `tests/`
//! compare the files.

use oim_explain::{
    Explanation, FaultCause, FaultPlace, ListedFaults, RefusedTable, ReportAgain, fault_row,
    list_faults, report_fault_row,
};
use oim_files::{EarlyFault, FileFault, Folder};
use oim_names::Text;
use oim_rows::TableFault;
use std::alloc::Global;
use std::io;
use std::io::{Read, Write};

/// Writes the records of a refused table. If its report cannot be read again, writes only the
/// record of the fault that the run found, without its place.
fn write_table<R: Read + Drop, F: Folder<R>, W: Write>(
    alloc: Global,
    folder: &mut F,
    again: &Result<ReportAgain, EarlyFault>,
    table: RefusedTable<'_>,
    to: &mut W,
) -> io::Result<ListedFaults> {
    if let Ok(again) = again {
        return list_faults(alloc, folder, again, table, to);
    }
    let (place, cause) = (FaultPlace::unknown(alloc)?, FaultCause::none(alloc)?);
    let row = fault_row(alloc, table.id, table.fault, &place, &cause)?;
    to.write_all(row.as_slice())?;
    Ok(ListedFaults {
        count: 1,
        is_cut: false,
        rows: 0,
    })
}

/// Writes the records of refused tables, in order, at most `most` of each. `again` is their report,
/// which was read again, or why that failed. Returns how many faults of each table are listed.
pub fn write_table_faults<R: Read + Drop, F: Folder<R>, W: Write>(
    alloc: Global,
    meta: &str,
    folder: &mut F,
    again: &Result<ReportAgain, EarlyFault>,
    tables: &[(Text, TableFault)],
    most: usize,
    to: &mut W,
) -> io::Result<Vec<ListedFaults>> {
    let mut listed = Vec::new(alloc);
    for (id, fault) in tables {
        let table = RefusedTable {
            meta,
            id: id.as_str(),
            fault,
            most,
        };
        listed.push(write_table(alloc, folder, again, table, to)?)?;
    }
    Ok(listed)
}

/// Writes the record of a fault of the metadata, the types table or the parameters file, by its
/// explanation.
pub fn write_report_fault<W: Write>(
    alloc: Global,
    fault: &FileFault,
    told: &Explanation,
    to: &mut W,
) -> io::Result<()> {
    let (place, found) = (told.place.as_str(), told.found.as_str());
    let row = report_fault_row(alloc, fault.finding.fault, place, found)?;
    to.write_all(row.as_slice())
}
