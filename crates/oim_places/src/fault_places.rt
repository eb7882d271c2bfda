//! What is at the place of a table's fault, for which the table's file is read again.

ghost use Rattle.std.specs.Prelude.{◌≡◌, ◌<◌, IfOk, IfSome, length, string_bytes, true};
ghost use Rattle.oim_places.specs.FaultPlaces as spec;
ghost use Rattle.oim_places.specs.FaultPlaces.{HasRecordOf, IsPlaceAt, IsTablePath, column_place, unknown_place};
ghost use Rattle.oim_places.specs.FaultLists.{AreReadersOf, IsStartOf};
ghost use Rattle.oim_places.specs.FolderFiles.{FoundAt};
ghost use Rattle.oim_places.specs.state.FaultPlaces.{IsFirstIn};

use crate::bad_rows::BadRows;
use crate::records::RowAgain;
use oim_files::{Folder, folder_of, path_in};
use oim_meta::Report;
use oim_names::Text;
use oim_rows::{TableFault, TableKind};
use oim_table_faults::first_fault_is_of_stream;
use std::alloc::{AllocError, Global};
use std::io::Read;

/// What is at the place of a table's fault.
#[derive(Drop)]
pub struct FaultPlace {
    /// The line of the table's file at which the fault's record begins, if it is known.
    pub line: Option<u64>,
    /// The header's cell of the fault's column, empty if it does not exist.
    pub header: Text,
    /// The row's cell in the fault's column, empty if it does not exist.
    pub cell: Text,
}

impl FaultPlace {
    /// Returns a place without any knowledge.
    pub fn unknown(alloc: Global) -> Result<FaultPlace, AllocError>
        ensures { IfOk result (λ p. p ≡ unknown_place) }
    {
        Ok(FaultPlace {
            line: None,
            header: Text::new(String::new(alloc)),
            cell: Text::new(String::new(alloc)),
        })
    }

    /// Copies a place.
    fn copied(&self) -> Result<FaultPlace, AllocError>
        ensures { IfOk result (λ p. p ≡ self.now) }
    {
        Ok(FaultPlace {
            line: self.line,
            header: self.header.clone()?,
            cell: self.cell.clone()?,
        })
    }
}

/// Returns the place in a record that a fault names, if it names one.
pub fn place_in_record(fault: &TableFault) -> Option<usize>
    ensures { result ≡ column_place (fault.now).column }
{
    match fault.column {
        0 => None,
        column => Some(column as usize - 1),
    }
}

/// Returns whether a fault is of a file as a whole, without a place in it.
pub fn is_of_file(kind: TableKind) -> bool
    ensures { result ≡ spec.is_of_file kind }
{
    matches!(
        kind,
        TableKind::NoFile
            | TableKind::Read
            | TableKind::NoHeader
            | TableKind::Memory
            | TableKind::NoThread
    )
}

/// Returns the path of the file of a table of the report whose metadata is at this path.
pub fn table_path(
    alloc: Global,
    meta: &str,
    report: &Report,
    table: usize,
) -> Result<String, AllocError>
    requires { table < length report.now.tables }
    ensures { IfOk result (λ s. IsTablePath meta.now report.now table (string_bytes s)) }
{
    path_in(alloc, folder_of(meta), report.table_url(table))
}

/// The record of a fault, read again, and what is at the fault's place.
#[derive(Drop)]
pub struct FaultRecord {
    /// The header and the record.
    pub cells: RowAgain,
    /// The place.
    pub place: FaultPlace,
}

/// Returns the readers of the file at a path for `BadRows`, if it can be opened.
fn opened<R: Read + Drop, F: Folder<R>>(folder: &mut F, path: &str) -> Option<(R, R, R)>
    ensures same { F.files folder.new ≡ F.files folder.old }
    ensures readers { IfSome result (λ readers. FoundAt (F.files folder.old) path.now (AreReadersOf (R.remaining readers.0) (R.remaining readers.1) (R.remaining readers.2))) }
{
    Some((folder.open(path)?, folder.open(path)?, folder.open(path)?))
}

/// Opens the file at a path as that of the table at place `table` of the report. Returns `None` if
/// it cannot be read again.
pub fn bad_rows_at<'a, R: Read + Drop, F: Folder<R>>(
    alloc: Global,
    folder: &mut F,
    path: &str,
    report: &'a Report,
    table: usize,
) -> Option<BadRows<'a, R>>
    requires { table < length report.now.tables }
    ensures same { F.files folder.new ≡ F.files folder.old }
    ensures table { IfSome result (λ rows. rows.table ≡ table) }
    ensures faults { IfSome result (λ rows. FoundAt (F.files folder.old) path.now (IsStartOf report.now table rows)) }
{
    let (header, rows, lines) = opened(folder, path)?;
    BadRows::open(alloc, report, table, header, rows, lines).ok()
}

/// Returns whether a fault that is found again is this one.
fn is_same(found: TableFault, fault: &TableFault) -> bool
    ensures { result ≡ true → found ≡ fault.now }
{
    found == *fault
}

/// Returns the record of a fault with its place, if it is the first of those that are left.
fn first_record<R: Read + Drop>(
    alloc: Global,
    rows: &mut BadRows<'_, R>,
    fault: &TableFault,
) -> Result<Option<FaultRecord>, AllocError>
    ensures { IfOk result (λ o. IfSome o (λ r. (rows.old).heads ≡ (rows.old).cells → IsFirstIn rows.old fault.now r)) }
{
    let Ok(Some(located)) = rows.next_row(alloc) else {
        return Ok(None);
    };
    let Some(first) = located.as_slice().first() else {
        return Ok(None);
    };
    if is_same(first.fault, fault) {
        return Ok(Some(FaultRecord {
            cells: rows.cells().copied()?,
            place: first.place.copied()?,
        }));
    }
    Ok(None)
}

/// Returns the record of a fault in the table's file at this path, and what is at its place. The
/// file is read again.
///
/// Returns `None` if the fault is of the whole file, or if the file cannot be read again or no
/// longer has the fault.
pub fn fault_record<R: Read + Drop, F: Folder<R>>(
    alloc: Global,
    folder: &mut F,
    path: &str,
    report: &Report,
    fault: &TableFault,
) -> Result<Option<FaultRecord>, AllocError>
    requires { (fault.now).table < length report.now.tables }
    ensures same { F.files folder.new ≡ F.files folder.old }
    ensures row { IfOk result (λ o. IfSome o (λ r. FoundAt (F.files folder.old) path.now (HasRecordOf report.now fault.now r.cells))) }
    ensures place { IfOk result (λ o. IfSome o (λ r. IfSome (F.files folder.old) (λ files. IsPlaceAt files path.now report.now fault.now r.place))) }
{
    if is_of_file(fault.kind) {
        return Ok(None);
    }
    first_fault_is_of_stream();
    match bad_rows_at(alloc, folder, path, report, fault.table) {
        Some(mut rows) => first_record(alloc, &mut rows, fault),
        None => Ok(None),
    }
}
