//! Reads the header of a table file.

ghost use Rattle.std.specs.Prelude.{◌≡◌, ◌<◌, ◌⊎◌, IfOk, IfErr, IfSome, OnOk, None, Some, Ok, Err, true, length};
ghost use Rattle.std.specs.List.{position_from};
ghost use Rattle.oim_report.specs.Readers.{column_named, columns_of as columns_in, template_of};
ghost use Rattle.oim_rows.specs.Header.{named_column, file_fault, file_header_fault, header_fault, header_of, is_unknown, names_row_id};
ghost use Rattle.oim_rows.specs.state.Streams.{columns_fault, early_header_fault};
ghost use Rattle.oim_rows.specs.Streams.{IsOutside, TakesHeader};

use crate::cells::{Cells, field};
use crate::fault::{TableFault, TableKind, fault_at_place, fault_of_read, whole_fault};
use crate::header_columns::{HeaderColumns, NoIndex};
use csv::ByteRecord;
use oim_records::{ReadFault, RecordReader, Records};
use oim_report::Report;
use std::alloc::{AllocError, Global};
use std::io::Read;

/// Returns the index of the column with this identifier.
fn place_of_cell(report: &Report, table: usize, cell: &[u8]) -> Option<usize>
    requires { table < length report.now.tables }
    ensures { result ≡ column_named report.now table cell.now }
{
    report.place_of_column(table, cell)
}

/// Returns the index of the column that a header cell names.
fn column_of_cell(report: &Report, table: usize, cell: &[u8]) -> Option<usize>
    requires { table < length report.now.tables }
    ensures { result ≡ named_column (columns_in report.now table) cell.now }
{
    if cell.is_empty() {
        None
    } else {
        place_of_cell(report, table, cell)
    }
}

fn is_unknown_cell(report: &Report, table: usize, cell: &[u8]) -> bool
    requires { table < length report.now.tables }
    ensures { result ≡ is_unknown (columns_in report.now table) cell.now }
{
    !cell.is_empty() && place_of_cell(report, table, cell).is_none()
}

/// Returns the index of the first header cell that is not empty and does not name a column.
fn first_unknown<C: Cells>(report: &Report, table: usize, row: &C) -> Option<usize>
    requires { table < length report.now.tables }
    ensures { result ≡ position_from (is_unknown (columns_in report.now table)) 0 (C.cells row.now) }
{
    for i in 0..row.count() {
        if is_unknown_cell(report, table, field(row, i)) {
            return Some(i);
        }
    }
    None
}

/// Returns the column of each header cell.
fn columns_of<C: Cells>(
    alloc: Global,
    report: &Report,
    table: usize,
    row: &C,
) -> Result<Vec<Option<usize>>, AllocError>
    requires { table < length report.now.tables }
    ensures { IfOk result (λ h. h.items ≡ header_of (columns_in report.now table) (C.cells row.now)) }
{
    let mut header = Vec::new(alloc);
    for i in 0..row.count() {
        header.push(column_of_cell(report, table, field(row, i)))?;
    }
    Ok(header)
}

/// Returns whether a header has the column of row identifiers, if the template has one.
fn names_row_id_column(column: Option<usize>, header: &HeaderColumns) -> bool
    ensures { result ≡ names_row_id column header.now }
{
    match column {
        Some(column) => header.place_of(column).is_some(),
        None => true,
    }
}

/// Returns the columns of a header with their index, unless one occurs twice or that of row
/// identifiers is missing.
fn checked_columns(
    alloc: Global,
    report: &Report,
    table: usize,
    columns: Vec<Option<usize>>,
) -> Result<HeaderColumns, TableFault>
    requires { table < length report.now.tables }
    ensures header { IfOk result (λ h. h ≡ columns.items) }
    ensures sound { OnOk result (columns_fault report.now table columns.items ≡ None) }
    ensures fault { IfErr result (λ e. (e ≡ file_fault table TableKind.Memory) ⊎ (columns_fault report.now table columns.items ≡ Some e)) }
{
    match HeaderColumns::new(alloc, columns) {
        Ok(header) => {
            if names_row_id_column(report.row_id_column(table), &header) {
                Ok(header)
            } else {
                Err(whole_fault(table, TableKind::NoRowIdColumn))
            }
        }
        Err(NoIndex::Repeated(place)) => {
            Err(fault_at_place(table, 0, place, TableKind::RepeatedHeader))
        }
        Err(NoIndex::Memory) => Err(whole_fault(table, TableKind::Memory)),
    }
}

/// Returns the columns of a table's header. `found` is the reader's result for it, and `row` the
/// record.
///
/// Memory is taken only once each cell is empty or names a column.
fn take_header<C: Cells>(
    alloc: Global,
    report: &Report,
    table: usize,
    found: Result<bool, ReadFault>,
    row: &C,
) -> Result<HeaderColumns, TableFault>
    requires { table < length report.now.tables }
    ensures early { IfSome (early_header_fault report.now table found (C.cells row.now)) (λ e. result ≡ Err e) }
    ensures read { OnOk result (found ≡ Ok true) }
    ensures sound { OnOk result (header_fault report.now table (C.cells row.now) ≡ None) }
    ensures header { IfOk result (λ h. h ≡ header_of (columns_in report.now table) (C.cells row.now)) }
    ensures fault { found ≡ Ok true → IfErr result (λ e. (e ≡ file_fault table TableKind.Memory) ⊎ (header_fault report.now table (C.cells row.now) ≡ Some e)) }
{
    match found {
        Ok(true) => {}
        Ok(false) => return Err(whole_fault(table, TableKind::NoHeader)),
        Err(fault) => return Err(fault_of_read(table, fault)),
    }
    if let Some(place) = first_unknown(report, table, row) {
        return Err(fault_at_place(table, 0, place, TableKind::UnknownHeader));
    }
    let Ok(columns) = columns_of(alloc, report, table, row) else {
        return Err(whole_fault(table, TableKind::Memory));
    };
    checked_columns(alloc, report, table, columns)
}

/// Reads the first record and returns the columns of a table's header. The `csv` crate reads the
/// header again from the file's bytes.
pub(crate) fn read_header<R: Read + Drop>(
    alloc: Global,
    report: &Report,
    table: usize,
    records: &mut RecordReader<R>,
) -> Result<HeaderColumns, TableFault>
    requires { table < length report.now.tables }
    ensures header { IfOk result (λ h. TakesHeader report.now table records.old.left h records.new.left) }
    ensures fault { IfErr result (λ e. IsOutside table e ⊎ IfSome records.old.left (λ rs. file_header_fault report.now table rs ≡ Some e)) }
{
    let found = records.read();
    let Ok(true) = found else {
        return take_header(alloc, report, table, found, &records.fields());
    };
    match records.fields().read_by_csv(alloc) {
        Ok(row) => take_header(alloc, report, table, found, &row),
        Err(_) => Err(whole_fault(table, TableKind::Memory)),
    }
}

/// Returns what `read_header` returns, for records that the `csv` crate reads. `row` takes the
/// header's record.
pub(crate) fn read_csv_header<R: Read>(
    alloc: Global,
    report: &Report,
    table: usize,
    records: &mut Records<R>,
    row: &mut ByteRecord,
) -> Result<HeaderColumns, TableFault>
    requires { table < length report.now.tables }
    ensures header { IfOk result (λ h. TakesHeader report.now table records.old h records.new) }
    ensures fault { IfErr result (λ e. IsOutside table e ⊎ IfSome records.old (λ rs. file_header_fault report.now table rs ≡ Some e)) }
{
    let found = records.read(row);
    take_header(alloc, report, table, found, row)
}
