//! The explanation of a table's fault.

ghost use Rattle.std.specs.Prelude.{◌≡◌, ◌⊎◌, ◌<◌, IfOk, IfSome, length};
ghost use Rattle.oim_places.specs.FaultPlaces.{IsPlaceAt, IsPlaceOf, column_place, unknown_place};
ghost use Rattle.oim_places.specs.FilePlaces.{place_text};
ghost use Rattle.oim_explain.specs.TablePlaces.{ExplainsAt, ExplainsTable};

use crate::explanation::Explanation;
use crate::facts::{Told, of_fact};
use crate::files::{changed, of_file};
use crate::levels::RowOfFault;
use crate::rows::of_record;
use crate::table_again::TableAgain;
use csv::ByteRecord;
use oim_files::Folder;
use oim_meta::{Level, Report, Written};
use oim_names::{Items, Text, find};
use oim_places::{
    FaultPlace, FaultRecord, ReportAgain, RowAgain, cell_shown, excerpt, fault_record,
    first_record_with, is_of_file, line_again, place_in_file, place_in_record, record_shown,
    table_path, text_at,
};
use oim_rows::{TableFault, TableKind};
use std::alloc::{AllocError, Global};
use std::io::Read;

/// Returns the name of the column of row identifiers. Returns `None` if the template has none.
fn id_column(report: &Report, table: usize) -> Option<&str>
    requires { table < length report.now.tables }
{
    let columns = report.template_columns(table);
    match report.row_id_column(table) {
        Some(place) if place < columns.len() => Some(columns[place].id.as_str()),
        _ => None,
    }
}

/// Returns the place of the header's first cell that is this text.
fn place_of_text(again: &RowAgain, text: &str) -> Option<usize> {
    for place in 0..again.header.len() {
        if text_at(&again.header, place) == Some(text) {
            return Some(place);
        }
    }
    None
}

/// Returns the identifier of a row, cut.
fn row_id(
    alloc: Global,
    report: &Report,
    table: usize,
    again: &RowAgain,
    number: u32,
) -> Result<String, AllocError>
    requires { table < length report.now.tables }
{
    let place = match id_column(report, table) {
        Some(name) => place_of_text(again, name),
        None => None,
    };
    match place {
        Some(place) => excerpt(alloc, text_at(&again.row, place).unwrap_or("?")),
        None => format!(in alloc; "r_{number}"),
    }
}

/// Returns the concept that a level writes as a literal.
fn concept_in(level: &Level) -> Option<&str> {
    match find(level.dimensions.as_slice(), "concept") {
        Some(Written::Text(text)) => Some(text.as_str()),
        _ => None,
    }
}

/// Returns the concept that a column itself writes as a literal, unless a property group may write
/// another.
fn concept_of<'r>(report: &'r Report, table: usize, column: &str) -> Option<&'r str>
    requires { table < length report.now.tables }
{
    let columns = report.template_columns(table);
    let place = match report.place_of_column(table, column.as_bytes()) {
        Some(place) if place < columns.len() => place,
        _ => return None,
    };
    if columns[place].from.as_slice().is_empty() {
        concept_in(&columns[place].level)
    } else {
        None
    }
}

/// Returns a column by its name in the header, cut, with its concept, if that is known.
fn column_named(
    alloc: Global,
    report: &Report,
    table: usize,
    name: &str,
) -> Result<String, AllocError>
    requires { table < length report.now.tables }
{
    let shown = excerpt(alloc, name)?;
    let shown = shown.as_str();
    match concept_of(report, table, name) {
        Some(concept) => {
            let concept = excerpt(alloc, concept)?;
            let concept = concept.as_str();
            format!(in alloc; "{shown} ({concept})")
        }
        None => String::from_str(alloc, shown),
    }
}

/// Returns a cell of a row, with its column and its row, if that has an identifier.
fn cell_of_row(
    alloc: Global,
    report: &Report,
    fault: &TableFault,
    again: &RowAgain,
    place: usize,
) -> Result<String, AllocError>
    requires { (fault.now).table < length report.now.tables }
{
    let cell = cell_shown(alloc, &again.row, place)?;
    let name = text_at(&again.header, place).unwrap_or("?");
    let column = column_named(alloc, report, fault.table, name)?;
    let id = row_id(alloc, report, fault.table, again, fault.row)?;
    let (cell, column, id) = (cell.as_str(), column.as_str(), id.as_str());
    if id.is_empty() {
        return format!(in alloc; "{cell} in {column}");
    }
    format!(in alloc; "{cell} in {column} of row {id}")
}

/// Returns a record of another length than the header, and that of the header.
fn lengths(alloc: Global, again: &RowAgain) -> Result<String, AllocError> {
    let record = record_shown(alloc, &again.row)?;
    let record = record.as_str();
    let count = again.header.len();
    format!(in alloc; "{record}; the header has {count}")
}

/// Returns what is at the place of a fault.
fn found_in(
    alloc: Global,
    report: &Report,
    fault: &TableFault,
    again: &RowAgain,
) -> Result<String, AllocError>
    requires { (fault.now).table < length report.now.tables }
{
    match place_in_record(fault) {
        Some(place) if fault.row > 0 => cell_of_row(alloc, report, fault, again, place),
        Some(place) => cell_shown(alloc, &again.header, place),
        None if fault.kind == TableKind::Ragged => lengths(alloc, again),
        None if fault.row > 0 => record_shown(alloc, &again.row),
        None => excerpt(alloc, id_column(report, fault.table).unwrap_or("?")),
    }
}

/// Returns the line of the first row that has the text of a cell at its place, or 0 if it is not
/// known.
fn first_line<R: Read + Drop, F: Folder<R>>(
    alloc: Global,
    folder: &mut F,
    path: &str,
    row: &ByteRecord,
    place: usize,
) -> Result<u64, AllocError> {
    let Some(reader) = folder.open(path) else {
        return Ok(0);
    };
    let Some(text) = row.get(place) else {
        return Ok(0);
    };
    match first_record_with(alloc, reader, place, text)? {
        Some(number) => Ok(line_again(alloc, folder, path, number).unwrap_or(0)),
        None => Ok(0),
    }
}

/// Returns what is at the place of a row identifier that an earlier row has.
fn with_first_line<R: Read + Drop, F: Folder<R>>(
    alloc: Global,
    folder: &mut F,
    path: &str,
    fault: &TableFault,
    again: &RowAgain,
    found: String,
) -> Result<String, AllocError> {
    match place_in_record(fault) {
        Some(place) if fault.kind == TableKind::RepeatedRowId => {
            let line = first_line(alloc, folder, path, &again.row, place)?;
            let found = found.as_str();
            format!(in alloc; "{found}, first in line {line}")
        }
        _ => Ok(found),
    }
}

/// The files of a report that is read again, and the path of one of its tables.
#[derive(Clone, Copy)]
struct TablePath<'r> {
    again: &'r ReportAgain,
    meta: &'r str,
    path: &'r str,
}

/// Returns what is told of a fault at a record of a table's file, which begins at this line.
fn told_of<R: Read + Drop, F: Folder<R>>(
    alloc: Global,
    folder: &mut F,
    table: TablePath<'_>,
    fault: &TableFault,
    cells: &RowAgain,
    line: Option<u64>,
) -> Result<Told, AllocError>
    requires { (fault.now).table < length table.again.now.report.tables }
{
    let report = &table.again.report;
    let columns = report.template_columns(fault.table);
    let (TableKind::Cell(kind), Some(place)) = (fault.kind, place_in_record(fault)) else {
        return of_record(alloc, folder, table.path, columns, fault, cells, line);
    };
    let name = text_at(&cells.header, place).unwrap_or("");
    let Some(column) = report.place_of_column(fault.table, name.as_bytes()) else {
        return of_record(alloc, folder, table.path, columns, fault, cells, line);
    };
    let TablePath { again, meta, path } = table;
    let first = line_again(alloc, folder, path, 0);
    let table = TableAgain::new(alloc, again, meta, path, fault.table, &cells.header, first)?;
    let row = table.row_of(alloc, cells, fault.row)?;
    match RowOfFault::new(&table, &row, column, cells, line) {
        Some(row) => of_fact(alloc, folder, &row, kind),
        None => of_record(alloc, folder, path, columns, fault, cells, line),
    }
}

/// Returns the explanation of a fault at a record of a table's file, which begins at this line.
fn at_record<R: Read + Drop, F: Folder<R>>(
    alloc: Global,
    folder: &mut F,
    table: TablePath<'_>,
    fault: &TableFault,
    cells: &RowAgain,
    line: Option<u64>,
) -> Result<Explanation, AllocError>
    requires { (fault.now).table < length table.again.now.report.tables }
    ensures { IfOk result (λ e. e.place ≡ place_text table.entry.path.now line (column_place (fault.now).column)) }
{
    let found = found_in(alloc, &table.again.report, fault, cells)?;
    let found = with_first_line(alloc, folder, table.path, fault, cells, found)?;
    let told = told_of(alloc, folder, table, fault, cells, line)?;
    let Told {
        mut sources,
        cause,
        advice,
    } = told;
    let source = sources.pop();
    Ok(Explanation {
        place: Text::new(place_in_file(alloc, table.path, line, place_in_record(fault))?),
        found: Text::new(found),
        source,
        cause,
        advice,
        path: Items::from_vec(sources),
    })
}

/// What is found out about a table's fault when its file is read again.
#[derive(Drop)]
pub struct ExplainedFault {
    /// What `--explain` prints.
    pub explanation: Explanation,
    /// What the file of faults has.
    pub place: FaultPlace,
}

/// Returns what is known of a fault without a place in its file, with this explanation.
fn without_place(alloc: Global, explanation: Explanation) -> Result<ExplainedFault, AllocError>
    ensures explanation { IfOk result (λ e. e.explanation ≡ explanation) }
    ensures place { IfOk result (λ e. e.place ≡ unknown_place) }
{
    match FaultPlace::unknown(alloc) {
        Ok(place) => Ok(ExplainedFault { explanation, place }),
        Err(error) => Err(error),
    }
}

/// Returns what is known of a fault at this record of a table's file.
fn with_record<R: Read + Drop, F: Folder<R>>(
    alloc: Global,
    folder: &mut F,
    table: TablePath<'_>,
    fault: &TableFault,
    found: FaultRecord,
) -> Result<ExplainedFault, AllocError>
    requires { (fault.now).table < length table.again.now.report.tables }
    ensures explanation { IfOk result (λ e. e.explanation.place ≡ place_text table.entry.path.now found.place.line (column_place (fault.now).column)) }
    ensures place { IfOk result (λ e. e.place ≡ found.place) }
{
    let line = found.place.line;
    match at_record(alloc, folder, table, fault, &found.cells, line) {
        Ok(explanation) => {
            let FaultRecord { cells: _, place } = found;
            Ok(ExplainedFault { explanation, place })
        }
        Err(error) => Err(error),
    }
}

/// Returns what is known of a fault of a table whose file is at this path.
fn at_path<R: Read + Drop, F: Folder<R>>(
    alloc: Global,
    folder: &mut F,
    table: TablePath<'_>,
    fault: &TableFault,
) -> Result<ExplainedFault, AllocError>
    requires { (fault.now).table < length table.again.now.report.tables }
    ensures explanation { IfOk result (λ e. IfSome (F.files folder.old) (λ files. ExplainsAt files table.entry.path.now table.entry.again.now.report fault.now e.explanation)) }
    ensures place { IfOk result (λ e. IfSome (F.files folder.old) (λ files. (e.place ≡ unknown_place) ⊎ IsPlaceAt files table.entry.path.now table.entry.again.now.report fault.now e.place)) }
{
    if is_of_file(fault.kind) {
        let explanation = of_file(alloc, table.path, fault.kind.explanation())?;
        return without_place(alloc, explanation);
    }
    match fault_record(alloc, folder, table.path, &table.again.report, fault)? {
        Some(record) => with_record(alloc, folder, table, fault, record),
        None => without_place(alloc, changed(alloc, table.path)?),
    }
}

/// Returns what is found out about the fault of a table of this report, whose metadata is at
/// `meta`: its explanation, and its place in the file of faults. The table's file is read again.
///
/// If the file no longer has the fault or cannot be read again, the explanation is about that, and
/// the place is unknown.
pub fn explained_fault<R: Read + Drop, F: Folder<R>>(
    alloc: Global,
    meta: &str,
    folder: &mut F,
    again: &ReportAgain,
    fault: &TableFault,
) -> Result<ExplainedFault, AllocError>
    ensures explanation { IfOk result (λ e. IfSome (F.files folder.old) (λ files. ExplainsTable files meta.now again.now.report fault.now e.explanation)) }
    ensures place { IfOk result (λ e. IfSome (F.files folder.old) (λ files. IsPlaceOf files meta.now again.now.report fault.now e.place)) }
{
    if fault.table >= again.report.tables() {
        return without_place(alloc, changed(alloc, meta)?);
    }
    let path = table_path(alloc, meta, &again.report, fault.table)?;
    let table = TablePath {
        again,
        meta,
        path: path.as_str(),
    };
    at_path(alloc, folder, table, fault)
}
