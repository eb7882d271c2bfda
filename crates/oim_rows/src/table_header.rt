//! The header of a table as it was read, and the faults of a row that do not come from its cells.

ghost use Rattle.std.specs.Prelude.{◌≡◌, ◌⊎◌, ◌<◌, IfOk, IfErr, IfSome, OnOk, length};
ghost use Rattle.std.specs.String.{string_bytes};
ghost use Rattle.oim_rows.specs.Header.{file_header_fault};
ghost use Rattle.oim_rows.specs.RowFacts.{id_place_of, row_fault, row_id_place, source_of_column};
ghost use Rattle.oim_rows.specs.Streams.{IsOutside, TakesHeader};

use crate::cells::{Cells, count_of_texts, first_not_text, known_text_at, text_at};
use crate::fault::{TableFault, TableKind, fault_at_place, fault_of_whole_row};
use crate::header::{read_csv_header, read_header};
use crate::header_columns::HeaderColumns;
use crate::ids::RowIds;
use csv::ByteRecord;
use itoa::Buffer;
use oim_records::{Fields, RecordReader, Records, TextFields};
use oim_report::Report;
use std::alloc::{AllocError, Global};
use std::io::Read;
use std::marker::Model;

/// The header of one table as it was read. It decides whether a record is a valid row.
///
/// A contract sees the report, the table's index, the most rows that it may have, and the column of
/// each cell of the header.
#[derive(Drop)]
pub struct TableHeader<'a> {
    report: &'a Report,
    table: usize,
    limit: u32,
    columns: HeaderColumns,
    // the index in the header of the row identifier
    id_place: Option<usize>,
}

impl<'a> Model for TableHeader<'a> {
    ghost use Rattle.std.specs.Prelude.{◌≡◌, ◌<◌, length};
    ghost use Rattle.oim_report.specs.Readers.{template_of};
    ghost use Rattle.oim_rows.specs.RowFacts.{TableHeaderValue, row_id_place};

    ghost Value = { TableHeaderValue };

    ghost view = { λ a. record { report = a.report.now; table = a.table; limit = a.limit; columns = a.columns } };

    ghost invariant = { λ a. (a.table < length a.report.now.tables)
        × (a.id_place ≡ row_id_place (template_of a.report.now a.table).row_id_column a.columns) };
}

/// Returns the index in a header of the row identifier, if the template has a column for it.
fn place_of_id(header: &HeaderColumns, column: Option<usize>) -> Option<usize>
    ensures { result ≡ row_id_place column header.now }
{
    match column {
        Some(column) => header.place_of(column),
        None => None,
    }
}

impl<'a> TableHeader<'a> {
    /// Reads the header of a table, the first record left in `records`.
    ///
    /// The table may have at most `limit` rows.
    ///
    /// Returns the header's first fault, in this order: NoHeader, UnknownHeader, RepeatedHeader,
    /// NoRowIdColumn. Returns Read if the reader fails, and Memory if memory runs out.
    pub fn read<R: Read + Drop>(
        alloc: Global,
        report: &'a Report,
        table: usize,
        limit: u32,
        records: &mut RecordReader<R>,
    ) -> Result<TableHeader<'a>, TableFault>
        requires { table < length report.now.tables }
        ensures value { IfOk result (λ f. f ≡ record { report = report.now; table = table; limit = limit; columns = f.columns }) }
        ensures header { IfOk result (λ f. TakesHeader report.now table records.old.left f.columns records.new.left) }
        ensures fault { IfErr result (λ e. IsOutside table e ⊎ IfSome records.old.left (λ rs. file_header_fault report.now table rs ≡ Some e)) }
    {
        match read_header(alloc, report, table, records) {
            Ok(columns) => Ok(TableHeader::of_columns(report, table, limit, columns)),
            Err(fault) => Err(fault),
        }
    }

    /// Reads the header as `read` does, for records that the `csv` crate reads. `row` takes the
    /// header's record.
    pub(crate) fn read_csv<R: Read>(
        alloc: Global,
        report: &'a Report,
        table: usize,
        limit: u32,
        records: &mut Records<R>,
        row: &mut ByteRecord,
    ) -> Result<TableHeader<'a>, TableFault>
        requires { table < length report.now.tables }
        ensures value { IfOk result (λ f. f ≡ record { report = report.now; table = table; limit = limit; columns = f.columns }) }
        ensures header { IfOk result (λ f. TakesHeader report.now table records.old f.columns records.new) }
        ensures fault { IfErr result (λ e. IsOutside table e ⊎ IfSome records.old (λ rs. file_header_fault report.now table rs ≡ Some e)) }
    {
        match read_csv_header(alloc, report, table, records, row) {
            Ok(columns) => Ok(TableHeader::of_columns(report, table, limit, columns)),
            Err(fault) => Err(fault),
        }
    }

    /// Makes the header of a table with these columns.
    fn of_columns(
        report: &'a Report,
        table: usize,
        limit: u32,
        columns: HeaderColumns,
    ) -> TableHeader<'a>
        requires { table < length report.now.tables }
        ensures { result ≡ record { report = report.now; table = table; limit = limit; columns = columns } }
    {
        let id_place = place_of_id(&columns, report.row_id_column(table));
        TableHeader {
            report,
            table,
            limit,
            columns,
            id_place,
        }
    }
}

impl<'a> TableHeader<'a> {
    /// Returns the report of the table.
    pub fn report(&self) -> &'a Report
        ensures { result.now ≡ (self.now).report }
    {
        self.report
    }

    /// Returns the index in the header of the row identifier, if the table has a column for it.
    pub fn id_place(&self) -> Option<usize>
        ensures { result ≡ id_place_of self.now }
    {
        self.id_place
    }

    /// Returns the index of the table in its report.
    pub fn table(&self) -> usize
        ensures value { result ≡ (self.now).table }
        ensures within { result < length (self.now).report.tables }
    {
        self.table
    }

    /// Returns the column of each header cell, or `None` for an empty cell.
    pub fn columns(&self) -> &[Option<usize>]
        ensures { result.now ≡ (self.now).columns }
    {
        self.columns.as_slice()
    }

    /// Returns the index in the header of a column of the template, or `None` if the header lacks
    /// it. It takes the same time however many cells the header has.
    pub fn source(&self, column: usize) -> Option<usize>
        ensures { result ≡ source_of_column (self.now).columns column }
    {
        self.columns.place_of(column)
    }

    /// Returns the first fault of row `number` apart from those of its cells.
    ///
    /// `ids` are the identifiers of the rows before it. The order is Ragged, NotUtf8, TooManyRows,
    /// MissingRowId, BadRowId, RepeatedRowId.
    pub fn fault_of_row(&self, number: u32, ids: &RowIds, row: &Fields<'_>) -> Option<TableFault>
        ensures { result ≡ row_fault self.now number ids.now row.now }
    {
        self.fault_of_cells(number, ids, row)
    }

    /// Returns what `fault_of_row` returns, for a row of any kind.
    pub(crate) fn fault_of_cells<C: Cells>(
        &self,
        number: u32,
        ids: &RowIds,
        row: &C,
    ) -> Option<TableFault>
        ensures { result ≡ row_fault self.now number ids.now (C.cells row.now) }
    {
        if row.count() != self.columns().len() {
            return Some(fault_of_whole_row(self.table, number, TableKind::Ragged));
        }
        if let Some(place) = first_not_text(row) {
            return Some(fault_at_place(self.table, number, place, TableKind::NotUtf8));
        }
        if number > self.limit {
            return Some(fault_of_whole_row(self.table, number, TableKind::TooManyRows));
        }
        let place = self.id_place?;
        let kind = ids.fault_of(text_at(row, Some(place)))?;
        Some(fault_at_place(self.table, number, place, kind))
    }

    /// Returns what `fault_of_row` returns, for a row whose fields are known to be text. It tests
    /// no field.
    #[inline(always)]
    pub fn fault_of_texts(
        &self,
        number: u32,
        ids: &RowIds,
        row: &TextFields<'_>,
    ) -> Option<TableFault>
        ensures { result ≡ row_fault self.now number ids.now row.now }
    {
        if count_of_texts(row) != self.columns().len() {
            return Some(fault_of_whole_row(self.table, number, TableKind::Ragged));
        }
        if self.limit < number {
            let kind = TableKind::TooManyRows;
            return Some(fault_of_whole_row(self.table, number, kind));
        }
        let place = self.id_place?;
        let kind = ids.fault_of(known_text_at(row, Some(place)))?;
        Some(fault_at_place(self.table, number, place, kind))
    }

    /// Returns what `fault_of_row` returns, for the current record of `records`. If it is known to
    /// be text, no field is tested again.
    #[inline]
    pub fn fault_of_record<R: Read + Drop>(
        &self,
        number: u32,
        ids: &RowIds,
        records: &RecordReader<R>,
    ) -> Option<TableFault>
        ensures { result ≡ row_fault self.now number ids.now records.now.fields }
    {
        match records.text_fields() {
            Some(texts) => self.fault_of_texts(number, ids, &texts),
            None => self.fault_of_row(number, ids, &records.fields()),
        }
    }
}

ghost use Rattle.std.specs.Prelude.{◌++◌, codes, decimal, OnErr, Some};

/// Appends the identifier of a row of a table that has no column for it: `r_` and the row's number.
///
/// If memory runs out, nothing is appended.
pub fn push_row_number(id: &mut String, number: u32) -> Result<(), AllocError>
    ensures added { OnOk result (string_bytes id.new ≡ string_bytes id.old ++ (codes "r_" ++ decimal number)) }
    ensures same { OnErr result (string_bytes id.new ≡ string_bytes id.old) }
{
    let mut buffer = Buffer::new();
    let digits = buffer.format(number);
    id.reserve(2 + digits.len())?;
    id.push_str("r_")?;
    id.push_str(digits)
}
