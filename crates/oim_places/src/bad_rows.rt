//! The bad rows of a table's file, each with what is at the places of its faults.

ghost use Rattle.std.specs.Prelude.{◌≡◌, ◌<◌, [], ◌∷◌, IfErr, IfOk, IfSome, OnSome, Some, length, map};
ghost use Rattle.std.specs.List.{All};
ghost use Rattle.csv.specs.Records.{fields_of};
ghost use Rattle.oim_files.specs.Metadata.{profile};
ghost use Rattle.oim_records.specs.Grids.{grid};
ghost use Rattle.oim_rows.specs.Streams.{IsOutside};
ghost use Rattle.oim_table_faults.specs.Reading.{GivesBadRow, KeepsTable};
ghost use Rattle.oim_places.specs.FaultLists.{AreAt, ArePlacesIn, GivesRow, KeepsFiles, RecordsByRow, faults_by_row};
ghost use Rattle.oim_places.specs.state.FaultLists.{AreOf, HasRowOf, IsPlacedIn, left_with};

use crate::cells::field_as_text;
use crate::fault_places::{FaultPlace, place_in_record};
use crate::record_lines::RecordLines;
use crate::records::{RowAgain, copy_fields, header_of};
use csv::ByteRecord;
use ghost_value::GhostValue;
use oim_meta::{Limits, Report};
use oim_names::Items;
use oim_rows::{TableFault, TableKind, whole_fault};
use oim_table_faults::TableFaults;
use std::alloc::{AllocError, Global};
use std::io::Read;
use std::marker::Model;

/// A fault of a table, and what is at its place.
#[derive(Drop)]
pub struct LocatedFault {
    /// The fault.
    pub fault: TableFault,
    /// Its place.
    pub place: FaultPlace,
}

/// Returns a list of one fault.
fn alone(alloc: Global, fault: TableFault) -> Result<Items<TableFault>, AllocError>
    ensures { IfOk result (λ faults. faults ≡ fault ∷ []) }
{
    let mut faults = Items::new(alloc);
    faults.push(fault)?;
    Ok(faults)
}

/// The faults of a table row by row, and what is at their places.
///
/// It keeps only the identifiers of the rows and the current row. Contracts see the table's place
/// and the faults that are left, if the file's bytes are known, and the bytes from which the
/// header, the rows and the lines are read, if these are known.
#[derive(Drop)]
pub struct BadRows<'a, R: Read + Drop> {
    // What the readers of the header and of the rows had at first.
    heads: GhostValue<R>,
    file: GhostValue<R>,
    table: usize,
    // The fault of the header until it is given, if it has one.
    header: Option<TableFault>,
    // The rows, if the header has no fault.
    rows: Option<TableFaults<'a, R>>,
    cells: RowAgain,
    lines: RecordLines<R>,
}

impl<'a, R: Read + Drop> Model for BadRows<'a, R> {
    ghost use Rattle.oim_places.specs.FaultLists.{LocatedLeft};
    ghost use Rattle.csv.specs.Records.{fields_of};
    ghost use Rattle.oim_places.specs.state.FaultLists.{AreOf, HasHeader, left_with, number_of};

    ghost Value = { LocatedLeft };

    ghost view = { λ a. record {
      table = a.table;
      left = left_with a.header a.rows;
      heads = R.remaining a.heads.value;
      cells = R.remaining a.file.value;
      lines = a.lines.file;
      number = number_of a.rows;
      header = fields_of a.cells.header;
      row = fields_of a.cells.row;
    } };

    ghost invariant = { λ a. AreOf a.table (R.remaining a.file.value) (fields_of a.cells.row) a.rows × HasHeader (R.remaining a.heads.value) (fields_of a.cells.header) };
}

/// Returns what is at the place of a fault in the record that begins at this line.
fn place_at(
    alloc: Global,
    cells: &RowAgain,
    line: u64,
    fault: &TableFault,
) -> Result<FaultPlace, AllocError>
    ensures { IfOk result (λ p. IsPlacedIn (fields_of (cells.now).header) (fields_of (cells.now).row) line (fault.now).column p) }
{
    let column = place_in_record(fault);
    Ok(FaultPlace {
        line: Some(line),
        header: field_as_text(alloc, &cells.header, column)?,
        cell: field_as_text(alloc, &cells.row, column)?,
    })
}

/// Returns each of these faults with its place in the record of this number, which begins at this
/// line. Returns `None` if one of them is of another record.
fn placed(
    alloc: Global,
    cells: &RowAgain,
    number: u32,
    line: u64,
    faults: &[TableFault],
) -> Result<Option<Items<LocatedFault>>, AllocError>
    ensures faults { IfOk result (λ o. IfSome o (λ located. map (λ l. l.fault) located ≡ faults.now)) }
    ensures places { IfOk result (λ o. IfSome o (λ located. All (λ l. (l.fault.row ≡ number)
        × IsPlacedIn (fields_of (cells.now).header) (fields_of (cells.now).row) line l.fault.column l.place) located)) }
{
    let mut located = Items::new(alloc);
    for fault in faults {
        if fault.row != number {
            return Ok(None);
        }
        let place = place_at(alloc, cells, line, fault)?;
        located.push(LocatedFault {
            fault: *fault,
            place,
        })?;
    }
    Ok(Some(located))
}

/// Opens a table's rows: the fault of its header, or the rows that have faults.
fn opened<'a, R: Read + Drop>(
    alloc: Global,
    report: &'a Report,
    table: usize,
    reader: R,
) -> Result<(Option<TableFault>, Option<TableFaults<'a, R>>), TableFault>
    requires { table < length report.now.tables }
    ensures faults { IfSome (R.remaining reader) (λ bytes. IfOk result (λ p. left_with p.0 p.1 ≡ Some (faults_by_row report.now table profile.rows (grid bytes)))) }
    ensures rows { IfOk result (λ p. AreOf table (R.remaining reader) [] p.1) }
    ensures failed { IfErr result (IsOutside table) }
{
    match TableFaults::open(alloc, report, table, reader, Limits::profile()) {
        Ok(rows) => Ok((None, Some(rows))),
        Err(fault) => {
            let is_read = fault == whole_fault(table, TableKind::Read);
            if is_read || fault == whole_fault(table, TableKind::Memory) {
                return Err(fault);
            }
            Ok((Some(fault), None))
        }
    }
}

/// Returns the faults of the next bad row of this table, and copies that row.
fn next_copied<R: Read + Drop>(
    table: usize,
    rows: &mut TableFaults<'_, R>,
    row: &mut ByteRecord,
) -> Result<Option<Items<TableFault>>, TableFault>
    requires { (rows.old).table ≡ table }
    ensures next { IfSome (rows.old).left (λ left. GivesBadRow table left result (rows.new).left) }
    ensures row { IfOk result (λ o. OnSome o (HasRowOf (rows.old).file (rows.new).given (fields_of row.new))) }
    ensures same { KeepsTable rows.old rows.new }
{
    let Some(faults) = rows.next_row()? else {
        return Ok(None);
    };
    match copy_fields(&rows.row(), row) {
        Ok(()) => Ok(Some(faults)),
        Err(_) => Err(whole_fault(table, TableKind::Memory)),
    }
}

impl<'a, R: Read + Drop> BadRows<'a, R> {
    /// Opens the table at place `table` of the report. The readers are three of its file: for its
    /// header, its rows and its lines.
    ///
    /// Fails with Read if the file has no header, or if the header or the start of the lines cannot
    /// be read, also if memory runs out for them. Fails with Read or Memory if the rows cannot be
    /// read.
    pub fn open(
        alloc: Global,
        report: &'a Report,
        table: usize,
        header: R,
        rows: R,
        lines: R,
    ) -> Result<BadRows<'a, R>, TableFault>
        requires { table < length report.now.tables }
        ensures start { IfOk result (λ b. (b.table ≡ table) × (b.heads ≡ R.remaining header) × (b.cells ≡ R.remaining rows) × (b.lines ≡ R.remaining lines)) }
        ensures faults { IfSome (R.remaining rows) (λ bytes. IfOk result (λ b. b.left ≡ Some (faults_by_row report.now table profile.rows (grid bytes)))) }
        ensures failed { IfErr result (IsOutside table) }
    {
        let heads = GhostValue::seen(&header);
        let file = GhostValue::seen(&rows);
        let Some(cells) = header_of(alloc, header) else {
            return Err(whole_fault(table, TableKind::Read));
        };
        let Ok(lines) = RecordLines::open(alloc, lines) else {
            return Err(whole_fault(table, TableKind::Read));
        };
        let (header, rows) = opened(alloc, report, table, rows)?;
        Ok(BadRows {
            heads,
            file,
            table,
            header,
            rows,
            cells,
            lines,
        })
    }

    // Returns the faults of the next row that has some, and copies the row.
    fn next_faults(&mut self, alloc: Global) -> Result<Option<Items<TableFault>>, TableFault>
        ensures next { IfSome self.old.left (λ rows. GivesBadRow self.old.table rows result self.new.left) }
        ensures row { IfOk result (λ o. OnSome o (HasRowOf self.old.cells self.new.number self.new.row)) }
        ensures same { KeepsFiles self.old self.new }
    {
        if let Some(rows) = &mut self.rows {
            return next_copied(self.table, rows, &mut self.cells.row);
        }
        let Some(fault) = self.header.take() else {
            return Ok(None);
        };
        match alone(alloc, fault) {
            Ok(faults) => Ok(Some(faults)),
            Err(_) => Err(whole_fault(self.table, TableKind::Memory)),
        }
    }

    // Returns the number of the current row, or 0 for the header.
    fn number(&self) -> u32
        ensures { result ≡ (self.now).number }
    {
        match &self.rows {
            Some(rows) => rows.number(),
            None => 0,
        }
    }

    // Returns these faults of the current row with their places. Returns `None` if one of them is
    // of another row or its line is not found.
    fn located(
        &mut self,
        alloc: Global,
        faults: &[TableFault],
    ) -> Result<Option<Items<LocatedFault>>, AllocError>
        requires { HasRowOf self.old.cells self.old.number self.old.row }
        ensures faults { IfOk result (λ o. IfSome o (λ located. map (λ l. l.fault) located ≡ faults.now)) }
        ensures places { self.old.heads ≡ self.old.cells → IfOk result (λ o. IfSome o (λ located. ArePlacesIn self.old.cells self.old.lines located)) }
        ensures cells { self.old.heads ≡ self.old.cells → IfOk result (λ o. IfSome o (λ located. AreAt self.old.cells self.new.header self.new.row located)) }
        ensures left { self.new.left ≡ self.old.left }
        ensures same { KeepsFiles self.old self.new }
    {
        let number = self.number();
        match self.lines.line_of(number as usize)? {
            Some(line) => placed(alloc, &self.cells, number, line, faults),
            None => Ok(None),
        }
    }

    /// Returns the faults of the next bad row, one at least, with what is at their places, or None
    /// at the end of the table. A fault of the header is given as the first row would be.
    ///
    /// Fails with Read if a reader failed or the file changed, and with Memory if memory runs out.
    ///
    /// The cells are those of the file if the readers of the header and the rows have the same
    /// bytes.
    pub fn next_row(&mut self, alloc: Global) -> Result<Option<Items<LocatedFault>>, TableFault>
        ensures next { IfSome self.old.left (λ rows. GivesRow self.old.table rows result self.new.left) }
        ensures places { self.old.heads ≡ self.old.cells → IfOk result (λ o. IfSome o (λ located. ArePlacesIn self.old.cells self.old.lines located)) }
        ensures cells { self.old.heads ≡ self.old.cells → IfOk result (λ o. IfSome o (λ located. AreAt self.old.cells self.new.header self.new.row located)) }
        ensures same { KeepsFiles self.old self.new }
    {
        let Some(faults) = self.next_faults(alloc)? else {
            return Ok(None);
        };
        match self.located(alloc, faults.as_slice()) {
            Ok(Some(located)) => Ok(Some(located)),
            Ok(None) => Err(whole_fault(self.table, TableKind::Read)),
            Err(_) => Err(whole_fault(self.table, TableKind::Memory)),
        }
    }

    /// Returns the header and the row of the last faults, which is empty for those of the header.
    pub fn cells(&self) -> &RowAgain
        ensures { (fields_of (result.now).header ≡ (self.now).header) × (fields_of (result.now).row ≡ (self.now).row) }
    {
        &self.cells
    }
}

/// Proves that the records of all faults of a table are those of its rows, in order, each of which
/// is `fault_row` of a fault that `BadRows` gives. The call does nothing.
pub fn fault_records_are_by_row()
    ensures { RecordsByRow }
{}
