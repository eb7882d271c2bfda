//! The bad rows of one table, one at a time.

ghost use Rattle.std.specs.Prelude.{◌≡◌, ◌⊎◌, ◌≤◌, ◌<◌, ◌+◌, IfErr, IfOk, IfSome, None, OnSome, Some, length};
ghost use Rattle.oim_records.specs.Grids.{grid};
ghost use Rattle.oim_rows.specs.Header.{file_header_fault};
ghost use Rattle.oim_rows.specs.Streams.{IsOutside, answer_of};
ghost use Rattle.oim_table_faults.specs.Reading.{GivesBadRow, IsCurrent, KeepsEnd, KeepsTable};
ghost use Rattle.oim_table_faults.specs.TableFaults.{bad_rows_of};
ghost use Rattle.oim_table_faults.specs.state.Rows.{Steps, if_any};

use crate::row_faults::RowFaults;
use ghost_value::GhostValue;
use oim_names::Items;
use oim_records::{Fields, RecordReader};
use oim_report::{Limits, Report};
use oim_rows::{TableFault, TableHeader, TableKind, fault_of_read, whole_fault};
use std::alloc::Global;
use std::io::Read;
use std::marker::Model;

/// The bad rows of a table that are not read yet (xBRL-CSV 1.0, table files: the first record is
/// the header, and each record after it a row).
///
/// It keeps only the identifiers of the rows and the current row. Contracts see the table's place
/// and limit, how many rows were read, the current row, and the end or the failure once it was
/// found. For a reader whose bytes are known they also see these, the bad rows that are left and
/// the unread records.
pub struct TableFaults<'a, R: Read + Drop> {
    file: GhostValue<R>,
    rows: RowFaults<'a>,
    records: RecordReader<R>,
    limit: u32,
    given: u32,
    // The end or the failure, once it was found.
    settled: Option<Option<TableFault>>,
}

// Written by hand so that dropping one elsewhere compiles to a single call.
impl<R: Read + Drop> Drop for TableFaults<'_, R> {
    fn drop(self) {
        let Self {
            file: _,
            rows: _,
            records: _,
            limit: _,
            given: _,
            settled: _,
        } = self;
    }
}

impl<'a, R: Read + Drop> Model for TableFaults<'a, R> {
    ghost use Rattle.std.specs.Prelude.{◌≡◌, ◌≤◌, ◌<◌, ◌^◌, ◌-◌, ◌+◌, None};
    ghost use Rattle.oim_table_faults.specs.Reading.{FaultsLeft};
    ghost use Rattle.oim_table_faults.specs.state.Rows.{IsReading, left_of};

    ghost Value = { FaultsLeft };

    ghost view = { λ a. record {
      table = a.rows.header.table;
      limit = a.limit;
      given = a.given;
      answered = a.settled;
      left = left_of a.settled a.rows (a.given + 1) a.records.left;
      unread = a.records.left;
      file = R.remaining a.file.value;
      row = a.records.fields;
    } };

    ghost invariant = { λ a. (a.rows.header.limit ≡ a.limit) × (a.limit < 2 ^ 32 - 1) × (a.given ≤ a.limit + 1)
        × (a.settled ≡ None → (a.given ≤ a.limit) × IsReading (R.remaining a.file.value) a.given a.records.left) };
}

/// Returns the faults of a row, if it has any.
fn if_any(faults: Items<TableFault>) -> Option<Items<TableFault>>
    ensures { result ≡ if_any faults }
{
    if faults.is_empty() {
        None
    } else {
        Some(faults)
    }
}

impl<'a, R: Read + Drop> TableFaults<'a, R> {
    /// Opens the table at place `table` of the report: reads its header, after an optional
    /// byte-order mark.
    ///
    /// The first row past `limits.rows` is the last that is read. Fails with the header's first
    /// fault, in this order: NoHeader, UnknownHeader, RepeatedHeader, NoRowIdColumn. Fails with
    /// Read if the reader failed, and with Memory if memory runs out.
    pub fn open(
        alloc: Global,
        report: &'a Report,
        table: usize,
        reader: R,
        limits: Limits,
    ) -> Result<TableFaults<'a, R>, TableFault>
        requires place { table < length report.now.tables }
        requires rows { limits.rows ≤ 4294967294 }

        // The bad rows of the table, if its header has no fault.
        ensures start { IfOk result (λ rows. (rows.table ≡ table) × (rows.limit ≡ limits.rows) × (rows.given ≡ 0) × (rows.answered ≡ None) × (rows.file ≡ R.remaining reader)) }
        ensures rows { IfSome (R.remaining reader) (λ bytes. IfOk result (λ rows. rows.left ≡ Some (bad_rows_of report.now table limits.rows (grid bytes)))) }
        ensures header { IfSome (R.remaining reader) (λ bytes. IfOk result (λ _. file_header_fault report.now table (grid bytes) ≡ None)) }

        // Its fault, unless the reader failed or memory ran out.
        ensures fault { IfSome (R.remaining reader) (λ bytes. IfErr result (λ e. IsOutside table e
            ⊎ (file_header_fault report.now table (grid bytes) ≡ Some e))) }
    {
        let file = GhostValue::seen(&reader);
        let mut records = match RecordReader::open(alloc, reader) {
            Ok(records) => records,
            Err(fault) => return Err(fault_of_read(table, fault)),
        };
        let header = match TableHeader::read(alloc, report, table, limits.rows, &mut records) {
            Ok(header) => header,
            Err(fault) => return Err(fault),
        };
        let Ok(rows) = RowFaults::new(alloc, header) else {
            return Err(whole_fault(table, TableKind::Memory));
        };
        Ok(TableFaults {
            file,
            rows,
            records,
            limit: limits.rows,
            given: 0,
            settled: None,
        })
    }
}

ghost use Rattle.std.specs.Prelude.{IsSome, is_some};

impl<R: Read + Drop> TableFaults<'_, R> {
    /// Returns the faults of the next bad row, one at least, or None at the end of the table: only
    /// the fault of the row itself, or else those of its cells, in header order.
    ///
    /// After the end or a failure each call answers the same and takes no record. Fails with Read
    /// if the reader failed, and with Memory if memory runs out.
    pub fn next_row(&mut self) -> Result<Option<Items<TableFault>>, TableFault>
        ensures next { IfSome self.old.left (λ rows. GivesBadRow self.old.table rows result self.new.left) }
        ensures kept { KeepsEnd result self.new.answered }
        ensures again { IfSome self.old.answered (λ kept. (result ≡ answer_of kept) × (self.new ≡ self.old)) }

        // The row that has them.
        ensures row { IfOk result (λ o. OnSome o (IsCurrent self.old.file self.new.given self.new.row)) }

        // What holds of any reader.
        ensures some { IfOk result (λ o. IfSome o (λ faults. 1 ≤ length faults)) }
        ensures counts { (self.old.given ≤ self.new.given) × (self.new.given ≤ self.new.limit + 1) }
        ensures moves { IfOk result (λ o. OnSome o (self.old.given < self.new.given)) }
        ensures same { KeepsTable self.old self.new }
    {
        while !self.is_settled() {
            if let Some(faults) = self.step() {
                return Ok(Some(faults));
            }
        }
        self.ending()
    }

    /// Returns the number of the current row, which is that of the last faults.
    pub fn number(&self) -> u32
        ensures { result ≡ (self.now).given }
    {
        self.given
    }

    /// Returns the fields of the current row.
    pub fn row(&self) -> Fields<'_>
        ensures { result ≡ (self.now).row }
    {
        self.records.fields()
    }

    // Returns whether the end or a failure was found.
    fn is_settled(&self) -> bool
        ensures value { result ≡ is_some (self.now).answered }
        ensures within { (self.now).given ≤ (self.now).limit + 1 }
    {
        match self.settled {
            Some(_) => true,
            None => false,
        }
    }

    // Returns what was found.
    fn ending(&self) -> Result<Option<Items<TableFault>>, TableFault>
        requires { IsSome (self.now).answered }
        ensures value { IfSome (self.now).answered (λ kept. result ≡ answer_of kept) }
        ensures rows { IfSome (self.now).left (λ rows. GivesBadRow (self.now).table rows result (self.now).left) }
    {
        match self.settled {
            Some(Some(fault)) => Err(fault),
            Some(None) | None => Ok(None),
        }
    }

    // Reads one row and returns its faults, if it has any.
    fn step(&mut self) -> Option<Items<TableFault>>
        requires { self.old.answered ≡ None }
        ensures rows { IfSome self.old.left (λ rows. Steps rows result self.new) }
        ensures row { OnSome result ((self.old.given < self.new.given) × IsCurrent self.old.file self.new.given self.new.row) }
        ensures some { IfSome result (λ faults. 1 ≤ length faults) }
        ensures counts { (self.old.given ≤ self.new.given) × (self.new.given ≤ self.new.limit + 1) }
        ensures moves { IsSome self.new.answered ⊎ (self.old.given < self.new.given) }
        ensures same { KeepsTable self.old self.new }
    {
        match self.records.read() {
            Ok(true) => {}
            Ok(false) => {
                self.settled = Some(None);
                return None;
            }
            Err(fault) => {
                self.settled = Some(Some(fault_of_read(self.rows.table(), fault)));
                return None;
            }
        }
        let Ok(faults) = self.rows.faults_of(self.given + 1, &self.records) else {
            self.settled = Some(Some(whole_fault(self.rows.table(), TableKind::Memory)));
            return None;
        };
        self.given += 1;
        if self.given <= self.limit {
            return if_any(faults);
        }
        self.settled = Some(None);
        if_any(faults)
    }
}
