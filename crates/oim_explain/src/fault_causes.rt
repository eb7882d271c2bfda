//! The causes of a table's faults in the file of faults.
//!
//! Not proved: all of this file. Tests cover it.

use crate::levels::RowOfFault;
use crate::source_places::cause_of;
use crate::sources::{SourcePlace, sources};
use crate::table_again::TableAgain;
use oim_places::{FaultCause, RowAgain, place_in_record, text_at};
use oim_resolve::{CellFault, Row, fault_origin};
use oim_rows::{TableFault, TableKind};
use std::alloc::{AllocError, Global};

/// Finds the causes of a table's faults, and counts the rows that have the first one.
#[derive(Drop)]
pub(crate) struct FaultCauses<'r> {
    table: TableAgain<'r>,
    /// The last row that had a fault of a cell, by the places of the template.
    row: Option<Row>,
    /// The cause of the first fault.
    first: Option<FaultCause>,
    /// How many rows have it, if it is elsewhere.
    pub(crate) rows: usize,
    /// The last of these rows.
    last: u32,
}

/// Returns whether two causes are at one place.
fn is_same(one: &FaultCause, other: &FaultCause) -> bool {
    one.line == other.line
        && one.cell.as_str() == other.cell.as_str()
        && one.file.as_str() == other.file.as_str()
}

/// Returns the cause of a fault of the cell at place `own` of the row's record.
fn cause_in(
    alloc: Global,
    row: &RowOfFault<'_>,
    fault: CellFault,
    own: usize,
) -> Result<FaultCause, AllocError> {
    let origin = fault_origin(alloc, row.cell, fault)?;
    let places = sources(alloc, row, origin)?;
    match places.as_slice().last() {
        None => FaultCause::none(alloc),
        Some(SourcePlace::Cell(place)) if *place == own => FaultCause::none(alloc),
        Some(source) => cause_of(alloc, row, source),
    }
}

impl<'r> FaultCauses<'r> {
    /// Starts before the first fault.
    pub(crate) fn new(table: TableAgain<'r>) -> FaultCauses<'r> {
        FaultCauses {
            table,
            row: None,
            first: None,
            rows: 0,
            last: 0,
        }
    }

    /// Makes the row of these records with this number, unless it is kept. So a row is copied once
    /// for all its faults.
    fn keep_row(&mut self, alloc: Global, cells: &RowAgain, number: u32) -> Result<(), AllocError> {
        let is_kept = match &self.row {
            Some(row) => row.number == number,
            None => false,
        };
        if !is_kept {
            self.row = Some(self.table.row_of(alloc, cells, number)?);
        }
        Ok(())
    }

    /// Returns the cause of a fault of these records, of which the row is kept and begins at this
    /// line.
    fn found(
        &self,
        alloc: Global,
        fault: &TableFault,
        cells: &RowAgain,
        line: Option<u64>,
    ) -> Result<FaultCause, AllocError> {
        let (TableKind::Cell(kind), Some(own)) = (fault.kind, place_in_record(fault)) else {
            return FaultCause::none(alloc);
        };
        let name = text_at(&cells.header, own).unwrap_or("");
        let Some(column) = self.table.place_of(name) else {
            return FaultCause::none(alloc);
        };
        let Some(row) = &self.row else {
            return FaultCause::none(alloc);
        };
        match RowOfFault::new(&self.table, row, column, cells, line) {
            Some(row) => cause_in(alloc, &row, kind, own),
            None => FaultCause::none(alloc),
        }
    }

    /// Counts the row of a fault if it has the cause of the first one, which is elsewhere.
    fn count(&mut self, row: u32, cause: &FaultCause) {
        if let Some(first) = &self.first {
            if row > self.last && !cause.file.as_str().is_empty() && is_same(first, cause) {
                self.rows = self.rows.saturating_add(1);
                self.last = row;
            }
        }
    }

    /// Returns the cause of the next fault of the table. It is of these records, of which the row
    /// begins at this line.
    pub(crate) fn next(
        &mut self,
        alloc: Global,
        fault: &TableFault,
        cells: &RowAgain,
        line: Option<u64>,
    ) -> Result<FaultCause, AllocError> {
        if let TableKind::Cell(_) = fault.kind {
            self.keep_row(alloc, cells, fault.row)?;
        }
        if self.first.is_none() {
            self.first = Some(self.found(alloc, fault, cells, line)?);
        }
        let cause = self.found(alloc, fault, cells, line)?;
        self.count(fault.row, &cause);
        Ok(cause)
    }
}
