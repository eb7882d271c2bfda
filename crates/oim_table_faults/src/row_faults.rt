//! The faults of the rows of a table, each after the earlier ones.

ghost use Rattle.std.specs.Prelude.{◌≡◌, [], IfOk, None, OnOk};
ghost use Rattle.oim_rows.specs.RowFacts.{id_place_of, ids_after, row_fault};
ghost use Rattle.oim_table_faults.specs.TableFaults.{alone_or, cell_faults, faults_of_row, ids_up_to};
ghost use Rattle.oim_table_faults.specs.state.Rows.{HaveSame, repeats};

use crate::cell_faults::faults_of_cells;
use crate::good_rows::GoodRows;
use oim_fast::TableRow;
use oim_names::Items;
use oim_records::RecordReader;
use oim_rows::{RowId, RowIds, TableFault, TableHeader, TableKind, fault_at_place};
use std::alloc::{AllocError, Global};
use std::io::Read;
use std::marker::Model;

/// What finds the faults of a table's rows: the header, and the identifiers of the earlier rows.
///
/// Contracts see both.
#[derive(Drop)]
pub(crate) struct RowFaults<'a> {
    alloc: Global,
    header: TableHeader<'a>,
    good: GoodRows<'a>,
    ids: RowIds,
    // Always empty: the fault of a row itself is looked for without identifiers, and its identifier
    // is compared with `ids` when it is added to them.
    no_ids: RowIds,
}

impl<'a> Model for RowFaults<'a> {
    ghost use Rattle.std.specs.Prelude.{◌≡◌, []};
    ghost use Rattle.oim_table_faults.specs.state.Rows.{EarlierRows};

    ghost Value = { EarlierRows };

    ghost view = { λ a. record { header = a.header; ids = a.ids } };

    ghost invariant = { λ a. (a.good ≡ a.header) × (a.no_ids ≡ []) };
}

/// Returns a list of one fault.
pub(crate) fn alone(alloc: Global, fault: TableFault) -> Result<Items<TableFault>, AllocError>
    ensures { IfOk result (λ faults. faults ≡ alone_or (Some fault) []) }
{
    let mut faults = Items::new(alloc);
    faults.push(fault)?;
    Ok(faults)
}

/// Adds the identifier of a row to `ids`, if its table has a column for it. Returns the fault of
/// the row if an earlier row has the identifier.
fn keep_id(
    alloc: Global,
    row: &TableRow<'_, '_>,
    ids: &mut RowIds,
) -> Result<Option<TableFault>, AllocError>
    ensures fault { IfOk result (λ fault. fault ≡ repeats row.now.header.table (id_place_of row.now.header) row.now.number ids.old row.now.fields) }
    ensures ids { OnOk result (HaveSame ids.new (ids_after (id_place_of row.now.header) ids.old row.now.fields)) }
{
    let Some(place) = row.header().id_place() else {
        return Ok(None);
    };
    if ids.add(RowId::new(alloc, row.text_at(Some(place)))?)? {
        return Ok(None);
    }
    Ok(Some(fault_at_place(row.table(), row.number(), place, TableKind::RepeatedRowId)))
}

impl<'a> RowFaults<'a> {
    /// Begins before the first row under a header.
    pub(crate) fn new(alloc: Global, header: TableHeader<'a>) -> Result<RowFaults<'a>, AllocError>
        ensures { IfOk result (λ rows. rows ≡ record { header = header.entry; ids = [] }) }
    {
        let good = GoodRows::new(alloc, &header)?;
        Ok(RowFaults {
            alloc,
            header,
            good,
            ids: RowIds::new(alloc),
            no_ids: RowIds::new(alloc),
        })
    }
}

impl RowFaults<'_> {
    /// Returns the place of the table in its report.
    pub(crate) fn table(&self) -> usize
        ensures { result ≡ (self.now).header.table }
    {
        self.header.table()
    }

    /// Returns the faults of the next row, which has this number and is the current record, and
    /// keeps its identifier.
    ///
    /// If memory runs out, the identifier may be kept.
    pub(crate) fn faults_of<R: Read + Drop>(
        &mut self,
        number: u32,
        records: &RecordReader<R>,
    ) -> Result<Items<TableFault>, AllocError>
        ensures faults { IfOk result (λ faults. faults ≡ faults_of_row self.old.header number self.old.ids records.now.fields) }
        ensures ids { OnOk result (HaveSame self.new.ids (ids_up_to self.old.header number self.old.ids records.now.fields)) }
        ensures same { self.new.header ≡ self.old.header }
    {
        let own = self.header.fault_of_record(number, &self.no_ids, records);
        if let Some(fault) = own {
            return alone(self.alloc, fault);
        }
        let Some(texts) = records.text_fields() else {
            unreachable!()
        };
        let row = TableRow::new(&self.header, number, &texts);
        if let Some(fault) = keep_id(self.alloc, &row, &mut self.ids)? {
            return alone(self.alloc, fault);
        }
        if self.good.writes(self.alloc, &row)? {
            return Ok(Items::new(self.alloc));
        }
        faults_of_cells(self.alloc, &row)
    }
}
